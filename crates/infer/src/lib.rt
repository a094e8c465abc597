// The type that a selector gives, written out in version 1 form, so that it can serve as the layout of what is over it.
#![tactic(auto)]

pub mod compose;
pub mod form;
pub mod name;
pub mod over;
pub mod target;
