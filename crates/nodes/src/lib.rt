// What stands at a path: the type there, and the value there.
#![tactic(auto)]

pub mod places;
pub mod raw;
pub mod types;
