// Walking through the selectors of a plan that was read.
#![tactic(auto)]

pub mod child;
pub mod head;
pub mod inputs;
pub mod walk;
