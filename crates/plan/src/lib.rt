// Plans (document 01): selectors and their bytes, what the check and the run mean, reading a plan, and the answer of a
// call that writes.
#![tactic(auto)]

pub mod answer;
pub mod pass;
pub mod read;
pub mod skips;
