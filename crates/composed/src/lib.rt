// The run of a plan in one pass, top selector by top selector. The input of a transform that is a transform itself is
// written out, type and value, and serves as layout and record of the transform over it.
#![tactic(auto)]

pub mod compose;
pub mod top;
pub mod whole;
