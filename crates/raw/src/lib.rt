// A value of a record or of a constant as it stands: the number that a leaf is, and its bytes.
#![tactic(auto)]

pub mod copy;
pub mod leaf;
