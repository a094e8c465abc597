// The output of a plan over a record, written with work that is bounded by the limit of its length.
#![tactic(auto)]

pub mod casts;
pub mod emit;
pub mod leaf;
pub mod parts;
pub mod source;
pub mod write;
