// Tables of where every stride-th column of a row stands, so that a column is found without passing over all before it.
#![tactic(auto)]

pub mod columns;
pub mod row;
