// What a present number of one leaf kind becomes in another, and its bytes.
#![tactic(auto)]

pub mod leaf;
pub mod put;
