// What the matchers are made of (document 01, "Matching"), under the names of source 000.
#![tactic(auto)]

pub mod answer;
pub mod build;
pub mod conditions;
pub mod default;
pub mod fields;
pub mod leaf;
pub mod parts;
pub mod write;
