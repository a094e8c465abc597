// Leaf pairs: which cast, if any, takes an incoming leaf type to a target leaf type under a policy.
#![tactic(auto)]

pub mod kinds;
pub mod lossless;
pub mod outcome;
pub mod pair;
pub mod params;
pub mod policy;
pub mod table;
pub mod zones;
