// A table of where the structs of a layout end, so that a type that was read before is passed over in one step.
#![tactic(auto)]

pub mod fill;
pub mod local;
pub mod plain;
pub mod skip;
pub mod table;
