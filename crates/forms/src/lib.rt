// The version 1 form of a type (document 01): writing it, and comparing types with ids and element names dropped.
#![tactic(auto)]

pub mod compare;
pub mod head;
pub mod write;
