// Layouts, tables of defaults and records as lines of text. What is written was read before by the readers of the
// library, so that no reader refuses here; a function that meets a refusal all the same stops.
#![tactic(auto)]

pub mod columns;
pub mod records;
pub mod tables;
pub mod types;
