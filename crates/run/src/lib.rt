// Running a plan over a record (document 01, "Running"): the check, the record, 44, 45, the output.
#![tactic(auto)]

pub mod read;
pub mod run;
pub mod single_pass;
pub mod tops;
