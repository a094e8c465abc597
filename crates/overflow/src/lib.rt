// Whether a strict cast overflows anywhere in the output of a plan, without visiting the output.
#![tactic(auto)]

pub mod overflows;
pub mod scan;
pub mod seek;
pub mod stop;
pub mod want;
