// The run of a plan whose transforms take columns, in one pass over the plan. What it does not settle is left to the
// general way.
#![tactic(auto)]

pub mod casts;
pub mod chain;
pub mod leaf;
pub mod opened;
pub mod origin;
pub mod row;
