// The check of a plan (document 01, "The check follows types"): the type of what a selector gives is looked at where it
// stands, in the incoming layout or in the plan, so nothing is built.
#![tactic(auto)]

pub mod cast;
pub mod each;
pub mod head;
pub mod limits;
pub mod name;
pub mod part;
pub mod place;
pub mod resolve;
pub mod same;
pub mod selector;
pub mod tops;
