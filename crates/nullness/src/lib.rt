// Whether a required field of the target meets a place that can be null (document 02, L5, refusal 55). Nothing is
// built: each required place is followed through the plan to a column of the incoming layout or to a constant.
#![tactic(auto)]

pub mod column;
pub mod fill;
pub mod follow;
pub mod marks;
pub mod nulls;
pub mod stop;
