// The table of defaults (document 01): reading it, and finding an id's default in one that was read.
#![tactic(auto)]

pub mod index;
pub mod lookup;
pub mod read;
pub mod types;
