// The type matcher and the field matcher (document 01, "Matching"), under the names of source 000.
#![tactic(auto)]

pub mod attach;
