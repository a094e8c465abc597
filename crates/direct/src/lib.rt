// The check of plans as builders write them, in one pass: a transform's input is a position of its scope. A selector of
// any other form stays unknown, and the general check decides.
#![tactic(auto)]

pub mod cast;
pub mod fit;
pub mod input;
pub mod inside;
pub mod place;
pub mod scope;
