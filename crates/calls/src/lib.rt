// The two calls (document 01, "Building by name" and "Building by number").
#![tactic(auto)]

pub mod build;
pub mod columns;
pub mod extra;
pub mod layouts;
pub mod write;
