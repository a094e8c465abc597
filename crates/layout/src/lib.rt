// Layouts (document 01): the byte cursor, leaf types, types and columns, reading a layout, and walking over one that
// was read.
#![tactic(auto)]

pub mod bytes;
pub mod columns;
pub mod cursor;
pub mod edition;
pub mod find;
pub mod leaf;
pub mod limits;
pub mod matching;
pub mod parts;
pub mod pass;
pub mod read;
pub mod seen;
pub mod types;
pub mod walk;
