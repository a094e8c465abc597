// What travels together through a build, each a struct by value. Slices stay parameters of their own.
use defaults::lookup::DefaultFieldValues;
use layout::columns::{Label, Position};
use layout::cursor::Cursor;
use layout::edition::Edition;
use layout::matching::Matching;
use rules::policy::Policy;

// A build's unchanging part, with the editions of the two layouts; but inside elements there are no defaults.
#[derive(Clone, Copy)]
pub struct Build {
    pub policy: Policy,
    pub matching: Matching,
    pub incoming: Edition,
    pub target: Edition,
    pub defaults: DefaultFieldValues,
}

// What a selector takes, and where it is written.
#[derive(Clone, Copy)]
pub struct Place {
    pub position: Position,
    pub k: usize,
}

// Two types that are matched, with the depth left to each, and the place of the selector.
#[derive(Clone, Copy)]
pub struct Types {
    pub depth: u8,
    pub incoming: Cursor,
    pub target: Cursor,
    pub place: Place,
}

// The columns of a layout or the fields of a struct: how many, and where the first stands.
#[derive(Clone, Copy)]
pub struct Fields {
    pub count: u16,
    pub first: Cursor,
}

// A struct's fields that are matched over a type, with the depth left to the two types, and the place of the selector.
#[derive(Clone, Copy)]
pub struct FieldsOver {
    pub depth: u8,
    pub incoming: Cursor,
    pub target: Fields,
    pub place: Place,
}

// The columns that are matched, with the depth left to each, and where the selectors are written.
#[derive(Clone, Copy)]
pub struct Rows {
    pub depth: u8,
    pub incoming: Fields,
    pub target: Fields,
    pub k: usize,
}

// A column or an element: its label, and where its type stands.
#[derive(Clone, Copy)]
pub struct Column {
    pub label: Label,
    pub cursor: Cursor,
}

// Two columns or elements that are matched, with the depth left to each, and the place of the selector.
#[derive(Clone, Copy)]
pub struct Pair {
    pub depth: u8,
    pub incoming: Column,
    pub target: Column,
    pub place: Place,
}

// What becomes of a target column with no counterpart: a constant, or this refusal (14 in a struct, 11 at the top).
#[derive(Clone, Copy)]
pub struct Missing {
    pub insert: bool,
    pub number: u8,
}

// A target column whose counterpart is sought among incoming columns, with the length of their table, which is 0 where
// there is none, and where its selector is written.
#[derive(Clone, Copy)]
pub struct Sought {
    pub depth: u8,
    pub among: Fields,
    pub used: usize,
    pub column: Column,
    pub missing: Missing,
    pub k: usize,
}
