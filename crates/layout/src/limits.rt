// The limits of document 01; specs/Limits.antt has the same numbers.

// The bytes of a layout, of a type in version 1 form, of a record, of a table of defaults and of an output.
pub const LONGEST: usize = 16384;

// The bytes of a plan.
pub const LONGEST_PLAN: usize = 65536;

// The bytes of a name or a zone.
pub const LONGEST_NAME: u8 = 63;

// The levels of a type.
pub const DEEPEST: u8 = 16;

// The levels of a selector.
pub const DEEPEST_SELECTOR: u8 = 64;
