// Reading a value whose type stands in the same bytes, in version 1 form, as a constant's does.
ghost use Rattle.std.specs.Prelude.{◌≡◌};
ghost use Rattle.layout.specs.Tree.{dtype_of};
ghost use Rattle.layout.specs.code.Stands.{TypeAt};
ghost use Rattle.layout.specs.declared.edition.Edition.{Edition as EditionOf};
ghost use Rattle.values.specs.Reading.{value};
ghost use Rattle.values.specs.code.Answers.{value_moved};

use crate::read::{ValueRead, read_value};
use ends::local::fill_local;
use layout::cursor::Cursor;
use layout::edition::Edition;
use layout::limits::DEEPEST;

// Whether a table of where structs end pays for the value at `c` of the type at `t`, which ends at `end`: it is cleared
// in the time of a pass over some thirty bytes of a type. Nothing rests on it but the time that is needed.
pub fn needs_table(s: &[u8], t: Cursor, end: Cursor, c: Cursor) -> bool {
    let at = c.at;
    if end.at < t.at {
        return false;
    }
    if end.at - t.at < 24 {
        return false;
    }
    if s.len() <= at {
        return false;
    }
    s[at] == 1
}

// The value at `c` of the type at `t`, which ends at `end`: a null or an empty list passes over a struct in one step.
fn read_by_table(s: &[u8], t: Cursor, end: Cursor, c: Cursor) -> ValueRead
    requires { TypeAt EditionOf.One 16 s.now t.at }
    ensures { (P : TypeAt EditionOf.One 16 s.now t.at) → result ≡ value_moved P.end (value (dtype_of P.tree) s.now c.at) }
{
    let mut ends = [0u16; 4098];
    fill_local(s, Edition::One, DEEPEST, t, end, &mut ends);
    read_value(s, Edition::One, DEEPEST, t, s, c, &ends)
}

// The value at `c` of the type at `t`, which ends at `end`.
pub fn read_constant_value(s: &[u8], t: Cursor, end: Cursor, c: Cursor) -> ValueRead
    requires { TypeAt EditionOf.One 16 s.now t.at }
    ensures { (P : TypeAt EditionOf.One 16 s.now t.at) → result ≡ value_moved P.end (value (dtype_of P.tree) s.now c.at) }
{
    if needs_table(s, t, end, c) {
        return read_by_table(s, t, end, c);
    }
    let none: [u16; 1] = [0; 1];
    read_value(s, Edition::One, DEEPEST, t, s, c, &none[..0])
}
