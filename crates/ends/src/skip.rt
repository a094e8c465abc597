// Passing over what was read before, with a table of where structs end.
ghost use Rattle.std.specs.Prelude.{◌≡◌};
ghost use Rattle.layout.specs.code.Stands.{TypeAt, ColumnsAt};
ghost use Rattle.ends.specs.code.Ends.{Ends};

use crate::plain::plain_end;
use crate::table::{EndFound, find_end};
use layout::columns::Labelled;
use layout::cursor::Cursor;
use layout::edition::Edition;
use layout::types::Head;
use layout::walk::skip_type;

// The end of the struct that starts at `c`.
fn skip_struct(s: &[u8], v: Edition, depth: u8, c: Cursor, ends: &[u16]) -> Cursor
    requires type_at { TypeAt v depth s.now c.at }
    requires ends { Ends v s.now ends.now }
    ensures { (P : TypeAt v depth s.now c.at) → result.at ≡ P.end }
{
    match find_end(ends, c.at) {
        EndFound::At(end) => Cursor { at: end },
        EndFound::Unknown => skip_type(s, v, depth, c),
    }
}

// The end of a type: as `layout::walk::skip_type`. A list ends where its element does.
pub fn skip_type_by(s: &[u8], v: Edition, depth: u8, c: Cursor, ends: &[u16]) -> Cursor
    requires type_at { TypeAt v depth s.now c.at }
    requires ends { Ends v s.now ends.now }
    ensures { (P : TypeAt v depth s.now c.at) → result.at ≡ P.end }
{
    match plain_end(s, c) {
        EndFound::At(end) => return Cursor { at: end },
        EndFound::Unknown => {}
    }
    match c.head(s) {
        Head::Leaf(_, d) => d,
        Head::Struct(_, _) => skip_struct(s, v, depth, c, ends),
        Head::List(d) => match d.element_label(s, v) {
            Labelled::Is(_, e) => skip_type_by(s, v, depth - 1, e, ends),
            Labelled::Refused(_) => c,
        },
        Head::Array(_, d) => match d.element_label(s, v) {
            Labelled::Is(_, e) => skip_type_by(s, v, depth - 1, e, ends),
            Labelled::Refused(_) => c,
        },
        Head::Refused(_) => c,
    }
}

// The end of `n` columns.
pub fn skip_columns_by(s: &[u8], v: Edition, depth: u8, n: u16, c: Cursor, ends: &[u16]) -> Cursor
    requires columns_at { ColumnsAt v depth s.now n c.at }
    requires ends { Ends v s.now ends.now }
    ensures { (P : ColumnsAt v depth s.now n c.at) → result.at ≡ P.end }
{
    let mut d = c;
    let mut i: u16 = 0;
    while i < n {
        match d.label(s, v) {
            Labelled::Is(_, e) => {
                d = skip_type_by(s, v, depth, e, ends);
            }
            Labelled::Refused(_) => return c,
        }
        i += 1;
    }
    d
}
