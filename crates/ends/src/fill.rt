// Filling the table, in one pass over columns that were read before.
ghost use Rattle.std.specs.Prelude.{◌≡◌, length};
ghost use Rattle.layout.specs.code.Stands.{TypeAt, ColumnsAt};
ghost use Rattle.ends.specs.code.Ends.{Ends};

use crate::plain::plain_end;
use crate::table::{EndFound, keep_end};
use layout::columns::Labelled;
use layout::cursor::Cursor;
use layout::edition::Edition;
use layout::types::Head;

// The end of a type; the ends of the structs in it are kept.
#[cycle(fill_columns_fill_type)]
pub fn fill_type(s: &[u8], v: Edition, depth: u8, c: Cursor, ends: &mut [u16; 4098]) -> Cursor
    requires type_at { TypeAt v depth s.now c.at }
    requires ends { Ends v s.now ends.old }
    ensures at_value { (P : TypeAt v depth s.now c.at) → result.at ≡ P.end }
    ensures ends_2 { Ends v s.now ends.new }
    ensures ends_len_unchanged { length ends.new ≡ length ends.old }
{
    match plain_end(s, c) {
        EndFound::At(end) => return Cursor { at: end },
        EndFound::Unknown => {}
    }
    match c.head(s) {
        Head::Leaf(_, d) => d,
        Head::Struct(n, d) => {
            let e = fill_columns(s, v, depth - 1, n, d, ends);
            keep_end(ends, c.at, e.at);
            e
        }
        Head::List(d) => match d.element_label(s, v) {
            Labelled::Is(_, e) => fill_type(s, v, depth - 1, e, ends),
            Labelled::Refused(_) => c,
        },
        Head::Array(_, d) => match d.element_label(s, v) {
            Labelled::Is(_, e) => fill_type(s, v, depth - 1, e, ends),
            Labelled::Refused(_) => c,
        },
        Head::Refused(_) => c,
    }
}

// The end of `n` columns; the ends of the structs in them are kept.
#[cycle(fill_columns_fill_type)]
pub fn fill_columns(
    s: &[u8],
    v: Edition,
    depth: u8,
    n: u16,
    c: Cursor,
    ends: &mut [u16; 4098],
) -> Cursor
    requires columns_at { ColumnsAt v depth s.now n c.at }
    requires ends { Ends v s.now ends.old }
    ensures at_value { (P : ColumnsAt v depth s.now n c.at) → result.at ≡ P.end }
    ensures ends_2 { Ends v s.now ends.new }
    ensures ends_len_unchanged { length ends.new ≡ length ends.old }
{
    let mut d = c;
    let mut i: u16 = 0;
    while i < n {
        match d.label(s, v) {
            Labelled::Is(_, e) => {
                d = fill_type(s, v, depth, e, ends);
            }
            Labelled::Refused(_) => return c,
        }
        i += 1;
    }
    d
}
