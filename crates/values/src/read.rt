// Reading values by their types alone, as constants and defaults are read: no column is required.
ghost use Rattle.std.specs.Prelude.{◌≡◌};
ghost use Rattle.layout.specs.Tree.{dtype_of, fields_of};
ghost use Rattle.layout.specs.code.Stands.{TypeAt, ColumnsAt};
ghost use Rattle.layout.specs.code.Answers.{moved_of};
ghost use Rattle.ends.specs.code.Ends.{Ends};
ghost use Rattle.values.specs.Reading.{value, values, times};
ghost use Rattle.values.specs.code.Answers.{value_moved};

use crate::marked::{Context, marked_element, marked_elements, marked_fields, marked_value};
use layout::cursor::{Cursor, Moved};
use layout::edition::Edition;

// Where the type ends and where the value ends.
#[derive(Clone, Copy)]
pub enum ValueRead {
    To(Cursor, Cursor),
    Refused(u8),
}

pub fn read_value(
    lay: &[u8],
    v: Edition,
    depth: u8,
    t: Cursor,
    rec: &[u8],
    c: Cursor,
    ends: &[u16],
) -> ValueRead
    requires type_at { TypeAt v depth lay.now t.at }
    requires ends { Ends v lay.now ends.now }
    ensures { (P : TypeAt v depth lay.now t.at) → result ≡ value_moved P.end (value (dtype_of P.tree) rec.now c.at) }
{
    let cx = Context {
        edition: v,
        depth,
        marks: false,
    };
    marked_value(lay, cx, false, t, rec, c, ends)
}

// A value for each of `n` columns.
pub fn read_fields(
    lay: &[u8],
    v: Edition,
    depth: u8,
    n: u16,
    t: Cursor,
    rec: &[u8],
    c: Cursor,
    ends: &[u16],
) -> ValueRead
    requires columns_at { ColumnsAt v depth lay.now n t.at }
    requires ends { Ends v lay.now ends.now }
    ensures { (P : ColumnsAt v depth lay.now n t.at) → result ≡ value_moved P.end (values (fields_of P.columns) rec.now c.at) }
{
    let cx = Context {
        edition: v,
        depth,
        marks: false,
    };
    marked_fields(lay, cx, n, t, rec, c, ends)
}

// One element, whose type is not passed.
pub fn read_element(
    lay: &[u8],
    v: Edition,
    depth: u8,
    t: Cursor,
    rec: &[u8],
    c: Cursor,
    ends: &[u16],
) -> Moved
    requires type_at { TypeAt v depth lay.now t.at }
    requires ends { Ends v lay.now ends.now }
    ensures { (P : TypeAt v depth lay.now t.at) → result ≡ moved_of (value (dtype_of P.tree) rec.now c.at) }
{
    let cx = Context {
        edition: v,
        depth,
        marks: false,
    };
    marked_element(lay, cx, false, t, rec, c, ends)
}

// `n` values of one type.
pub fn read_elements(
    lay: &[u8],
    v: Edition,
    depth: u8,
    n: u32,
    t: Cursor,
    rec: &[u8],
    c: Cursor,
    ends: &[u16],
) -> ValueRead
    requires type_at { TypeAt v depth lay.now t.at }
    requires ends { Ends v lay.now ends.now }
    ensures { (P : TypeAt v depth lay.now t.at) → result ≡ value_moved P.end (times n (value (dtype_of P.tree)) rec.now c.at) }
{
    let cx = Context {
        edition: v,
        depth,
        marks: false,
    };
    marked_elements(lay, cx, false, n, t, rec, c, ends)
}
