// The node of a value at a path, in the bytes of a record or of a constant. A node is where its type and its value
// begin.
ghost use Rattle.std.specs.Prelude.{◌≡◌, ◌≤◌, length};
ghost use Rattle.std.proofs.Math.Seq.{slice};
ghost use Rattle.ends.specs.code.Ends.{Ends};
ghost use Rattle.plan.specs.Run.{value_at};
ghost use Rattle.walk.specs.code.Values.{value_node};
ghost use Rattle.nodes.specs.code.Raw.{RawAt, RowAt, ElementsAt, ListOf, PresentAt, NodeOf, part_at, parts_of};

use layout::columns::Labelled;
use layout::cursor::{Cursor, Short};
use layout::edition::Edition;
use layout::limits::DEEPEST;
use layout::parts::TypeParts;
use layout::types::Head;
use values::leaf::{Presence, read_presence};
use values::read::{ValueRead, read_elements, read_fields};

// Null where there is no such node; else its type and its value.
#[derive(Clone, Copy)]
pub enum NodeAt {
    Null,
    At(Cursor, Cursor),
}

// The number of fields or elements; none for a null or a leaf.
#[derive(Clone, Copy)]
pub enum Parts {
    None,
    Some(u32),
}

// The value of column `k` of `n`, whose values stand from a cursor on.
pub fn field_at(
    lay: &[u8],
    v: Edition,
    n: u16,
    columns: Cursor,
    rec: &[u8],
    c: Cursor,
    k: u16,
    ends: &[u16],
) -> NodeAt
    requires row_at { RowAt v lay.now n columns.at rec.now c.at }
    requires ends { Ends v lay.now ends.now }
    ensures { (X : RowAt v lay.now n columns.at rec.now c.at) → NodeOf v lay.now rec.now (value_at X.values.values k) result }
{
    if n <= k {
        return NodeAt::Null;
    }
    match read_fields(lay, v, DEEPEST, k, columns, rec, c, ends) {
        ValueRead::To(t, d) => match t.label(lay, v) {
            Labelled::Is(_, e) => NodeAt::At(e, d),
            Labelled::Refused(_) => NodeAt::Null,
        },
        ValueRead::Refused(_) => NodeAt::Null,
    }
}

// Element `k` of `n`.
fn element_at(
    lay: &[u8],
    v: Edition,
    n: u32,
    t: Cursor,
    rec: &[u8],
    c: Cursor,
    k: u16,
    ends: &[u16],
) -> NodeAt
    requires elements_at { ElementsAt v lay.now n t.at rec.now c.at }
    requires ends { Ends v lay.now ends.now }
    ensures { (X : ElementsAt v lay.now n t.at rec.now c.at) → NodeOf v lay.now rec.now (value_at X.values.values k) result }
{
    let i = k as u32;
    if n <= i {
        return NodeAt::Null;
    }
    match read_elements(lay, v, DEEPEST, i, t, rec, c, ends) {
        ValueRead::To(_, d) => NodeAt::At(t, d),
        ValueRead::Refused(_) => NodeAt::Null,
    }
}

// Element `k` of a list that is present, from its count on.
fn list_element(
    lay: &[u8],
    v: Edition,
    t: Cursor,
    rec: &[u8],
    c: Cursor,
    k: u16,
    ends: &[u16],
) -> NodeAt
    requires list_of { ListOf v lay.now t.at rec.now c.at }
    requires ends { Ends v lay.now ends.now }
    ensures { (X : ListOf v lay.now t.at rec.now c.at) → NodeOf v lay.now rec.now (part_at X.content.tree k) result }
{
    match c.short(rec) {
        Short::Is(n, d) => element_at(lay, v, n as u32, t, rec, d, k, ends),
        Short::Refused(_) => NodeAt::Null,
    }
}

// Field or element `k` of a value that is present.
fn present_part(
    lay: &[u8],
    v: Edition,
    t: Cursor,
    rec: &[u8],
    c: Cursor,
    k: u16,
    ends: &[u16],
) -> NodeAt
    requires present_at { PresentAt v lay.now t.at rec.now c.at }
    requires ends { Ends v lay.now ends.now }
    ensures { (X : PresentAt v lay.now t.at rec.now c.at) → NodeOf v lay.now rec.now (part_at X.content.tree k) result }
{
    match t.parts(lay, v) {
        TypeParts::Leaf(_, _) => NodeAt::Null,
        TypeParts::Struct(n, e) => field_at(lay, v, n, e, rec, c, k, ends),
        TypeParts::List(_, e) => list_element(lay, v, e, rec, c, k, ends),
        TypeParts::Array(w, _, e) => element_at(lay, v, w, e, rec, c, k, ends),
        TypeParts::Refused(_) => NodeAt::Null,
    }
}

// Field or element `k` of a value; a null and a leaf have none.
fn part_at(lay: &[u8], v: Edition, t: Cursor, rec: &[u8], c: Cursor, k: u16, ends: &[u16]) -> NodeAt
    requires raw_at { RawAt v lay.now t.at rec.now c.at }
    requires ends { Ends v lay.now ends.now }
    ensures { (X : RawAt v lay.now t.at rec.now c.at) → NodeOf v lay.now rec.now (part_at X.value.tree k) result }
{
    match read_presence(rec, c) {
        Presence::Null(_) => NodeAt::Null,
        Presence::Present(d) => present_part(lay, v, t, rec, d, k, ends),
        Presence::Refused(_) => NodeAt::Null,
    }
}

// The node at a path.
pub fn value_at(
    lay: &[u8],
    v: Edition,
    t: Cursor,
    rec: &[u8],
    c: Cursor,
    path: [u16; 64],
    from: usize,
    len: usize,
    ends: &[u16],
) -> NodeAt
    requires raw_at { RawAt v lay.now t.at rec.now c.at }
    requires from_le_len { (from ≤ len) × (len ≤ length path) }
    requires ends { Ends v lay.now ends.now }
    ensures { (X : RawAt v lay.now t.at rec.now c.at) → NodeOf v lay.now rec.now (value_node X.value.tree (slice from len path)) result }
{
    let mut u = t;
    let mut d = c;
    let mut i = from;
    while i < len {
        match part_at(lay, v, u, rec, d, path[i], ends) {
            NodeAt::At(e, f) => {
                u = e;
                d = f;
            }
            NodeAt::Null => return NodeAt::Null,
        }
        i += 1;
    }
    NodeAt::At(u, d)
}

// The number of parts of a value that is present.
fn present_parts(lay: &[u8], v: Edition, t: Cursor, rec: &[u8], c: Cursor) -> Parts
    requires { PresentAt v lay.now t.at rec.now c.at }
    ensures { (X : PresentAt v lay.now t.at rec.now c.at) → result ≡ parts_of X.content.tree }
{
    match t.head(lay) {
        Head::Leaf(_, _) => Parts::None,
        Head::Struct(n, _) => Parts::Some(n as u32),
        Head::List(_) => match c.short(rec) {
            Short::Is(n, _) => Parts::Some(n as u32),
            Short::Refused(_) => Parts::None,
        },
        Head::Array(w, _) => Parts::Some(w),
        Head::Refused(_) => Parts::None,
    }
}

pub fn parts_at(lay: &[u8], v: Edition, t: Cursor, rec: &[u8], c: Cursor) -> Parts
    requires { RawAt v lay.now t.at rec.now c.at }
    ensures { (X : RawAt v lay.now t.at rec.now c.at) → result ≡ parts_of X.value.tree }
{
    match read_presence(rec, c) {
        Presence::Null(_) => Parts::None,
        Presence::Present(d) => present_parts(lay, v, t, rec, d),
        Presence::Refused(_) => Parts::None,
    }
}

// The value of a record's column `k`, of `n`.
pub fn column_value(
    lay: &[u8],
    v: Edition,
    n: u16,
    columns: Cursor,
    rec: &[u8],
    k: u16,
    ends: &[u16],
) -> NodeAt
    requires row_at { RowAt v lay.now n columns.at rec.now 0 }
    requires ends { Ends v lay.now ends.now }
    ensures { (X : RowAt v lay.now n columns.at rec.now 0) → NodeOf v lay.now rec.now (value_at X.values.values k) result }
{
    field_at(lay, v, n, columns, rec, Cursor { at: 0 }, k, ends)
}
