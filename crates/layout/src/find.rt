// Looking a column up among its siblings: its position, its label and where its type stands. Hash lookups become scans.
ghost use Rattle.std.specs.Prelude.{◌≡◌};
ghost use Rattle.layout.specs.code.Answers.{label_at, SpanIn};
ghost use Rattle.layout.specs.Find.{column_named, column_of_id, column_at, counterpart, find_from};
ghost use Rattle.layout.specs.code.Finding.{wanted_by, Finds};
ghost use Rattle.layout.specs.code.Stands.{ColumnsAt};

use crate::bytes::same_bytes;
use crate::columns::{FieldId, Label, Labelled, Position};
use crate::cursor::{Cursor, Moved};
use crate::edition::Edition;
use crate::matching::Matching;
use crate::pass::{pass_columns, pass_type};

#[derive(Clone, Copy)]
pub enum Found {
    At(Position, Label, Cursor),
    Absent,
}

// A name stands beside it, as a slice.
#[derive(Clone, Copy)]
pub enum Wanted {
    Name,
    Id(FieldId),
}

fn is_wanted(s: &[u8], wanted: Wanted, name: &[u8], l: Label) -> bool
    requires { SpanIn s.now l.name }
    ensures { result ≡ wanted_by wanted name.now (label_at s.now l) }
{
    match wanted {
        Wanted::Name => {
            let a = l.name.start;
            same_bytes(&s[a..a + l.name.len], name)
        }
        Wanted::Id(id) => l.id.0 == id.0,
    }
}

// The first of `n` columns from a cursor that is wanted.
pub fn find_column(
    s: &[u8],
    v: Edition,
    depth: u8,
    n: u16,
    c: Cursor,
    wanted: Wanted,
    name: &[u8],
) -> Found
    requires { ColumnsAt v depth s.now n c.at }
    ensures { (P : ColumnsAt v depth s.now n c.at) → Finds v depth s.now (find_from (λ i. wanted_by wanted name.now) 0 P.columns) result }
{
    let mut d = c;
    let mut i: u16 = 0;
    while i < n {
        match d.label(s, v) {
            Labelled::Is(l, next) => {
                if is_wanted(s, wanted, name, l) {
                    return Found::At(Position(i), l, next);
                }
                match pass_type(s, v, depth, next) {
                    Moved::To(e) => d = e,
                    Moved::Refused(_) => return Found::Absent,
                }
            }
            Labelled::Refused(_) => return Found::Absent,
        }
        i += 1;
    }
    Found::Absent
}

pub fn column_named(s: &[u8], v: Edition, depth: u8, n: u16, c: Cursor, name: &[u8]) -> Found
    requires { ColumnsAt v depth s.now n c.at }
    ensures { (P : ColumnsAt v depth s.now n c.at) → Finds v depth s.now (column_named name.now P.columns) result }
{
    find_column(s, v, depth, n, c, Wanted::Name, name)
}

pub fn column_of_id(s: &[u8], v: Edition, depth: u8, n: u16, c: Cursor, id: FieldId) -> Found
    requires { ColumnsAt v depth s.now n c.at }
    ensures { (P : ColumnsAt v depth s.now n c.at) → Finds v depth s.now (column_of_id id P.columns) result }
{
    find_column(s, v, depth, n, c, Wanted::Id(id), &s[..0])
}

// Among `n` columns, the one of the name of the label `l`, which stands in `t`; by number, of its id.
pub fn find_counterpart(
    s: &[u8],
    v: Edition,
    how: Matching,
    depth: u8,
    n: u16,
    c: Cursor,
    t: &[u8],
    l: Label,
) -> Found
    requires columns_at { ColumnsAt v depth s.now n c.at }
    requires span_in { SpanIn t.now l.name }
    ensures { (P : ColumnsAt v depth s.now n c.at) → Finds v depth s.now (counterpart how (label_at t.now l) P.columns) result }
{
    match how {
        Matching::ByName => {
            let a = l.name.start;
            column_named(s, v, depth, n, c, &t[a..a + l.name.len])
        }
        Matching::ByNumber => column_of_id(s, v, depth, n, c, l.id),
    }
}

pub fn column_at(s: &[u8], v: Edition, depth: u8, n: u16, c: Cursor, k: Position) -> Found
    requires { ColumnsAt v depth s.now n c.at }
    ensures { (P : ColumnsAt v depth s.now n c.at) → Finds v depth s.now (column_at k P.columns) result }
{
    if n <= k.0 {
        return Found::Absent;
    }
    match pass_columns(s, v, depth, k.0, c) {
        Moved::To(d) => match d.label(s, v) {
            Labelled::Is(l, next) => Found::At(k, l, next),
            Labelled::Refused(_) => Found::Absent,
        },
        Moved::Refused(_) => Found::Absent,
    }
}
