// Tests of a struct's fields.
ghost use Rattle.std.specs.Prelude.{◌≡◌, not, ◌≤◌, ◌<◌, length, take};
ghost use Rattle.layout.specs.code.Answers.{span_at, SpanIn, label_at};
ghost use Rattle.layout.specs.Find.{column_named};
ghost use Rattle.layout.specs.code.Stands.{ColumnsAt};
ghost use Rattle.labels.specs.code.LabelTable.{Table};
ghost use Rattle.matching.specs.Build.{is_absent, distinct_names, distinct as distinctBy};
ghost use Rattle.builder.specs.code.Bundles.{TableOf, RowsAt, HasCounterpart, NoExtra};

use crate::build::{Build, Fields, Rows};
use labels::{SiblingColumns, fill_in, find_in};
use layout::bytes::Span;
use layout::columns::{Label, Labelled, Siblings};
use layout::cursor::{Cursor, Moved};
use layout::edition::Edition;
use layout::find::{Found, column_named};
use layout::matching::Matching;
use layout::read::read_columns;
use layout::seen::clear_slots;
use layout::walk::skip_type;

// Whether one of `n` columns has a name, which stands in `t`.
fn name_among(s: &[u8], v: Edition, depth: u8, n: u16, c: Cursor, t: &[u8], name: Span) -> bool
    requires columns_at { ColumnsAt v depth s.now n c.at }
    requires span_in { SpanIn t.now name }
    ensures { (P : ColumnsAt v depth s.now n c.at) → result ≡ not (is_absent (column_named (span_at t.now name) P.columns)) }
{
    let a = name.start;
    match column_named(s, v, depth, n, c, &t[a..a + name.len]) {
        Found::At(_, _, _) => true,
        Found::Absent => false,
    }
}

// No name is repeated among a few columns: each is looked for among those after it.
fn distinct_few(s: &[u8], v: Edition, depth: u8, n: u16, c: Cursor) -> bool
    requires { ColumnsAt v depth s.now n c.at }
    ensures { (P : ColumnsAt v depth s.now n c.at) → result ≡ distinct_names P.columns }
{
    let mut d = c;
    let mut left = n;
    while 0 < left {
        match d.label(s, v) {
            Labelled::Is(l, next) => {
                let e = skip_type(s, v, depth, next);
                let name = l.name;
                if name_among(s, v, depth, left - 1, e, s, name) {
                    return false;
                }
                d = e;
            }
            Labelled::Refused(_) => return false,
        }
        left -= 1;
    }
    true
}

// No name is repeated among `n` columns. Many are read again under the rule of names, which is the reader's own test of
// siblings, with its table in the arena.
pub fn distinct_names(s: &[u8], v: Edition, depth: u8, n: u16, c: Cursor, arena: &mut [u16]) -> bool
    requires { ColumnsAt v depth s.now n c.at }
    ensures { (P : ColumnsAt v depth s.now n c.at) → result ≡ distinct_names P.columns }
{
    if n <= 8 {
        return distinct_few(s, v, depth, n, c);
    }
    let slots = clear_slots(n, arena);
    match read_columns(
        s,
        v,
        Siblings::Names,
        Siblings::Free,
        depth,
        n,
        c,
        &mut arena[..slots],
    ) {
        Moved::To(_) => true,
        Moved::Refused(_) => false,
    }
}

// Test 12: by number a struct has none.
pub fn distinct(
    how: Matching,
    s: &[u8],
    v: Edition,
    depth: u8,
    n: u16,
    c: Cursor,
    arena: &mut [u16],
) -> bool
    requires { ColumnsAt v depth s.now n c.at }
    ensures { (P : ColumnsAt v depth s.now n c.at) → result ≡ distinctBy how P.columns }
{
    match how {
        Matching::ByName => distinct_names(s, v, depth, n, c, arena),
        Matching::ByNumber => true,
    }
}

// Where so many labels will be looked up, a table of these fields at the start of the arena; its length, or 0.
pub fn fill_fields(
    how: Matching,
    v: Edition,
    depth: u8,
    s: &[u8],
    fields: Fields,
    wanted: u16,
    arena: &mut [u16],
) -> usize
    ensures upper_bound { result ≤ length arena.new }
    ensures table { 0 < result → Table v how depth s.now fields.count fields.first.at (take result arena.new) }
{
    let first = fields.first;
    let columns = SiblingColumns {
        edition: v,
        matching: how,
        depth,
        count: fields.count,
        first,
    };
    fill_in(wanted, s, columns, arena)
}

// Whether the incoming label `l` has a counterpart among these target fields. `chains` is their table, or empty.
pub fn has_counterpart(
    build: Build,
    depth: u8,
    target: &[u8],
    fields: Fields,
    chains: &[u16],
    incoming: &[u8],
    l: Label,
) -> bool
    requires columns_at { ColumnsAt build.target depth target.now fields.count fields.first.at }
    requires table_of { 0 < length chains.now → TableOf build build.target depth target.now fields chains.now }
    requires span_in { SpanIn incoming.now l.name }
    ensures { HasCounterpart build depth target.now fields (label_at incoming.now l) result }
{
    let matching = build.matching;
    let edition = build.target;
    let first = fields.first;
    let columns = SiblingColumns {
        edition,
        matching,
        depth,
        count: fields.count,
        first,
    };
    match find_in(target, columns, chains, incoming, l) {
        Found::At(_, _, _) => true,
        Found::Absent => false,
    }
}

// Each incoming field has a counterpart among the target's. `chains` is a table of these, or empty.
fn no_extra_in(build: Build, incoming: &[u8], target: &[u8], rows: Rows, chains: &[u16]) -> bool
    requires rows_at { RowsAt build rows incoming.now target.now }
    requires table_of { 0 < length chains.now → TableOf build build.target rows.depth target.now rows.target chains.now }
    ensures { NoExtra build rows incoming.now target.now result }
{
    let v = build.incoming;
    let fields = rows.target;
    let mut c = rows.incoming.first;
    let mut left = rows.incoming.count;
    while 0 < left {
        match c.label(incoming, v) {
            Labelled::Is(l, next) => {
                if !has_counterpart(build, rows.depth, target, fields, chains, incoming, l) {
                    return false;
                }
                c = skip_type(incoming, v, rows.depth, next);
            }
            Labelled::Refused(_) => return false,
        }
        left -= 1;
    }
    true
}

// Test 13: each incoming field has a counterpart among the target's. A table of these stands in the arena while it
// runs.
pub fn no_extra(build: Build, incoming: &[u8], target: &[u8], rows: Rows, arena: &mut [u16]) -> bool
    requires { RowsAt build rows incoming.now target.now }
    ensures { NoExtra build rows incoming.now target.now result }
{
    let how = build.matching;
    let v = build.target;
    let fields = rows.target;
    let count = rows.incoming.count;
    let used = fill_fields(how, v, rows.depth, target, fields, count, arena);
    no_extra_in(build, incoming, target, rows, &arena[..used])
}
