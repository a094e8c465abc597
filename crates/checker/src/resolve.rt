// Where the type of what a selector gives stands.
ghost use Rattle.std.specs.Prelude.{◌≡◌, ◌≤◌, length};
ghost use Rattle.std.proofs.Math.Seq.{slice};
ghost use Rattle.layout.specs.Tree.{DataType};
ghost use Rattle.index.specs.code.Indexed.{stride_of, Indexed};
ghost use Rattle.nodes.specs.code.Typed.{TypeIs};
ghost use Rattle.checker.specs.code.TypesAt.{ColumnAlong, TypedAt, StoppedAt, StopIs, Resolves};
ghost use Rattle.checker.specs.code.Tables.{Tables};

use index::columns::{indexed_column, stride_of};
use layout::columns::Position;
use layout::cursor::Cursor;
use layout::edition::Edition;
use layout::find::Found;
use nodes::types::type_at;
use walk::head::{SelectorHead, head, skip_by};
use walk::walk::Walk;

// Where the index of the incoming columns begins in the tables: behind where the plan's selectors end.
pub const INDEX: usize = 4608;

// In the incoming layout or in the plan, or it is made by a mapping.
#[derive(Clone, Copy)]
pub enum Source {
    Incoming,
    Plan,
    Mapped,
}

// Where the type begins; if a mapping makes it, the walk stands there, with no path left.
#[derive(Clone, Copy)]
pub struct Resolved {
    pub source: Source,
    pub at: Cursor,
    pub walk: Walk,
}

pub fn found_in(source: Source, at: Cursor, walk: Walk) -> Resolved
    ensures { result ≡ record { source = source; at = at; walk = walk } }
{
    Resolved { source, at, walk }
}

// Where a walk stops: a type in the incoming layout or in the plan, a rename or a mapping at the path's end.
#[derive(Clone, Copy)]
pub enum Stop {
    Incoming(Cursor),
    Plan(Cursor),
    Rename,
    Mapping,
}

// The type at the end of a path into the column `k` of the incoming layout.
fn in_column(
    incoming: &[u8],
    v: Edition,
    n: u16,
    k: Position,
    path: [u16; 64],
    from: usize,
    len: usize,
    index: &[u16],
) -> Cursor
    requires indexed { Indexed v incoming.now n 7 (stride_of n) index.now }
    requires column_along { (t : DataType) × ColumnAlong incoming.now v n k (slice from len path) t }
    requires from_le_len { (from ≤ len) × (len ≤ length path) }
    ensures { (t : DataType) → ColumnAlong incoming.now v n k (slice from len path) t → TypeIs v incoming.now result.at t }
{
    let columns = Cursor { at: 7 };
    match indexed_column(incoming, v, n, columns, index, stride_of(n), k) {
        Found::At(_, _, c) => type_at(incoming, v, c, path, from, len),
        Found::Absent => columns,
    }
}

// What stands where no move is left.
fn stopped(incoming: &[u8], v: Edition, n: u16, plan: &[u8], w: Walk, tables: &[u16]) -> Stop
    requires tables { Tables incoming.now v n plan.now tables.now }
    requires stopped_at { (t : DataType) × StoppedAt incoming.now v n plan.now w t }
    ensures { (t : DataType) → StoppedAt incoming.now v n plan.now w t → StopIs incoming.now v n plan.now w t result }
{
    let c = Cursor { at: w.at };
    let path = w.path;
    match head(plan, c) {
        SelectorHead::Position(k) => {
            Stop::Incoming(in_column(incoming, v, n, k, path, w.deep, w.len, &tables[INDEX..]))
        }
        SelectorHead::Constant(_, d) => {
            Stop::Plan(type_at(plan, Edition::One, d, path, w.deep, w.len))
        }
        SelectorHead::Cast(d) => {
            let e = skip_by(plan, d, tables);
            Stop::Plan(type_at(plan, Edition::One, e, path, w.deep, w.len))
        }
        SelectorHead::Rename(_) => Stop::Rename,
        SelectorHead::Struct(_) => Stop::Mapping,
        SelectorHead::List(_) => Stop::Mapping,
        SelectorHead::Array(_) => Stop::Mapping,
        SelectorHead::Refused => Stop::Mapping,
    }
}

pub fn resolve(
    incoming: &[u8],
    v: Edition,
    n: u16,
    plan: &[u8],
    w: Walk,
    tables: &[u16],
) -> Resolved
    requires tables { Tables incoming.now v n plan.now tables.now }
    requires typed_at { (t : DataType) × TypedAt incoming.now v n plan.now w t }
    ensures { (t : DataType) → TypedAt incoming.now v n plan.now w t → Resolves incoming.now v n plan.now w t result }
{
    let mut x = w;
    loop {
        let y = x.locate(plan, tables);
        match stopped(incoming, v, n, plan, y, tables) {
            Stop::Incoming(c) => return found_in(Source::Incoming, c, y),
            Stop::Plan(c) => return found_in(Source::Plan, c, y),
            Stop::Rename => {
                x = y.to_input();
            }
            Stop::Mapping => return found_in(Source::Mapped, Cursor { at: 0 }, y),
        }
    }
}
