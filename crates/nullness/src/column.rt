// Whether a place of an incoming column is required.
ghost use Rattle.std.specs.Prelude.{true, ◌≡◌, ◌≤◌, length};
ghost use Rattle.std.proofs.Math.Seq.{slice};
ghost use Rattle.layout.specs.code.Stands.{TypeAt};
ghost use Rattle.layout.specs.Limits.{deepest};
ghost use Rattle.plan.specs.Nullness.{top_of, nullness_at};
ghost use Rattle.plan.specs.Marks.{allowed, given, givens};
ghost use Rattle.overflow.specs.code.Ranges.{ColumnsIn};
ghost use Rattle.nullness.specs.code.Incoming.{IndexAt};
ghost use Rattle.nullness.specs.code.Places.{fills_at};
ghost use Rattle.nullness.specs.code.Marked.{parts_of, element_mark, PartIs};

use index::columns::{indexed_column, stride_of};
use layout::columns::{ColumnRange, Labelled, Position};
use layout::cursor::Cursor;
use layout::edition::Edition;
use layout::find::{Found, column_at};
use layout::limits::DEEPEST;
use layout::types::Head;
use rules::kinds::kind;

// The levels of a type inside another.
const INSIDE: u8 = DEEPEST - 1;

// Where the type of a place stands, and whether the place is marked required; or there is no such place.
#[derive(Clone, Copy)]
pub enum PartMark {
    At(Cursor, bool),
    None,
    Refused,
}

// Of an element, whose type stands at `c`: there is one place for all, of the number 0.
fn element_mark(k: u16, c: Cursor, required: bool) -> PartMark
    ensures { result ≡ element_mark k c required }
{
    if k == 0 {
        PartMark::At(c, required)
    } else {
        PartMark::None
    }
}

// Of field `k` or element `k` of the type at `c`.
fn part_mark(s: &[u8], v: Edition, c: Cursor, k: u16) -> PartMark
    requires { TypeAt v deepest s.now c.at }
    ensures { (P : TypeAt v deepest s.now c.at) → PartIs v s.now (nullness_at (parts_of P.tree) k) result }
{
    match c.head(s) {
        Head::Leaf(_, _) => PartMark::None,
        Head::Struct(n, d) => match column_at(s, v, INSIDE, n, d, Position(k)) {
            Found::At(_, l, e) => PartMark::At(e, l.required),
            Found::Absent => PartMark::None,
        },
        Head::List(d) => match d.element_label(s, v) {
            Labelled::Is(l, e) => element_mark(k, e, l.required),
            Labelled::Refused(_) => PartMark::Refused,
        },
        Head::Array(_, d) => match d.element_label(s, v) {
            Labelled::Is(l, e) => element_mark(k, e, l.required),
            Labelled::Refused(_) => PartMark::Refused,
        },
        Head::Refused(_) => PartMark::Refused,
    }
}

// A column of the type at `c`: one of the null type is optional even where it is marked.
fn column_filled(s: &[u8], v: Edition, c: Cursor, required: bool) -> bool
    requires { TypeAt v deepest s.now c.at }
    ensures { (P : TypeAt v deepest s.now c.at) → result ≡ allowed (top_of (given required P.tree)) true }
{
    if !required {
        return false;
    }
    match c.head(s) {
        Head::Leaf(l, _) => {
            let leaf = l.leaf;
            0 < kind(leaf)
        }
        Head::Struct(_, _) => true,
        Head::List(_) => true,
        Head::Array(_, _) => true,
        Head::Refused(_) => false,
    }
}

// At a path into a column of the type at `c`.
fn place_filled(
    s: &[u8],
    v: Edition,
    c: Cursor,
    required: bool,
    path: [u16; 64],
    len: usize,
) -> bool
    requires type_at { TypeAt v deepest s.now c.at }
    requires len_in_bounds { len ≤ length path }
    ensures { (P : TypeAt v deepest s.now c.at) → result ≡ fills_at (given required P.tree) (slice 0 len path) }
{
    let mut d = c;
    let mut marked = required;
    let mut i = 0;
    while i < len {
        match part_mark(s, v, d, path[i]) {
            PartMark::At(e, m) => {
                d = e;
                marked = m;
            }
            PartMark::None => return true,
            PartMark::Refused => return false,
        }
        i += 1;
    }
    column_filled(s, v, d, marked)
}

// At a path into column `k` of an incoming layout, with a table of where its columns stand.
pub fn incoming_filled(
    incoming: &[u8],
    columns: ColumnRange,
    index: &[u16],
    k: Position,
    path: [u16; 64],
    len: usize,
) -> bool
    requires columns_in { ColumnsIn incoming.now columns }
    requires index_at { IndexAt incoming.now columns index.now }
    requires len_in_bounds { len ≤ length path }
    ensures { (P : ColumnsIn incoming.now columns) → result ≡ fills_at (nullness_at (givens P.columns) k.0) (slice 0 len path) }
{
    let v = columns.edition;
    let n = columns.count;
    match indexed_column(incoming, v, n, columns.first, index, stride_of(n), k) {
        Found::At(_, l, e) => place_filled(incoming, v, e, l.required, path, len),
        Found::Absent => true,
    }
}
