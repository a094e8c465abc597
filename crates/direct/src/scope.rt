// What positions take from, in the bytes of the incoming layout.
ghost use Rattle.std.specs.Prelude.{◌≡◌, ◌≤◌, length, take};
ghost use Rattle.layout.specs.Limits.{deepest};
ghost use Rattle.layout.specs.Tree.{dtype_of};
ghost use Rattle.layout.specs.code.Stands.{TypeAt};
ghost use Rattle.plan.specs.Check.{column_at, element_of, type_of};
ghost use Rattle.walk.specs.code.Stands.{SelectorAt};
ghost use Rattle.index.specs.code.Indexed.{Indexed};
ghost use Rattle.direct.specs.code.Scopes.{taken_from, SourceAt, TakenIs};

use index::columns::{index_columns, indexed_column};
use layout::bytes::Span;
use layout::columns::Position;
use layout::cursor::Cursor;
use layout::edition::Edition;
use layout::find::Found;
use walk::head::{SelectorHead, head};

// The columns of the layout or of a struct, which have an index; a list's or an array's element.
#[derive(Clone, Copy)]
pub enum Scope {
    Columns(u16, Cursor),
    Element(Cursor),
}

// What positions take from, in a layout of this edition; the entries of its index stand for every `stride`-th column.
#[derive(Clone, Copy)]
pub struct Source {
    pub edition: Edition,
    pub scope: Scope,
    pub stride: u16,
}

// The name's place and where the type begins.
#[derive(Clone, Copy)]
pub enum Taken {
    At(Span, Cursor),
    Absent,
}

fn taken_from(f: Found) -> Taken
    ensures { result ≡ taken_from f }
{
    match f {
        Found::At(_, l, c) => {
            let name = l.name;
            Taken::At(name, c)
        }
        Found::Absent => Taken::Absent,
    }
}

// An element has position 0 and no name.
fn take_element(incoming: &[u8], v: Edition, c: Cursor, k: Position) -> Taken
    ensures { (T : TypeAt v deepest incoming.now c.at) → TakenIs incoming.now v (column_at (element_of (dtype_of T.tree)) k.0) result }
{
    if k.0 == 0 {
        Taken::At(Span { start: 0, len: 0 }, c)
    } else {
        Taken::Absent
    }
}

// The column at a position.
fn take_column(incoming: &[u8], source: Source, index: &[u16], k: Position) -> Taken
    requires { SourceAt incoming.now source index.now }
    ensures { (X : SourceAt incoming.now source index.now) → TakenIs incoming.now source.edition (column_at X.fields k.0) result }
{
    let v = source.edition;
    let scope = source.scope;
    match scope {
        Scope::Columns(n, c) => {
            taken_from(indexed_column(incoming, v, n, c, index, source.stride, k))
        }
        Scope::Element(c) => take_element(incoming, v, c, k),
    }
}

// The column that the selector at `c` takes, if it is a position.
pub fn take_position(
    incoming: &[u8],
    source: Source,
    index: &[u16],
    plan: &[u8],
    c: Cursor,
) -> Taken
    requires { SourceAt incoming.now source index.now }
    ensures { (X : SourceAt incoming.now source index.now) (S : SelectorAt plan.now c.at) → TakenIs incoming.now source.edition (type_of X.fields S.tree) result }
{
    match head(plan, c) {
        SelectorHead::Position(k) => take_column(incoming, source, index, k),
        _ => Taken::Absent,
    }
}

// Fills a table of the `n` fields from `c` on, of which `m` are taken, and answers how many entries it got. Where few
// are taken, that would take more time than it saves.
pub fn index_fields(
    incoming: &[u8],
    v: Edition,
    n: u16,
    c: Cursor,
    m: u16,
    stride: u16,
    starts: &mut [u16],
) -> usize
    ensures upper_bound { result ≤ length starts.new }
    ensures indexed { Indexed v incoming.now n c.at stride (take result starts.new) }
{
    if m <= 8 {
        return 0;
    }
    index_columns(incoming, v, n, c, stride, starts)
}
