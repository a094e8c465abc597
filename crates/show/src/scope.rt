// What a position takes, where that can be told: columns or an element, in the incoming layout or in a type that the
// plan has.
use describe::columns::put_column;
use describe::types::put_type;
use layout::columns::{Label, Labelled, Position};
use layout::cursor::{Cursor, Moved};
use layout::edition::Edition;
use layout::pass::pass_columns;
use layout::types::Head;
use std::io;
use text::out::{put, put_number};
use walk::head::{SelectorHead, head, skip_selector};

// Which bytes a type stands in.
#[derive(Clone, Copy)]
pub enum Source {
    Incoming,
    Plan,
}

// The number of columns and where they begin; where an element's type begins.
#[derive(Clone, Copy)]
pub enum Scope {
    Columns(Source, Edition, u16, Cursor),
    Element(Source, Edition, Cursor),
    Unknown,
}

// Where a type begins.
#[derive(Clone, Copy)]
pub enum Known {
    At(Source, Edition, Cursor),
    Unknown,
}

#[derive(Clone, Copy)]
pub enum Column {
    Is(Label, Cursor),
    Absent,
}

// The column at a position among `n` that begin at `c`.
pub fn find_column(s: &[u8], v: Edition, n: u16, c: Cursor, k: Position) -> Column {
    if n <= k.0 {
        return Column::Absent;
    }
    match pass_columns(s, v, 16, k.0, c) {
        Moved::To(d) => match d.label(s, v) {
            Labelled::Is(l, e) => Column::Is(l, e),
            Labelled::Refused(_) => Column::Absent,
        },
        Moved::Refused(_) => Column::Absent,
    }
}

fn column_type(s: &[u8], source: Source, v: Edition, n: u16, c: Cursor, k: Position) -> Known {
    match find_column(s, v, n, c, k) {
        Column::Is(_, d) => Known::At(source, v, d),
        Column::Absent => Known::Unknown,
    }
}

fn position_type(plan: &[u8], incoming: &[u8], scope: Scope, k: Position) -> Known {
    match scope {
        Scope::Columns(source, v, n, c) => match source {
            Source::Incoming => column_type(incoming, source, v, n, c, k),
            Source::Plan => column_type(plan, source, v, n, c, k),
        },
        Scope::Element(source, v, c) => Known::At(source, v, c),
        Scope::Unknown => Known::Unknown,
    }
}

// The type of what the selector at `c` gives. A mapping's stands nowhere.
pub fn type_of(plan: &[u8], incoming: &[u8], scope: Scope, depth: u8, c: Cursor) -> Known {
    if depth == 0 {
        return Known::Unknown;
    }
    match head(plan, c) {
        SelectorHead::Position(k) => position_type(plan, incoming, scope, k),
        SelectorHead::Constant(_, d) => Known::At(Source::Plan, Edition::One, d),
        SelectorHead::Cast(input) => Known::At(
            Source::Plan,
            Edition::One,
            skip_selector(plan, input),
        ),
        SelectorHead::Rename(input) => type_of(plan, incoming, scope, depth - 1, input),
        SelectorHead::Struct(_) => Known::Unknown,
        SelectorHead::List(_) => Known::Unknown,
        SelectorHead::Array(_) => Known::Unknown,
        SelectorHead::Refused => Known::Unknown,
    }
}

fn scope_at(s: &[u8], source: Source, v: Edition, c: Cursor) -> Scope {
    match c.head(s) {
        Head::Leaf(_, _) => Scope::Unknown,
        Head::Struct(n, d) => Scope::Columns(source, v, n, d),
        Head::List(d) => element_at(s, source, v, d),
        Head::Array(_, d) => element_at(s, source, v, d),
        Head::Refused(_) => Scope::Unknown,
    }
}

fn element_at(s: &[u8], source: Source, v: Edition, c: Cursor) -> Scope {
    match c.element_label(s, v) {
        Labelled::Is(_, d) => Scope::Element(source, v, d),
        Labelled::Refused(_) => Scope::Unknown,
    }
}

// What a position takes inside a mapping of a value of this type.
pub fn inside(plan: &[u8], incoming: &[u8], known: Known) -> Scope {
    match known {
        Known::At(source, v, c) => match source {
            Source::Incoming => scope_at(incoming, source, v, c),
            Source::Plan => scope_at(plan, source, v, c),
        },
        Known::Unknown => Scope::Unknown,
    }
}

fn put_taken(
    rt: &impl Print,
    s: &[u8],
    v: Edition,
    n: u16,
    c: Cursor,
    k: Position,
) -> io::Result<()> {
    match find_column(s, v, n, c, k) {
        Column::Is(l, d) => {
            put(rt, b" ")?;
            put_column(rt, s, v, l, d)
        }
        Column::Absent => put(rt, b", which is not there"),
    }
}

fn put_element_taken(
    rt: &impl Print,
    s: &[u8],
    v: Edition,
    c: Cursor,
    k: Position,
) -> io::Result<()> {
    if k.0 == 0 {
        put(rt, b" ")?;
        put_type(rt, s, v, 16, c)
    } else {
        put(rt, b", which is not there")
    }
}

// A position, with the name and type of the column that it takes.
pub fn put_position(
    rt: &impl Print,
    plan: &[u8],
    incoming: &[u8],
    scope: Scope,
    k: Position,
) -> io::Result<()> {
    put(rt, b"position ")?;
    put_number(rt, k.0 as u64)?;
    match scope {
        Scope::Columns(source, v, n, c) => match source {
            Source::Incoming => put_taken(rt, incoming, v, n, c, k)?,
            Source::Plan => put_taken(rt, plan, v, n, c, k)?,
        },
        Scope::Element(source, v, c) => match source {
            Source::Incoming => put_element_taken(rt, incoming, v, c, k)?,
            Source::Plan => put_element_taken(rt, plan, v, c, k)?,
        },
        Scope::Unknown => {}
    }
    put(rt, b"\n")
}
