// Columns, one to a line, with the columns inside their types indented below.
use crate::types::put_type;
use layout::columns::{Label, Labelled};
use layout::cursor::{Cursor, Moved};
use layout::edition::Edition;
use layout::pass::pass_type;
use layout::types::Head;
use std::io;
use text::out::{deeper, put, put_count, put_indent, put_number, put_span};

// From version 2 on columns have ids, and elements names and ids.
fn has_ids(v: Edition) -> bool {
    match v {
        Edition::One => false,
        Edition::Two => true,
        Edition::Three => true,
    }
}

// A column's name, its id where it has one, whether it is required, and its type at `c`.
pub fn put_column(rt: &impl Print, s: &[u8], v: Edition, l: Label, c: Cursor) -> io::Result<()> {
    put_span(rt, s, l.name)?;
    if has_ids(v) {
        put(rt, b" id ")?;
        put_number(rt, l.id.0 as u64)?;
    }
    if l.required {
        put(rt, b" required")?;
    }
    put(rt, b" ")?;
    put_type(rt, s, v, 16, c)
}

// What a line of number `i` begins with.
pub fn put_start(rt: &impl Print, i: u64, level: u8) -> io::Result<()> {
    put_indent(rt, level)?;
    put_number(rt, i)?;
    put(rt, b"  ")
}

fn put_element(
    rt: &impl Print,
    s: &[u8],
    v: Edition,
    l: Label,
    c: Cursor,
    level: u8,
) -> io::Result<()> {
    if has_ids(v) {
        put_indent(rt, level)?;
        put(rt, b"element ")?;
        put_column(rt, s, v, l, c)?;
        put(rt, b"\n")?;
    }
    Ok(())
}

// The level of what is inside an element: below the element's line, where it has one.
fn element_level(v: Edition, level: u8) -> u8 {
    if has_ids(v) { deeper(level) } else { level }
}

// The columns inside the type at `c`.
#[cycle(put_columns_put_inner_put_inner_element)]
pub fn put_inner(
    rt: &impl Print,
    s: &[u8],
    v: Edition,
    depth: u8,
    c: Cursor,
    level: u8,
) -> io::Result<()> {
    if depth == 0 {
        return Ok(());
    }
    match c.head(s) {
        Head::Leaf(_, _) => Ok(()),
        Head::Struct(n, d) => put_columns(rt, s, v, depth - 1, n, d, level),
        Head::List(d) => put_inner_element(rt, s, v, depth - 1, d, level),
        Head::Array(_, d) => put_inner_element(rt, s, v, depth - 1, d, level),
        Head::Refused(_) => Ok(()),
    }
}

#[cycle(put_columns_put_inner_put_inner_element)]
fn put_inner_element(
    rt: &impl Print,
    s: &[u8],
    v: Edition,
    depth: u8,
    c: Cursor,
    level: u8,
) -> io::Result<()> {
    if let Labelled::Is(l, d) = c.element_label(s, v) {
        put_element(rt, s, v, l, d, level)?;
        put_inner(rt, s, v, depth, d, element_level(v, level))?;
    }
    Ok(())
}

// `n` columns from `c`.
#[cycle(put_columns_put_inner_put_inner_element)]
pub fn put_columns(
    rt: &impl Print,
    s: &[u8],
    v: Edition,
    depth: u8,
    n: u16,
    c: Cursor,
    level: u8,
) -> io::Result<()> {
    let mut d = c;
    let mut i: u16 = 0;
    while i < n {
        let Labelled::Is(l, e) = d.label(s, v) else {
            return Ok(());
        };
        put_start(rt, i as u64, level)?;
        put_column(rt, s, v, l, e)?;
        put(rt, b"\n")?;
        put_inner(rt, s, v, depth, e, deeper(level))?;
        let Moved::To(end) = pass_type(s, v, depth, e) else {
            return Ok(());
        };
        d = end;
        i += 1;
    }
    Ok(())
}

fn put_version(rt: &impl Print, v: Edition) -> io::Result<()> {
    match v {
        Edition::One => put(rt, b"layout, version 1, "),
        Edition::Two => put(rt, b"layout, version 2, "),
        Edition::Three => put(rt, b"layout, version 3, "),
    }
}

// A layout that was read.
pub fn put_layout(rt: &impl Print, s: &[u8], v: Edition, n: u16, c: Cursor) -> io::Result<()> {
    put_version(rt, v)?;
    put_count(rt, n as u64, b"column")?;
    put(rt, b"\n")?;
    put_columns(rt, s, v, 16, n, c, 0)
}
