// What a selector makes, where the target layout is given. A plan that the check refused may make what the target has
// not: then it is not known.
use crate::scope::{Column, find_column};
use describe::columns::put_column;
use describe::types::put_type;
use layout::columns::{Labelled, Position};
use layout::cursor::Cursor;
use layout::edition::Edition;
use layout::read::{LayoutRead, read_layout};
use layout::types::Head;
use std::io;
use text::out::put;

// Where the type of what is made begins.
#[derive(Clone, Copy)]
pub enum Made {
    At(Edition, Cursor),
    Unknown,
}

// The number of columns made and where they begin; and the number of the selector that the check refuses.
#[derive(Clone, Copy)]
pub enum MadeColumns {
    From(Edition, u16, Cursor),
    Refused(Edition, u16, Cursor, u16),
    Unknown,
}

pub fn top_columns(target: &[u8]) -> MadeColumns {
    match read_layout(target) {
        LayoutRead::Read {
            edition: v,
            count: n,
            columns: c,
        } => MadeColumns::From(v, n, c),
        LayoutRead::Refused(_) => MadeColumns::Unknown,
    }
}

// The same, where the check refuses with this number and place. 31 and 32 have the selector's number for a place.
pub fn refused_columns(target: &[u8], number: u8, place: u16) -> MadeColumns {
    let made = top_columns(target);
    if let MadeColumns::From(v, n, c) = made {
        if number == 31 {
            return MadeColumns::Refused(v, n, c, place);
        }
        if number == 32 {
            return MadeColumns::Refused(v, n, c, place);
        }
    }
    made
}

// What a struct mapping's fields make.
pub fn made_fields(target: &[u8], made: Made) -> MadeColumns {
    if let Made::At(v, c) = made {
        if let Head::Struct(n, d) = c.head(target) {
            return MadeColumns::From(v, n, d);
        }
    }
    MadeColumns::Unknown
}

fn element_made(target: &[u8], v: Edition, c: Cursor) -> Made {
    match c.element_label(target, v) {
        Labelled::Is(_, d) => Made::At(v, d),
        Labelled::Refused(_) => Made::Unknown,
    }
}

// The rest of a list mapping's line, and what its element makes.
pub fn put_list(rt: &impl Print, target: &[u8], made: Made) -> io::Result<Made> {
    put(rt, b"list mapping\n")?;
    if let Made::At(v, c) = made {
        if let Head::List(d) = c.head(target) {
            return Ok(element_made(target, v, d));
        }
    }
    Ok(Made::Unknown)
}

// The same of an array mapping.
pub fn put_array(rt: &impl Print, target: &[u8], made: Made) -> io::Result<Made> {
    put(rt, b"array mapping\n")?;
    if let Made::At(v, c) = made {
        if let Head::Array(_, d) = c.head(target) {
            return Ok(element_made(target, v, d));
        }
    }
    Ok(Made::Unknown)
}

// Column `i` of the target, where it has so many.
fn put_column_at(
    rt: &impl Print,
    target: &[u8],
    v: Edition,
    n: u16,
    c: Cursor,
    i: u16,
) -> io::Result<Made> {
    if let Column::Is(l, d) = find_column(target, v, n, c, Position(i)) {
        put_column(rt, target, v, l, d)?;
        put(rt, b" <- ")?;
        return Ok(Made::At(v, d));
    }
    Ok(Made::Unknown)
}

// The column that selector `i` makes, before the selector; a sign before the one that is refused.
pub fn put_made_column(
    rt: &impl Print,
    target: &[u8],
    columns: MadeColumns,
    i: u16,
) -> io::Result<Made> {
    match columns {
        MadeColumns::From(v, n, c) => put_column_at(rt, target, v, n, c, i),
        MadeColumns::Refused(v, n, c, k) => {
            if k == i {
                put(rt, b">> ")?;
            }
            put_column_at(rt, target, v, n, c, i)
        }
        MadeColumns::Unknown => Ok(Made::Unknown),
    }
}

// The element that a selector makes, before the selector.
pub fn put_made_element(rt: &impl Print, target: &[u8], made: Made) -> io::Result<()> {
    if let Made::At(v, c) = made {
        put_type(rt, target, v, 16, c)?;
        put(rt, b" <- ")?;
    }
    Ok(())
}
