// Values by their types: what is inside a struct, a list or an array is indented below it. A type stands at `t` in
// `lay`, a value at `c` in `rec`; both were read before, so that no reader refuses here.
ghost use Rattle.std.specs.Prelude.{◌≡◌};
ghost use Rattle.layout.specs.code.Stands.{ColumnsAt};

use crate::columns::{put_column, put_start};
use crate::types::put_type;
use layout::columns::Labelled;
use layout::cursor::{Cursor, Moved, Short};
use layout::edition::Edition;
use layout::leaf::Leaf;
use layout::pass::pass_type;
use layout::read::{LayoutRead, read_layout};
use layout::types::Head;
use std::io;
use text::leaves::put_leaf_value;
use text::out::{deeper, put, put_count};
use text::words::put_refusal;
use values::leaf::{Presence, read_leaf, read_presence};
use values::record::{RecordRead, read_record};

// The rest of a line that has the type, and the lines below it; and where the value ends.
#[cycle(put_content_put_elements_put_fields_put_list_put_value)]
pub fn put_value(
    rt: &impl Print,
    lay: &[u8],
    v: Edition,
    depth: u8,
    t: Cursor,
    rec: &[u8],
    c: Cursor,
    level: u8,
) -> io::Result<Moved> {
    match read_presence(rec, c) {
        Presence::Null(d) => {
            put(rt, b": null\n")?;
            Ok(Moved::To(d))
        }
        Presence::Present(d) => put_content(rt, lay, v, depth, t, rec, d, level),
        Presence::Refused(k) => Ok(Moved::Refused(k)),
    }
}

fn put_leaf_line(rt: &impl Print, rec: &[u8], leaf: Leaf, c: Cursor) -> io::Result<Moved> {
    put(rt, b": ")?;
    put_leaf_value(rt, rec, leaf, c)?;
    put(rt, b"\n")?;
    Ok(read_leaf(rec, leaf, c))
}

// After the presence byte of a value that is present.
#[cycle(put_content_put_elements_put_fields_put_list_put_value)]
fn put_content(
    rt: &impl Print,
    lay: &[u8],
    v: Edition,
    depth: u8,
    t: Cursor,
    rec: &[u8],
    c: Cursor,
    level: u8,
) -> io::Result<Moved> {
    if depth == 0 {
        return Ok(Moved::Refused(4));
    }
    match t.head(lay) {
        Head::Leaf(l, _) => {
            let leaf = l.leaf;
            put_leaf_line(rt, rec, leaf, c)
        }
        Head::Struct(n, e) => {
            put(rt, b"\n")?;
            put_fields(rt, lay, v, depth - 1, n, e, rec, c, deeper(level))
        }
        Head::List(e) => put_list(rt, lay, v, depth - 1, e, rec, c, deeper(level)),
        Head::Array(w, e) => {
            put(rt, b"\n")?;
            put_elements(rt, lay, v, depth - 1, w, e, rec, c, deeper(level))
        }
        Head::Refused(k) => Ok(Moved::Refused(k)),
    }
}

// A count and as many values; the element's label stands at `t`.
#[cycle(put_content_put_elements_put_fields_put_list_put_value)]
fn put_list(
    rt: &impl Print,
    lay: &[u8],
    v: Edition,
    depth: u8,
    t: Cursor,
    rec: &[u8],
    c: Cursor,
    level: u8,
) -> io::Result<Moved> {
    match c.short(rec) {
        Short::Is(n, d) => {
            put(rt, b": ")?;
            put_count(rt, n as u64, b"element")?;
            put(rt, b"\n")?;
            put_elements(rt, lay, v, depth, n as u32, t, rec, d, level)
        }
        Short::Refused(k) => Ok(Moved::Refused(k)),
    }
}

// `n` values of one type; the element's label stands at `t`.
#[cycle(put_content_put_elements_put_fields_put_list_put_value)]
fn put_elements(
    rt: &impl Print,
    lay: &[u8],
    v: Edition,
    depth: u8,
    n: u32,
    t: Cursor,
    rec: &[u8],
    c: Cursor,
    level: u8,
) -> io::Result<Moved> {
    let Labelled::Is(_, e) = t.element_label(lay, v) else {
        return Ok(Moved::Refused(2));
    };
    let mut d = c;
    let mut i: u32 = 0;
    while i < n {
        put_start(rt, i as u64, level)?;
        put_type(rt, lay, v, depth, e)?;
        let Moved::To(end) = put_value(rt, lay, v, depth, e, rec, d, level)? else {
            return Ok(Moved::Refused(2));
        };
        d = end;
        i += 1;
    }
    Ok(Moved::To(d))
}

// A value for each of `n` columns.
#[cycle(put_content_put_elements_put_fields_put_list_put_value)]
fn put_fields(
    rt: &impl Print,
    lay: &[u8],
    v: Edition,
    depth: u8,
    n: u16,
    t: Cursor,
    rec: &[u8],
    c: Cursor,
    level: u8,
) -> io::Result<Moved> {
    let mut f = t;
    let mut d = c;
    let mut i: u16 = 0;
    while i < n {
        let Labelled::Is(l, e) = f.label(lay, v) else {
            return Ok(Moved::Refused(2));
        };
        put_start(rt, i as u64, level)?;
        put_column(rt, lay, v, l, e)?;
        let Moved::To(end) = put_value(rt, lay, v, depth, e, rec, d, level)? else {
            return Ok(Moved::Refused(2));
        };
        let Moved::To(next) = pass_type(lay, v, depth, e) else {
            return Ok(Moved::Refused(2));
        };
        d = end;
        f = next;
        i += 1;
    }
    Ok(Moved::To(d))
}

// A record of a layout that was read.
fn put_read(
    rt: &impl Print,
    lay: &[u8],
    v: Edition,
    n: u16,
    columns: Cursor,
    rec: &[u8],
) -> io::Result<()>
    requires { ColumnsAt v 16 lay.now n columns.at }
{
    let none: [u16; 1] = [0; 1];
    match read_record(lay, v, n, columns, rec, &none[..0]) {
        RecordRead::Fits => {
            put(rt, b"record, ")?;
            put_count(rt, n as u64, b"column")?;
            put(rt, b"\n")?;
            let start = Cursor { at: 0 };
            put_fields(rt, lay, v, 16, n, columns, rec, start, 0)?;
            Ok(())
        }
        RecordRead::Refused(k) => put_refusal(rt, k, 0),
    }
}

pub fn put_record(rt: &impl Print, lay: &[u8], rec: &[u8]) -> io::Result<()> {
    match read_layout(lay) {
        LayoutRead::Read {
            edition: v,
            count: n,
            columns: c,
        } => put_read(rt, lay, v, n, c, rec),
        LayoutRead::Refused(k) => put_refusal(rt, k, 1),
    }
}
