// A type on one line. Of a struct only the number of fields is written, so that a line stays short.
use layout::columns::Labelled;
use layout::cursor::Cursor;
use layout::edition::Edition;
use layout::types::Head;
use std::io;
use text::leaves::put_leaf_type;
use text::out::{put, put_count, put_number};

// The type at `c`.
pub fn put_type(rt: &impl Print, s: &[u8], v: Edition, depth: u8, c: Cursor) -> io::Result<()> {
    if depth == 0 {
        return Ok(());
    }
    match c.head(s) {
        Head::Leaf(l, _) => put_leaf_type(rt, s, l),
        Head::Struct(n, _) => {
            put(rt, b"struct of ")?;
            put_count(rt, n as u64, b"field")
        }
        Head::List(d) => {
            put(rt, b"list of ")?;
            if let Labelled::Is(_, e) = d.element_label(s, v) {
                put_type(rt, s, v, depth - 1, e)?;
            }
            Ok(())
        }
        Head::Array(w, d) => {
            put(rt, b"array of ")?;
            put_number(rt, w as u64)?;
            put(rt, b" of ")?;
            if let Labelled::Is(_, e) = d.element_label(s, v) {
                put_type(rt, s, v, depth - 1, e)?;
            }
            Ok(())
        }
        Head::Refused(_) => put(rt, b"?"),
    }
}
