// What a plan drops: the incoming columns, or the fields of an incoming struct, that no selector takes.
ghost use Rattle.std.specs.Prelude.{◌≡◌, length};

use crate::scope::{Scope, Source};
use describe::columns::put_column;
use layout::columns::Labelled;
use layout::cursor::{Cursor, Moved};
use layout::edition::Edition;
use layout::pass::pass_type;
use std::io;
use text::out::{put, put_indent};
use walk::head::{SelectorHead, head, skip_selector};

// No position.
const NONE: usize = 65536;

// The position that the selector at `c` takes, through the inputs of at most 64 transforms.
fn position_taken(plan: &[u8], c: Cursor) -> usize {
    let mut d = c;
    let mut left: u8 = 64;
    while 0 < left {
        match head(plan, d) {
            SelectorHead::Position(k) => return k.0 as usize,
            SelectorHead::Constant(_, _) => return NONE,
            SelectorHead::Cast(input) => d = input,
            SelectorHead::Rename(input) => d = input,
            SelectorHead::Struct(input) => d = input,
            SelectorHead::List(input) => d = input,
            SelectorHead::Array(input) => d = input,
            SelectorHead::Refused => return NONE,
        }
        left -= 1;
    }
    NONE
}

fn note(taken: &mut [u8], k: usize)
    ensures { length taken.new ≡ length taken.old }
{
    if k < taken.len() {
        taken[k] = 1;
    }
}

// Notes what each of `n` selectors from `c` on takes.
fn note_taken(plan: &[u8], n: u16, c: Cursor, taken: &mut [u8]) {
    let mut d = c;
    let mut i: u16 = 0;
    while i < n {
        note(taken, position_taken(plan, d));
        d = skip_selector(plan, d);
        i += 1;
    }
}

fn is_taken(taken: &[u8], i: u16) -> bool {
    let k = i as usize;
    if k < taken.len() { taken[k] != 0 } else { true }
}

// The columns that are not taken, of `n` from `c` on.
fn put_left(
    rt: &impl Print,
    s: &[u8],
    v: Edition,
    n: u16,
    c: Cursor,
    taken: &[u8],
    level: u8,
) -> io::Result<()> {
    let mut d = c;
    let mut i: u16 = 0;
    while i < n {
        let Labelled::Is(l, e) = d.label(s, v) else {
            return Ok(());
        };
        if !is_taken(taken, i) {
            put_indent(rt, level)?;
            put(rt, b"dropped: ")?;
            put_column(rt, s, v, l, e)?;
            put(rt, b"\n")?;
        }
        let Moved::To(end) = pass_type(s, v, 16, e) else {
            return Ok(());
        };
        d = end;
        i += 1;
    }
    Ok(())
}

// Of what is in scope for the `n` selectors from `c` on. A layout has fewer columns, and a struct in it fewer fields,
// than 8,192.
pub fn put_dropped(
    rt: &impl Print,
    plan: &[u8],
    incoming: &[u8],
    scope: Scope,
    n: u16,
    c: Cursor,
    level: u8,
) -> io::Result<()> {
    if let Scope::Columns(source, v, m, first) = scope {
        if let Source::Incoming = source {
            let mut taken = [0u8; 8192];
            note_taken(plan, n, c, &mut taken);
            put_left(rt, incoming, v, m, first, &taken, level)?;
        }
    }
    Ok(())
}
