// A table of defaults, one entry to a line; in version 2 its owner comes first.
use crate::columns::put_start;
use crate::records::put_value;
use crate::types::put_type;
use defaults::read::{
    EntryKind, EntryRead, Owner, TableRead, TableVersion, read_entry, read_table,
};
use defaults::types::{LeafRead, read_leaf_type};
use layout::columns::FieldId;
use layout::cursor::{Cursor, Moved, Short, Step};
use layout::edition::Edition;
use std::io;
use text::leaves::put_leaf_type;
use text::out::{put, put_count, put_number};
use text::words::put_table_refusal;

fn put_initial(rt: &impl Print, s: &[u8], c: Cursor) -> io::Result<()> {
    put(rt, b"initial ")?;
    if let LeafRead::Is(l, d) = read_leaf_type(s, c) {
        put_leaf_type(rt, s, l)?;
        put_value(rt, s, Edition::One, 16, c, s, d, 0)?;
    }
    Ok(())
}

// `n` values from `c` of the type at `t`.
fn put_each(rt: &impl Print, s: &[u8], t: Cursor, n: u16, c: Cursor) -> io::Result<()> {
    let mut d = c;
    let mut i: u16 = 0;
    while i < n {
        put_start(rt, i as u64, 1)?;
        put_type(rt, s, Edition::One, 16, t)?;
        let Moved::To(end) = put_value(rt, s, Edition::One, 16, t, s, d, 1)? else {
            return Ok(());
        };
        d = end;
        i += 1;
    }
    Ok(())
}

fn put_loaded(rt: &impl Print, s: &[u8], c: Cursor) -> io::Result<()> {
    put(rt, b"loaded ")?;
    let LeafRead::Is(l, d) = read_leaf_type(s, c) else {
        return Ok(());
    };
    let Short::Is(n, e) = d.short(s) else {
        return Ok(());
    };
    put_leaf_type(rt, s, l)?;
    put(rt, b": ")?;
    put_count(rt, n as u64, b"value")?;
    put(rt, b"\n")?;
    put_each(rt, s, c, n, e)
}

fn put_partition(rt: &impl Print, s: &[u8], c: Cursor) -> io::Result<()> {
    put(rt, b"partition, ")?;
    if let Step::Byte(b, d) = c.byte(s) {
        if b == 0 {
            put_loaded(rt, s, d)?;
        } else {
            put(rt, b"failed\n")?;
        }
    }
    Ok(())
}

fn put_owner(rt: &impl Print, owner: Owner) -> io::Result<()> {
    if let Owner::Only(n) = owner {
        put(rt, b"owner ")?;
        put_number(rt, n as u64)?;
        put(rt, b"  ")?;
    }
    Ok(())
}

fn put_entry(rt: &impl Print, s: &[u8], id: FieldId, kind: EntryKind, c: Cursor) -> io::Result<()> {
    put(rt, b"id ")?;
    put_number(rt, id.0 as u64)?;
    put(rt, b"  ")?;
    match kind {
        EntryKind::Initial => put_initial(rt, s, c),
        EntryKind::Partition => put_partition(rt, s, c),
    }
}

fn put_heading(rt: &impl Print, n: u16) -> io::Result<()> {
    put(rt, b"defaults, ")?;
    put_number(rt, n as u64)?;
    if n == 1 {
        put(rt, b" entry\n")
    } else {
        put(rt, b" entries\n")
    }
}

// `n` entries from `c`.
fn put_entries(
    rt: &impl Print,
    s: &[u8],
    version: TableVersion,
    n: u16,
    c: Cursor,
) -> io::Result<()> {
    let mut d = c;
    let mut i: u16 = 0;
    while i < n {
        let EntryRead::Is(owner, id, kind, given, end) = read_entry(s, version, d) else {
            return Ok(());
        };
        put_owner(rt, owner)?;
        put_entry(rt, s, id, kind, given)?;
        d = end;
        i += 1;
    }
    Ok(())
}

pub fn put_table(rt: &impl Print, s: &[u8]) -> io::Result<()> {
    let mut index = [0u16; 3384];
    match read_table(s, &mut index) {
        TableRead::Read {
            version,
            count,
            entries,
        } => {
            put_heading(rt, count)?;
            put_entries(rt, s, version, count, entries)
        }
        TableRead::Refused(k) => put_table_refusal(rt, k),
    }
}
