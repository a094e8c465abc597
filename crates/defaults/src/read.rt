// Reading the table of defaults.
ghost use Rattle.std.specs.Prelude.{◌≡◌, [], ◌≤◌, ◌<◌, length};
ghost use Rattle.layout.specs.Limits.{longest};
ghost use Rattle.layout.specs.code.Answers.{moved_of};
ghost use Rattle.layout.specs.declared.cursor.Cursor.{Cursor};
ghost use Rattle.layout.specs.declared.cursor.Moved.{Moved};
ghost use Rattle.defaults.specs.Table.{same_kind_of, same_owner, initial_entry, loaded_entry, partition_entry, entry_kind, given_of};
ghost use Rattle.defaults.specs.Table.{table_number, entry, owner_of, entries, table_version, counted_table, table};
ghost use Rattle.defaults.specs.code.Answers.{kind_res, owner_res, version_res, entry_of, entry_read_of, table_of};
ghost use Rattle.defaults.specs.code.Scan.{is_of, is_found};
ghost use Rattle.defaults.specs.code.Index.{entry_head, entry_head_res, owner_in, links, followed, Inside, Indexed, IndexedTable};

use crate::index::{head_of, push};
use crate::types::{LeafRead, read_leaf_type, read_leaf_value, read_leaf_values};
use labels::clear;
use layout::bytes::{same_bytes, wide};
use layout::columns::FieldId;
use layout::cursor::{Cursor, Long, Moved, Short, Step};
use layout::limits::LONGEST;

const SHARED: [u8; 5] = [0x44, 0x45, 0x46, 1, 0];

const BY_OWNER: [u8; 5] = [0x44, 0x45, 0x46, 2, 0];

// Version 1, whose entries count for every owner, and version 2, with an owner before each id.
#[derive(Clone, Copy)]
pub enum TableVersion {
    Shared,
    ByOwner,
}

// Whose an entry is.
#[derive(Clone, Copy)]
pub enum Owner {
    Every,
    Only(u16),
}

// By an entry's kind byte: 0 an initial default, 1 a partition's values.
#[derive(Clone, Copy)]
pub enum EntryKind {
    Initial,
    Partition,
}

#[derive(Clone, Copy)]
pub enum KindRead {
    Is(EntryKind, Cursor),
    Refused(u8),
}

#[derive(Clone, Copy)]
pub enum OwnerRead {
    Is(Owner, Cursor),
    Refused(u8),
}

// An entry's owner, id and kind, where that begins which it gives, and where it ends.
#[derive(Clone, Copy)]
pub enum EntryRead {
    Is(Owner, FieldId, EntryKind, Cursor, Cursor),
    Refused(u8),
}

// An entry's owner, id and kind, and where that begins which it gives.
#[derive(Clone, Copy)]
pub enum HeadRead {
    Is(Owner, FieldId, EntryKind, Cursor),
    Refused(u8),
}

// Where that begins which an entry gives.
#[derive(Clone, Copy)]
pub enum EntryFound {
    At(Cursor),
    Absent,
}

#[derive(Clone, Copy)]
pub enum VersionRead {
    Is(TableVersion),
    Refused(u8),
}

// The version, the number of entries and where they begin.
#[derive(Clone, Copy)]
pub enum TableRead {
    Read {
        version: TableVersion,
        count: u16,
        entries: Cursor,
    },
    Refused(u8),
}

fn read_initial(s: &[u8], c: Cursor) -> Moved
    ensures { result ≡ moved_of (initial_entry s.now c.at) }
{
    match read_leaf_type(s, c) {
        LeafRead::Is(l, d) => read_leaf_value(s, l, d),
        LeafRead::Refused(k) => Moved::Refused(k),
    }
}

// A partition's values, one for each source.
fn read_loaded(s: &[u8], c: Cursor) -> Moved
    ensures { result ≡ moved_of (loaded_entry s.now c.at) }
{
    match read_leaf_type(s, c) {
        LeafRead::Is(l, d) => match d.short(s) {
            Short::Is(n, e) => read_leaf_values(s, l, n as u32, e),
            Short::Refused(k) => Moved::Refused(k),
        },
        LeafRead::Refused(k) => Moved::Refused(k),
    }
}

fn read_partition(s: &[u8], c: Cursor) -> Moved
    ensures { result ≡ moved_of (partition_entry s.now c.at) }
{
    match c.byte(s) {
        Step::Byte(b, d) => match b {
            0 => read_loaded(s, d),
            1 => Moved::To(d),
            _ => Moved::Refused(3),
        },
        Step::Refused(k) => Moved::Refused(k),
    }
}

fn read_kind(s: &[u8], c: Cursor) -> KindRead
    ensures { kind_res result ≡ entry_kind s.now c.at }
{
    match c.byte(s) {
        Step::Byte(b, d) => match b {
            0 => KindRead::Is(EntryKind::Initial, d),
            1 => KindRead::Is(EntryKind::Partition, d),
            _ => KindRead::Refused(3),
        },
        Step::Refused(k) => KindRead::Refused(k),
    }
}

// What an entry gives, by its kind.
fn read_given(s: &[u8], kind: EntryKind, c: Cursor) -> Moved
    ensures { result ≡ moved_of (given_of kind s.now c.at) }
{
    match kind {
        EntryKind::Initial => read_initial(s, c),
        EntryKind::Partition => read_partition(s, c),
    }
}

// The refusal of a type or a value, in a table.
fn table_number(n: u8) -> u8
    ensures { result ≡ table_number n }
{
    match n {
        50 => 3,
        52 => 3,
        _ => n,
    }
}

// An entry of this owner, from its id on.
fn read_numbered(s: &[u8], owner: Owner, c: Cursor) -> EntryRead
    ensures { result ≡ entry_of owner c.at (entry s.now c.at) }
{
    match c.long(s) {
        Long::Is(i, d) => match read_kind(s, d) {
            KindRead::Is(kind, g) => match read_given(s, kind, g) {
                Moved::To(e) => EntryRead::Is(owner, FieldId(i), kind, g, e),
                Moved::Refused(k) => EntryRead::Refused(table_number(k)),
            },
            KindRead::Refused(k) => EntryRead::Refused(k),
        },
        Long::Refused(k) => EntryRead::Refused(k),
    }
}

fn read_owner(s: &[u8], version: TableVersion, c: Cursor) -> OwnerRead
    ensures { owner_res result ≡ owner_of version s.now c.at }
{
    match version {
        TableVersion::Shared => OwnerRead::Is(Owner::Every, c),
        TableVersion::ByOwner => match c.short(s) {
            Short::Is(n, d) => OwnerRead::Is(Owner::Only(n), d),
            Short::Refused(k) => OwnerRead::Refused(k),
        },
    }
}

pub fn read_entry(s: &[u8], version: TableVersion, c: Cursor) -> EntryRead
    ensures { result ≡ entry_read_of version s.now c.at }
{
    match read_owner(s, version, c) {
        OwnerRead::Is(owner, d) => read_numbered(s, owner, d),
        OwnerRead::Refused(k) => EntryRead::Refused(k),
    }
}

// What stands of an entry before that which it gives.
fn read_head(s: &[u8], version: TableVersion, c: Cursor) -> HeadRead
    ensures { entry_head_res result ≡ entry_head version s.now c.at }
{
    match read_owner(s, version, c) {
        OwnerRead::Is(owner, d) => match d.long(s) {
            Long::Is(i, e) => match read_kind(s, e) {
                KindRead::Is(kind, g) => HeadRead::Is(owner, FieldId(i), kind, g),
                KindRead::Refused(k) => HeadRead::Refused(k),
            },
            Long::Refused(k) => HeadRead::Refused(k),
        },
        OwnerRead::Refused(k) => HeadRead::Refused(k),
    }
}

fn same_kind(a: EntryKind, b: EntryKind) -> bool
    ensures { result ≡ same_kind_of a b }
{
    match a {
        EntryKind::Initial => match b {
            EntryKind::Initial => true,
            EntryKind::Partition => false,
        },
        EntryKind::Partition => match b {
            EntryKind::Initial => false,
            EntryKind::Partition => true,
        },
    }
}

// Whether there is an owner for whom both count.
fn same_owner(a: Owner, b: Owner) -> bool
    ensures { result ≡ same_owner a b }
{
    match a {
        Owner::Every => true,
        Owner::Only(n) => match b {
            Owner::Every => true,
            Owner::Only(m) => n == m,
        },
    }
}

// Whether an entry's owner, id and kind, `o`, `i` and `k`, are those looked for.
fn is_of(owner: Owner, id: FieldId, kind: EntryKind, o: Owner, i: FieldId, k: EntryKind) -> bool
    ensures { result ≡ is_of owner id kind o i k }
{
    if id.0 == i.0 {
        if same_kind(kind, k) {
            same_owner(owner, o)
        } else {
            false
        }
    } else {
        false
    }
}

// Whose the entries are that count for an owner.
pub fn owner_in(version: TableVersion, owner: u16) -> Owner
    ensures { result ≡ owner_in version owner }
{
    match version {
        TableVersion::Shared => Owner::Every,
        TableVersion::ByOwner => Owner::Only(owner),
    }
}

// The first of `n` entries that counts for this owner and is of this id and kind, by an index of them: no value is
// read, and of the entries only those whose ids are in one chain.
pub fn find_entry(
    s: &[u8],
    version: TableVersion,
    n: u16,
    owner: Owner,
    id: FieldId,
    kind: EntryKind,
    index: &[u16],
) -> EntryFound
    requires { Inside s.now index.now }
    ensures { result ≡ followed version owner id kind n s.now index.now }
{
    let h = head_of(s.len(), index.len(), id);
    let mut x = wide(index[h]);
    let mut i: u16 = 0;
    while i < n {
        if x == 0 {
            return EntryFound::Absent;
        }
        let d = Cursor { at: x };
        match read_head(s, version, d) {
            HeadRead::Is(o, j, k, g) => {
                if is_of(owner, id, kind, o, j, k) {
                    return EntryFound::At(g);
                }
            }
            HeadRead::Refused(_) => return EntryFound::Absent,
        }
        let y = x / 6;
        x = wide(index[y]);
        i += 1;
    }
    EntryFound::Absent
}

fn is_found(found: EntryFound) -> bool
    ensures { result ≡ is_found found }
{
    match found {
        EntryFound::At(_) => true,
        EntryFound::Absent => false,
    }
}

// `n` entries, of which none may have the id and the kind of an earlier one that counts for the same owner. An index of
// them is left behind.
pub fn read_entries(s: &[u8], version: TableVersion, n: u16, c: Cursor, index: &mut [u16]) -> Moved
    requires { (length s.now ≤ longest) × (0 < c.at) × (links (length s.now) < length index.old) }
    ensures value { result ≡ moved_of (entries version n [] s.now c.at) }
    ensures indexed { (e : Cursor) → result ≡ Moved.To e → Indexed version s.now n c.at index.new }
{
    clear(0, 0, index);
    let mut d = c;
    let mut i: u16 = 0;
    while i < n {
        match read_entry(s, version, d) {
            EntryRead::Is(owner, id, kind, _, e) => {
                let earlier = find_entry(s, version, i, owner, id, kind, index);
                if is_found(earlier) {
                    return Moved::Refused(5);
                }
                push(s.len(), d.at, id, index);
                d = e;
            }
            EntryRead::Refused(k) => return Moved::Refused(k),
        }
        i += 1;
    }
    Moved::To(d)
}

fn read_version(s: &[u8]) -> VersionRead
    ensures { version_res result ≡ table_version s.now 0 }
{
    if s.len() < 5 {
        return VersionRead::Refused(1);
    }
    if same_bytes(&s[..5], &SHARED) {
        return VersionRead::Is(TableVersion::Shared);
    }
    if same_bytes(&s[..5], &BY_OWNER) {
        return VersionRead::Is(TableVersion::ByOwner);
    }
    VersionRead::Refused(1)
}

// The rest of a table of this version, from the number of its entries on.
fn read_counted(s: &[u8], version: TableVersion, index: &mut [u16]) -> TableRead
    requires { (length s.now ≤ longest) × (links (length s.now) < length index.old) }
    ensures value { result ≡ table_of (counted_table version s.now 5) }
    ensures indexed_table { IndexedTable s.now result index.new }
{
    let c = Cursor { at: 5 };
    match c.short(s) {
        Short::Is(n, d) => match read_entries(s, version, n, d, index) {
            Moved::To(e) => {
                if e.at == s.len() {
                    TableRead::Read {
                        version,
                        count: n,
                        entries: d,
                    }
                } else {
                    TableRead::Refused(6)
                }
            }
            Moved::Refused(k) => TableRead::Refused(k),
        },
        Short::Refused(k) => TableRead::Refused(k),
    }
}

// An index of the entries is left behind; there is room for it where it is longer than the links that the table needs.
pub fn read_table(s: &[u8], index: &mut [u16]) -> TableRead
    requires { length s.now ≤ longest → links (length s.now) < length index.old }
    ensures value { result ≡ table_of (table s.now) }
    ensures indexed_table { IndexedTable s.now result index.new }
{
    if LONGEST < s.len() {
        return TableRead::Refused(4);
    }
    match read_version(s) {
        VersionRead::Is(v) => read_counted(s, v, index),
        VersionRead::Refused(k) => TableRead::Refused(k),
    }
}
