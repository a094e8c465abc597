// Finding an id's default in a table that was read, as source 003's `get_default_value` does.
ghost use Rattle.std.specs.Prelude.{◌≡◌, ℕ};
ghost use Rattle.layout.specs.Tree.{leaf};
ghost use Rattle.layout.specs.code.Answers.{leaf_at, SpanIn};
ghost use Rattle.values.specs.code.Stands.{ValueAt, EachAt};
ghost use Rattle.defaults.specs.Lookup.{unless_null, of_source, given_to, get_default_value};
ghost use Rattle.defaults.specs.code.Stands.{TableAt, IndexedTableAt, GivenAt, LoadedAt, Answers};
ghost use Rattle.defaults.specs.declared.read.EntryKind.TheVariants.{Initial, Partition};

use crate::read::{EntryFound, EntryKind, TableVersion, find_entry, owner_in};
use crate::types::{LeafRead, read_leaf_type, read_leaf_values};
use layout::columns::FieldId;
use layout::cursor::{Cursor, Moved, Short, Step};
use layout::types::LeafType;
use values::leaf::{Presence, read_presence};

// The defaults of a build: by number those that a table that was read has for an owner, at a source index. With no
// entries there are none: so by name, and inside elements.
#[derive(Clone, Copy)]
pub struct DefaultFieldValues {
    pub version: TableVersion,
    pub count: u16,
    pub entries: Cursor,
    pub owner: u16,
    pub source_index: u32,
}

// 26, the values could not be loaded; no default; or a value's type and where the value begins, which is not null.
#[derive(Clone, Copy)]
pub enum DefaultValue {
    Failed,
    Nothing,
    At(LeafType, Cursor),
}

// A value, unless it is null.
fn unless_null(s: &[u8], l: LeafType, c: Cursor) -> DefaultValue
    requires span_in { SpanIn s.now l.zone }
    requires value_at { ValueAt (leaf (leaf_at s.now l)) s.now c.at }
    ensures { (P : ValueAt (leaf (leaf_at s.now l)) s.now c.at) → Answers s.now (unless_null (leaf_at s.now l) P.tree) result }
{
    match read_presence(s, c) {
        Presence::Null(_) => DefaultValue::Nothing,
        Presence::Present(_) => DefaultValue::At(l, c),
        Presence::Refused(_) => DefaultValue::Failed,
    }
}

// Of `n` values that of a source, counted from 0.
fn of_source(s: &[u8], l: LeafType, n: u16, c: Cursor, source_index: u32) -> DefaultValue
    requires span_in { SpanIn s.now l.zone }
    requires each_at { EachAt (leaf (leaf_at s.now l)) n s.now c.at }
    ensures { (P : EachAt (leaf (leaf_at s.now l)) n s.now c.at) → Answers s.now (of_source (leaf_at s.now l) P.values source_index) result }
{
    if (n as u32) <= source_index {
        return DefaultValue::Nothing;
    }
    match read_leaf_values(s, l, source_index, c) {
        Moved::To(d) => unless_null(s, l, d),
        Moved::Refused(_) => DefaultValue::Failed,
    }
}

fn initial_value(s: &[u8], c: Cursor) -> DefaultValue
    requires { GivenAt Initial s.now c.at }
    ensures { (k : ℕ) (P : GivenAt Initial s.now c.at) → Answers s.now (given_to k P.given) result }
{
    match read_leaf_type(s, c) {
        LeafRead::Is(l, d) => unless_null(s, l, d),
        LeafRead::Refused(_) => DefaultValue::Failed,
    }
}

fn loaded_value(s: &[u8], c: Cursor, source_index: u32) -> DefaultValue
    requires { LoadedAt s.now c.at }
    ensures { (P : LoadedAt s.now c.at) → Answers s.now (given_to source_index P.given) result }
{
    match read_leaf_type(s, c) {
        LeafRead::Is(l, d) => match d.short(s) {
            Short::Is(n, e) => of_source(s, l, n, e, source_index),
            Short::Refused(_) => DefaultValue::Failed,
        },
        LeafRead::Refused(_) => DefaultValue::Failed,
    }
}

fn partition_value(s: &[u8], c: Cursor, source_index: u32) -> DefaultValue
    requires { GivenAt Partition s.now c.at }
    ensures { (P : GivenAt Partition s.now c.at) → Answers s.now (given_to source_index P.given) result }
{
    match c.byte(s) {
        Step::Byte(b, d) => {
            if b == 0 {
                loaded_value(s, d, source_index)
            } else {
                DefaultValue::Failed
            }
        }
        Step::Refused(_) => DefaultValue::Failed,
    }
}

// A partition entry wins, and where it gives nothing no initial one is tried.
pub fn get_default_value(
    s: &[u8],
    index: &[u16],
    defaults: DefaultFieldValues,
    id: FieldId,
) -> DefaultValue
    requires { IndexedTableAt s.now index.now defaults }
    ensures { (P : TableAt s.now defaults) → Answers s.now (get_default_value P.entries defaults.source_index id) result }
{
    if defaults.count == 0 {
        return DefaultValue::Nothing;
    }
    let version = defaults.version;
    let n = defaults.count;
    let owner = owner_in(version, defaults.owner);
    match find_entry(s, version, n, owner, id, EntryKind::Partition, index) {
        EntryFound::At(c) => partition_value(s, c, defaults.source_index),
        EntryFound::Absent => match find_entry(
            s,
            version,
            n,
            owner,
            id,
            EntryKind::Initial,
            index,
        ) {
            EntryFound::At(c) => initial_value(s, c),
            EntryFound::Absent => DefaultValue::Nothing,
        },
    }
}
