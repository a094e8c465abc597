// The value of a target column with no counterpart, as source 000's `build_iceberg_default_value` finds it, and the
// constant that holds it.
ghost use Rattle.std.specs.Prelude.{◌≡◌, ◌||◌, ℕ, ◌+◌, ◌*◌, ◌^◌, ◌≤◌, ◌<◌, length};
ghost use Rattle.store.specs.code.Overlay.{overlay};
ghost use Rattle.layout.specs.Tree.{leaf};
ghost use Rattle.layout.specs.Limits.{longest, longest_name};
ghost use Rattle.layout.specs.code.Answers.{leaf_at, SpanIn};
ghost use Rattle.layout.specs.code.Stands.{TypeAt, ColumnsAt};
ghost use Rattle.forms.specs.Same.{equal_types};
ghost use Rattle.values.specs.Value.{vnull};
ghost use Rattle.values.specs.Encode.{encode_value};
ghost use Rattle.values.specs.code.Stands.{ValueAt};
ghost use Rattle.defaults.specs.Lookup.{get_default_value};
ghost use Rattle.defaults.specs.code.Stands.{TableAt, IndexedTableAt};
ghost use Rattle.plan.specs.Result.{gives, demand};
ghost use Rattle.matching.specs.Default.{some, leaf_default};
ghost use Rattle.builder.specs.code.Answers.{MakesDefault, any_filled, is_default_refused, is_some_made, value_len, fills_made, failed_default, constant_made};
ghost use Rattle.builder.specs.code.Bundles.{FieldDefault, FieldsDefaults, PutMissing};

use crate::answer::{Made, both};
use crate::build::{Build, Column, Fields, Sought};
use crate::leaf::leaf_rule;
use crate::write::put_constant_head;
use defaults::lookup::{DefaultFieldValues, DefaultValue, get_default_value};
use defaults::types::read_leaf_value;
use layout::columns::{FieldId, Labelled};
use layout::cursor::{Cursor, Moved};
use layout::types::{Head, LeafType};
use layout::walk::skip_type;
use rules::outcome::Outcome;
use rules::policy::Policy;
use store::{copy, put};

// A refusal's number; no default, and a null was written; or the length of the value that was written, and whether no
// required field inside it is null.
#[derive(Clone, Copy)]
pub enum DefaultMade {
    Refused(u8),
    None,
    Some(usize, bool),
}

// The same for the values of a struct's fields: whether one has a default, whether no required one is null, and their
// length.
#[derive(Clone, Copy)]
pub enum DefaultsMade {
    Failed(u8),
    Done(bool, bool, usize),
}

fn is_default_refused(made: DefaultMade) -> bool
    ensures { result ≡ is_default_refused made }
{
    match made {
        DefaultMade::Refused(_) => true,
        DefaultMade::None => false,
        DefaultMade::Some(_, _) => false,
    }
}

fn is_some(made: DefaultMade) -> bool
    ensures { result ≡ is_some_made made }
{
    match made {
        DefaultMade::Refused(_) => false,
        DefaultMade::None => false,
        DefaultMade::Some(_, _) => true,
    }
}

// A null has one byte.
fn value_len(made: DefaultMade) -> usize
    ensures { result ≡ value_len made }
{
    match made {
        DefaultMade::Refused(_) => 0,
        DefaultMade::None => 1,
        DefaultMade::Some(n, _) => n,
    }
}

// No required field is null: neither this one, of which this is the mark, nor one inside its default.
fn fills_required(made: DefaultMade, required: bool) -> bool
    ensures { result ≡ fills_made required made }
{
    match made {
        DefaultMade::Refused(_) => true,
        DefaultMade::None => !required,
        DefaultMade::Some(_, filled) => filled,
    }
}

fn failed_default(made: DefaultMade) -> DefaultsMade
    ensures { result ≡ failed_default made }
{
    match made {
        DefaultMade::Refused(n) => DefaultsMade::Failed(n),
        DefaultMade::None => DefaultsMade::Failed(0),
        DefaultMade::Some(_, _) => DefaultsMade::Failed(0),
    }
}

fn either(a: bool, b: bool) -> bool
    ensures { result ≡ (a || b) }
{
    if a { true } else { b }
}

// Equal leaf types are those whose pair is untouched, under any policy.
fn same_leaf_type(a: &[u8], l: LeafType, b: &[u8], m: LeafType) -> bool
    requires { SpanIn a.now l.zone × SpanIn b.now m.zone }
    ensures { result ≡ equal_types (leaf (leaf_at a.now l)) (leaf (leaf_at b.now m)) }
{
    match leaf_rule(Policy::all_on(), a, l, b, m) {
        Outcome::Untouched => true,
        Outcome::Refused(_) => false,
        Outcome::Cast(_) => false,
    }
}

fn put_none(out: &mut [u8], k: usize) -> DefaultMade
    ensures value { result ≡ DefaultMade.None }
    ensures out_after { out.new ≡ overlay out.old k (encode_value vnull) }
{
    put(out, k, 0);
    DefaultMade::None
}

// A value of the table, of the type `m`, for a field of the leaf type `u`.
fn put_taken(
    table: &[u8],
    m: LeafType,
    c: Cursor,
    target: &[u8],
    u: LeafType,
    out: &mut [u8],
    k: usize,
) -> DefaultMade
    requires span_in { SpanIn table.now m.zone × SpanIn target.now u.zone }
    requires value_at { ValueAt (leaf (leaf_at table.now m)) table.now c.at }
    requires table_len_bound { (length table.now ≤ longest) × (k + longest < 2 ^ 64) }
    ensures { (b e : ℕ) (P : ValueAt (leaf (leaf_at table.now m)) table.now c.at) → b < e → MakesDefault any_filled b e out.old k (demand (equal_types (leaf (leaf_at table.now m)) (leaf (leaf_at target.now u))) 28 (gives (some P.tree))) result out.new }
{
    if !same_leaf_type(table, m, target, u) {
        return DefaultMade::Refused(28);
    }
    match read_leaf_value(table, m, c) {
        Moved::To(d) => {
            copy(table, c.at, d.at, out, k);
            DefaultMade::Some(d.at - c.at, true)
        }
        Moved::Refused(n) => DefaultMade::Refused(n),
    }
}

// The default of a field of the leaf type `u`.
fn put_leaf_default(
    table: &[u8],
    index: &[u16],
    defaults: DefaultFieldValues,
    id: FieldId,
    target: &[u8],
    u: LeafType,
    out: &mut [u8],
    k: usize,
) -> DefaultMade
    requires indexed_table_at { IndexedTableAt table.now index.now defaults }
    requires span_in { SpanIn target.now u.zone }
    requires table_len_bound { (length table.now ≤ longest) × (k + longest < 2 ^ 64) }
    ensures { (b e : ℕ) (T : TableAt table.now defaults) → b < e → MakesDefault any_filled b e out.old k (leaf_default (leaf_at target.now u) (get_default_value T.entries defaults.source_index id)) result out.new }
{
    match get_default_value(table, index, defaults, id) {
        DefaultValue::Failed => DefaultMade::Refused(26),
        DefaultValue::Nothing => put_none(out, k),
        DefaultValue::At(m, c) => put_taken(table, m, c, target, u, out, k),
    }
}

// The default of a field; where there is none, a null.
#[cycle(build_iceberg_default_value_put_defaults)]
pub fn build_iceberg_default_value(
    build: Build,
    depth: u8,
    table: &[u8],
    index: &[u16],
    target: &[u8],
    column: Column,
    out: &mut [u8],
    k: usize,
) -> DefaultMade
    requires type_at { TypeAt build.target depth target.now column.cursor.at }
    requires indexed_table_at { IndexedTableAt table.now index.now build.defaults }
    requires table_len_bound { (length table.now ≤ longest) × (k + longest * length target.now < 2 ^ 64 + longest * column.cursor.at) }
    ensures { FieldDefault build depth table.now target.now column.label.id column.cursor out.old k result out.new }
{
    let defaults = build.defaults;
    let id = column.label.id;
    let b = column.cursor;
    match b.head(target) {
        Head::Leaf(u, _) => put_leaf_default(table, index, defaults, id, target, u, out, k),
        Head::Struct(count, first) => {
            put(out, k, 1);
            let fields = Fields { count, first };
            match put_defaults(build, depth - 1, table, index, target, fields, out, k + 1) {
                DefaultsMade::Failed(m) => DefaultMade::Refused(m),
                DefaultsMade::Done(any, filled, len) => {
                    if any {
                        return DefaultMade::Some(1 + len, filled);
                    }
                    put_none(out, k)
                }
            }
        }
        Head::List(_) => put_none(out, k),
        Head::Array(_, _) => put_none(out, k),
        Head::Refused(n) => DefaultMade::Refused(n),
    }
}

// The defaults of these fields, one after the other.
#[cycle(build_iceberg_default_value_put_defaults)]
fn put_defaults(
    build: Build,
    depth: u8,
    table: &[u8],
    index: &[u16],
    target: &[u8],
    fields: Fields,
    out: &mut [u8],
    k: usize,
) -> DefaultsMade
    requires columns_at { ColumnsAt build.target depth target.now fields.count fields.first.at }
    requires indexed_table_at { IndexedTableAt table.now index.now build.defaults }
    requires table_len_bound { (length table.now ≤ longest) × (k + longest * length target.now < 2 ^ 64 + longest * fields.first.at) }
    ensures { FieldsDefaults build depth table.now target.now fields out.old k result out.new }
{
    let v = build.target;
    let n = fields.count;
    let mut c = fields.first;
    let mut to = k;
    let mut any = false;
    let mut filled = true;
    let mut i: u16 = 0;
    while i < n {
        match c.label(target, v) {
            Labelled::Is(l, b) => {
                let column = Column {
                    label: l,
                    cursor: b,
                };
                let made = build_iceberg_default_value(
                    build, depth, table, index, target, column, out, to,
                );
                if is_default_refused(made) {
                    return failed_default(made);
                }
                c = skip_type(target, v, depth, b);
                to += value_len(made);
                any = either(any, is_some(made));
                filled = both(filled, fills_required(made, l.required));
            }
            Labelled::Refused(m) => return DefaultsMade::Failed(m),
        }
        i += 1;
    }
    DefaultsMade::Done(any, filled, to - k)
}

// What a constant comes to whose value was made behind `head` bytes.
fn constant_made(head: usize, made: DefaultMade) -> Made
    requires { head + value_len made < 2 ^ 64 }
    ensures { result ≡ constant_made head made }
{
    match made {
        DefaultMade::Refused(n) => Made::Refused(n),
        DefaultMade::None => Made::Built(head + 1),
        DefaultMade::Some(n, _) => Made::Built(head + n),
    }
}

// A target column with no counterpart: under Insert a constant of its default, or else of null; otherwise the refusal.
// 54 is tested once that default is worked out.
pub fn put_missing(
    build: Build,
    table: &[u8],
    index: &[u16],
    target: &[u8],
    sought: Sought,
    out: &mut [u8],
) -> Made
    requires span_in { SpanIn target.now sought.column.label.name × (sought.column.label.name.len ≤ longest_name) }
    requires type_at { TypeAt build.target sought.depth target.now sought.column.cursor.at }
    requires indexed_table_at { IndexedTableAt table.now index.now build.defaults }
    requires target_len_bound { (length target.now ≤ longest) × (length table.now ≤ longest) × (sought.k ≤ 65536 * sought.column.cursor.at) }
    ensures { PutMissing sought.missing build sought.depth table.now target.now sought.column out.old sought.k result out.new }
{
    if !sought.missing.insert {
        return Made::Refused(sought.missing.number);
    }
    let v = build.target;
    let column = sought.column;
    let name = column.label.name;
    let b = column.cursor;
    let head = put_constant_head(target, v, sought.depth, name, b, out, sought.k);
    let made = build_iceberg_default_value(
        build,
        sought.depth,
        table,
        index,
        target,
        column,
        out,
        sought.k + head,
    );
    if !fills_required(made, column.label.required) {
        return Made::Refused(54);
    }
    constant_made(head, made)
}
