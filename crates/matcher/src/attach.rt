// The type matcher and the field matcher call each other, the remaining depth falling. They write into a scratch buffer
// from an index on: a mapping that turns out to be left out is written over, and after a refusal nothing is said of the
// buffer.
ghost use Rattle.std.specs.Prelude.{◌≡◌, ◌+◌, ◌*◌, ◌≤◌, length, take};
ghost use Rattle.layout.specs.Limits.{longest, longest_name};
ghost use Rattle.layout.specs.code.Answers.{SpanIn};
ghost use Rattle.defaults.specs.code.Stands.{IndexedTableAt};
ghost use Rattle.builder.specs.code.Bundles.{TypesAt, RowsAt};
ghost use Rattle.matcher.specs.code.Contracts.{FieldsOverAt, PairAt, PairNamed, SoughtAt, SoughtIn, StructRoom};
ghost use Rattle.matcher.specs.code.Contracts.{AttachedTypes, AttachedNested, AttachedStruct, AttachedRows, AttachedField};
ghost use Rattle.matcher.specs.code.Contracts.{AttachedPair, AttachedElement, AttachedInner};

use builder::answer::{
    Made, Row, both, failed, is_bare, is_refused, len_of, refused_row, unchanged,
};
use builder::build::{
    Build, Column, Fields, FieldsOver, Missing, Pair, Place, Rows, Sought, Types,
};
use builder::conditions::{
    inserts, is_null_incoming, keeps_required, needs_rename, put_null_cast, same_element,
    struct_fault,
};
use builder::default::put_missing;
use builder::fields::fill_fields;
use builder::leaf::attach_leaf;
use builder::parts::{
    ElementPart, InnerPart, StructPart, array_part, element_part, list_part, struct_part,
};
use builder::write::{put_head, put_position, put_short};
use defaults::lookup::DefaultFieldValues;
use defaults::read::TableVersion;
use forms::write::write_text;
use labels::{SiblingColumns, find_in};
use layout::columns::{Labelled, Position};
use layout::cursor::Cursor;
use layout::find::Found;
use layout::types::Head;
use layout::walk::skip_type;
use store::put;

// The type matcher: the target type over the incoming type, which has the place's position.
#[cycle(attach_element_attach_field_attach_fields_attach_inner_attach_nested_attach_renamed_attach_struct_attach_transforms)]
pub fn attach_transforms(
    build: Build,
    incoming: &[u8],
    table: &[u8],
    index: &[u16],
    target: &[u8],
    types: Types,
    out: &mut [u8],
    arena: &mut [u16],
) -> Made
    requires types_at { TypesAt build types incoming.now target.now }
    requires indexed_table_at { IndexedTableAt table.now index.now build.defaults }
    requires target_len_bound { (length target.now ≤ longest) × (length table.now ≤ longest) × (types.place.k ≤ 65536 * types.target.at + 1) }
    ensures { AttachedTypes build incoming.now table.now target.now types types.place out.old result out.new }
{
    let b = types.target;
    match b.head(target) {
        Head::Leaf(u, _) => attach_leaf(build, incoming, target, types, u, out),
        Head::Struct(_, _) => attach_nested(
            build, incoming, table, index, target, types, out, arena,
        ),
        Head::List(_) => attach_nested(build, incoming, table, index, target, types, out, arena),
        Head::Array(_, _) => attach_nested(
            build, incoming, table, index, target, types, out, arena,
        ),
        Head::Refused(_) => Made::Refused(24),
    }
}

// The same for a target that is no leaf.
#[cycle(attach_element_attach_field_attach_fields_attach_inner_attach_nested_attach_renamed_attach_struct_attach_transforms)]
fn attach_nested(
    build: Build,
    incoming: &[u8],
    table: &[u8],
    index: &[u16],
    target: &[u8],
    types: Types,
    out: &mut [u8],
    arena: &mut [u16],
) -> Made
    requires types_at { TypesAt build types incoming.now target.now }
    requires indexed_table_at { IndexedTableAt table.now index.now build.defaults }
    requires target_len_bound { (length target.now ≤ longest) × (length table.now ≤ longest) × (types.place.k ≤ 65536 * types.target.at + 1) }
    ensures { AttachedNested build incoming.now table.now target.now types types.place out.old result out.new }
{
    let how = build.matching;
    let w = build.target;
    let c = types.incoming;
    let b = types.target;
    let place = types.place;
    if is_null_incoming(how, incoming, c) {
        return put_null_cast(
            build.policy,
            w,
            types.depth,
            target,
            b,
            place.position,
            out,
            place.k,
        );
    }
    match struct_part(target, b) {
        StructPart::Is(count, first) => {
            let over = FieldsOver {
                depth: types.depth,
                incoming: c,
                target: Fields { count, first },
                place,
            };
            attach_struct(build, incoming, table, index, target, over, out, arena)
        }
        StructPart::Mismatch => attach_inner(build, incoming, index, target, types, out, arena),
    }
}

// A struct target, whose fields are these.
#[cycle(attach_element_attach_field_attach_fields_attach_inner_attach_nested_attach_renamed_attach_struct_attach_transforms)]
fn attach_struct(
    build: Build,
    incoming: &[u8],
    table: &[u8],
    index: &[u16],
    target: &[u8],
    over: FieldsOver,
    out: &mut [u8],
    arena: &mut [u16],
) -> Made
    requires fields_over_at { FieldsOverAt build over incoming.now target.now }
    requires indexed_table_at { IndexedTableAt table.now index.now build.defaults }
    requires struct_room { StructRoom over over.place table.now target.now }
    ensures { AttachedStruct build incoming.now table.now target.now over over.place out.old result out.new }
{
    let StructPart::Is(n, d) = struct_part(incoming, over.incoming) else {
        return Made::Refused(24);
    };
    let fields = over.target;
    let place = over.place;
    let rows = Rows {
        depth: over.depth - 1,
        incoming: Fields { count: n, first: d },
        target: fields,
        k: place.k + 6,
    };
    let fault = struct_fault(build, incoming, target, rows, arena);
    if fault != 0 {
        return Made::Refused(fault);
    }
    let position = place.position;
    put_head(out, place.k, 4, position);
    put_short(out, place.k + 4, over.target.count);
    let row = attach_fields(build, incoming, table, index, target, rows, out, arena);
    let Row::Done(same, len) = row else {
        return refused_row(row);
    };
    if unchanged(n, over.target.count, same) {
        put_position(out, place.k, position);
        return Made::Bare(position);
    }
    Made::Built(6 + len)
}

// The field matcher: the target's fields over the incoming fields. A table of the incoming fields stands at the start
// of the arena where the target's are many. A loop, so that 65,535 fields take no stack.
#[cycle(attach_element_attach_field_attach_fields_attach_inner_attach_nested_attach_renamed_attach_struct_attach_transforms)]
fn attach_fields(
    build: Build,
    incoming: &[u8],
    table: &[u8],
    index: &[u16],
    target: &[u8],
    rows: Rows,
    out: &mut [u8],
    arena: &mut [u16],
) -> Row
    requires rows_at { RowsAt build rows incoming.now target.now }
    requires indexed_table_at { IndexedTableAt table.now index.now build.defaults }
    requires target_len_bound { (length target.now ≤ longest) × (length table.now ≤ longest) × (rows.k ≤ 65536 * rows.target.first.at) }
    ensures { AttachedRows build incoming.now table.now target.now rows rows.k out.old result out.new }
{
    let how = build.matching;
    let v = build.incoming;
    let w = build.target;
    let among = rows.incoming;
    let count = rows.target.count;
    let used = fill_fields(how, v, rows.depth, incoming, among, count, arena);
    let policy = build.policy;
    let missing = policy.missing_struct_fields;
    let insert = inserts(missing);
    let mut c = rows.target.first;
    let mut i: u16 = 0;
    let mut to = rows.k;
    let mut same = true;
    while i < count {
        match c.label(target, w) {
            Labelled::Is(l, next) => {
                let sought = Sought {
                    depth: rows.depth,
                    among,
                    used,
                    column: Column {
                        label: l,
                        cursor: next,
                    },
                    missing: Missing { insert, number: 14 },
                    k: to,
                };
                let made = attach_field(build, incoming, table, index, target, sought, out, arena);
                if is_refused(made) {
                    return failed(made);
                }
                same = both(same, is_bare(made, i));
                to += len_of(made);
                c = skip_type(target, w, rows.depth, next);
            }
            Labelled::Refused(_) => return Row::Failed(0),
        }
        i += 1;
    }
    Row::Done(same, to - rows.k)
}

// One target column over its counterpart among the incoming columns, or the column that is missing. What is behind the
// table of these in the arena is lent to the types. `build_column_selector` is this with 11.
#[cycle(attach_element_attach_field_attach_fields_attach_inner_attach_nested_attach_renamed_attach_struct_attach_transforms)]
pub fn attach_field(
    build: Build,
    incoming: &[u8],
    table: &[u8],
    index: &[u16],
    target: &[u8],
    sought: Sought,
    out: &mut [u8],
    arena: &mut [u16],
) -> Made
    requires sought_at { SoughtAt build sought incoming.now target.now }
    requires indexed_table_at { IndexedTableAt table.now index.now build.defaults }
    requires span_in { SpanIn target.now sought.column.label.name × (sought.column.label.name.len ≤ longest_name) }
    requires target_len_bound { (length target.now ≤ longest) × (length table.now ≤ longest) × (sought.k ≤ 65536 * sought.column.cursor.at) }
    requires sought_in { SoughtIn build sought incoming.now arena.old }
    ensures attached_field { AttachedField build incoming.now table.now target.now sought sought.k out.old result out.new }
    ensures arena_unchanged { take sought.used arena.new ≡ take sought.used arena.old }
{
    let matching = build.matching;
    let edition = build.incoming;
    let first = sought.among.first;
    let columns = SiblingColumns {
        edition,
        matching,
        depth: sought.depth,
        count: sought.among.count,
        first,
    };
    let used = sought.used;
    let column = sought.column;
    let l = column.label;
    match find_in(incoming, columns, &arena[..used], target, l) {
        Found::At(position, label, cursor) => {
            let pair = Pair {
                depth: sought.depth,
                incoming: Column { label, cursor },
                target: column,
                place: Place {
                    position,
                    k: sought.k,
                },
            };
            attach_renamed(
                build,
                incoming,
                table,
                index,
                target,
                pair,
                out,
                &mut arena[used..],
            )
        }
        Found::Absent => put_missing(build, table, index, target, sought, out),
    }
}

// The type matcher with a rename outside, where the labels ask for one. 55 is tested before the types.
#[cycle(attach_element_attach_field_attach_fields_attach_inner_attach_nested_attach_renamed_attach_struct_attach_transforms)]
fn attach_renamed(
    build: Build,
    incoming: &[u8],
    table: &[u8],
    index: &[u16],
    target: &[u8],
    pair: Pair,
    out: &mut [u8],
    arena: &mut [u16],
) -> Made
    requires pair_at { PairAt build pair incoming.now target.now }
    requires indexed_table_at { IndexedTableAt table.now index.now build.defaults }
    requires pair_named { PairNamed pair incoming.now target.now }
    requires target_len_bound { (length target.now ≤ longest) × (length table.now ≤ longest) × (pair.place.k ≤ 65536 * pair.target.cursor.at) }
    ensures { AttachedPair build incoming.now table.now target.now pair pair.place out.old result out.new }
{
    let column = pair.incoming;
    if !keeps_required(incoming, column, pair.target.label.required) {
        return Made::Refused(55);
    }
    let how = build.matching;
    let c = pair.incoming.cursor;
    let b = pair.target.cursor;
    let place = pair.place;
    let mut types = Types {
        depth: pair.depth,
        incoming: c,
        target: b,
        place,
    };
    let m = pair.incoming.label;
    let l = pair.target.label;
    if !needs_rename(how, incoming, m, target, l) {
        return attach_transforms(build, incoming, table, index, target, types, out, arena);
    }
    put(out, place.k, 3);
    let position = place.position;
    let inner = Place {
        position,
        k: place.k + 1,
    };
    types.place = inner;
    let made = attach_transforms(build, incoming, table, index, target, types, out, arena);
    if is_refused(made) {
        return made;
    }
    let len = len_of(made);
    let name = l.name;
    let n = write_text(target, name, out, place.k + 1 + len);
    Made::Built(1 + len + n)
}

// Two lists or two arrays of one width, of which these are the elements; the mapping has this code. Inside elements
// there are no defaults: a table of no entries, which stands in any bytes.
#[cycle(attach_element_attach_field_attach_fields_attach_inner_attach_nested_attach_renamed_attach_struct_attach_transforms)]
fn attach_element(
    mut build: Build,
    code: u8,
    incoming: &[u8],
    index: &[u16],
    target: &[u8],
    mut pair: Pair,
    out: &mut [u8],
    arena: &mut [u16],
) -> Made
    requires pair_at { PairAt build pair incoming.now target.now }
    requires pair_named { PairNamed pair incoming.now target.now }
    requires target_len_bound { (length target.now ≤ longest) × (pair.place.k + 4 ≤ 65536 * pair.target.cursor.at) }
    ensures { AttachedElement build code incoming.now target.now pair pair.place out.old result out.new }
{
    let how = build.matching;
    let i = pair.incoming.label.id;
    let j = pair.target.label.id;
    if !same_element(how, i, j) {
        return Made::Refused(25);
    }
    let place = pair.place;
    let position = place.position;
    put_head(out, place.k, code, position);
    let none = DefaultFieldValues {
        version: TableVersion::Shared,
        count: 0,
        entries: Cursor { at: 0 },
        owner: 0,
        source_index: 0,
    };
    build.defaults = none;
    let first = Place {
        position: Position(0),
        k: place.k + 4,
    };
    pair.place = first;
    let made = attach_renamed(build, incoming, target, index, target, pair, out, arena);
    if is_refused(made) {
        return made;
    }
    if is_bare(made, 0) {
        put_position(out, place.k, position);
        return Made::Bare(position);
    }
    Made::Built(4 + len_of(made))
}

// A target that is a list or an array.
#[cycle(attach_element_attach_field_attach_fields_attach_inner_attach_nested_attach_renamed_attach_struct_attach_transforms)]
fn attach_inner(
    build: Build,
    incoming: &[u8],
    index: &[u16],
    target: &[u8],
    types: Types,
    out: &mut [u8],
    arena: &mut [u16],
) -> Made
    requires types_at { TypesAt build types incoming.now target.now }
    requires target_len_bound { (length target.now ≤ longest) × (types.place.k ≤ 65536 * types.target.at + 1) }
    ensures { AttachedInner build incoming.now target.now types types.place out.old result out.new }
{
    let v = build.incoming;
    let w = build.target;
    let place = types.place;
    match element_part(target, w, types.target) {
        ElementPart::List(label, cursor) => {
            let element = Column { label, cursor };
            let InnerPart::Is(label, cursor) = list_part(incoming, v, types.incoming) else {
                return Made::Refused(24);
            };
            let pair = Pair {
                depth: types.depth - 1,
                incoming: Column { label, cursor },
                target: element,
                place,
            };
            attach_element(build, 5, incoming, index, target, pair, out, arena)
        }
        ElementPart::Array(width, label, cursor) => {
            let element = Column { label, cursor };
            let InnerPart::Is(label, cursor) = array_part(incoming, v, width, types.incoming) else {
                return Made::Refused(24);
            };
            let pair = Pair {
                depth: types.depth - 1,
                incoming: Column { label, cursor },
                target: element,
                place,
            };
            attach_element(build, 6, incoming, index, target, pair, out, arena)
        }
        ElementPart::Mismatch => Made::Refused(24),
    }
}
