// Where a value comes from: a column of the record, a constant of the plan, or a mapping.
ghost use Rattle.std.specs.Prelude.{◌≡◌, ◌≤◌, length};
ghost use Rattle.std.proofs.Math.Seq.{slice};
ghost use Rattle.ends.specs.code.Ends.{Ends};
ghost use Rattle.layout.specs.declared.edition.Edition.{Edition as EditionOf};
ghost use Rattle.plan.specs.Run.{value_at};
ghost use Rattle.walk.specs.code.State.{State};
ghost use Rattle.walk.specs.code.Stands.{SelectorAt};
ghost use Rattle.walk.specs.code.Parts.{StructAt};
ghost use Rattle.walk.specs.code.Walks.{WalkAt};
ghost use Rattle.walk.specs.code.Values.{value_node};
ghost use Rattle.nodes.specs.code.Raw.{RawAt, RowAt, NodeOf};
ghost use Rattle.raw.specs.code.Constant.{ConstantRaw};
ghost use Rattle.plan.specs.code.Skips.{Skips};
ghost use Rattle.output.specs.code.Chain.{ends, next};
ghost use Rattle.output.specs.code.Answers.{record_source, constant_source, StructSource, SourceIs};

use ends::local::fill_local;
use layout::columns::ColumnRange;
use layout::cursor::Cursor;
use layout::edition::Edition;
use layout::limits::DEEPEST;
use layout::walk::skip_type;
use nodes::raw::{NodeAt, column_value, value_at};
use values::constant::needs_table;
use walk::head::{SelectorHead, counted_at, head, skip_by};
use walk::walk::Walk;

// A value in the record, by its type in the layout; a constant's value, by its type in the plan; a mapping, of a struct
// with the number of its selectors. Null: the path leads nowhere. Refused: the walk does not end there.
#[derive(Clone, Copy)]
pub enum Source {
    Null,
    Record(Cursor, Cursor),
    Constant(Cursor, Cursor),
    Struct(u16),
    List,
    Array,
    Refused,
}

fn record_source(node: NodeAt) -> Source
    ensures { result ≡ record_source node }
{
    match node {
        NodeAt::Null => Source::Null,
        NodeAt::At(t, c) => Source::Record(t, c),
    }
}

fn constant_source(node: NodeAt) -> Source
    ensures { result ≡ constant_source node }
{
    match node {
        NodeAt::Null => Source::Null,
        NodeAt::At(t, c) => Source::Constant(t, c),
    }
}

// The column `k` of the record, at what is left of the path.
fn column_node(
    lay: &[u8],
    columns: ColumnRange,
    rec: &[u8],
    w: Walk,
    k: u16,
    table: &[u16],
) -> NodeAt
    requires ends { Ends columns.edition lay.now table.now }
    requires row_at { RowAt columns.edition lay.now columns.count columns.first.at rec.now 0 }
    requires deep_le_len { (w.deep ≤ w.len) × (w.len ≤ length w.path) }
    ensures { (X : RowAt columns.edition lay.now columns.count columns.first.at rec.now 0) → NodeOf columns.edition lay.now rec.now (value_node (value_at X.values.values k) (slice w.deep w.len w.path)) result }
{
    let v = columns.edition;
    let path = w.path;
    match column_value(lay, v, columns.count, columns.first, rec, k, table) {
        NodeAt::Null => NodeAt::Null,
        NodeAt::At(t, c) => value_at(lay, v, t, rec, c, path, w.deep, w.len, table),
    }
}

// The constant whose long type begins at `t` and its value at `c`, at what is left of the path.
fn long_constant_node(plan: &[u8], w: Walk, t: Cursor, c: Cursor) -> NodeAt
    requires raw_at { RawAt EditionOf.One plan.now t.at plan.now c.at }
    requires deep_le_len { (w.deep ≤ w.len) × (w.len ≤ length w.path) }
    ensures { (X : RawAt EditionOf.One plan.now t.at plan.now c.at) → NodeOf EditionOf.One plan.now plan.now (value_node X.value.tree (slice w.deep w.len w.path)) result }
{
    let mut ends = [0u16; 4098];
    let path = w.path;
    fill_local(plan, Edition::One, DEEPEST, t, c, &mut ends);
    value_at(plan, Edition::One, t, plan, c, path, w.deep, w.len, &ends)
}

// The constant whose type begins at `t`, at what is left of the path.
fn constant_node(plan: &[u8], w: Walk, t: Cursor) -> NodeAt
    requires constant_raw { ConstantRaw plan.now t.at }
    requires deep_le_len { (w.deep ≤ w.len) × (w.len ≤ length w.path) }
    ensures { (X : ConstantRaw plan.now t.at) → NodeOf EditionOf.One plan.now plan.now (value_node X.value.tree (slice w.deep w.len w.path)) result }
{
    let path = w.path;
    let c = skip_type(plan, Edition::One, DEEPEST, t);
    if needs_table(plan, t, c, c) {
        return long_constant_node(plan, w, t, c);
    }
    let none: [u16; 1] = [0; 1];
    value_at(
        plan,
        Edition::One,
        t,
        plan,
        c,
        path,
        w.deep,
        w.len,
        &none[..0],
    )
}

fn struct_source(plan: &[u8], w: Walk, input: Cursor, skips: &[u16]) -> Source
    requires { Skips plan.now skips.now }
    ensures { (P : SelectorAt plan.now w.at) → StructAt plan.now w.at P input.at → StructSource plan.now w P result }
{
    if w.deep < w.len {
        return Source::Null;
    }
    let f = counted_at(plan, skip_by(plan, input, skips));
    Source::Struct(f.count)
}

pub fn source_at(
    lay: &[u8],
    columns: ColumnRange,
    rec: &[u8],
    plan: &[u8],
    w: Walk,
    table: &[u16],
    skips: &[u16],
) -> Source
    requires skips { Skips plan.now skips.now }
    requires ends { Ends columns.edition lay.now table.now }
    requires row_at { RowAt columns.edition lay.now columns.count columns.first.at rec.now 0 }
    requires walk_at { (x : State) × WalkAt plan.now w x }
    ensures { (X : RowAt columns.edition lay.now columns.count columns.first.at rec.now 0) (x : State) → WalkAt plan.now w x → next x ≡ ends → SourceIs X.values.values columns.edition lay.now rec.now plan.now x result }
{
    let c = Cursor { at: w.at };
    match head(plan, c) {
        SelectorHead::Position(k) => {
            if w.deep == 0 {
                return record_source(column_node(lay, columns, rec, w, k.0, table));
            }
            Source::Null
        }
        SelectorHead::Constant(_, t) => constant_source(constant_node(plan, w, t)),
        SelectorHead::Cast(_) => Source::Refused,
        SelectorHead::Rename(_) => Source::Refused,
        SelectorHead::Struct(input) => struct_source(plan, w, input, skips),
        SelectorHead::List(_) => Source::List,
        SelectorHead::Array(_) => Source::Array,
        SelectorHead::Refused => Source::Refused,
    }
}
