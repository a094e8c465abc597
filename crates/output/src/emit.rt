// Writing what a selector gives, no further than the limit. Recursion goes as deep as the output's parts nest; fields
// and elements are loops.
ghost use Rattle.std.specs.Prelude.{◌≡◌, List, ◌+◌, ◌^◌, ◌≤◌, ◌<◌, length};
ghost use Rattle.ends.specs.code.Ends.{Ends};
ghost use Rattle.layout.specs.declared.edition.Edition.{Edition as EditionOf};
ghost use Rattle.layout.specs.declared.leaf.Leaf.{Leaf as LeafOf};
ghost use Rattle.layout.specs.Limits.{longest};
ghost use Rattle.values.specs.Encode.{encode_value};
ghost use Rattle.walk.specs.code.State.{State};
ghost use Rattle.walk.specs.code.Walks.{WalkAt};
ghost use Rattle.walk.specs.code.Values.{state_value};
ghost use Rattle.nodes.specs.code.Raw.{RawAt};
ghost use Rattle.plan.specs.code.Skips.{Skips};
ghost use Rattle.output.specs.code.Chain.{Passed, cast_all};
ghost use Rattle.raw.specs.code.Stored.{Stores};
ghost use Rattle.output.specs.code.Output.{Emits};
ghost use Rattle.output.specs.code.Answers.{EmitAt, Mapped, is_list};

use crate::casts::find_origin;
use crate::leaf::{Node, cast_leaf, put_raw};
use crate::parts::{is_constant_run, parts_count};
use crate::source::{Source, source_at};
use layout::columns::ColumnRange;
use layout::cursor::Cursor;
use layout::edition::Edition;
use layout::limits::LONGEST;
use nodes::raw::Parts;
use raw::copy::{copy_constant, put_lead, put_null};
use walk::child::{child_at, first_part, next_part};
use walk::walk::Walk;

// An index past the limit: the output is refused.
const PAST: usize = LONGEST + 1;

// Stores a part of a constant through the casts that `w` passes; behind a cast it is a leaf.
fn put_part(
    plan: &[u8],
    t: Cursor,
    c: Cursor,
    w: Walk,
    casts: usize,
    out: &mut [u8],
    k: usize,
    skips: &[u16],
) -> usize
    requires skips { Skips plan.now skips.now }
    requires raw_at { RawAt EditionOf.One plan.now t.at plan.now c.at }
    requires walk_at { (x : State) × WalkAt plan.now w x }
    requires plan_bound { k + 9 + length plan.now < 2 ^ 64 }
    ensures { (X : RawAt EditionOf.One plan.now t.at plan.now c.at) (x z : State) (ks : List LeafOf) → WalkAt plan.now w x → Passed x ks z → length ks ≡ casts → Stores out.old k (encode_value (cast_all ks X.value.tree)) result out.new }
{
    if casts == 0 {
        return copy_constant(plan, t, c, out, k);
    }
    let none: [u16; 1] = [0; 1];
    let node = Node {
        edition: Edition::One,
        data_type: t,
        value: c,
    };
    let cast = cast_leaf(plan, node, plan, plan, w, casts, skips);
    put_raw(plan, node, plan, cast, out, k, &none[..0])
}

// Whether the selector where the walk stands is a list mapping.
fn is_list(plan: &[u8], w: Walk) -> bool
    requires { w.at < length plan.now }
    ensures { (x : State) → WalkAt plan.now w x → is_list x.selector ≡ result }
{
    let at = w.at;
    if plan[at] == 5 {
        return true;
    }
    false
}

// A mapping with no path left: null, or its parts.
#[cycle(emit_emit_mapping)]
fn emit_mapping(
    lay: &[u8],
    columns: ColumnRange,
    rec: &[u8],
    plan: &[u8],
    w: Walk,
    out: &mut [u8],
    k: usize,
    table: &[u16],
    skips: &[u16],
) -> usize
    requires skips { Skips plan.now skips.now }
    requires ends { Ends columns.edition lay.now table.now }
    requires mapped { (A : EmitAt columns.edition lay.now columns.count columns.first.at rec.now plan.now w) × Mapped A.state }
    requires k_le_longest { k ≤ longest }
    ensures { (A : EmitAt columns.edition lay.now columns.count columns.first.at rec.now plan.now w) → Mapped A.state → Emits out.old k (encode_value (state_value A.row.values.values A.state)) result out.new }
{
    let Parts::Some(m) = parts_count(lay, columns, rec, plan, w, table, skips) else {
        return put_null(out, k);
    };
    let mut at = put_lead(is_list(plan, w), m, out, k);
    let mut c = first_part(plan, w, skips);
    let mut i: u32 = 0;
    while i < m {
        if LONGEST < at {
            return at;
        }
        let part = child_at(w, i as u16, c);
        at = emit(lay, columns, rec, plan, part, out, at, table, skips);
        c = next_part(plan, w, c, skips);
        i += 1;
    }
    at
}

// What the selector where the walk stands gives, from an index on; where it ends, or past the limit.
#[cycle(emit_emit_mapping)]
pub fn emit(
    lay: &[u8],
    columns: ColumnRange,
    rec: &[u8],
    plan: &[u8],
    w: Walk,
    out: &mut [u8],
    k: usize,
    table: &[u16],
    skips: &[u16],
) -> usize
    requires skips { Skips plan.now skips.now }
    requires ends { Ends columns.edition lay.now table.now }
    requires emit_at { EmitAt columns.edition lay.now columns.count columns.first.at rec.now plan.now w }
    requires k_le_longest { k ≤ longest }
    ensures { (A : EmitAt columns.edition lay.now columns.count columns.first.at rec.now plan.now w) → Emits out.old k (encode_value (state_value A.row.values.values A.state)) result out.new }
{
    let o = find_origin(plan, w, skips);
    let at = o.walk;
    let casts = o.casts;
    let v = columns.edition;
    match source_at(lay, columns, rec, plan, at, table, skips) {
        Source::Null => put_null(out, k),
        Source::Record(t, c) => {
            let node = Node {
                edition: v,
                data_type: t,
                value: c,
            };
            let cast = cast_leaf(lay, node, rec, plan, w, casts, skips);
            put_raw(lay, node, rec, cast, out, k, table)
        }
        Source::Constant(t, c) => {
            if is_constant_run(lay, columns, rec, plan, at, c, table, skips) {
                return put_part(plan, t, c, w, casts, out, k, skips);
            }
            put_null(out, k)
        }
        Source::Struct(_) => emit_mapping(lay, columns, rec, plan, at, out, k, table, skips),
        Source::List => emit_mapping(lay, columns, rec, plan, at, out, k, table, skips),
        Source::Array => emit_mapping(lay, columns, rec, plan, at, out, k, table, skips),
        Source::Refused => PAST,
    }
}
