// The type that a selector gives whose inputs are transforms: each input's type is written out and serves as the layout
// of the transform over it.
ghost use Rattle.std.specs.Prelude.{◌≤◌, length};
ghost use Rattle.layout.specs.Limits.{longest_plan, deepest};
ghost use Rattle.layout.specs.Bytes.{Bytes};
ghost use Rattle.plan.specs.Check.{type_of};
ghost use Rattle.walk.specs.code.Stands.{SelectorAt};
ghost use Rattle.direct.specs.code.Scopes.{SourceAt};
ghost use Rattle.infer.specs.code.Writing.{InferredIs};

use crate::form::Inferred;
use crate::over::{infer_leaf, infer_over};
use direct::input::{Input, input_of};
use direct::scope::Source;
use layout::cursor::Cursor;
use layout::edition::Edition;
use layout::limits::DEEPEST;

// The type of the selector at `c`, at the start of `out`. The types of its inputs take turns in the two buffers.
// What `out` held before is lost.
pub fn compose_type(
    s: &[u8],
    source: Source,
    index: &[u16],
    plan: &[u8],
    c: Cursor,
    levels: u8,
    out: &mut [u8],
    other: &mut [u8],
) -> Inferred
    requires source_at { SourceAt s.now source index.now }
    requires selector_at { SelectorAt plan.now c.at }
    requires s_len_bound { (length s.now ≤ longest_plan) × (length plan.now ≤ longest_plan) × (length out.old ≤ longest_plan) × (length other.old ≤ longest_plan) }
    ensures { (X : SourceAt s.now source index.now) (P : SelectorAt plan.now c.at) → (b : Bytes) × InferredIs (type_of X.fields P.tree) deepest b 0 result out.new }
{
    if levels == 0 {
        return Inferred::Unknown;
    }
    match input_of(plan, c) {
        Input::None => infer_leaf(s, source, index, plan, c, DEEPEST, out, 0),
        Input::At(input) => {
            let r = compose_type(s, source, index, plan, input, levels - 1, other, out);
            match r {
                Inferred::Is(_) => {
                    let start = Cursor { at: 0 };
                    infer_over(other, Edition::One, start, plan, c, DEEPEST, out, 0)
                }
                Inferred::Unknown => Inferred::Unknown,
            }
        }
    }
}
