// The output of a plan that one pass settles.
ghost use Rattle.std.specs.Prelude.{◌≡◌, ◌≤◌, length};
ghost use Rattle.ends.specs.code.Ends.{Ends};
ghost use Rattle.layout.specs.Limits.{longest, longest_plan};
ghost use Rattle.walk.specs.code.Stands.{SelectorsAt};
ghost use Rattle.nodes.specs.code.Raw.{RowAt};
ghost use Rattle.run.specs.code.Answers.{SinglePassIs};

use composed::whole::{Transferred, transfer_record};
use layout::columns::ColumnRange;
use output::write::{Written, hand_over};

// What was written; or one pass does not say, and nothing was.
#[derive(Clone, Copy)]
pub enum SinglePass {
    Is(Written),
    Unknown,
}

pub fn write_single_pass(
    lay: &[u8],
    columns: ColumnRange,
    rec: &[u8],
    plan: &[u8],
    count: u16,
    aside: &mut [u8],
    out: &mut [u8],
    ends: &[u16],
) -> SinglePass
    requires ends { Ends columns.edition lay.now ends.now }
    requires row_at { RowAt columns.edition lay.now columns.count 7 rec.now 0 }
    requires selectors_at { SelectorsAt plan.now count 7 }
    requires rec_len_bound { (length rec.now ≤ longest) × (length plan.now ≤ longest_plan) }
    requires longest_value { longest ≡ length aside.old }
    ensures { (X : RowAt columns.edition lay.now columns.count 7 rec.now 0) (S : SelectorsAt plan.now count 7) → SinglePassIs X.values.values S.trees out.old result out.new }
{
    let v = columns.edition;
    match transfer_record(lay, v, columns.count, rec, plan, count, aside, ends) {
        Transferred::To(len) => SinglePass::Is(hand_over(aside, len, out)),
        Transferred::Unknown => SinglePass::Unknown,
    }
}
