// Whether a required field may stand at a place of what a selector gives. The place is followed back to a column or a
// constant; each selector is passed at most once.
ghost use Rattle.std.specs.Prelude.{◌≡◌};
ghost use Rattle.layout.specs.Tree.{fields_of};
ghost use Rattle.plan.specs.Nullness.{nullness_of};
ghost use Rattle.plan.specs.Marks.{givens};
ghost use Rattle.plan.specs.code.Skips.{Skips};
ghost use Rattle.overflow.specs.code.Ranges.{ColumnsIn};
ghost use Rattle.nullness.specs.code.Incoming.{IndexAt};
ghost use Rattle.nullness.specs.code.Nulls.{Nulls};
ghost use Rattle.nullness.specs.code.Places.{fills_at};
ghost use Rattle.nullness.specs.code.Stops.{Follows};

use crate::stop::{Stop, at_stop};
use layout::columns::ColumnRange;
use walk::walk::Walk;

pub fn follow(
    incoming: &[u8],
    columns: ColumnRange,
    index: &[u16],
    plan: &[u8],
    nulls: &[u64],
    w: Walk,
    skips: &[u16],
) -> bool
    requires skips { Skips plan.now skips.now }
    requires index_at { IndexAt incoming.now columns index.now × Nulls plan.now nulls.now }
    requires follows { (P : ColumnsIn incoming.now columns) × Follows plan.now w (fields_of P.columns) }
    ensures { (P : ColumnsIn incoming.now columns) (F : Follows plan.now w (fields_of P.columns)) → result ≡ fills_at (nullness_of (givens P.columns) F.selector) F.path }
{
    let mut x = w;
    loop {
        x = x.locate(plan, skips);
        match at_stop(incoming, columns, index, plan, nulls, x) {
            Stop::Passes => return true,
            Stop::Fails => return false,
            Stop::Input => {
                x = x.to_input();
            }
        }
    }
}
