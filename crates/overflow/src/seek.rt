// Whether a node of a selector's result is such as is wanted, at a path that takes every element of the lists and
// arrays it goes through.
//
// The walk goes back from the result to a column of the record or to a constant. A cast changes what is wanted of its
// input. A constant answers for itself; then it only has to be found out whether it is run at all, which is asked of
// the input of the innermost mapping. Each selector is passed at most once, whatever the length of the result.
ghost use Rattle.std.specs.Prelude.{◌≡◌};
ghost use Rattle.ends.specs.code.Ends.{Ends};
ghost use Rattle.layout.specs.Tree.{fields_of};
ghost use Rattle.plan.specs.Run.{eval};
ghost use Rattle.plan.specs.code.Skips.{Skips};
ghost use Rattle.overflow.specs.code.Ranges.{RecordAt};
ghost use Rattle.overflow.specs.code.Want.{SmallWant};
ghost use Rattle.overflow.specs.code.Some.{some};
ghost use Rattle.overflow.specs.code.Seek.{Seeks};

use crate::stop::{Stop, at_stop};
use crate::want::Want;
use layout::columns::ColumnRange;
use walk::walk::Walk;

pub fn seek(
    lay: &[u8],
    columns: ColumnRange,
    rec: &[u8],
    plan: &[u8],
    w: Walk,
    want: Want,
    table: &[u16],
    skips: &[u16],
) -> bool
    requires skips { Skips plan.now skips.now }
    requires ends { Ends columns.edition lay.now table.now }
    requires seeks { (X : RecordAt lay.now columns rec.now) × Seeks plan.now w (fields_of X.columns.columns) }
    requires small_want { SmallWant want }
    ensures { (X : RecordAt lay.now columns rec.now) (S : Seeks plan.now w (fields_of X.columns.columns)) → result ≡ some want S.path (eval X.values.values S.selector) }
{
    let mut x = w;
    let mut asks = want;
    loop {
        x = x.locate(plan, skips);
        match at_stop(lay, columns, rec, plan, x, asks, table, skips) {
            Stop::No => return false,
            Stop::Yes => return true,
            Stop::Input(next) => {
                x = x.to_input();
                asks = next;
            }
            Stop::Outward(next) => {
                x = x.outward();
                asks = next;
            }
        }
    }
}
