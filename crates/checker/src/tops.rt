// The check of a plan: the layouts, 30, each selector (31, 32), 33, and 55 last.
ghost use Rattle.std.specs.Prelude.{◌≡◌};
ghost use Rattle.layout.specs.Tree.{Fields, fields_of};
ghost use Rattle.layout.specs.code.Stands.{ColumnsAt};
ghost use Rattle.plan.specs.Selector.{Selectors};
ghost use Rattle.plan.specs.Check.{check};
ghost use Rattle.plan.specs.Nullness.{nullnesses_of};
ghost use Rattle.plan.specs.Marks.{givens, meets_all, check_marked};
ghost use Rattle.overflow.specs.code.Overflows.{PlanAt};
ghost use Rattle.checker.specs.code.Tops.{plan_checked, TopsAt};
ghost use Rattle.plan.specs.Calls.{check_plan_of};

use crate::each::check_each;
use crate::resolve::INDEX;
use index::columns::{index_columns, stride_of};
use infer::target::fits_target;
use layout::columns::ColumnRange;
use layout::cursor::Cursor;
use layout::edition::Edition;
use layout::limits::DEEPEST_SELECTOR;
use layout::read::{LayoutRead, read_layout};
use nullness::marks::meets_marks;
use plan::read::{PlanRead, read_plan, read_selectors};

// Passed, or the refusal's number and place.
#[derive(Clone, Copy)]
pub enum PlanChecked {
    Passed,
    Refused(u8, u16),
}

// The types of a plan that was read, over two layouts that were read.
fn check_types(
    incoming: &[u8],
    v: Edition,
    n: u16,
    plan: &[u8],
    count: u16,
    target: &[u8],
    vt: Edition,
    m: u16,
) -> PlanChecked
    requires tops_at { (Γ : Fields) × (ss : Selectors) × TopsAt incoming.now v n plan.now count 7 Γ ss }
    requires columns_at { ColumnsAt vt 16 target.now m 7 }
    ensures { (Γ : Fields) (ss : Selectors) (Q : ColumnsAt vt 16 target.now m 7) → TopsAt incoming.now v n plan.now count 7 Γ ss → result ≡ plan_checked (check Γ (fields_of Q.columns) ss) }
{
    if fits_target(incoming, v, n, plan, count, target, vt, m) {
        return PlanChecked::Passed;
    }
    let first = Cursor { at: 7 };
    let columns = ColumnRange {
        edition: vt,
        count: m,
        first,
    };
    let mut tables = [0u16; INDEX + 256];
    read_selectors(plan, DEEPEST_SELECTOR, count, first, &mut tables);
    let len = index_columns(incoming, v, n, first, stride_of(n), &mut tables[INDEX..]);
    check_each(
        incoming,
        v,
        n,
        plan,
        count,
        target,
        columns,
        &tables[..INDEX + len],
    )
}

// Whether no required place of the target meets one that can be null. Editions 1 and 2 have no required places.
fn meets_target(
    incoming: &[u8],
    v: Edition,
    n: u16,
    plan: &[u8],
    target: &[u8],
    vt: Edition,
    m: u16,
) -> bool
    requires { (P : ColumnsAt v 16 incoming.now n 7) × (D : ColumnsAt vt 16 target.now m 7) × PlanAt plan.now 7 (fields_of P.columns) (fields_of D.columns) }
    ensures { (P : ColumnsAt v 16 incoming.now n 7) (D : ColumnsAt vt 16 target.now m 7) (S : PlanAt plan.now 7 (fields_of P.columns) (fields_of D.columns)) → result ≡ meets_all (nullnesses_of (givens P.columns) S.selectors.trees) D.columns }
{
    match vt {
        Edition::One => true,
        Edition::Two => true,
        Edition::Three => meets_marks(incoming, v, n, plan, target, vt, m),
    }
}

// A plan that was read, over two layouts that were read.
pub fn check_read(
    incoming: &[u8],
    v: Edition,
    n: u16,
    plan: &[u8],
    count: u16,
    target: &[u8],
    vt: Edition,
    m: u16,
) -> PlanChecked
    requires tops_at { (L : ColumnsAt v 16 incoming.now n 7) × (ss : Selectors) × TopsAt incoming.now v n plan.now count 7 (fields_of L.columns) ss }
    requires columns_at { ColumnsAt vt 16 target.now m 7 }
    ensures { (L : ColumnsAt v 16 incoming.now n 7) (ss : Selectors) (Q : ColumnsAt vt 16 target.now m 7) → TopsAt incoming.now v n plan.now count 7 (fields_of L.columns) ss → result ≡ plan_checked (check_marked L.columns Q.columns ss) }
{
    match check_types(incoming, v, n, plan, count, target, vt, m) {
        PlanChecked::Passed => {
            if meets_target(incoming, v, n, plan, target, vt, m) {
                PlanChecked::Passed
            } else {
                PlanChecked::Refused(55, 0)
            }
        }
        PlanChecked::Refused(j, k) => PlanChecked::Refused(j, k),
    }
}

pub fn check_plan(incoming: &[u8], target: &[u8], plan: &[u8]) -> PlanChecked
    ensures { result ≡ plan_checked (check_plan_of incoming.now target.now plan.now) }
{
    match read_layout(incoming) {
        LayoutRead::Read {
            edition: v,
            count: n,
            columns: _,
        } => match read_layout(target) {
            LayoutRead::Read {
                edition: vt,
                count: m,
                columns: _,
            } => match read_plan(plan) {
                PlanRead::Read(count, _) => check_read(incoming, v, n, plan, count, target, vt, m),
                PlanRead::Refused(k) => PlanChecked::Refused(k, 0),
            },
            LayoutRead::Refused(k) => PlanChecked::Refused(k, 2),
        },
        LayoutRead::Refused(k) => PlanChecked::Refused(k, 1),
    }
}
