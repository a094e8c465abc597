// A plan's selectors one after another: the single pass of `infer` where it settles one, else the general way for that
// selector alone.
ghost use Rattle.std.specs.Prelude.{◌≡◌, Bool, ◌&&◌, ◌-◌};
ghost use Rattle.layout.specs.Limits.{deepest};
ghost use Rattle.layout.specs.Tree.{Fields, fields_of};
ghost use Rattle.layout.specs.code.Stands.{ColumnsAt};
ghost use Rattle.plan.specs.Selector.{Selectors};
ghost use Rattle.plan.specs.Check.{Column, check};
ghost use Rattle.index.specs.code.Indexed.{stride_of, Indexed};
ghost use Rattle.checker.specs.code.TypesAt.{NamedAt};
ghost use Rattle.checker.specs.code.Tables.{Tables};
ghost use Rattle.checker.specs.code.Tops.{plan_checked, TopAt, TopsAt, same_first, NextColumns, FitsTop, TopIs};

use crate::resolve::INDEX;
use crate::same::{Ends, same_column};
use crate::selector::{Checked, check_selector};
use crate::tops::PlanChecked;
use direct::fit::{FitEnd, TargetPlace};
use direct::scope::{Scope, Source};
use index::columns::stride_of;
use infer::target::fit_top;
use layout::columns::ColumnRange;
use layout::cursor::{Cursor, Moved};
use layout::edition::Edition;
use layout::limits::{DEEPEST, LONGEST, LONGEST_PLAN};
use layout::pass::{pass_label, pass_type};
use nodes::places::TypePlace;
use walk::head::skip_by;
use walk::walk::{Walk, top};

// A top selector passes: where it ends, where the target's next column stands, and whether all columns up to here are
// the target's. Or the number of its refusal.
#[derive(Clone, Copy)]
pub enum Top {
    Passed(Cursor, Cursor, bool),
    Refused(u8),
}

// How many of `m` are left after `k`.
fn left_of(m: u16, k: u16) -> u16
    ensures { result ≡ m - k }
{
    if m < k { 0 } else { m - k }
}

// Where the columns after the first stand.
fn next_column(target: &[u8], columns: ColumnRange) -> Cursor
    ensures { (Q : ColumnsAt columns.edition deepest target.now columns.count columns.first.at) → NextColumns Q result.at }
{
    let v = columns.edition;
    let c = columns.first;
    if columns.count == 0 {
        return c;
    }
    match pass_label(target, v, c) {
        Moved::To(d) => match pass_type(target, v, DEEPEST, d) {
            Moved::To(e) => e,
            Moved::Refused(_) => c,
        },
        Moved::Refused(_) => c,
    }
}

// Whether the single pass says that the selector at `c` gives the first of the target's columns.
// `fit_top` has large buffers: called here and in `infer`, it is put in line in neither, so that they are gone before
// the general way begins (`compare/c/stack`).
fn fit_first(
    incoming: &[u8],
    v: Edition,
    n: u16,
    index: &[u16],
    plan: &[u8],
    c: Cursor,
    target: &[u8],
    columns: ColumnRange,
) -> FitEnd
    requires top_at { (Γ : Fields) × TopAt incoming.now v n plan.now c.at Γ }
    requires columns_at { ColumnsAt columns.edition deepest target.now columns.count columns.first.at }
    requires indexed { Indexed v incoming.now n 7 (stride_of n) index.now }
    ensures { (Γ : Fields) (T : TopAt incoming.now v n plan.now c.at Γ) (Q : ColumnsAt columns.edition deepest target.now columns.count columns.first.at) → FitsTop T Q result }
{
    if columns.count == 0 {
        return FitEnd::Unknown;
    }
    if LONGEST < target.len() {
        return FitEnd::Unknown;
    }
    if LONGEST_PLAN < incoming.len() {
        return FitEnd::Unknown;
    }
    let scope = Scope::Columns(n, Cursor { at: 7 });
    let stride = stride_of(n);
    let source = Source {
        edition: v,
        scope,
        stride,
    };
    let edition = columns.edition;
    let at = columns.first;
    let place = TargetPlace { edition, at };
    fit_top(incoming, source, index, plan, c, target, place)
}

// Whether all columns up to here are the target's, if those before are: the next is the one that the selector where the
// walk stands gives, and the first of `columns`. Nothing is compared once one differs.
fn still_same(
    incoming: &[u8],
    v: Edition,
    n: u16,
    plan: &[u8],
    w: Walk,
    target: &[u8],
    columns: ColumnRange,
    same: bool,
    tables: &[u16],
) -> bool
    requires tables { Tables incoming.now v n plan.now tables.now }
    requires named_at { (a : Column) × NamedAt incoming.now v n plan.now w a }
    requires columns_at { ColumnsAt columns.edition deepest target.now columns.count columns.first.at }
    ensures { (a : Column) (Q : ColumnsAt columns.edition deepest target.now columns.count columns.first.at) → NamedAt incoming.now v n plan.now w a → result ≡ (same && same_first a (fields_of Q.columns)) }
{
    if !same {
        return false;
    }
    if columns.count == 0 {
        return false;
    }
    let edition = columns.edition;
    let depth = DEEPEST;
    let at = columns.first;
    let place = TypePlace { edition, depth, at };
    match same_column(incoming, v, n, plan, w, target, place, tables) {
        Ends::At(_) => true,
        Ends::Differ => false,
    }
}

// The general way for the selector at `c`: 31, 32, and whether it gives the first of the target's columns.
fn check_top(
    incoming: &[u8],
    v: Edition,
    n: u16,
    plan: &[u8],
    c: Cursor,
    target: &[u8],
    columns: ColumnRange,
    same: bool,
    tables: &[u16],
) -> Top
    requires tables { Tables incoming.now v n plan.now tables.now }
    requires top_at { (Γ : Fields) × TopAt incoming.now v n plan.now c.at Γ }
    requires columns_at { ColumnsAt columns.edition deepest target.now columns.count columns.first.at }
    ensures { (Γ : Fields) (T : TopAt incoming.now v n plan.now c.at Γ) (Q : ColumnsAt columns.edition deepest target.now columns.count columns.first.at) → TopIs T Q same result }
{
    let e = skip_by(plan, c, tables);
    let w = top(c.at, e.at);
    match check_selector(incoming, v, n, plan, w, tables) {
        Checked::Passed => {
            let f = next_column(target, columns);
            let b = still_same(incoming, v, n, plan, w, target, columns, same, tables);
            Top::Passed(e, f, b)
        }
        Checked::Refused(j) => Top::Refused(j),
    }
}

// Refusals 31 and 32 at once, with the selector's number; 33 once all have passed.
pub fn check_each(
    incoming: &[u8],
    v: Edition,
    n: u16,
    plan: &[u8],
    count: u16,
    target: &[u8],
    columns: ColumnRange,
    tables: &[u16],
) -> PlanChecked
    requires tables { Tables incoming.now v n plan.now tables.now }
    requires tops_at { (Γ : Fields) × (ss : Selectors) × TopsAt incoming.now v n plan.now count 7 Γ ss }
    requires columns_at { ColumnsAt columns.edition deepest target.now columns.count columns.first.at }
    ensures { (Γ : Fields) (ss : Selectors) (Q : ColumnsAt columns.edition deepest target.now columns.count columns.first.at) → TopsAt incoming.now v n plan.now count 7 Γ ss → result ≡ plan_checked (check Γ (fields_of Q.columns) ss) }
{
    let vt = columns.edition;
    let m = columns.count;
    let mut d = Cursor { at: 7 };
    let mut b = columns.first;
    let mut same = true;
    let mut k: u16 = 0;
    while k < count {
        let left = left_of(m, k);
        let rest = ColumnRange {
            edition: vt,
            count: left,
            first: b,
        };
        match fit_first(incoming, v, n, &tables[INDEX..], plan, d, target, rest) {
            FitEnd::At(e, f) => {
                d = e;
                b = f;
            }
            FitEnd::Unknown => {
                match check_top(incoming, v, n, plan, d, target, rest, same, tables) {
                    Top::Passed(e, f, still) => {
                        d = e;
                        b = f;
                        same = still;
                    }
                    Top::Refused(j) => return PlanChecked::Refused(j, k),
                }
            }
        }
        k += 1;
    }
    if !same {
        return PlanChecked::Refused(33, 0);
    }
    if count < m {
        return PlanChecked::Refused(33, 0);
    }
    PlanChecked::Passed
}
