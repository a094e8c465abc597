// Where a walk through a plan stops: whether a required field may stand there, or it is up to the input.
ghost use Rattle.std.specs.Prelude.{not, ◌≡◌, ◌≤◌, length};
ghost use Rattle.layout.specs.Bytes.{Bytes};
ghost use Rattle.plan.specs.Selector.{position};
ghost use Rattle.plan.specs.Marks.{givens};
ghost use Rattle.walk.specs.code.State.{State};
ghost use Rattle.walk.specs.code.Walks.{WalkAt};
ghost use Rattle.overflow.specs.code.Some.{some_sought};
ghost use Rattle.overflow.specs.code.Seek.{RawIn};
ghost use Rattle.overflow.specs.declared.scan.Sought.{Sought as SoughtOf};
ghost use Rattle.overflow.specs.code.Ranges.{ColumnsIn};
ghost use Rattle.nullness.specs.code.Incoming.{IndexAt};
ghost use Rattle.nullness.specs.code.Nulls.{Nulls};
ghost use Rattle.nullness.specs.code.Stops.{answered, input_stop, stop_of};

use crate::column::incoming_filled;
use crate::nulls::may_be_null;
use layout::columns::{ColumnRange, Position};
use layout::cursor::Cursor;
use overflow::scan::{Search, Sought};
use overflow::stop::in_constant;
use walk::head::{SelectorHead, head};
use walk::walk::Walk;

#[derive(Clone, Copy)]
pub enum Stop {
    Passes,
    Fails,
    Input,
}

fn answer(filled: bool) -> Stop
    ensures { result ≡ answered filled }
{
    if filled { Stop::Passes } else { Stop::Fails }
}

fn at_position(incoming: &[u8], columns: ColumnRange, index: &[u16], k: Position, w: Walk) -> Stop
    requires columns_in { ColumnsIn incoming.now columns }
    requires index_at { IndexAt incoming.now columns index.now }
    requires len_in_bounds { w.len ≤ length w.path }
    ensures { (P : ColumnsIn incoming.now columns) (plan : Bytes) (x : State) → WalkAt plan w x → x.selector ≡ position k → result ≡ stop_of (givens P.columns) x }
{
    if 0 < w.deep {
        return Stop::Fails;
    }
    let path = w.path;
    let len = w.len;
    answer(incoming_filled(incoming, columns, index, k, path, len))
}

// Whose type stands at `t`: no null may stand among the values at the path.
fn at_constant(plan: &[u8], nulls: &[u64], t: Cursor, w: Walk) -> Stop
    requires nulls { Nulls plan.now nulls.now }
    requires raw_in { RawIn plan.now t.at × ((x : State) × WalkAt plan.now w x) }
    ensures { (X : RawIn plan.now t.at) (x : State) → WalkAt plan.now w x → result ≡ answered (not (some_sought SoughtOf.Null x.path X.value.tree)) }
{
    let path = w.path;
    let from = w.deep;
    let len = w.len;
    if !may_be_null(plan, t, path, from, len, nulls) {
        return Stop::Passes;
    }
    let search = Search {
        sought: Sought::Null,
        path,
        from,
        len,
    };
    if in_constant(plan, t, search) {
        Stop::Fails
    } else {
        Stop::Passes
    }
}

// A cast, a rename or a mapping.
fn at_transform(w: Walk) -> Stop
    ensures { (plan : Bytes) (x : State) → WalkAt plan w x → result ≡ input_stop x.path }
{
    if w.deep < w.len {
        Stop::Passes
    } else {
        Stop::Input
    }
}

pub fn at_stop(
    incoming: &[u8],
    columns: ColumnRange,
    index: &[u16],
    plan: &[u8],
    nulls: &[u64],
    w: Walk,
) -> Stop
    requires columns_in { ColumnsIn incoming.now columns }
    requires index_at { IndexAt incoming.now columns index.now × Nulls plan.now nulls.now }
    requires walk_at { (x : State) × WalkAt plan.now w x }
    ensures { (P : ColumnsIn incoming.now columns) (x : State) → WalkAt plan.now w x → result ≡ stop_of (givens P.columns) x }
{
    let c = Cursor { at: w.at };
    match head(plan, c) {
        SelectorHead::Position(k) => at_position(incoming, columns, index, k, w),
        SelectorHead::Constant(_, t) => at_constant(plan, nulls, t, w),
        SelectorHead::Cast(_) => at_transform(w),
        SelectorHead::Rename(_) => at_transform(w),
        SelectorHead::Struct(_) => at_transform(w),
        SelectorHead::List(_) => at_transform(w),
        SelectorHead::Array(_) => at_transform(w),
        SelectorHead::Refused => Stop::Fails,
    }
}
