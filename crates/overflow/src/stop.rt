// Where a walk through a plan stops: whether what is wanted is found there, or what is to be asked next.
ghost use Rattle.std.specs.Prelude.{◌≡◌, [], ◌≤◌, length};
ghost use Rattle.std.proofs.Math.Seq.{slice};
ghost use Rattle.ends.specs.code.Ends.{Ends};
ghost use Rattle.layout.specs.Tree.{dtype_of};
ghost use Rattle.layout.specs.code.Stands.{TypeAt};
ghost use Rattle.layout.specs.declared.edition.Edition.{Edition as EditionOf};
ghost use Rattle.layout.specs.Bytes.{Bytes};
ghost use Rattle.layout.specs.Limits.{deepest};
ghost use Rattle.plan.specs.Run.{value_at};
ghost use Rattle.plan.specs.Selector.{position};
ghost use Rattle.plan.specs.code.Skips.{Skips};
ghost use Rattle.nodes.specs.code.Raw.{RawAt};
ghost use Rattle.walk.specs.code.State.{State};
ghost use Rattle.walk.specs.code.Walks.{WalkAt};
ghost use Rattle.overflow.specs.code.Ranges.{RecordAt};
ghost use Rattle.overflow.specs.code.Want.{SmallWant};
ghost use Rattle.overflow.specs.code.Some.{some, SmallSearch, some_found};
ghost use Rattle.overflow.specs.code.Seek.{RawIn, answered, ran_stop, constant_stop, time_stop, cast_stop, struct_stop, list_stop, stop_of};

use crate::scan::{Search, Sought, some_at};
use crate::want::{Timed, Want, bounds_before, time_of};
use ends::local::fill_local;
use layout::columns::{ColumnRange, Position};
use layout::cursor::Cursor;
use layout::edition::Edition;
use layout::limits::DEEPEST;
use layout::types::Head;
use layout::walk::skip_type;
use nodes::raw::{NodeAt, column_value};
use values::constant::needs_table;
use walk::head::{SelectorHead, head, skip_by};
use walk::walk::Walk;

// Found or not; or to be asked of the input of the transform, or of the input of the innermost mapping.
#[derive(Clone, Copy)]
pub enum Stop {
    No,
    Yes,
    Input(Want),
    Outward(Want),
}

fn answer(found: bool) -> Stop
    ensures { result ≡ answered found }
{
    if found { Stop::Yes } else { Stop::No }
}

// In the record's column `k`, at a path.
fn in_column(
    lay: &[u8],
    columns: ColumnRange,
    rec: &[u8],
    k: u16,
    path: [u16; 64],
    len: usize,
    want: Want,
    table: &[u16],
) -> bool
    requires ends { Ends columns.edition lay.now table.now }
    requires record_at { RecordAt lay.now columns rec.now }
    requires len_in_bounds { (len ≤ length path) × SmallWant want }
    ensures { (X : RecordAt lay.now columns rec.now) → result ≡ some want (slice 0 len path) (value_at X.values.values k) }
{
    let v = columns.edition;
    match column_value(lay, v, columns.count, columns.first, rec, k, table) {
        NodeAt::At(t, c) => {
            let search = Search {
                sought: Sought::Present(want),
                path,
                from: 0,
                len,
            };
            some_at(lay, v, t, rec, c, search, table)
        }
        NodeAt::Null => false,
    }
}

// In a constant, whose long type stands at `t` and its value at `c`.
fn in_long_constant(plan: &[u8], t: Cursor, c: Cursor, search: Search) -> bool
    requires raw_at { RawAt EditionOf.One plan.now t.at plan.now c.at }
    requires small_search { SmallSearch search }
    ensures { (X : RawAt EditionOf.One plan.now t.at plan.now c.at) → result ≡ some_found search X.value.tree }
{
    let mut ends = [0u16; 4098];
    fill_local(plan, Edition::One, DEEPEST, t, c, &mut ends);
    some_at(plan, Edition::One, t, plan, c, search, &ends)
}

// In a constant, whose type stands at `t`.
pub fn in_constant(plan: &[u8], t: Cursor, search: Search) -> bool
    requires raw_in { RawIn plan.now t.at }
    requires small_search { SmallSearch search }
    ensures { (X : RawIn plan.now t.at) → result ≡ some_found search X.value.tree }
{
    let c = skip_type(plan, Edition::One, DEEPEST, t);
    if needs_table(plan, t, c, c) {
        return in_long_constant(plan, t, c, search);
    }
    let none: [u16; 1] = [0; 1];
    some_at(plan, Edition::One, t, plan, c, search, &none[..0])
}

// Of what is asked where a constant is found: whether it is run.
fn ran(plan: &[u8], w: Walk) -> Stop
    requires { (x : State) × WalkAt plan.now w x }
    ensures { (x : State) → WalkAt plan.now w x → result ≡ ran_stop x.frames }
{
    if w.deep == 0 {
        return Stop::Yes;
    }
    let m = w.maps[w.deep - 1] as usize;
    if plan[m] == 4 {
        Stop::Outward(Want::Parts)
    } else {
        Stop::Outward(Want::Element)
    }
}

// Before a cast to a date-time.
fn before_time(t: Timed, want: Want) -> Stop
    requires { SmallWant want }
    ensures { result ≡ time_stop t want }
{
    match t {
        Timed::In(c) => match want {
            Want::Parts => Stop::No,
            Want::Element => Stop::No,
            Want::Beyond(d, u) => Stop::Input(Want::Beyond(bounds_before(d, c, u), c)),
        },
        Timed::Never => Stop::No,
    }
}

// Before a cast to the type that stands at `t`.
fn before_cast(plan: &[u8], t: Cursor, want: Want) -> Stop
    requires type_at { TypeAt EditionOf.One deepest plan.now t.at }
    requires small_want { SmallWant want }
    ensures { (T : TypeAt EditionOf.One deepest plan.now t.at) → result ≡ cast_stop [] (dtype_of T.tree) want }
{
    match t.head(plan) {
        Head::Leaf(l, _) => {
            let leaf = l.leaf;
            before_time(time_of(leaf), want)
        }
        Head::Struct(_, _) => Stop::No,
        Head::List(_) => Stop::No,
        Head::Array(_, _) => Stop::No,
        Head::Refused(_) => Stop::Yes,
    }
}

fn before_struct(want: Want) -> Stop
    ensures { result ≡ struct_stop [] want }
{
    match want {
        Want::Parts => Stop::Input(Want::Parts),
        Want::Element => Stop::No,
        Want::Beyond(_, _) => Stop::No,
    }
}

fn before_list(want: Want) -> Stop
    ensures { result ≡ list_stop want }
{
    match want {
        Want::Parts => Stop::No,
        Want::Element => Stop::Input(Want::Element),
        Want::Beyond(_, _) => Stop::No,
    }
}

// ---- by the selector where the walk stands

fn at_position(
    lay: &[u8],
    columns: ColumnRange,
    rec: &[u8],
    k: Position,
    w: Walk,
    want: Want,
    table: &[u16],
) -> Stop
    requires ends { Ends columns.edition lay.now table.now }
    requires record_at { RecordAt lay.now columns rec.now }
    requires len_in_bounds { (w.len ≤ length w.path) × SmallWant want }
    ensures { (X : RecordAt lay.now columns rec.now) (plan : Bytes) (x : State) → WalkAt plan w x → x.selector ≡ position k → result ≡ stop_of X.values.values x want }
{
    if 0 < w.deep {
        return Stop::Yes;
    }
    let i = k.0;
    let path = w.path;
    let len = w.len;
    answer(in_column(lay, columns, rec, i, path, len, want, table))
}

// Whose type stands at `t`.
fn at_constant(plan: &[u8], t: Cursor, w: Walk, want: Want) -> Stop
    requires raw_in { RawIn plan.now t.at × ((x : State) × WalkAt plan.now w x) }
    requires small_want { SmallWant want }
    ensures { (X : RawIn plan.now t.at) (x : State) → WalkAt plan.now w x → result ≡ constant_stop (some want x.path X.value.tree) x.frames }
{
    let path = w.path;
    let search = Search {
        sought: Sought::Present(want),
        path,
        from: w.deep,
        len: w.len,
    };
    if in_constant(plan, t, search) {
        ran(plan, w)
    } else {
        Stop::No
    }
}

// Whose type stands at `t`.
fn at_cast(plan: &[u8], t: Cursor, w: Walk, want: Want) -> Stop
    requires type_at { TypeAt EditionOf.One deepest plan.now t.at }
    requires small_want { SmallWant want }
    ensures { (T : TypeAt EditionOf.One deepest plan.now t.at) (x : State) → WalkAt plan.now w x → result ≡ cast_stop x.path (dtype_of T.tree) want }
{
    if w.deep < w.len {
        return Stop::No;
    }
    before_cast(plan, t, want)
}

fn at_struct(w: Walk, want: Want) -> Stop
    ensures { (plan : Bytes) (x : State) → WalkAt plan w x → result ≡ struct_stop x.path want }
{
    if w.deep < w.len {
        return Stop::No;
    }
    before_struct(want)
}

pub fn at_stop(
    lay: &[u8],
    columns: ColumnRange,
    rec: &[u8],
    plan: &[u8],
    w: Walk,
    want: Want,
    table: &[u16],
    skips: &[u16],
) -> Stop
    requires skips { Skips plan.now skips.now }
    requires ends { Ends columns.edition lay.now table.now }
    requires record_at { RecordAt lay.now columns rec.now × ((x : State) × WalkAt plan.now w x) }
    requires small_want { SmallWant want }
    ensures { (X : RecordAt lay.now columns rec.now) (x : State) → WalkAt plan.now w x → result ≡ stop_of X.values.values x want }
{
    let c = Cursor { at: w.at };
    match head(plan, c) {
        SelectorHead::Position(k) => at_position(lay, columns, rec, k, w, want, table),
        SelectorHead::Constant(_, t) => at_constant(plan, t, w, want),
        SelectorHead::Cast(input) => at_cast(plan, skip_by(plan, input, skips), w, want),
        SelectorHead::Rename(_) => Stop::Input(want),
        SelectorHead::Struct(_) => at_struct(w, want),
        SelectorHead::List(_) => before_list(want),
        SelectorHead::Array(_) => before_list(want),
        SelectorHead::Refused => Stop::Yes,
    }
}
