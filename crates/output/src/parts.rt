// The number of parts of a value, and whether a selector inside entered mappings is run at all.
ghost use Rattle.std.specs.Prelude.{◌≡◌, List, ◌∷◌, ℕ, ◌+◌, ◌<◌};
ghost use Rattle.ends.specs.code.Ends.{Ends};
ghost use Rattle.layout.specs.Parser.{choose};
ghost use Rattle.values.specs.Value.{Value, vnull, Values};
ghost use Rattle.walk.specs.code.State.{Frame, State};
ghost use Rattle.walk.specs.code.Walks.{WalkAt};
ghost use Rattle.walk.specs.code.Values.{within, state_value};
ghost use Rattle.nodes.specs.code.Raw.{RowAt, parts_of};
ghost use Rattle.nodes.specs.declared.raw.Parts.{Parts as PartsOf};
ghost use Rattle.plan.specs.code.Skips.{Skips};
ghost use Rattle.output.specs.code.Chain.{ends, next};
ghost use Rattle.output.specs.code.Output.{answer};
ghost use Rattle.output.specs.code.Answers.{least_of, ConstantIs, StructIs, AskedIs};

use crate::casts::find_origin;
use crate::source::{Source, source_at};
use layout::columns::ColumnRange;
use layout::cursor::Cursor;
use layout::edition::Edition;
use nodes::raw::{Parts, parts_at};
use raw::copy::is_null;
use walk::walk::Walk;

// An answer; or what to ask of the selector's input, or of the innermost mapping's input: none unless there are so many
// parts, else the count that is known already.
#[derive(Clone, Copy)]
pub enum Asked {
    Answer(Parts),
    Input(u32, Parts),
    Outward(u32, Parts),
}

// What is asked of the parts `p`: none unless there are `least` of them; else their count, if none is known already.
fn meet(least: u32, own: Parts, p: Parts) -> Parts
    ensures { result ≡ answer least own p }
{
    match p {
        Parts::None => Parts::None,
        Parts::Some(c) => {
            if c < least {
                return Parts::None;
            }
            match own {
                Parts::None => Parts::Some(c),
                Parts::Some(d) => Parts::Some(d),
            }
        }
    }
}

// The elements up to `i`, and it.
fn up_to(i: u16) -> u32
    ensures { result ≡ i + 1 }
{
    (i as u32) + 1
}

// How many parts the innermost mapping's input must have, for what is inside to be run.
fn least_of(plan: &[u8], w: Walk) -> u32
    requires { ((x : State) × WalkAt plan.now w x) × (0 < w.deep) }
    ensures { (x : State) (f : Frame) (E : List Frame) → WalkAt plan.now w x → x.frames ≡ f ∷ E → result ≡ least_of f }
{
    let d = w.deep - 1;
    let m = w.maps[d] as usize;
    if plan[m] == 4 {
        return 0;
    }
    up_to(w.path[d])
}

// At a constant of whose parts `p` is the answer.
fn ask_constant(plan: &[u8], w: Walk, p: Parts) -> Asked
    requires { (x : State) × WalkAt plan.now w x }
    ensures { (ρ : Values) (x : State) (u : Value) (least : ℕ) (own : PartsOf) → WalkAt plan.now w x → state_value ρ x ≡ within ρ x.frames (λ σ. u) → p ≡ answer least own (parts_of u) → AskedIs ρ x least own result }
{
    match p {
        Parts::None => Asked::Answer(Parts::None),
        Parts::Some(c) => {
            if w.deep == 0 {
                return Asked::Answer(Parts::Some(c));
            }
            Asked::Outward(least_of(plan, w), Parts::Some(c))
        }
    }
}

// At a struct mapping of whose parts `p` is the answer, if its input has any.
fn ask_struct(p: Parts) -> Asked
    ensures { (ρ : Values) (x : State) (n least : ℕ) (own : PartsOf) → StructIs x n → p ≡ answer least own (PartsOf.Some n) → AskedIs ρ x least own result }
{
    match p {
        Parts::None => Asked::Answer(Parts::None),
        Parts::Some(c) => Asked::Input(0, Parts::Some(c)),
    }
}

fn ask_step(
    lay: &[u8],
    columns: ColumnRange,
    rec: &[u8],
    plan: &[u8],
    w: Walk,
    least: u32,
    own: Parts,
    table: &[u16],
    skips: &[u16],
) -> Asked
    requires skips { Skips plan.now skips.now }
    requires ends { Ends columns.edition lay.now table.now }
    requires row_at { RowAt columns.edition lay.now columns.count columns.first.at rec.now 0 }
    requires walk_at { (x : State) × WalkAt plan.now w x × (next x ≡ ends) }
    ensures { (X : RowAt columns.edition lay.now columns.count columns.first.at rec.now 0) (x : State) → WalkAt plan.now w x → next x ≡ ends → AskedIs X.values.values x least own result }
{
    let v = columns.edition;
    match source_at(lay, columns, rec, plan, w, table, skips) {
        Source::Null => Asked::Answer(Parts::None),
        Source::Record(t, c) => {
            let p = parts_at(lay, v, t, rec, c);
            Asked::Answer(meet(least, own, p))
        }
        Source::Constant(t, c) => {
            let p = parts_at(plan, Edition::One, t, plan, c);
            ask_constant(plan, w, meet(least, own, p))
        }
        Source::Struct(count) => ask_struct(meet(least, own, Parts::Some(count as u32))),
        Source::List => Asked::Input(least, own),
        Source::Array => Asked::Input(least, own),
        Source::Refused => Asked::Answer(Parts::None),
    }
}

// What is asked of the parts of the value where the walk stands.
pub fn ask(
    lay: &[u8],
    columns: ColumnRange,
    rec: &[u8],
    plan: &[u8],
    w: Walk,
    least: u32,
    own: Parts,
    table: &[u16],
    skips: &[u16],
) -> Parts
    requires skips { Skips plan.now skips.now }
    requires ends { Ends columns.edition lay.now table.now }
    requires row_at { RowAt columns.edition lay.now columns.count columns.first.at rec.now 0 }
    requires walk_at { (x : State) × WalkAt plan.now w x }
    ensures { (X : RowAt columns.edition lay.now columns.count columns.first.at rec.now 0) (x : State) → WalkAt plan.now w x → result ≡ answer least own (parts_of (state_value X.values.values x)) }
{
    let mut at = w;
    let mut m = least;
    let mut known = own;
    loop {
        let o = find_origin(plan, at, skips);
        let z = o.walk;
        match ask_step(lay, columns, rec, plan, z, m, known, table, skips) {
            Asked::Answer(p) => return p,
            Asked::Input(l, k) => {
                at = z.to_input();
                m = l;
                known = k;
            }
            Asked::Outward(l, k) => {
                at = z.outward();
                m = l;
                known = k;
            }
        }
    }
}

// The number of parts of the value where the walk stands.
pub fn parts_count(
    lay: &[u8],
    columns: ColumnRange,
    rec: &[u8],
    plan: &[u8],
    w: Walk,
    table: &[u16],
    skips: &[u16],
) -> Parts
    requires skips { Skips plan.now skips.now }
    requires ends { Ends columns.edition lay.now table.now }
    requires row_at { RowAt columns.edition lay.now columns.count columns.first.at rec.now 0 }
    requires walk_at { (x : State) × WalkAt plan.now w x }
    ensures { (X : RowAt columns.edition lay.now columns.count columns.first.at rec.now 0) (x : State) → WalkAt plan.now w x → result ≡ parts_of (state_value X.values.values x) }
{
    ask(lay, columns, rec, plan, w, 0, Parts::None, table, skips)
}

// Whether the selector where the walk stands is run at all: inside entered mappings, whether the innermost one's input
// has the part.
pub fn is_run(
    lay: &[u8],
    columns: ColumnRange,
    rec: &[u8],
    plan: &[u8],
    w: Walk,
    table: &[u16],
    skips: &[u16],
) -> bool
    requires skips { Skips plan.now skips.now }
    requires ends { Ends columns.edition lay.now table.now }
    requires row_at { RowAt columns.edition lay.now columns.count columns.first.at rec.now 0 }
    requires walk_at { (x : State) × WalkAt plan.now w x }
    ensures { (X : RowAt columns.edition lay.now columns.count columns.first.at rec.now 0) (x : State) (u : Value) → WalkAt plan.now w x → within X.values.values x.frames (λ σ. u) ≡ choose result u vnull }
{
    if w.deep == 0 {
        return true;
    }
    let least = least_of(plan, w);
    match ask(
        lay,
        columns,
        rec,
        plan,
        w.outward(),
        least,
        Parts::Some(0),
        table,
        skips,
    ) {
        Parts::None => false,
        Parts::Some(_) => true,
    }
}

// Whether the constant whose value is at `c` stands for itself where the walk stands: it is no null, and it is run.
pub fn is_constant_run(
    lay: &[u8],
    columns: ColumnRange,
    rec: &[u8],
    plan: &[u8],
    w: Walk,
    c: Cursor,
    table: &[u16],
    skips: &[u16],
) -> bool
    requires skips { Skips plan.now skips.now }
    requires ends { Ends columns.edition lay.now table.now }
    requires row_at { RowAt columns.edition lay.now columns.count columns.first.at rec.now 0 }
    requires walk_at { (x : State) × WalkAt plan.now w x }
    ensures { (X : RowAt columns.edition lay.now columns.count columns.first.at rec.now 0) (x : State) (t : ℕ) → WalkAt plan.now w x → (C : ConstantIs X.values.values plan.now x t c.at) → state_value X.values.values x ≡ choose result C.value vnull }
{
    if is_null(plan, c) {
        return false;
    }
    is_run(lay, columns, rec, plan, w, table, skips)
}
