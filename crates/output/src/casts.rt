// From a selector to where its value comes from, past casts and renames, and the casts that are passed. Nothing
// recurses: a chain of casts can be long.
ghost use Rattle.std.specs.Prelude.{◌≡◌, List, ◌≤◌, length};
ghost use Rattle.layout.specs.code.Stands.{TypeAt};
ghost use Rattle.layout.specs.Tree.{dtype_of};
ghost use Rattle.layout.specs.declared.leaf.Leaf.{Leaf as LeafOf};
ghost use Rattle.layout.specs.declared.edition.Edition.{Edition as EditionOf};
ghost use Rattle.layout.specs.Limits.{deepest};
ghost use Rattle.plan.specs.Selector.{Selector};
ghost use Rattle.walk.specs.code.State.{State};
ghost use Rattle.walk.specs.code.Moves.{Stopped, Input};
ghost use Rattle.walk.specs.code.Walks.{WalkAt};
ghost use Rattle.walk.specs.code.Ends.{EndsAt};
ghost use Rattle.plan.specs.code.Skips.{Skips};
ghost use Rattle.output.specs.code.Chain.{Passed, Kept};
ghost use Rattle.output.specs.code.Answers.{cast_pass, PassIs, OnwardTo, OriginIs};

use layout::cursor::Cursor;
use layout::leaf::Leaf;
use layout::types::Head;
use walk::head::{SelectorHead, head};
use walk::inputs::{InputEnds, ends_with, no_ends};
use walk::walk::Walk;

// What a walk that no move is left of does next: it is where the value comes from, or goes on to the input, past a cast
// to a leaf kind or not.
#[derive(Clone, Copy)]
pub enum Pass {
    Ends,
    Goes,
    Casts(Leaf),
}

// Where the value comes from, and how many casts to leaf kinds were passed.
#[derive(Clone, Copy)]
pub struct Origin {
    pub casts: usize,
    pub walk: Walk,
}

// At a cast whose type begins at `t`, and no path is left.
fn pass_cast(plan: &[u8], t: Cursor) -> Pass
    ensures { (T : TypeAt EditionOf.One deepest plan.now t.at) → result ≡ cast_pass (dtype_of T.tree) }
{
    match t.head(plan) {
        Head::Leaf(l, _) => {
            let leaf = l.leaf;
            Pass::Casts(leaf)
        }
        Head::Struct(_, _) => Pass::Goes,
        Head::List(_) => Pass::Goes,
        Head::Array(_, _) => Pass::Goes,
        Head::Refused(_) => Pass::Ends,
    }
}

fn next_pass(plan: &[u8], w: Walk, ends: InputEnds, skips: &[u16]) -> Pass
    requires skips { Skips plan.now skips.now }
    requires ends_at { EndsAt plan.now ends }
    ensures { (x : State) → WalkAt plan.now w x → Stopped x → PassIs x result }
{
    let c = Cursor { at: w.at };
    match head(plan, c) {
        SelectorHead::Position(_) => Pass::Ends,
        SelectorHead::Constant(_, _) => Pass::Ends,
        SelectorHead::Cast(input) => {
            if w.deep < w.len {
                return Pass::Goes;
            }
            pass_cast(plan, ends.end_of(plan, input, skips))
        }
        SelectorHead::Rename(_) => Pass::Goes,
        SelectorHead::Struct(_) => Pass::Ends,
        SelectorHead::List(_) => Pass::Ends,
        SelectorHead::Array(_) => Pass::Ends,
        SelectorHead::Refused => Pass::Ends,
    }
}

// The table of ends for the next pass. The type of a cast stands behind its input, so that a chain of casts is read
// from the innermost outwards once.
fn ends_ahead(plan: &[u8], ends: InputEnds, w: Walk, skips: &[u16]) -> InputEnds
    requires skips { Skips plan.now skips.now }
    requires walk_at { (x : State) × WalkAt plan.now w x }
    requires ends_at { EndsAt plan.now ends }
    ensures { EndsAt plan.now result }
{
    let at = w.at;
    if plan[at] == 2 {
        return ends_with(plan, ends, Cursor { at: at + 1 }, skips);
    }
    ends
}

// To the input of a transform, and on until no move is left.
fn onward(plan: &[u8], w: Walk, skips: &[u16]) -> Walk
    requires skips { Skips plan.now skips.now }
    requires walk_at { (x : State) × (s : Selector) × WalkAt plan.now w x × Input x.selector s }
    ensures { (x : State) (s : Selector) → WalkAt plan.now w x → Input x.selector s → OnwardTo plan.now x s w result }
{
    let input = w.to_input();
    input.locate(plan, skips)
}

pub fn find_origin(plan: &[u8], w: Walk, skips: &[u16]) -> Origin
    requires skips { Skips plan.now skips.now }
    requires walk_at { (x : State) × WalkAt plan.now w x }
    ensures { (x : State) → WalkAt plan.now w x → OriginIs plan.now x w result }
{
    let mut at = w.locate(plan, skips);
    let mut ends = no_ends(0);
    let mut casts: usize = 0;
    loop {
        ends = ends_ahead(plan, ends, at, skips);
        match next_pass(plan, at, ends, skips) {
            Pass::Ends => {
                break;
            }
            Pass::Goes => {
                at = onward(plan, at, skips);
            }
            Pass::Casts(_) => {
                at = onward(plan, at, skips);
                casts += 1;
            }
        }
    }
    Origin { casts, walk: at }
}

// Of the first `i` casts passed the kinds of the last 1,024, from the innermost on.
pub fn last_kinds(plan: &[u8], w: Walk, i: usize, skips: &[u16]) -> [Leaf; 1024]
    requires skips { Skips plan.now skips.now }
    requires walk_at { (x : State) × WalkAt plan.now w x }
    ensures { (x z : State) (ks : List LeafOf) → WalkAt plan.now w x → Passed x ks z → i ≤ length ks → Kept ks i 0 result }
{
    let mut kinds = [Leaf::Null; 1024];
    let mut at = w.locate(plan, skips);
    let mut ends = no_ends(0);
    let mut left = i;
    while 0 < left {
        ends = ends_ahead(plan, ends, at, skips);
        match next_pass(plan, at, ends, skips) {
            Pass::Ends => return kinds,
            Pass::Goes => {
                at = onward(plan, at, skips);
            }
            Pass::Casts(kind) => {
                left -= 1;
                let place = left % 1024;
                kinds[place] = kind;
                at = onward(plan, at, skips);
            }
        }
    }
    kinds
}
