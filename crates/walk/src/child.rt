// The parts of a mapping, one after the other: where each stands, and the walk into the one that stands there.
ghost use Rattle.std.specs.Prelude.{◌≡◌, [], ◌∷◌, ℕ, ◌+◌, ◌<◌, length};
ghost use Rattle.layout.specs.Bytes.{Bytes};
ghost use Rattle.plan.specs.Selector.{Selector};
ghost use Rattle.plan.specs.code.Skips.{Skips};
ghost use Rattle.walk.specs.code.State.{Frame, State, state};
ghost use Rattle.walk.specs.code.Moves.{Part};
ghost use Rattle.walk.specs.code.Walks.{WalkAt, StepsTo};
ghost use Rattle.walk.specs.code.Children.{PartStands, PassedTo, Reached};

use crate::head::{counted_at, skip_by};
use crate::walk::Walk;
use layout::cursor::Cursor;

// Of the struct mapping where the walk stands.
pub fn first_child(plan: &[u8], w: Walk, skips: &[u16]) -> Cursor
    requires skips { Skips plan.now skips.now }
    requires at_bound { w.at < 65536 }
    ensures { PassedTo plan.now w.at 0 result.at }
{
    let d = skip_by(plan, Cursor { at: w.at + 1 }, skips);
    let f = counted_at(plan, d);
    f.first
}

// Of the mapping where the walk stands, of whichever kind.
pub fn first_part(plan: &[u8], w: Walk, skips: &[u16]) -> Cursor
    requires skips { Skips plan.now skips.now }
    requires at_bound { (w.at < 65536) × (w.at < length plan.now) }
    ensures { Reached plan.now w.at 0 result.at }
{
    let at = w.at;
    if plan[at] == 4 {
        return first_child(plan, w, skips);
    }
    skip_by(plan, Cursor { at: at + 1 }, skips)
}

// The part behind the one at `c`. A list or an array mapping has one selector for all its elements.
pub fn next_part(plan: &[u8], w: Walk, c: Cursor, skips: &[u16]) -> Cursor
    requires skips { Skips plan.now skips.now }
    requires at_in_bounds { w.at < length plan.now }
    ensures { (k : ℕ) → Reached plan.now w.at k c.at → PartStands plan.now w.at k c.at → Reached plan.now w.at (k + 1) result.at }
{
    let at = w.at;
    if plan[at] == 4 {
        return skip_by(plan, c, skips);
    }
    c
}

// At a mapping with no path left: into its part `k`, which stands at `c`.
pub fn child_at(w: Walk, k: u16, c: Cursor) -> Walk
    requires { (w.at < 65536) × (w.deep < 64) }
    ensures { (plan : Bytes) → PartStands plan w.at k c.at → (x : State) (f : Frame) (t : Selector) → WalkAt plan w x → x.path ≡ [] → Part x.selector k f t → StepsTo plan (state t (f ∷ x.frames) []) w result }
{
    let d = w.deep;
    let mut next = w;
    next.path[d] = k;
    next.len = d + 1;
    next.enter(c)
}
