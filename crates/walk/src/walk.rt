// A walk through nested selectors. The node of what a selector gives at a path is found by moving through the plan
// alone: entering a mapping takes a number off the path, a position leaves the innermost mapping and puts its number
// before the path into the mapping's input.
ghost use Rattle.std.specs.Prelude.{◌≡◌, List, [], ◌∷◌, ℕ, ◌+◌, ◌-◌, ◌<◌, ◌≤◌, length, get_or};
ghost use Rattle.layout.specs.Bytes.{Bytes};
ghost use Rattle.plan.specs.Selector.{Selector, position};
ghost use Rattle.plan.specs.Read.{longest_plan};
ghost use Rattle.plan.specs.code.Skips.{Skips};
ghost use Rattle.walk.specs.code.Stands.{SelectorAt};
ghost use Rattle.walk.specs.code.State.{Frame, input_of, State, state};
ghost use Rattle.walk.specs.code.Moves.{Input, Part, Mapping};
ghost use Rattle.walk.specs.code.Parts.{StructAt};
ghost use Rattle.walk.specs.code.Ends.{EndsAt};
ghost use Rattle.walk.specs.code.Walks.{WalkAt, Located, outward_of, PartIs, StepsTo, Enters, Leaves, MoveIs};

use crate::head::{SelectorHead, counted_at, head, nth_selector, skip_by};
use crate::inputs::{InputEnds, ends_for, no_ends};
use layout::columns::Position;
use layout::cursor::Cursor;

// The selector at `at` ends at or before `lim`, inside `deep` entered mappings, whose offsets `maps` has. `path` has
// the number of the part taken of each and after those, up to `len`, what is left of the path.
#[derive(Clone, Copy)]
pub struct Walk {
    pub at: usize,
    pub lim: usize,
    pub deep: usize,
    pub len: usize,
    pub maps: [u16; 64],
    pub path: [u16; 64],
}

// Where a mapping's part stands.
#[derive(Clone, Copy)]
pub enum PartFound {
    At(Cursor),
    None,
}

// To the input, into the part that stands there, out of a mapping by the number of a part of its input; or no move is
// left.
#[derive(Clone, Copy)]
pub enum Move {
    Input,
    Enter(Cursor),
    Leave(u16),
    Stop,
}

// At the selector of a column of the plan.
pub fn top(at: usize, lim: usize) -> Walk
    ensures { (plan : Bytes) (P : SelectorAt plan at) → P.end ≤ lim → lim ≤ length plan → length plan ≤ longest_plan → WalkAt plan result (state P.tree [] []) }
{
    Walk {
        at,
        lim,
        deep: 0,
        len: 0,
        maps: [0u16; 64],
        path: [0u16; 64],
    }
}

// Of the struct mapping whose count stands at `c`.
fn struct_part(plan: &[u8], c: Cursor, k: u16, skips: &[u16]) -> PartFound
    requires { Skips plan.now skips.now }
    ensures { (at m : ℕ) (P : SelectorAt plan.now at) (S : StructAt plan.now at P m) → c.at ≡ S.input.end → PartIs plan.now at P k result }
{
    let f = counted_at(plan, c);
    let count = f.count;
    let first = f.first;
    if k < count {
        PartFound::At(nth_selector(plan, first, k, skips))
    } else {
        PartFound::None
    }
}

// The part `k` of the mapping at `c`, whose input ends at `d`.
fn part(plan: &[u8], c: Cursor, d: Cursor, k: u16, skips: &[u16]) -> PartFound
    requires skips { Skips plan.now skips.now }
    requires at_value { (I : SelectorAt plan.now (c.at + 1)) → d.at ≡ I.end }
    ensures { (P : SelectorAt plan.now c.at) → Mapping P.tree → PartIs plan.now c.at P k result }
{
    match head(plan, c) {
        SelectorHead::Position(_) => PartFound::None,
        SelectorHead::Constant(_, _) => PartFound::None,
        SelectorHead::Cast(_) => PartFound::None,
        SelectorHead::Rename(_) => PartFound::None,
        SelectorHead::Struct(_) => struct_part(plan, d, k, skips),
        SelectorHead::List(_) => PartFound::At(d),
        SelectorHead::Array(_) => PartFound::At(d),
        SelectorHead::Refused => PartFound::None,
    }
}

// The part `k` of the mapping at `c`, whose input is skipped.
fn skipped_part(plan: &[u8], c: Cursor, k: u16, skips: &[u16]) -> PartFound
    requires skips { Skips plan.now skips.now }
    requires at_bound { c.at < 65536 }
    ensures { (P : SelectorAt plan.now c.at) → Mapping P.tree → PartIs plan.now c.at P k result }
{
    let d = skip_by(plan, Cursor { at: c.at + 1 }, skips);
    part(plan, c, d, k, skips)
}

// The part `k` of the mapping at `c`, where the table may have the end of the mapping's input.
fn part_in(plan: &[u8], ends: InputEnds, c: Cursor, k: u16, skips: &[u16]) -> PartFound
    requires skips { Skips plan.now skips.now }
    requires ends_at { EndsAt plan.now ends }
    requires at_bound { c.at < 65536 }
    ensures { (P : SelectorAt plan.now c.at) → Mapping P.tree → PartIs plan.now c.at P k result }
{
    let at = ends.known(c.at + 1);
    if at == 0 {
        return skipped_part(plan, c, k, skips);
    }
    part(plan, c, Cursor { at }, k, skips)
}

impl Walk {
    // Into the input of a transform.
    pub fn to_input(self) -> Walk
        requires { self.at < self.lim }
        ensures { (plan : Bytes) (x : State) (s : Selector) → WalkAt plan self x → Input x.selector s → StepsTo plan (state s x.frames x.path) self result }
    {
        let mut next = self;
        next.at = self.at + 1;
        next
    }

    // Into the part, which stands there, that the path takes next of a mapping.
    pub fn enter(self, part: Cursor) -> Walk
        requires { (self.at < 65536) × (self.deep < 64) }
        ensures { (plan : Bytes) (x : State) (M : WalkAt plan self x) (E : Enters plan self x M part.at) → StepsTo plan (state E.part.here.tree (E.part.frame ∷ x.frames) E.rest) self result }
    {
        let d = self.deep;
        let mut next = self;
        next.maps[d] = self.at as u16;
        next.deep = d + 1;
        next.at = part.at;
        next
    }

    // To the input of the innermost mapping, all of it.
    pub fn outward(self) -> Walk
        requires { (0 < self.deep) × (self.deep ≤ 64) × (get_or self.maps (self.deep - 1) 0 < self.at) }
        ensures value { result ≡ outward_of self }
        ensures steps_to { (plan : Bytes) (x : State) (f : Frame) (E : List Frame) → WalkAt plan self x → x.frames ≡ f ∷ E → StepsTo plan (state (input_of f) E []) self result }
    {
        let d = self.deep - 1;
        let m = self.maps[d] as usize;
        let mut next = self;
        next.at = m + 1;
        next.lim = self.at;
        next.deep = d;
        next.len = d;
        next
    }

    // From a position to the input of the innermost mapping, of which it takes the part `k`.
    pub fn leave(self, k: u16) -> Walk
        requires { (0 < self.deep) × (self.deep ≤ 64) × (get_or self.maps (self.deep - 1) 0 < self.at) }
        ensures { (plan : Bytes) (x : State) → WalkAt plan self x → (L : Leaves x k) → StepsTo plan (state L.input L.outer (k ∷ x.path)) self result }
    {
        let d = self.deep - 1;
        let mut next = self.outward();
        next.path[d] = k;
        next.len = self.len;
        next
    }

    // At a mapping.
    fn entering(self, plan: &[u8], ends: InputEnds, skips: &[u16]) -> Move
        requires skips { Skips plan.now skips.now }
        requires walk_at { (x : State) × WalkAt plan.now self x }
        requires ends_at { EndsAt plan.now ends }
        ensures { (x : State) (M : WalkAt plan.now self x) → Mapping x.selector → MoveIs plan.now self x M result }
    {
        let d = self.deep;
        if d < self.len {
            let k = self.path[d];
            match part_in(plan, ends, Cursor { at: self.at }, k, skips) {
                PartFound::At(p) => Move::Enter(p),
                PartFound::None => Move::Stop,
            }
        } else {
            Move::Stop
        }
    }

    // At the position `k`. An element has position 0 alone.
    fn leaving(self, plan: &[u8], k: Position) -> Move
        requires { (x : State) × WalkAt plan.now self x }
        ensures { (x : State) (M : WalkAt plan.now self x) → x.selector ≡ position k → MoveIs plan.now self x M result }
    {
        if self.deep == 0 {
            return Move::Stop;
        }
        let d = self.deep - 1;
        let m = self.maps[d] as usize;
        let i = k.0;
        if plan[m] == 4 {
            return Move::Leave(i);
        }
        if i == 0 {
            Move::Leave(self.path[d])
        } else {
            Move::Stop
        }
    }

    // The next move.
    fn next_move(self, plan: &[u8], ends: InputEnds, skips: &[u16]) -> Move
        requires skips { Skips plan.now skips.now }
        requires walk_at { (x : State) × WalkAt plan.now self x }
        requires ends_at { EndsAt plan.now ends }
        ensures { (x : State) (M : WalkAt plan.now self x) → MoveIs plan.now self x M result }
    {
        let c = Cursor { at: self.at };
        match head(plan, c) {
            SelectorHead::Position(k) => self.leaving(plan, k),
            SelectorHead::Constant(_, _) => Move::Stop,
            SelectorHead::Cast(_) => Move::Stop,
            SelectorHead::Rename(_) => {
                if self.deep < self.len {
                    Move::Input
                } else {
                    Move::Stop
                }
            }
            SelectorHead::Struct(_) => self.entering(plan, ends, skips),
            SelectorHead::List(_) => self.entering(plan, ends, skips),
            SelectorHead::Array(_) => self.entering(plan, ends, skips),
            SelectorHead::Refused => Move::Stop,
        }
    }

    // The table of ends for the next move.
    fn ends_ahead(self, plan: &[u8], ends: InputEnds, skips: &[u16]) -> InputEnds
        requires skips { Skips plan.now skips.now }
        requires walk_at { (x : State) × WalkAt plan.now self x }
        requires ends_at { EndsAt plan.now ends }
        ensures { EndsAt plan.now result }
    {
        if self.deep < self.len {
            return ends_for(plan, ends, Cursor { at: self.at }, skips);
        }
        ends
    }

    // Moves on until no move is left.
    pub fn locate(self, plan: &[u8], skips: &[u16]) -> Walk
        requires skips { Skips plan.now skips.now }
        requires walk_at { (x : State) × WalkAt plan.now self x }
        ensures { (x : State) → WalkAt plan.now self x → Located plan.now x self result }
    {
        let mut w = self;
        let mut ends = no_ends(0);
        loop {
            ends = w.ends_ahead(plan, ends, skips);
            match w.next_move(plan, ends, skips) {
                Move::Input => {
                    w = w.to_input();
                }
                Move::Enter(part) => {
                    w = w.enter(part);
                }
                Move::Leave(k) => {
                    w = w.leave(k);
                }
                Move::Stop => {
                    break;
                }
            }
        }
        w
    }

    // At a mapping with no path left: into its part `k`, which was looked for.
    fn into_part(self, found: PartFound, k: u16) -> Walk
        requires { (self.at < 65536) × (self.deep < 64) }
        ensures { (plan : Bytes) (x : State) (f : Frame) (t : Selector) → WalkAt plan self x → x.path ≡ [] → Part x.selector k f t → ((P : SelectorAt plan self.at) → Mapping P.tree → PartIs plan self.at P k found) → StepsTo plan (state t (f ∷ x.frames) []) self result }
    {
        match found {
            PartFound::At(p) => {
                let d = self.deep;
                let mut next = self;
                next.path[d] = k;
                next.len = d + 1;
                next.enter(p)
            }
            PartFound::None => self,
        }
    }

    // At a mapping with no path left: into its part `k`.
    pub fn child(self, plan: &[u8], k: u16, skips: &[u16]) -> Walk
        requires skips { Skips plan.now skips.now }
        requires deep_bound { ((x : State) × WalkAt plan.now self x) × (self.deep < 64) }
        ensures { (x : State) (f : Frame) (t : Selector) → WalkAt plan.now self x → x.path ≡ [] → Part x.selector k f t → StepsTo plan.now (state t (f ∷ x.frames) []) self result }
    {
        let found = skipped_part(plan, Cursor { at: self.at }, k, skips);
        self.into_part(found, k)
    }

    // The same, where the table may have the end of the mapping's input.
    pub fn child_in(self, plan: &[u8], ends: InputEnds, k: u16, skips: &[u16]) -> Walk
        requires skips { Skips plan.now skips.now }
        requires deep_bound { ((x : State) × WalkAt plan.now self x) × (self.deep < 64) }
        requires ends_at { EndsAt plan.now ends }
        ensures { (x : State) (f : Frame) (t : Selector) → WalkAt plan.now self x → x.path ≡ [] → Part x.selector k f t → StepsTo plan.now (state t (f ∷ x.frames) []) self result }
    {
        let found = part_in(plan, ends, Cursor { at: self.at }, k, skips);
        self.into_part(found, k)
    }
}
