// The ends of a chain of inputs. A transform's input begins one byte after its code, so that the selectors at an offset
// and at those behind it are each the input of the one before, up to the first that is a position or a constant. One
// pass from there outwards finds all their ends. The table is a help, never needed: what it does not have is found by
// skipping.
ghost use Rattle.std.specs.Prelude.{◌≡◌, true, ℕ, ◌+◌, ◌<◌, ◌≤◌, length};
ghost use Rattle.layout.specs.Bytes.{Bytes};
ghost use Rattle.plan.specs.code.Skips.{Skips};
ghost use Rattle.walk.specs.code.Stands.{SelectorAt};
ghost use Rattle.layout.specs.code.Stands.{TypeAt};
ghost use Rattle.layout.specs.declared.edition.Edition.{Edition as EditionOf};
ghost use Rattle.walk.specs.code.Parts.{TextAt, OptionAt, CountedAt};
ghost use Rattle.walk.specs.code.Ends.{EndsAt};

use crate::head::{SelectorHead, head, skip_by};
use layout::cursor::{Cursor, Moved, Short, Step, Text};
use layout::edition::Edition;
use layout::limits::DEEPEST;
use layout::pass::pass_type;
use plan::pass::pass_selectors;
use plan::skips::known_skip;

// Of the selector at `first + i` the end, or 0 where it is not known.
#[derive(Clone, Copy)]
pub struct InputEnds {
    pub first: usize,
    pub ends: [u16; 64],
}

// None is known.
pub fn no_ends(first: usize) -> InputEnds
    ensures { ((plan : Bytes) → EndsAt plan result) × (result.first ≡ first) }
{
    InputEnds {
        first,
        ends: [0u16; 64],
    }
}

impl InputEnds {
    // One more end, where it is a number of two bytes.
    fn knowing(self, i: usize, end: usize) -> InputEnds
        requires { i < 64 }
        ensures { ((plan : Bytes) → EndsAt plan self → ((P : SelectorAt plan (self.first + i)) → end ≡ P.end) → EndsAt plan result) × (result.first ≡ self.first) }
    {
        if end < 65536 {
            let mut next = self;
            next.ends[i] = end as u16;
            next
        } else {
            self
        }
    }

    // The end of the selector at `at`, or 0.
    pub fn known(self, at: usize) -> usize
        ensures { (plan : Bytes) (P : SelectorAt plan at) → EndsAt plan self → (result ≡ 0 → ⊥) → result ≡ P.end }
    {
        if at < self.first {
            return 0;
        }
        let i = at - self.first;
        if i < 64 { self.ends[i] as usize } else { 0 }
    }

    // The end of the selector at `c`, found by skipping where it is not known.
    pub fn end_of(self, plan: &[u8], c: Cursor, skips: &[u16]) -> Cursor
        requires skips { Skips plan.now skips.now }
        requires ends_at { EndsAt plan.now self }
        ensures { (P : SelectorAt plan.now c.at) → result.at ≡ P.end }
    {
        let at = self.known(c.at);
        if at == 0 {
            return skip_by(plan, c, skips);
        }
        Cursor { at }
    }
}

// Of a cast's type and option.
pub fn option_end(plan: &[u8], c: Cursor) -> Cursor
    ensures { (T : TypeAt EditionOf.One 16 plan.now c.at) (O : OptionAt plan.now T.end) → result.at ≡ O.end }
{
    match pass_type(plan, Edition::One, DEEPEST, c) {
        Moved::To(d) => match d.byte(plan) {
            Step::Byte(_, e) => e,
            Step::Refused(_) => c,
        },
        Moved::Refused(_) => c,
    }
}

// Of a name.
pub fn name_end(plan: &[u8], c: Cursor) -> Cursor
    ensures { (N : TextAt plan.now c.at) → result.at ≡ N.end }
{
    match c.text(plan) {
        Text::Is(_, d) => d,
        Text::Refused(_) => c,
    }
}

// Of a count and as many selectors.
fn fields_end(plan: &[u8], c: Cursor, skips: &[u16]) -> Cursor
    requires { Skips plan.now skips.now }
    ensures { (Q : CountedAt plan.now c.at) → result.at ≡ Q.selectors.end }
{
    match c.short(plan) {
        Short::Is(n, d) => match pass_selectors(plan, n, d, skips) {
            Moved::To(e) => e,
            Moved::Refused(_) => c,
        },
        Short::Refused(_) => c,
    }
}

// The end of the selector at `c`, whose input ends at `d`.
fn end_behind(plan: &[u8], c: Cursor, d: Cursor, skips: &[u16]) -> Cursor
    requires { Skips plan.now skips.now }
    ensures { (P : SelectorAt plan.now c.at) → ((I : SelectorAt plan.now (c.at + 1)) → d.at ≡ I.end) → result.at ≡ P.end }
{
    match head(plan, c) {
        SelectorHead::Position(_) => skip_by(plan, c, skips),
        SelectorHead::Constant(_, _) => skip_by(plan, c, skips),
        SelectorHead::Cast(_) => option_end(plan, d),
        SelectorHead::Rename(_) => name_end(plan, d),
        SelectorHead::Struct(_) => fields_end(plan, d, skips),
        SelectorHead::List(_) => skip_by(plan, d, skips),
        SelectorHead::Array(_) => skip_by(plan, d, skips),
        SelectorHead::Refused => c,
    }
}

// Whether there is a transform at `at`.
fn goes_on(plan: &[u8], at: usize) -> bool
    ensures { result ≡ true → at < length plan.now }
{
    if plan.len() <= at {
        return false;
    }
    let code = plan[at];
    match code {
        2..=6 => true,
        _ => false,
    }
}

// How many of these there are from `c` on, each the input of the one before.
fn chained(plan: &[u8], c: Cursor) -> usize
    requires { c.at ≤ length plan.now }
    ensures { (result < 64) × (c.at + result ≤ length plan.now) }
{
    let at = c.at;
    let mut n = 0;
    while n < 63 {
        if !goes_on(plan, at + n) {
            return n;
        }
        n += 1;
    }
    n
}

// Those of the selector at `c` and of its inputs.
pub fn input_ends(plan: &[u8], c: Cursor, skips: &[u16]) -> InputEnds
    requires skips { Skips plan.now skips.now }
    requires at_in_bounds { c.at ≤ length plan.now }
    ensures { EndsAt plan.now result }
{
    let first = c.at;
    let mut i = chained(plan, c);
    let mut d = skip_by(plan, Cursor { at: first + i }, skips);
    let mut ends = no_ends(first).knowing(i, d.at);
    while 0 < i {
        i -= 1;
        d = end_behind(plan, Cursor { at: first + i }, d, skips);
        ends = ends.knowing(i, d.at);
    }
    ends
}

// A table that has the end of the selector at `c`, or `skips` has it.
pub fn ends_with(plan: &[u8], ends: InputEnds, c: Cursor, skips: &[u16]) -> InputEnds
    requires skips { Skips plan.now skips.now }
    requires at_in_bounds { c.at ≤ length plan.now }
    requires ends_at { EndsAt plan.now ends }
    ensures { EndsAt plan.now result }
{
    if ends.known(c.at) != 0 {
        return ends;
    }
    if known_skip(skips, c.at, 1).count != 0 {
        return ends;
    }
    input_ends(plan, c, skips)
}

// A table that has the end of the input of the mapping at `c`, if a mapping stands there, or `skips` has it.
pub fn ends_for(plan: &[u8], ends: InputEnds, c: Cursor, skips: &[u16]) -> InputEnds
    requires skips { Skips plan.now skips.now }
    requires at_in_bounds { c.at < length plan.now }
    requires ends_at { EndsAt plan.now ends }
    ensures { EndsAt plan.now result }
{
    let at = c.at;
    if plan[at] < 4 {
        return ends;
    }
    ends_with(plan, ends, Cursor { at: at + 1 }, skips)
}
