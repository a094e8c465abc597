// What a selector of a plan begins with, and where its parts stand. Everything here walks over a plan that was read
// before: an answer means something only where a selector stands.
ghost use Rattle.std.specs.Prelude.{◌≡◌, ℕ, ◌<◌};
ghost use Rattle.layout.specs.code.Stands.{TypeAt};
ghost use Rattle.layout.specs.declared.edition.Edition.{Edition as EditionOf};
ghost use Rattle.plan.specs.code.Skips.{Skips};
ghost use Rattle.walk.specs.code.Stands.{SelectorAt, SelectorsAt};
ghost use Rattle.walk.specs.code.Parts.{TextAt, OptionAt, CountedAt, NameIs, CountedIs, NthIs, HeadIs};

use layout::bytes::Span;
use layout::columns::Position;
use layout::cursor::{Cursor, Moved, Short, Step, Text};
use layout::edition::Edition;
use layout::limits::DEEPEST;
use layout::pass::pass_type;
use plan::pass::{pass_selector, pass_selectors};
use rules::outcome::{CastOption, OptionCode, option_of_code};

// A position; a constant's name and where its type begins; of a transform where its input begins.
#[derive(Clone, Copy)]
pub enum SelectorHead {
    Position(Position),
    Constant(Span, Cursor),
    Cast(Cursor),
    Rename(Cursor),
    Struct(Cursor),
    List(Cursor),
    Array(Cursor),
    Refused,
}

// The number of a struct mapping's selectors, and where they begin.
#[derive(Clone, Copy)]
pub struct StructFields {
    pub count: u16,
    pub first: Cursor,
}

pub fn head(plan: &[u8], c: Cursor) -> SelectorHead
    ensures { (P : SelectorAt plan.now c.at) → HeadIs plan.now c.at P result }
{
    match c.byte(plan) {
        Step::Byte(code, d) => match code {
            0 => match d.short(plan) {
                Short::Is(k, _) => SelectorHead::Position(Position(k)),
                Short::Refused(_) => SelectorHead::Refused,
            },
            1 => match d.text(plan) {
                Text::Is(name, e) => SelectorHead::Constant(name, e),
                Text::Refused(_) => SelectorHead::Refused,
            },
            2 => SelectorHead::Cast(d),
            3 => SelectorHead::Rename(d),
            4 => SelectorHead::Struct(d),
            5 => SelectorHead::List(d),
            6 => SelectorHead::Array(d),
            _ => SelectorHead::Refused,
        },
        Step::Refused(_) => SelectorHead::Refused,
    }
}

// The end of a selector: where a cast's type, a rename's name, a struct mapping's count, a list or array mapping's
// element begins, if it is the input.
pub fn skip_selector(plan: &[u8], c: Cursor) -> Cursor
    ensures { (P : SelectorAt plan.now c.at) → result.at ≡ P.end }
{
    let none = [0u16; 1];
    skip_by(plan, c, &none)
}

// The same, by a table of where selectors end.
pub fn skip_by(plan: &[u8], c: Cursor, skips: &[u16]) -> Cursor
    requires { Skips plan.now skips.now }
    ensures { (P : SelectorAt plan.now c.at) → result.at ≡ P.end }
{
    match pass_selector(plan, c, skips) {
        Moved::To(e) => e,
        Moved::Refused(_) => c,
    }
}

// The k-th of the selectors that begin at `first`.
pub fn nth_selector(plan: &[u8], first: Cursor, k: u16, skips: &[u16]) -> Cursor
    requires { Skips plan.now skips.now }
    ensures { (n : ℕ) (Q : SelectorsAt plan.now n first.at) → k < n → NthIs plan.now n first.at Q k result.at }
{
    match pass_selectors(plan, k, first, skips) {
        Moved::To(e) => e,
        Moved::Refused(_) => first,
    }
}

// Of the cast whose type begins at `c`.
pub fn cast_option(plan: &[u8], c: Cursor) -> CastOption
    ensures { (T : TypeAt EditionOf.One 16 plan.now c.at) (O : OptionAt plan.now T.end) → result ≡ O.option }
{
    match pass_type(plan, Edition::One, DEEPEST, c) {
        Moved::To(d) => match d.byte(plan) {
            Step::Byte(b, _) => match option_of_code(b) {
                OptionCode::Known(o) => o,
                OptionCode::Unknown => CastOption::NonStrict,
            },
            Step::Refused(_) => CastOption::NonStrict,
        },
        Moved::Refused(_) => CastOption::NonStrict,
    }
}

// The name that stands at `c`.
pub fn name_behind(plan: &[u8], c: Cursor) -> Span
    ensures { (at : ℕ) (N : TextAt plan.now at) → c.at ≡ at → NameIs plan.now at N result }
{
    match c.text(plan) {
        Text::Is(name, _) => name,
        Text::Refused(_) => Span { start: 0, len: 0 },
    }
}

// Of the rename whose input begins at `input`.
pub fn rename_name(plan: &[u8], input: Cursor) -> Span
    ensures { (P : SelectorAt plan.now input.at) (N : TextAt plan.now P.end) → NameIs plan.now P.end N result }
{
    name_behind(plan, skip_selector(plan, input))
}

// The count that stands at `c`, and the selectors behind it.
pub fn counted_at(plan: &[u8], c: Cursor) -> StructFields
    ensures { (at : ℕ) (Q : CountedAt plan.now at) → c.at ≡ at → CountedIs plan.now at Q result }
{
    match c.short(plan) {
        Short::Is(count, first) => StructFields { count, first },
        Short::Refused(_) => StructFields { count: 0, first: c },
    }
}

// Of the struct mapping whose input begins at `input`.
pub fn struct_fields(plan: &[u8], input: Cursor) -> StructFields
    ensures { (P : SelectorAt plan.now input.at) (Q : CountedAt plan.now P.end) → CountedIs plan.now P.end Q result }
{
    counted_at(plan, skip_selector(plan, input))
}
