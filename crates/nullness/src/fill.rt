// Filling the table of nulls, in one pass over each of the plan's large constants.
ghost use Rattle.std.specs.Prelude.{true, ◌≡◌};
ghost use Rattle.layout.specs.code.Stands.{TypeAt};
ghost use Rattle.layout.specs.declared.edition.Edition.{Edition as EditionOf};
ghost use Rattle.layout.specs.Limits.{deepest};
ghost use Rattle.ends.specs.code.Ends.{Ends};
ghost use Rattle.values.specs.Value.{vlist, Values};
ghost use Rattle.nodes.specs.code.Raw.{RawAt, RowAt, ElementsAt, ListOf, PresentAt};
ghost use Rattle.nullness.specs.code.Nulls.{NullsOf, EachOf, RowOf, Nulls, Grown};

use crate::nulls::{keep_constant, keep_null};
use layout::columns::Labelled;
use layout::cursor::{Cursor, Moved, Short, Text};
use layout::edition::Edition;
use layout::limits::DEEPEST;
use layout::pass::pass_type;
use layout::types::Head;
use plan::skips::{kept_count, kept_from, kept_to};
use values::leaf::{Presence, read_presence};
use values::read::{ValueRead, read_element, read_value};

// ---- a value of a constant. The answer is whether all of its nulls were put into the table.

// The value at `c` of the type at `t`, of at most `depth` levels.
#[cycle(fill_content_fill_elements_fill_fields_fill_list_fill_value)]
fn fill_value(plan: &[u8], depth: u8, t: Cursor, c: Cursor, ends: &[u16], nulls: &mut [u64]) -> bool
    requires ends { Ends EditionOf.One plan.now ends.now }
    requires raw_at { RawAt EditionOf.One plan.now t.at plan.now c.at }
    ensures grown { Grown nulls.old nulls.new }
    ensures nulls_of { result ≡ true → (X : RawAt EditionOf.One plan.now t.at plan.now c.at) → NullsOf plan.now nulls.new t.at X.value.tree }
{
    if depth == 0 {
        return false;
    }
    match read_presence(plan, c) {
        Presence::Null(_) => keep_null(nulls, t.at),
        Presence::Present(d) => fill_content(plan, depth - 1, t, d, ends, nulls),
        Presence::Refused(_) => false,
    }
}

// What follows the presence byte of a value that is present.
#[cycle(fill_content_fill_elements_fill_fields_fill_list_fill_value)]
fn fill_content(
    plan: &[u8],
    depth: u8,
    t: Cursor,
    c: Cursor,
    ends: &[u16],
    nulls: &mut [u64],
) -> bool
    requires ends { Ends EditionOf.One plan.now ends.now }
    requires present_at { PresentAt EditionOf.One plan.now t.at plan.now c.at }
    ensures grown { Grown nulls.old nulls.new }
    ensures nulls_of { result ≡ true → (X : PresentAt EditionOf.One plan.now t.at plan.now c.at) → NullsOf plan.now nulls.new t.at X.content.tree }
{
    match t.head(plan) {
        Head::Leaf(_, _) => true,
        Head::Struct(n, e) => fill_fields(plan, depth, n, e, c, ends, nulls),
        Head::List(e) => match e.element_label(plan, Edition::One) {
            Labelled::Is(_, f) => fill_list(plan, depth, f, c, ends, nulls),
            Labelled::Refused(_) => false,
        },
        Head::Array(w, e) => match e.element_label(plan, Edition::One) {
            Labelled::Is(_, f) => fill_elements(plan, depth, w, f, c, ends, nulls),
            Labelled::Refused(_) => false,
        },
        Head::Refused(_) => false,
    }
}

// A value for each of `n` columns.
#[cycle(fill_content_fill_elements_fill_fields_fill_list_fill_value)]
fn fill_fields(
    plan: &[u8],
    depth: u8,
    n: u16,
    t: Cursor,
    c: Cursor,
    ends: &[u16],
    nulls: &mut [u64],
) -> bool
    requires ends { Ends EditionOf.One plan.now ends.now }
    requires row_at { RowAt EditionOf.One plan.now n t.at plan.now c.at }
    ensures grown { Grown nulls.old nulls.new }
    ensures row_of { result ≡ true → (X : RowAt EditionOf.One plan.now n t.at plan.now c.at) → RowOf plan.now nulls.new n t.at X.values.values }
{
    let mut d = t;
    let mut b = c;
    let mut i: u16 = 0;
    while i < n {
        match d.label(plan, Edition::One) {
            Labelled::Is(_, e) => {
                if !fill_value(plan, depth, e, b, ends, nulls) {
                    return false;
                }
                match read_value(plan, Edition::One, DEEPEST, e, plan, b, ends) {
                    ValueRead::To(f, g) => {
                        d = f;
                        b = g;
                    }
                    ValueRead::Refused(_) => return false,
                }
            }
            Labelled::Refused(_) => return false,
        }
        i += 1;
    }
    true
}

// A count and as many values of the type at `t`.
#[cycle(fill_content_fill_elements_fill_fields_fill_list_fill_value)]
fn fill_list(plan: &[u8], depth: u8, t: Cursor, c: Cursor, ends: &[u16], nulls: &mut [u64]) -> bool
    requires ends { Ends EditionOf.One plan.now ends.now }
    requires list_of { ListOf EditionOf.One plan.now t.at plan.now c.at }
    ensures grown { Grown nulls.old nulls.new }
    ensures each_of { result ≡ true → (X : ListOf EditionOf.One plan.now t.at plan.now c.at) (vs : Values) → X.content.tree ≡ vlist vs → EachOf plan.now nulls.new t.at vs }
{
    match c.short(plan) {
        Short::Is(n, d) => fill_elements(plan, depth, n as u32, t, d, ends, nulls),
        Short::Refused(_) => false,
    }
}

// `n` values of the type at `t`.
#[cycle(fill_content_fill_elements_fill_fields_fill_list_fill_value)]
fn fill_elements(
    plan: &[u8],
    depth: u8,
    n: u32,
    t: Cursor,
    c: Cursor,
    ends: &[u16],
    nulls: &mut [u64],
) -> bool
    requires ends { Ends EditionOf.One plan.now ends.now }
    requires elements_at { ElementsAt EditionOf.One plan.now n t.at plan.now c.at }
    ensures grown { Grown nulls.old nulls.new }
    ensures each_of { result ≡ true → (X : ElementsAt EditionOf.One plan.now n t.at plan.now c.at) → EachOf plan.now nulls.new t.at X.values.values }
{
    let mut d = c;
    let mut i: u32 = 0;
    while i < n {
        if !fill_value(plan, depth, t, d, ends, nulls) {
            return false;
        }
        match read_element(plan, Edition::One, DEEPEST, t, plan, d, ends) {
            Moved::To(e) => {
                d = e;
            }
            Moved::Refused(_) => return false,
        }
        i += 1;
    }
    true
}

// ---- a plan's constants. What is refused is left to scans.

// A constant of as many bytes is worth a pass.
const LARGE: usize = 1024;

fn is_large(from: usize, to: usize) -> bool {
    if to < LARGE {
        return false;
    }
    from <= to - LARGE
}

// The constant of the type at `t`, whose value stands at `c`.
fn fill_large(plan: &[u8], t: Cursor, c: Cursor, nulls: &mut [u64])
    requires at_value { (X : RawAt EditionOf.One plan.now t.at plan.now c.at) × (c.at ≡ X.type.end) }
    requires nulls { Nulls plan.now nulls.old }
    ensures { Nulls plan.now nulls.new }
{
    let none: [u16; 1] = [0; 1];
    if fill_value(plan, DEEPEST, t, c, &none[..0], nulls) {
        keep_constant(nulls, t.at);
    }
}

// The same, where its value is not read yet.
fn fill_known(plan: &[u8], t: Cursor, c: Cursor, nulls: &mut [u64])
    requires at_value { (T : TypeAt EditionOf.One deepest plan.now t.at) × (c.at ≡ T.end) }
    requires nulls { Nulls plan.now nulls.old }
    ensures { Nulls plan.now nulls.new }
{
    let none: [u16; 1] = [0; 1];
    match read_element(plan, Edition::One, DEEPEST, t, plan, c, &none[..0]) {
        Moved::To(d) => {
            if is_large(t.at, d.at) {
                fill_large(plan, t, c, nulls);
            }
        }
        Moved::Refused(_) => {}
    }
}

// A name, a type and a value of it, `n` bytes together.
fn fill_constant(plan: &[u8], c: Cursor, n: usize, nulls: &mut [u64])
    requires { Nulls plan.now nulls.old }
    ensures { Nulls plan.now nulls.new }
{
    if n < LARGE {
        return;
    }
    match c.text(plan) {
        Text::Is(_, t) => match pass_type(plan, Edition::One, DEEPEST, t) {
            Moved::To(d) => fill_known(plan, t, d, nulls),
            Moved::Refused(_) => {}
        },
        Text::Refused(_) => {}
    }
}

// Where a constant stands that casts and renames take, from `at` on, each the input of the one before: behind its code;
// or 0.
fn constant_under(plan: &[u8], at: usize) -> usize {
    let mut d = at;
    let mut left: u8 = 64;
    while 0 < left {
        if plan.len() <= d {
            return 0;
        }
        match plan[d] {
            1 => return d + 1,
            2 | 3 => {
                d += 1;
            }
            _ => return 0,
        }
        left -= 1;
    }
    0
}

// Of the selector from `from` to `to`, if it is a constant or casts and renames of one.
fn fill_under(plan: &[u8], from: usize, to: usize, nulls: &mut [u64])
    requires { Nulls plan.now nulls.old }
    ensures { Nulls plan.now nulls.new }
{
    let at = constant_under(plan, from);
    if at == 0 {
        return;
    }
    if to < at {
        return;
    }
    fill_constant(plan, Cursor { at }, to - at, nulls);
}

// Of the selectors that a table of where they end has: every long input, field and element.
pub fn fill_constants(plan: &[u8], skips: &[u16], nulls: &mut [u64])
    requires { Nulls plan.now nulls.old }
    ensures { Nulls plan.now nulls.new }
{
    let count = kept_count(skips);
    let mut i: u16 = 0;
    while i < count {
        let from = kept_from(skips, i);
        let to = kept_to(skips, i);
        fill_under(plan, from, to, nulls);
        i += 1;
    }
}
