// Refusal 32 for a result type: deeper than 16, or over 16,384 bytes in version 1 form. A type is measured within the
// levels and bytes that are left, so that none is looked at past the limit.
ghost use Rattle.std.specs.Prelude.{◌≡◌, Bool, ℕ, ◌+◌, ◌^◌, ◌<◌, max, length};
ghost use Rattle.layout.specs.Tree.{DataType, struct, Fields, count_fields};
ghost use Rattle.forms.specs.Form.{form};
ghost use Rattle.forms.specs.Depth.{depth_of};
ghost use Rattle.plan.specs.Check.{Column};
ghost use Rattle.nodes.specs.code.Typed.{TypeIs};
ghost use Rattle.checker.specs.declared.limits.Fit.{Fit as FitOf};
ghost use Rattle.checker.specs.declared.resolve.Source.{Source as SourceOf};
ghost use Rattle.checker.specs.code.TypesAt.{PartOf, TypedAt, NamedAt, MappedAt, ResolvedAt};
ghost use Rattle.checker.specs.code.Tables.{Tables};
ghost use Rattle.checker.specs.code.Limits.{fit_of, type_fit, fields_fit_of, column_fit_of, around_of, joined_of, added_of, Bounded, size_of};

use crate::head::type_head;
use crate::name::name_at;
use crate::part::part;
use crate::place::TypeHead;
use crate::resolve::{Resolved, Source, resolve};
use layout::cursor::Cursor;
use layout::edition::Edition;
use layout::limits::LONGEST;
use nodes::types::form_size;
use walk::child::{child_at, first_child};
use walk::head::skip_by;
use walk::walk::Walk;

// A length in version 1 form and a depth, or the limits are passed.
#[derive(Clone, Copy)]
pub enum Fit {
    Within(usize, u8),
    Over,
}

// What is known of the type of what a selector gives: the length in version 1 form and the depth of a transform's
// result. A position or a constant is measured only where something is made of it.
#[derive(Clone, Copy)]
pub enum Size {
    Is(usize, u8),
    Unknown,
}

fn size_fit(size: usize, deep: u8, levels: u8, room: usize) -> Fit
    ensures { result ≡ fit_of deep size levels room }
{
    if levels < deep {
        return Fit::Over;
    }
    if room < size {
        return Fit::Over;
    }
    Fit::Within(size, deep)
}

// A head of so many bytes, around what is one level inside.
pub fn around(head: usize, f: Fit) -> Fit
    requires { (size deep : ℕ) → f ≡ FitOf.Within size deep → (head + size < 2 ^ 64) × (deep < 255) }
    ensures { result ≡ around_of head f }
{
    match f {
        Fit::Within(size, deep) => Fit::Within(head + size, deep + 1),
        Fit::Over => Fit::Over,
    }
}

fn larger(a: u8, b: u8) -> u8
    ensures { result ≡ max a b }
{
    if a < b { b } else { a }
}

// What stands behind so many bytes of so many levels, with these.
fn joined(before: usize, levels: u8, f: Fit) -> Fit
    requires { (size deep : ℕ) → f ≡ FitOf.Within size deep → before + size < 2 ^ 64 }
    ensures { result ≡ joined_of before levels f }
{
    match f {
        Fit::Within(size, deep) => Fit::Within(before + size, larger(levels, deep)),
        Fit::Over => Fit::Over,
    }
}

// Of a type that stands in bytes.
pub fn raw_fit(s: &[u8], v: Edition, c: Cursor, levels: u8, room: usize) -> Fit
    requires { (t : DataType) × TypeIs v s.now c.at t }
    ensures { (t : DataType) → TypeIs v s.now c.at t → result ≡ type_fit t levels room }
{
    let z = form_size(s, v, c);
    size_fit(z.size, z.deep, levels, room)
}

#[cycle(column_fit_element_fit_fields_fit_mapped_fit_sized_fit_type_fit)]
fn type_fit(
    incoming: &[u8],
    v: Edition,
    n: u16,
    plan: &[u8],
    r: Resolved,
    levels: u8,
    room: usize,
    tables: &[u16],
) -> Fit
    requires tables { Tables incoming.now v n plan.now tables.now }
    requires resolved_at { (t : DataType) × ResolvedAt incoming.now v n plan.now r t }
    ensures { (t : DataType) → ResolvedAt incoming.now v n plan.now r t → result ≡ type_fit t levels room }
{
    let source = r.source;
    let at = r.at;
    match source {
        Source::Incoming => raw_fit(incoming, v, at, levels, room),
        Source::Plan => raw_fit(plan, Edition::One, at, levels, room),
        Source::Mapped => mapped_fit(incoming, v, n, plan, r, levels, room, tables),
    }
}

// Of a type that a mapping makes.
#[cycle(column_fit_element_fit_fields_fit_mapped_fit_sized_fit_type_fit)]
fn mapped_fit(
    incoming: &[u8],
    v: Edition,
    n: u16,
    plan: &[u8],
    r: Resolved,
    levels: u8,
    room: usize,
    tables: &[u16],
) -> Fit
    requires tables { Tables incoming.now v n plan.now tables.now }
    requires resolved_at { (t : DataType) × ResolvedAt incoming.now v n plan.now r t }
    requires source_value { r.source ≡ SourceOf.Mapped }
    ensures { (t : DataType) → ResolvedAt incoming.now v n plan.now r t → result ≡ type_fit t levels room }
{
    if levels == 0 {
        return Fit::Over;
    }
    match type_head(incoming, v, n, plan, r, tables) {
        TypeHead::Leaf(_, _) => Fit::Over,
        TypeHead::Struct(count) => {
            if room < 3 {
                return Fit::Over;
            }
            let w = r.walk;
            let f = fields_fit(incoming, v, n, plan, w, count, levels - 1, room - 3, tables);
            around(3, f)
        }
        TypeHead::List => element_fit(incoming, v, n, plan, r, 1, levels, room, tables),
        TypeHead::Array(_) => element_fit(incoming, v, n, plan, r, 5, levels, room, tables),
    }
}

// Of a list or an array, by its element and how many bytes its head has.
#[cycle(column_fit_element_fit_fields_fit_mapped_fit_sized_fit_type_fit)]
fn element_fit(
    incoming: &[u8],
    v: Edition,
    n: u16,
    plan: &[u8],
    r: Resolved,
    head: usize,
    levels: u8,
    room: usize,
    tables: &[u16],
) -> Fit
    requires tables { Tables incoming.now v n plan.now tables.now }
    requires resolved_at { (t : DataType) × (a : Column) × ResolvedAt incoming.now v n plan.now r t × PartOf t 0 a }
    requires levels_nonzero { 0 < levels }
    ensures { (t : DataType) (a : Column) → ResolvedAt incoming.now v n plan.now r t → PartOf t 0 a → result ≡ fit_of (depth_of a.type + 1) (head + length (form a.type)) levels room }
{
    if room < head {
        return Fit::Over;
    }
    let p = part(incoming, v, n, plan, r, 0, tables);
    let f = type_fit(incoming, v, n, plan, p, levels - 1, room - head, tables);
    around(head, f)
}

// Of what the selector where the walk stands gives.
#[cycle(column_fit_element_fit_fields_fit_mapped_fit_sized_fit_type_fit)]
pub fn sized_fit(
    incoming: &[u8],
    v: Edition,
    n: u16,
    plan: &[u8],
    x: Walk,
    size: Size,
    levels: u8,
    room: usize,
    tables: &[u16],
) -> Fit
    requires tables { Tables incoming.now v n plan.now tables.now }
    requires typed_at { (b : Bool) × (t : DataType) × TypedAt incoming.now v n plan.now x t × (size ≡ size_of b t) }
    ensures { (b : Bool) (t : DataType) → TypedAt incoming.now v n plan.now x t → size ≡ size_of b t → result ≡ type_fit t levels room }
{
    match size {
        Size::Is(bytes, deep) => size_fit(bytes, deep, levels, room),
        Size::Unknown => {
            let r = resolve(incoming, v, n, plan, x, tables);
            type_fit(incoming, v, n, plan, r, levels, room, tables)
        }
    }
}

// Of the field that it makes: its name and its type.
#[cycle(column_fit_element_fit_fields_fit_mapped_fit_sized_fit_type_fit)]
fn column_fit(
    incoming: &[u8],
    v: Edition,
    n: u16,
    plan: &[u8],
    x: Walk,
    size: Size,
    levels: u8,
    room: usize,
    tables: &[u16],
) -> Fit
    requires tables { Tables incoming.now v n plan.now tables.now }
    requires named_at { (b : Bool) × (a : Column) × NamedAt incoming.now v n plan.now x a × (size ≡ size_of b a.type) }
    ensures { (b : Bool) (a : Column) → NamedAt incoming.now v n plan.now x a → size ≡ size_of b a.type → result ≡ column_fit_of a levels room }
{
    let name = name_at(incoming, v, n, plan, x, tables);
    let len = name.span.len;
    if room <= len {
        return Fit::Over;
    }
    let f = sized_fit(
        incoming,
        v,
        n,
        plan,
        x,
        size,
        levels,
        room - len - 1,
        tables,
    );
    joined(len + 1, 0, f)
}

// Of the fields that the struct mapping where the walk stands makes.
#[cycle(column_fit_element_fit_fields_fit_mapped_fit_sized_fit_type_fit)]
fn fields_fit(
    incoming: &[u8],
    v: Edition,
    n: u16,
    plan: &[u8],
    w: Walk,
    count: u16,
    levels: u8,
    room: usize,
    tables: &[u16],
) -> Fit
    requires tables { Tables incoming.now v n plan.now tables.now }
    requires mapped_at { (fs : Fields) × MappedAt incoming.now v n plan.now w (struct fs) × (count_fields fs ≡ count) }
    ensures { (fs : Fields) → MappedAt incoming.now v n plan.now w (struct fs) → count_fields fs ≡ count → result ≡ fields_fit_of fs levels room }
{
    let mut c = first_child(plan, w, tables);
    let mut size: usize = 0;
    let mut deep: u8 = 0;
    let mut k: u16 = 0;
    while k < count {
        let x = child_at(w, k, c);
        match column_fit(
            incoming,
            v,
            n,
            plan,
            x,
            Size::Unknown,
            levels,
            room - size,
            tables,
        ) {
            Fit::Within(more, inner) => {
                size += more;
                deep = larger(deep, inner);
            }
            Fit::Over => return Fit::Over,
        }
        c = skip_by(plan, c, tables);
        k += 1;
    }
    Fit::Within(size, deep)
}

// One more field of a struct that a mapping makes: 15 levels inside it, and the bytes behind its head.
pub fn add_field(
    incoming: &[u8],
    v: Edition,
    n: u16,
    plan: &[u8],
    x: Walk,
    size: Size,
    fields: Fit,
    tables: &[u16],
) -> Fit
    requires tables { Tables incoming.now v n plan.now tables.now }
    requires named_at { (b : Bool) × (a : Column) × NamedAt incoming.now v n plan.now x a × (size ≡ size_of b a.type) }
    requires bounded { Bounded 15 16381 fields }
    ensures { (b : Bool) (a : Column) → NamedAt incoming.now v n plan.now x a → size ≡ size_of b a.type → result ≡ added_of 15 16381 fields a }
{
    match fields {
        Fit::Within(before, deep) => {
            let f = column_fit(incoming, v, n, plan, x, size, 15, 16381 - before, tables);
            joined(before, deep, f)
        }
        Fit::Over => Fit::Over,
    }
}

// The list or array of what the selector where the walk stands gives, by how many bytes its head has.
pub fn list_fit(
    incoming: &[u8],
    v: Edition,
    n: u16,
    plan: &[u8],
    x: Walk,
    size: Size,
    head: usize,
    tables: &[u16],
) -> Fit
    requires tables { Tables incoming.now v n plan.now tables.now }
    requires typed_at { (b : Bool) × (t : DataType) × TypedAt incoming.now v n plan.now x t × (size ≡ size_of b t) }
    requires head_bound { head < 16384 }
    ensures { (b : Bool) (t : DataType) → TypedAt incoming.now v n plan.now x t → size ≡ size_of b t → result ≡ fit_of (depth_of t + 1) (head + length (form t)) 16 16384 }
{
    let f = sized_fit(incoming, v, n, plan, x, size, 15, LONGEST - head, tables);
    around(head, f)
}
