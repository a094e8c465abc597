// Whether a selector gives a type of the target, and where both end. Every type that a transform makes on the way is a
// type of the target, so the limits of results hold.
ghost use Rattle.std.specs.Prelude.{ℕ, ◌≡◌, List};
ghost use Rattle.layout.specs.Limits.{deepest};
ghost use Rattle.layout.specs.Bytes.{Bytes};
ghost use Rattle.layout.specs.code.Stands.{TypeAt};
ghost use Rattle.walk.specs.code.Stands.{SelectorAt};
ghost use Rattle.walk.specs.code.Parts.{ConstantAt, CastAt, RenameAt, StructAt, ListAt, ArrayAt};
ghost use Rattle.direct.specs.declared.scope.Source.{Source as SourceOf};
ghost use Rattle.direct.specs.code.Fits.{FitFrom, Fits, around_of, ColumnFitFrom, FitsColumn, FieldsFitFrom, FitsFields};

use crate::cast::type_fits;
use crate::inside::{Both, both_inside};
use crate::place::{Name, Place, named, same_name};
use crate::scope::{Scope, Source, Taken, index_fields, take_position};
use forms::compare::{Same, same_type};
use index::columns::field_stride;
use layout::bytes::Span;
use layout::columns::{ColumnRange, Labelled};
use layout::cursor::{Cursor, Text};
use layout::edition::Edition;
use layout::limits::DEEPEST;
use walk::head::{SelectorHead, cast_option, head, skip_selector, struct_fields};

// Where a type or a column of the target stands.
#[derive(Clone, Copy)]
pub struct TargetPlace {
    pub edition: Edition,
    pub at: Cursor,
}

// Where the selector and the type end, and the name of the column that the selector gives.
#[derive(Clone, Copy)]
pub enum Fit {
    Is(Cursor, Cursor, Name),
    Unknown,
}

// Where the selector and the column of the target end.
#[derive(Clone, Copy)]
pub enum FitEnd {
    At(Cursor, Cursor),
    Unknown,
}

fn fit_position(
    incoming: &[u8],
    source: Source,
    index: &[u16],
    plan: &[u8],
    c: Cursor,
    target: &[u8],
    place: TargetPlace,
) -> Fit
    requires { FitFrom incoming.now source index.now plan.now c.at target.now place }
    ensures { (A : FitFrom incoming.now source index.now plan.now c.at target.now place) → Fits A result }
{
    let v = source.edition;
    let vt = place.edition;
    match take_position(incoming, source, index, plan, c) {
        Taken::At(name, d) => match same_type(
            incoming, v, DEEPEST, d, target, vt, DEEPEST, place.at,
        ) {
            Same::To(_, f) => Fit::Is(skip_selector(plan, c), f, named(Place::Incoming, name)),
            Same::No => Fit::Unknown,
        },
        Taken::Absent => Fit::Unknown,
    }
}

// A constant whose type begins at `t`, over any columns.
fn fit_constant(
    plan: &[u8],
    c: Cursor,
    name: Span,
    t: Cursor,
    target: &[u8],
    place: TargetPlace,
) -> Fit
    requires constant_at { (P : SelectorAt plan.now c.at) × ConstantAt plan.now c.at P name t.at }
    requires type_at { TypeAt place.edition deepest target.now place.at.at }
    ensures { (incoming : Bytes) (source : SourceOf) (index : List ℕ) (A : FitFrom incoming source index plan.now c.at target.now place) → ConstantAt plan.now c.at A.selector name t.at → Fits A result }
{
    let vt = place.edition;
    match same_type(
        plan,
        Edition::One,
        DEEPEST,
        t,
        target,
        vt,
        DEEPEST,
        place.at,
    ) {
        Same::To(_, f) => Fit::Is(skip_selector(plan, c), f, named(Place::Plan, name)),
        Same::No => Fit::Unknown,
    }
}

fn fit_cast(
    incoming: &[u8],
    source: Source,
    index: &[u16],
    plan: &[u8],
    c: Cursor,
    input: Cursor,
    target: &[u8],
    place: TargetPlace,
) -> Fit
    requires { (A : FitFrom incoming.now source index.now plan.now c.at target.now place) × CastAt plan.now c.at A.selector input.at }
    ensures { (A : FitFrom incoming.now source index.now plan.now c.at target.now place) → CastAt plan.now c.at A.selector input.at → Fits A result }
{
    let v = source.edition;
    let vt = place.edition;
    match take_position(incoming, source, index, plan, input) {
        Taken::At(name, d) => {
            let t = skip_selector(plan, input);
            match same_type(
                plan,
                Edition::One,
                DEEPEST,
                t,
                target,
                vt,
                DEEPEST,
                place.at,
            ) {
                Same::To(_, f) => {
                    if !type_fits(incoming, v, d, plan, t, cast_option(plan, t)) {
                        return Fit::Unknown;
                    }
                    Fit::Is(skip_selector(plan, c), f, named(Place::Incoming, name))
                }
                Same::No => Fit::Unknown,
            }
        }
        Taken::Absent => Fit::Unknown,
    }
}

// A rename with its input at `input`.
#[cycle(fit_array_fit_column_fit_fields_fit_list_fit_rename_fit_selector_fit_struct)]
fn fit_rename(
    incoming: &[u8],
    source: Source,
    index: &[u16],
    plan: &[u8],
    input: Cursor,
    target: &[u8],
    place: TargetPlace,
    levels: u8,
) -> Fit
    requires { (at : ℕ) × (A : FitFrom incoming.now source index.now plan.now at target.now place) × RenameAt plan.now at A.selector input.at }
    ensures { (at : ℕ) (A : FitFrom incoming.now source index.now plan.now at target.now place) → RenameAt plan.now at A.selector input.at → Fits A result }
{
    match fit_selector(incoming, source, index, plan, input, target, place, levels) {
        Fit::Is(e, f, _) => match e.text(plan) {
            Text::Is(name, g) => Fit::Is(g, f, named(Place::Plan, name)),
            Text::Refused(_) => Fit::Unknown,
        },
        Fit::Unknown => Fit::Unknown,
    }
}

// The element's name has no effect.
fn around(name: Span, r: Fit) -> Fit
    ensures { result ≡ around_of name r }
{
    match r {
        Fit::Is(e, f, _) => Fit::Is(e, f, named(Place::Incoming, name)),
        Fit::Unknown => Fit::Unknown,
    }
}

#[cycle(fit_array_fit_column_fit_fields_fit_list_fit_rename_fit_selector_fit_struct)]
fn fit_list(
    incoming: &[u8],
    source: Source,
    index: &[u16],
    plan: &[u8],
    input: Cursor,
    target: &[u8],
    place: TargetPlace,
    levels: u8,
) -> Fit
    requires { (at : ℕ) × (A : FitFrom incoming.now source index.now plan.now at target.now place) × ListAt plan.now at A.selector input.at }
    ensures { (at : ℕ) (A : FitFrom incoming.now source index.now plan.now at target.now place) → ListAt plan.now at A.selector input.at → Fits A result }
{
    let v = source.edition;
    let vt = place.edition;
    match take_position(incoming, source, index, plan, input) {
        Taken::At(name, d) => match both_inside(incoming, v, d, target, vt, place.at) {
            Both::Lists(x, y) => {
                let e = skip_selector(plan, input);
                let scope = Scope::Element(x);
                let element = Source {
                    edition: v,
                    scope,
                    stride: source.stride,
                };
                let inner = TargetPlace { edition: vt, at: y };
                let r = fit_selector(incoming, element, index, plan, e, target, inner, levels);
                around(name, r)
            }
            _ => Fit::Unknown,
        },
        Taken::Absent => Fit::Unknown,
    }
}

#[cycle(fit_array_fit_column_fit_fields_fit_list_fit_rename_fit_selector_fit_struct)]
fn fit_array(
    incoming: &[u8],
    source: Source,
    index: &[u16],
    plan: &[u8],
    input: Cursor,
    target: &[u8],
    place: TargetPlace,
    levels: u8,
) -> Fit
    requires { (at : ℕ) × (A : FitFrom incoming.now source index.now plan.now at target.now place) × ArrayAt plan.now at A.selector input.at }
    ensures { (at : ℕ) (A : FitFrom incoming.now source index.now plan.now at target.now place) → ArrayAt plan.now at A.selector input.at → Fits A result }
{
    let v = source.edition;
    let vt = place.edition;
    match take_position(incoming, source, index, plan, input) {
        Taken::At(name, d) => match both_inside(incoming, v, d, target, vt, place.at) {
            Both::Arrays(x, y) => {
                let e = skip_selector(plan, input);
                let scope = Scope::Element(x);
                let element = Source {
                    edition: v,
                    scope,
                    stride: source.stride,
                };
                let inner = TargetPlace { edition: vt, at: y };
                let r = fit_selector(incoming, element, index, plan, e, target, inner, levels);
                around(name, r)
            }
            _ => Fit::Unknown,
        },
        Taken::Absent => Fit::Unknown,
    }
}

#[cycle(fit_array_fit_column_fit_fields_fit_list_fit_rename_fit_selector_fit_struct)]
fn fit_struct(
    incoming: &[u8],
    source: Source,
    index: &[u16],
    plan: &[u8],
    input: Cursor,
    target: &[u8],
    place: TargetPlace,
    levels: u8,
) -> Fit
    requires { (at : ℕ) × (A : FitFrom incoming.now source index.now plan.now at target.now place) × StructAt plan.now at A.selector input.at }
    ensures { (at : ℕ) (A : FitFrom incoming.now source index.now plan.now at target.now place) → StructAt plan.now at A.selector input.at → Fits A result }
{
    let v = source.edition;
    let vt = place.edition;
    match take_position(incoming, source, index, plan, input) {
        Taken::At(name, d) => match both_inside(incoming, v, d, target, vt, place.at) {
            Both::Structs(n, x, m, y) => {
                let fields = struct_fields(plan, input);
                if fields.count != m {
                    return Fit::Unknown;
                }
                let first = fields.first;
                let scope = Scope::Columns(n, x);
                let stride = field_stride(n);
                let mut starts: [u16; 64] = [0; 64];
                let len = index_fields(incoming, v, n, x, m, stride, &mut starts);
                let table = &starts[..len];
                let inner = Source {
                    edition: v,
                    scope,
                    stride,
                };
                let columns = ColumnRange {
                    edition: vt,
                    count: m,
                    first: y,
                };
                match fit_fields(incoming, inner, table, plan, first, target, columns, levels) {
                    FitEnd::At(e, f) => Fit::Is(e, f, named(Place::Incoming, name)),
                    FitEnd::Unknown => Fit::Unknown,
                }
            }
            _ => Fit::Unknown,
        },
        Taken::Absent => Fit::Unknown,
    }
}

// A selector and a column of the target: names and types.
#[cycle(fit_array_fit_column_fit_fields_fit_list_fit_rename_fit_selector_fit_struct)]
pub fn fit_column(
    incoming: &[u8],
    source: Source,
    index: &[u16],
    plan: &[u8],
    c: Cursor,
    target: &[u8],
    place: TargetPlace,
    levels: u8,
) -> FitEnd
    requires { ColumnFitFrom incoming.now source index.now plan.now c.at target.now place }
    ensures { (A : ColumnFitFrom incoming.now source index.now plan.now c.at target.now place) → FitsColumn A result }
{
    let vt = place.edition;
    let b = place.at;
    match b.label(target, vt) {
        Labelled::Is(l, d) => {
            let inner = TargetPlace { edition: vt, at: d };
            match fit_selector(incoming, source, index, plan, c, target, inner, levels) {
                Fit::Is(e, f, name) => {
                    let q = l.name;
                    if same_name(incoming, plan, name, target, q) {
                        FitEnd::At(e, f)
                    } else {
                        FitEnd::Unknown
                    }
                }
                Fit::Unknown => FitEnd::Unknown,
            }
        }
        Labelled::Refused(_) => FitEnd::Unknown,
    }
}

// A selector for each of the target's columns.
#[cycle(fit_array_fit_column_fit_fields_fit_list_fit_rename_fit_selector_fit_struct)]
fn fit_fields(
    incoming: &[u8],
    source: Source,
    index: &[u16],
    plan: &[u8],
    c: Cursor,
    target: &[u8],
    columns: ColumnRange,
    levels: u8,
) -> FitEnd
    requires { FieldsFitFrom incoming.now source index.now plan.now c.at target.now columns }
    ensures { (A : FieldsFitFrom incoming.now source index.now plan.now c.at target.now columns) → FitsFields A result }
{
    let vt = columns.edition;
    let n = columns.count;
    let mut d = c;
    let mut b = columns.first;
    let mut i: u16 = 0;
    while i < n {
        let place = TargetPlace { edition: vt, at: b };
        match fit_column(incoming, source, index, plan, d, target, place, levels) {
            FitEnd::At(e, f) => {
                d = e;
                b = f;
            }
            FitEnd::Unknown => return FitEnd::Unknown,
        }
        i += 1;
    }
    FitEnd::At(d, b)
}

// Inside at most so many others.
#[cycle(fit_array_fit_column_fit_fields_fit_list_fit_rename_fit_selector_fit_struct)]
fn fit_selector(
    incoming: &[u8],
    source: Source,
    index: &[u16],
    plan: &[u8],
    c: Cursor,
    target: &[u8],
    place: TargetPlace,
    levels: u8,
) -> Fit
    requires { FitFrom incoming.now source index.now plan.now c.at target.now place }
    ensures { (A : FitFrom incoming.now source index.now plan.now c.at target.now place) → Fits A result }
{
    if levels == 0 {
        return Fit::Unknown;
    }
    let l = levels - 1;
    match head(plan, c) {
        SelectorHead::Position(_) => {
            fit_position(incoming, source, index, plan, c, target, place)
        }
        SelectorHead::Constant(n, t) => fit_constant(plan, c, n, t, target, place),
        SelectorHead::Cast(d) => fit_cast(incoming, source, index, plan, c, d, target, place),
        SelectorHead::Rename(d) => fit_rename(incoming, source, index, plan, d, target, place, l),
        SelectorHead::Struct(d) => fit_struct(incoming, source, index, plan, d, target, place, l),
        SelectorHead::List(d) => fit_list(incoming, source, index, plan, d, target, place, l),
        SelectorHead::Array(d) => fit_array(incoming, source, index, plan, d, target, place, l),
        SelectorHead::Refused => Fit::Unknown,
    }
}
