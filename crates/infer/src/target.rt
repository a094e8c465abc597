// The check of a whole plan, top selector by top selector. False says nothing: the general check decides then.
ghost use Rattle.std.specs.Prelude.{◌≡◌, true, ◌≤◌, length};
ghost use Rattle.layout.specs.Limits.{longest, longest_plan, deepest};
ghost use Rattle.layout.specs.Bytes.{Bytes};
ghost use Rattle.layout.specs.Tree.{dtype_of, fields_of};
ghost use Rattle.layout.specs.code.Answers.{span_at, SpanIn};
ghost use Rattle.layout.specs.code.Stands.{TypeAt, ColumnsAt};
ghost use Rattle.plan.specs.Result.{Result, gives, accepted};
ghost use Rattle.plan.specs.Check.{Column, type_of, types_of, check};
ghost use Rattle.walk.specs.code.Stands.{SelectorAt, SelectorsAt};
ghost use Rattle.direct.specs.code.Scopes.{SourceAt};
ghost use Rattle.direct.specs.code.Fits.{FitFrom, ColumnFitFrom, FitsColumn, FieldsFitFrom, FitsFields};
ghost use Rattle.infer.specs.code.Typed.{TypedIs, FitsType};
ghost use Rattle.infer.specs.code.Writing.{InferredIs};

use crate::compose::compose_type;
use crate::form::Inferred;
use crate::name::{Named, infer_name};
use direct::fit::{FitEnd, TargetPlace, fit_column};
use direct::place::same_name;
use direct::scope::{Scope, Source};
use forms::compare::{Same, same_type};
use index::columns::{few, index_columns, stride_of};
use layout::bytes::Span;
use layout::columns::{ColumnRange, Labelled};
use layout::cursor::Cursor;
use layout::edition::Edition;
use layout::limits::{DEEPEST, DEEPEST_SELECTOR, LONGEST, LONGEST_PLAN};
use walk::head::skip_selector;

// Whether the type at the start of `out`, if the selector at `c` gave one, is the target's, and where both end.
fn fit_inferred(
    r: Inferred,
    out: &[u8],
    plan: &[u8],
    c: Cursor,
    target: &[u8],
    place: TargetPlace,
) -> FitEnd
    requires selector_at { SelectorAt plan.now c.at }
    requires type_at { TypeAt place.edition deepest target.now place.at.at }
    requires inferred_is { (a : Result Column) × (b : Bytes) × InferredIs a deepest b 0 r out.now }
    ensures { (a : Result Column) (b : Bytes) → InferredIs a deepest b 0 r out.now → (P : SelectorAt plan.now c.at) (T : TypeAt place.edition deepest target.now place.at.at) → TypedIs a P.end (dtype_of T.tree) T.end result }
{
    match r {
        Inferred::Is(_) => {
            let start = Cursor { at: 0 };
            let vt = place.edition;
            match same_type(
                out,
                Edition::One,
                DEEPEST,
                start,
                target,
                vt,
                DEEPEST,
                place.at,
            ) {
                Same::To(_, f) => FitEnd::At(skip_selector(plan, c), f),
                Same::No => FitEnd::Unknown,
            }
        }
        Inferred::Unknown => FitEnd::Unknown,
    }
}

// With buffers that are cleared in no time.
fn fit_small(
    s: &[u8],
    source: Source,
    index: &[u16],
    plan: &[u8],
    c: Cursor,
    target: &[u8],
    place: TargetPlace,
) -> FitEnd
    requires fit_from { FitFrom s.now source index.now plan.now c.at target.now place }
    requires s_len_bound { (length s.now ≤ longest_plan) × (length plan.now ≤ longest_plan) }
    ensures { (A : FitFrom s.now source index.now plan.now c.at target.now place) → FitsType A result }
{
    let mut out: [u8; 256] = [0; 256];
    let mut other: [u8; 256] = [0; 256];
    let r = compose_type(
        s,
        source,
        index,
        plan,
        c,
        DEEPEST_SELECTOR,
        &mut out,
        &mut other,
    );
    fit_inferred(r, &out, plan, c, target, place)
}

// With buffers for every type of a result.
fn fit_large(
    s: &[u8],
    source: Source,
    index: &[u16],
    plan: &[u8],
    c: Cursor,
    target: &[u8],
    place: TargetPlace,
) -> FitEnd
    requires fit_from { FitFrom s.now source index.now plan.now c.at target.now place }
    requires s_len_bound { (length s.now ≤ longest_plan) × (length plan.now ≤ longest_plan) }
    ensures { (A : FitFrom s.now source index.now plan.now c.at target.now place) → FitsType A result }
{
    let mut out: [u8; 16384] = [0; 16384];
    let mut other: [u8; 16384] = [0; 16384];
    let r = compose_type(
        s,
        source,
        index,
        plan,
        c,
        DEEPEST_SELECTOR,
        &mut out,
        &mut other,
    );
    fit_inferred(r, &out, plan, c, target, place)
}

// The name that the selector at `c` gives, and the target's at `q`.
fn same_label(
    s: &[u8],
    source: Source,
    index: &[u16],
    plan: &[u8],
    c: Cursor,
    target: &[u8],
    q: Span,
) -> bool
    requires source_at { SourceAt s.now source index.now }
    requires selector_at { SelectorAt plan.now c.at }
    requires span_in { SpanIn target.now q }
    ensures { result ≡ true → (X : SourceAt s.now source index.now) (P : SelectorAt plan.now c.at) (a : Column) → type_of X.fields P.tree ≡ gives a → a.name ≡ span_at target.now q }
{
    match infer_name(s, source, index, plan, c) {
        Named::Is(name) => same_name(s, plan, name, target, q),
        Named::Input(_) => false,
        Named::Absent => false,
    }
}

// A top selector whose inputs may be transforms, and a column of the target.
fn fit_inputs(
    s: &[u8],
    source: Source,
    index: &[u16],
    plan: &[u8],
    c: Cursor,
    target: &[u8],
    place: TargetPlace,
) -> FitEnd
    requires column_fit_from { ColumnFitFrom s.now source index.now plan.now c.at target.now place }
    requires s_len_bound { (length s.now ≤ longest_plan) × (length plan.now ≤ longest_plan) }
    ensures { (A : ColumnFitFrom s.now source index.now plan.now c.at target.now place) → FitsColumn A result }
{
    let vt = place.edition;
    let b = place.at;
    match b.label(target, vt) {
        Labelled::Is(l, d) => {
            let q = l.name;
            if !same_label(s, source, index, plan, c, target, q) {
                return FitEnd::Unknown;
            }
            let inner = TargetPlace { edition: vt, at: d };
            match fit_small(s, source, index, plan, c, target, inner) {
                FitEnd::At(e, f) => FitEnd::At(e, f),
                FitEnd::Unknown => fit_large(s, source, index, plan, c, target, inner),
            }
        }
        Labelled::Refused(_) => FitEnd::Unknown,
    }
}

// A top selector and a column of the target.
pub fn fit_top(
    s: &[u8],
    source: Source,
    index: &[u16],
    plan: &[u8],
    c: Cursor,
    target: &[u8],
    place: TargetPlace,
) -> FitEnd
    requires column_fit_from { ColumnFitFrom s.now source index.now plan.now c.at target.now place }
    requires s_len_bound { (length s.now ≤ longest_plan) × (length plan.now ≤ longest_plan) }
    ensures { (A : ColumnFitFrom s.now source index.now plan.now c.at target.now place) → FitsColumn A result }
{
    match fit_column(s, source, index, plan, c, target, place, DEEPEST_SELECTOR) {
        FitEnd::At(e, f) => FitEnd::At(e, f),
        FitEnd::Unknown => fit_inputs(s, source, index, plan, c, target, place),
    }
}

// A top selector for each of the target's columns.
fn fit_tops(
    s: &[u8],
    source: Source,
    index: &[u16],
    plan: &[u8],
    c: Cursor,
    target: &[u8],
    columns: ColumnRange,
) -> FitEnd
    requires fields_fit_from { FieldsFitFrom s.now source index.now plan.now c.at target.now columns }
    requires s_len_bound { (length s.now ≤ longest_plan) × (length plan.now ≤ longest_plan) }
    ensures { (A : FieldsFitFrom s.now source index.now plan.now c.at target.now columns) → FitsFields A result }
{
    let vt = columns.edition;
    let n = columns.count;
    let mut d = c;
    let mut b = columns.first;
    let mut i: u16 = 0;
    while i < n {
        let place = TargetPlace { edition: vt, at: b };
        match fit_top(s, source, index, plan, d, target, place) {
            FitEnd::At(e, f) => {
                d = e;
                b = f;
            }
            FitEnd::Unknown => return FitEnd::Unknown,
        }
        i += 1;
    }
    FitEnd::At(d, b)
}

// Few selectors over few columns, which are passed over.
fn fits_few(
    incoming: &[u8],
    v: Edition,
    n: u16,
    plan: &[u8],
    target: &[u8],
    vt: Edition,
    m: u16,
) -> bool
    requires columns_at { ColumnsAt v deepest incoming.now n 7 }
    requires selectors_at { SelectorsAt plan.now m 7 }
    requires columns_at_2 { ColumnsAt vt deepest target.now m 7 }
    requires incoming_len_bound { (length incoming.now ≤ longest_plan) × (length plan.now ≤ longest_plan) × (length target.now ≤ longest) }
    ensures { result ≡ true → (P : ColumnsAt v deepest incoming.now n 7) (S : SelectorsAt plan.now m 7) (Q : ColumnsAt vt deepest target.now m 7) → types_of (fields_of P.columns) S.trees ≡ gives (fields_of Q.columns) }
{
    let first = Cursor { at: 7 };
    let none: [u16; 1] = [0; 1];
    let index = &none[..0];
    let scope = Scope::Columns(n, first);
    let source = Source {
        edition: v,
        scope,
        stride: 1,
    };
    let columns = ColumnRange {
        edition: vt,
        count: m,
        first,
    };
    match fit_tops(incoming, source, index, plan, first, target, columns) {
        FitEnd::At(_, _) => true,
        FitEnd::Unknown => false,
    }
}

// Many selectors or columns, with a table of where the columns stand.
fn fits_many(
    incoming: &[u8],
    v: Edition,
    n: u16,
    plan: &[u8],
    target: &[u8],
    vt: Edition,
    m: u16,
) -> bool
    requires columns_at { ColumnsAt v deepest incoming.now n 7 }
    requires selectors_at { SelectorsAt plan.now m 7 }
    requires columns_at_2 { ColumnsAt vt deepest target.now m 7 }
    requires incoming_len_bound { (length incoming.now ≤ longest_plan) × (length plan.now ≤ longest_plan) × (length target.now ≤ longest) }
    ensures { result ≡ true → (P : ColumnsAt v deepest incoming.now n 7) (S : SelectorsAt plan.now m 7) (Q : ColumnsAt vt deepest target.now m 7) → types_of (fields_of P.columns) S.trees ≡ gives (fields_of Q.columns) }
{
    let first = Cursor { at: 7 };
    let stride = stride_of(n);
    let mut starts: [u16; 256] = [0; 256];
    let len = index_columns(incoming, v, n, first, stride, &mut starts);
    let index = &starts[..len];
    let scope = Scope::Columns(n, first);
    let source = Source {
        edition: v,
        scope,
        stride,
    };
    let columns = ColumnRange {
        edition: vt,
        count: m,
        first,
    };
    match fit_tops(incoming, source, index, plan, first, target, columns) {
        FitEnd::At(_, _) => true,
        FitEnd::Unknown => false,
    }
}

// A target longer than a layout may be has types that no result has. That `fit_tops` is called in two places keeps it a
// function of its own: called once, it would be compiled into the check, and its buffers would stand below all that the
// general check needs.
pub fn fits_target(
    incoming: &[u8],
    v: Edition,
    n: u16,
    plan: &[u8],
    count: u16,
    target: &[u8],
    vt: Edition,
    m: u16,
) -> bool
    requires columns_at { ColumnsAt v deepest incoming.now n 7 }
    requires selectors_at { SelectorsAt plan.now count 7 }
    requires columns_at_2 { ColumnsAt vt deepest target.now m 7 }
    ensures { result ≡ true → (P : ColumnsAt v deepest incoming.now n 7) (S : SelectorsAt plan.now count 7) (Q : ColumnsAt vt deepest target.now m 7) → check (fields_of P.columns) (fields_of Q.columns) S.trees ≡ accepted tt }
{
    if count != m {
        return false;
    }
    if LONGEST < target.len() {
        return false;
    }
    if LONGEST_PLAN < incoming.len() {
        return false;
    }
    if LONGEST_PLAN < plan.len() {
        return false;
    }
    if few(n, count) {
        return fits_few(incoming, v, n, plan, target, vt, m);
    }
    fits_many(incoming, v, n, plan, target, vt, m)
}
