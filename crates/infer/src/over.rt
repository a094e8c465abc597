// The type that a transform gives over a type, and the type that a selector gives over a scope. Recursion goes as deep
// as types nest.
ghost use Rattle.std.specs.Prelude.{◌≡◌, ℕ, ◌+◌, ◌≤◌, length};
ghost use Rattle.layout.specs.Limits.{longest_plan, deepest};
ghost use Rattle.layout.specs.Bytes.{Bytes};
ghost use Rattle.layout.specs.Tree.{Fields, dtype_of};
ghost use Rattle.layout.specs.code.Stands.{TypeAt};
ghost use Rattle.plan.specs.Result.{gives};
ghost use Rattle.plan.specs.Check.{column, type_of, types_of};
ghost use Rattle.walk.specs.code.Stands.{SelectorAt, SelectorsAt};
ghost use Rattle.walk.specs.code.Parts.{CastAt, StructAt, ListAt, ArrayAt};
ghost use Rattle.direct.specs.code.Inputs.{input_of};
ghost use Rattle.direct.specs.code.Scopes.{SourceAt};
ghost use Rattle.infer.specs.code.Writing.{InferredIs, ColumnIs, FieldsIs};

use crate::form::{Inferred, behind, copy_type, put_array, put_list, put_struct};
use crate::name::{Named, infer_name, write_name};
use direct::cast::type_fits;
use direct::input::{Input, input_of, skip_renames};
use direct::inside::{Inside, inside_of};
use direct::scope::{Scope, Source, Taken, index_fields, take_position};
use index::columns::field_stride;
use layout::cursor::Cursor;
use layout::edition::Edition;
use walk::head::{SelectorHead, StructFields, cast_option, head, skip_selector, struct_fields};

// A cast with its input at `input`, which has the type at `d`.
fn cast_over(
    s: &[u8],
    v: Edition,
    d: Cursor,
    plan: &[u8],
    input: Cursor,
    depth: u8,
    out: &mut [u8],
    k: usize,
) -> Inferred
    requires type_at { TypeAt v deepest s.now d.at }
    requires by_index { (at : ℕ) × (P : SelectorAt plan.now at) × CastAt plan.now at P input.at }
    requires s_len_bound { (length s.now ≤ longest_plan) × (length plan.now ≤ longest_plan) × (length out.old ≤ longest_plan) × (k ≤ length out.old) × (depth ≤ deepest) }
    ensures { (T : TypeAt v deepest s.now d.at) (at : ℕ) (P : SelectorAt plan.now at) (S : CastAt plan.now at P input.at) (Γ : Fields) (n : Bytes) → type_of Γ S.input.tree ≡ gives (column n (dtype_of T.tree)) → InferredIs (type_of Γ P.tree) depth out.old k result out.new }
{
    let t = skip_selector(plan, input);
    if !type_fits(s, v, d, plan, t, cast_option(plan, t)) {
        return Inferred::Unknown;
    }
    copy_type(plan, Edition::One, t, depth, out, k)
}

// The name and the form of the column that the selector at `c` gives.
#[cycle(array_over_infer_column_infer_fields_infer_over_infer_selector_list_over_struct_over)]
fn infer_column(
    s: &[u8],
    source: Source,
    index: &[u16],
    plan: &[u8],
    c: Cursor,
    depth: u8,
    out: &mut [u8],
    k: usize,
) -> Inferred
    requires source_at { SourceAt s.now source index.now }
    requires selector_at { SelectorAt plan.now c.at }
    requires s_len_bound { (length s.now ≤ longest_plan) × (length plan.now ≤ longest_plan) × (length out.old ≤ longest_plan) × (k ≤ length out.old) × (depth ≤ deepest) }
    ensures { (X : SourceAt s.now source index.now) (P : SelectorAt plan.now c.at) → ColumnIs (type_of X.fields P.tree) depth out.old k result out.new }
{
    match infer_name(s, source, index, plan, c) {
        Named::Is(name) => {
            let at = write_name(s, plan, name, out, k);
            if at == 0 {
                return Inferred::Unknown;
            }
            let r = infer_selector(s, source, index, plan, c, depth, out, at);
            behind(at - k, r)
        }
        Named::Input(_) => Inferred::Unknown,
        Named::Absent => Inferred::Unknown,
    }
}

// The names and forms of the columns that the selectors of a struct mapping give.
#[cycle(array_over_infer_column_infer_fields_infer_over_infer_selector_list_over_struct_over)]
fn infer_fields(
    s: &[u8],
    source: Source,
    index: &[u16],
    plan: &[u8],
    fields: StructFields,
    depth: u8,
    out: &mut [u8],
    k: usize,
) -> Inferred
    requires source_at { SourceAt s.now source index.now }
    requires selectors_at { SelectorsAt plan.now fields.count fields.first.at }
    requires s_len_bound { (length s.now ≤ longest_plan) × (length plan.now ≤ longest_plan) × (length out.old ≤ longest_plan) × (k ≤ length out.old) × (depth ≤ deepest) }
    ensures { (X : SourceAt s.now source index.now) (S : SelectorsAt plan.now fields.count fields.first.at) → FieldsIs (types_of X.fields S.trees) fields.count depth out.old k result out.new }
{
    let count = fields.count;
    let mut d = fields.first;
    let mut at = k;
    let mut i: u16 = 0;
    while i < count {
        match infer_column(s, source, index, plan, d, depth, out, at) {
            Inferred::Is(len) => {
                at += len;
            }
            Inferred::Unknown => return Inferred::Unknown,
        }
        d = skip_selector(plan, d);
        i += 1;
    }
    Inferred::Is(at - k)
}

// A struct mapping with its input at `input`; its fields have at most `depth` levels.
#[cycle(array_over_infer_column_infer_fields_infer_over_infer_selector_list_over_struct_over)]
fn struct_over(
    s: &[u8],
    v: Edition,
    d: Cursor,
    plan: &[u8],
    input: Cursor,
    depth: u8,
    out: &mut [u8],
    k: usize,
) -> Inferred
    requires type_at { TypeAt v deepest s.now d.at }
    requires by_index { (at : ℕ) × (P : SelectorAt plan.now at) × StructAt plan.now at P input.at }
    requires s_len_bound { (length s.now ≤ longest_plan) × (length plan.now ≤ longest_plan) × (length out.old ≤ longest_plan) × (k ≤ length out.old) × (depth ≤ 15) }
    ensures { (T : TypeAt v deepest s.now d.at) (at : ℕ) (P : SelectorAt plan.now at) (S : StructAt plan.now at P input.at) (Γ : Fields) (n : Bytes) → type_of Γ S.input.tree ≡ gives (column n (dtype_of T.tree)) → InferredIs (type_of Γ P.tree) (depth + 1) out.old k result out.new }
{
    match inside_of(s, v, d) {
        Inside::Struct(n, x) => {
            let fields = struct_fields(plan, input);
            let count = fields.count;
            if !put_struct(count, out, k) {
                return Inferred::Unknown;
            }
            let scope = Scope::Columns(n, x);
            let stride = field_stride(n);
            let mut starts: [u16; 64] = [0; 64];
            let len = index_fields(s, v, n, x, count, stride, &mut starts);
            let index = &starts[..len];
            let source = Source {
                edition: v,
                scope,
                stride,
            };
            let r = infer_fields(s, source, index, plan, fields, depth, out, k + 3);
            behind(3, r)
        }
        _ => Inferred::Unknown,
    }
}

// A list mapping with its input at `input`. An element needs no index.
#[cycle(array_over_infer_column_infer_fields_infer_over_infer_selector_list_over_struct_over)]
fn list_over(
    s: &[u8],
    v: Edition,
    d: Cursor,
    plan: &[u8],
    input: Cursor,
    depth: u8,
    out: &mut [u8],
    k: usize,
) -> Inferred
    requires type_at { TypeAt v deepest s.now d.at }
    requires by_index { (at : ℕ) × (P : SelectorAt plan.now at) × ListAt plan.now at P input.at }
    requires s_len_bound { (length s.now ≤ longest_plan) × (length plan.now ≤ longest_plan) × (length out.old ≤ longest_plan) × (k ≤ length out.old) × (depth ≤ 15) }
    ensures { (T : TypeAt v deepest s.now d.at) (at : ℕ) (P : SelectorAt plan.now at) (S : ListAt plan.now at P input.at) (Γ : Fields) (n : Bytes) → type_of Γ S.input.tree ≡ gives (column n (dtype_of T.tree)) → InferredIs (type_of Γ P.tree) (depth + 1) out.old k result out.new }
{
    match inside_of(s, v, d) {
        Inside::List(x) => {
            if !put_list(out, k) {
                return Inferred::Unknown;
            }
            let e = skip_selector(plan, input);
            let scope = Scope::Element(x);
            let element = Source {
                edition: v,
                scope,
                stride: 1,
            };
            let none: [u16; 1] = [0; 1];
            let r = infer_selector(s, element, &none, plan, e, depth, out, k + 1);
            behind(1, r)
        }
        _ => Inferred::Unknown,
    }
}

// An array mapping with its input at `input`.
#[cycle(array_over_infer_column_infer_fields_infer_over_infer_selector_list_over_struct_over)]
fn array_over(
    s: &[u8],
    v: Edition,
    d: Cursor,
    plan: &[u8],
    input: Cursor,
    depth: u8,
    out: &mut [u8],
    k: usize,
) -> Inferred
    requires type_at { TypeAt v deepest s.now d.at }
    requires by_index { (at : ℕ) × (P : SelectorAt plan.now at) × ArrayAt plan.now at P input.at }
    requires s_len_bound { (length s.now ≤ longest_plan) × (length plan.now ≤ longest_plan) × (length out.old ≤ longest_plan) × (k ≤ length out.old) × (depth ≤ 15) }
    ensures { (T : TypeAt v deepest s.now d.at) (at : ℕ) (P : SelectorAt plan.now at) (S : ArrayAt plan.now at P input.at) (Γ : Fields) (n : Bytes) → type_of Γ S.input.tree ≡ gives (column n (dtype_of T.tree)) → InferredIs (type_of Γ P.tree) (depth + 1) out.old k result out.new }
{
    match inside_of(s, v, d) {
        Inside::Array(w, x) => {
            if !put_array(w, out, k) {
                return Inferred::Unknown;
            }
            let e = skip_selector(plan, input);
            let scope = Scope::Element(x);
            let element = Source {
                edition: v,
                scope,
                stride: 1,
            };
            let none: [u16; 1] = [0; 1];
            let r = infer_selector(s, element, &none, plan, e, depth, out, k + 5);
            behind(5, r)
        }
        _ => Inferred::Unknown,
    }
}

// The transform at `c`, whose input has the type at `d`: its type, of at most `depth` levels.
#[cycle(array_over_infer_column_infer_fields_infer_over_infer_selector_list_over_struct_over)]
pub fn infer_over(
    s: &[u8],
    v: Edition,
    d: Cursor,
    plan: &[u8],
    c: Cursor,
    depth: u8,
    out: &mut [u8],
    k: usize,
) -> Inferred
    requires type_at { TypeAt v deepest s.now d.at }
    requires selector_at { SelectorAt plan.now c.at }
    requires s_len_bound { (length s.now ≤ longest_plan) × (length plan.now ≤ longest_plan) × (length out.old ≤ longest_plan) × (k ≤ length out.old) × (depth ≤ deepest) }
    ensures { (T : TypeAt v deepest s.now d.at) (P : SelectorAt plan.now c.at) (Γ : Fields) (n : Bytes) → type_of Γ (input_of P.tree) ≡ gives (column n (dtype_of T.tree)) → InferredIs (type_of Γ P.tree) depth out.old k result out.new }
{
    if depth == 0 {
        return Inferred::Unknown;
    }
    let inner = depth - 1;
    match head(plan, c) {
        SelectorHead::Cast(input) => cast_over(s, v, d, plan, input, depth, out, k),
        SelectorHead::Rename(_) => copy_type(s, v, d, depth, out, k),
        SelectorHead::Struct(input) => struct_over(s, v, d, plan, input, inner, out, k),
        SelectorHead::List(input) => list_over(s, v, d, plan, input, inner, out, k),
        SelectorHead::Array(input) => array_over(s, v, d, plan, input, inner, out, k),
        SelectorHead::Position(_) => Inferred::Unknown,
        SelectorHead::Constant(_, _) => Inferred::Unknown,
        SelectorHead::Refused => Inferred::Unknown,
    }
}

// A position or a constant at `c`.
pub fn infer_leaf(
    s: &[u8],
    source: Source,
    index: &[u16],
    plan: &[u8],
    c: Cursor,
    depth: u8,
    out: &mut [u8],
    k: usize,
) -> Inferred
    requires source_at { SourceAt s.now source index.now }
    requires selector_at { SelectorAt plan.now c.at }
    requires s_len_bound { (length s.now ≤ longest_plan) × (length plan.now ≤ longest_plan) × (length out.old ≤ longest_plan) × (k ≤ length out.old) × (depth ≤ deepest) }
    ensures { (X : SourceAt s.now source index.now) (P : SelectorAt plan.now c.at) → InferredIs (type_of X.fields P.tree) depth out.old k result out.new }
{
    let v = source.edition;
    match head(plan, c) {
        SelectorHead::Position(_) => match take_position(s, source, index, plan, c) {
            Taken::At(_, d) => copy_type(s, v, d, depth, out, k),
            Taken::Absent => Inferred::Unknown,
        },
        SelectorHead::Constant(_, t) => copy_type(plan, Edition::One, t, depth, out, k),
        _ => Inferred::Unknown,
    }
}

// The selector at `c` over a scope: a position, a constant, or a transform of a position, inside renames.
#[cycle(array_over_infer_column_infer_fields_infer_over_infer_selector_list_over_struct_over)]
fn infer_selector(
    s: &[u8],
    source: Source,
    index: &[u16],
    plan: &[u8],
    c: Cursor,
    depth: u8,
    out: &mut [u8],
    k: usize,
) -> Inferred
    requires source_at { SourceAt s.now source index.now }
    requires selector_at { SelectorAt plan.now c.at }
    requires s_len_bound { (length s.now ≤ longest_plan) × (length plan.now ≤ longest_plan) × (length out.old ≤ longest_plan) × (k ≤ length out.old) × (depth ≤ deepest) }
    ensures { (X : SourceAt s.now source index.now) (P : SelectorAt plan.now c.at) → InferredIs (type_of X.fields P.tree) depth out.old k result out.new }
{
    let v = source.edition;
    let x = skip_renames(plan, c);
    match input_of(plan, x) {
        Input::None => infer_leaf(s, source, index, plan, x, depth, out, k),
        Input::At(input) => match take_position(s, source, index, plan, input) {
            Taken::At(_, d) => infer_over(s, v, d, plan, x, depth, out, k),
            Taken::Absent => Inferred::Unknown,
        },
    }
}
