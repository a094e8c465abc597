// What the inputs of a top selector give, written out: types in version 1 form, values as in a record.
ghost use Rattle.std.specs.Prelude.{◌≡◌, true, ℕ, ◌≤◌, ◌<◌, length};
ghost use Rattle.ends.specs.code.Ends.{Ends};
ghost use Rattle.layout.specs.Limits.{longest, longest_plan};
ghost use Rattle.layout.specs.Tree.{Fields, fields_of};
ghost use Rattle.layout.specs.declared.edition.Edition.{Edition as EditionOf};
ghost use Rattle.values.specs.Value.{Values};
ghost use Rattle.plan.specs.Run.{eval};
ghost use Rattle.plan.specs.code.Fits.{FitsAllOver};
ghost use Rattle.walk.specs.code.Stands.{SelectorAt};
ghost use Rattle.nodes.specs.code.Raw.{RawAt};
ghost use Rattle.index.specs.code.Indexed.{RowIn, IndexedIn};
ghost use Rattle.direct.specs.code.Inputs.{input_of};
ghost use Rattle.transfer.specs.code.Given.{SelectorReached};
ghost use Rattle.composed.specs.code.Composing.{Composed, CompositionIs};

use direct::input::{Input, input_of};
use direct::scope::{Scope, Source};
use ends::local::fill_local;
use index::row::{Row, indexed_value};
use infer::form::Inferred;
use infer::over::{infer_leaf, infer_over};
use layout::cursor::Cursor;
use layout::edition::Edition;
use layout::limits::{DEEPEST, DEEPEST_SELECTOR};
use layout::walk::skip_type;
use nodes::raw::NodeAt;
use transfer::leaf::{Node, Place, Reached};
use transfer::origin::taken_position;
use transfer::row::{transfer, transfer_over};
use values::constant::needs_table;

// Whether what was stored ends within a buffer of that many bytes.
fn stored_within(r: Reached, len: usize) -> bool
    ensures { result ≡ true → (e : Cursor) × (end : ℕ) × (r ≡ Reached.To e end) × (end ≤ len) }
{
    match r {
        Reached::To(_, end) => end <= len,
        Reached::Unknown => false,
    }
}

// A position or a constant at `c`: its type and its value.
pub fn compose_leaf(
    lay: &[u8],
    rec: &[u8],
    row: Row,
    types: &[u16],
    values: &[u16],
    plan: &[u8],
    c: Cursor,
    form: &mut [u8],
    value: &mut [u8],
    ends: &[u16],
) -> bool
    requires ends { Ends row.columns.edition lay.now ends.now }
    requires row_in { RowIn lay.now rec.now row }
    requires indexed_in { IndexedIn lay.now rec.now row types.now values.now × (0 < row.stride) }
    requires selector_at { SelectorAt plan.now c.at }
    requires lay_len_bound { (length lay.now ≤ longest_plan) × (length rec.now ≤ longest_plan) × (length plan.now ≤ longest_plan) }
    requires form_len_bound { (length form.old ≤ longest) × (length value.old ≤ longest) }
    ensures { result ≡ true → (X : RowIn lay.now rec.now row) (P : SelectorAt plan.now c.at) → Composed (fields_of X.columns.columns) X.values.values P.tree form.new value.new }
{
    let range = row.columns;
    let v = range.edition;
    let n = range.count;
    let t = range.first;
    let scope = Scope::Columns(n, t);
    let source = Source {
        edition: v,
        scope,
        stride: row.stride,
    };
    match infer_leaf(lay, source, types, plan, c, DEEPEST, form, 0) {
        Inferred::Is(_) => {
            let p = taken_position(plan, c);
            let at = indexed_value(lay, rec, row, types, values, p, ends);
            let node = Node { edition: v, at };
            let place = Place {
                selector: c,
                levels: 1,
                k: 0,
            };
            let len = value.len();
            stored_within(transfer(lay, rec, node, plan, place, value, ends), len)
        }
        Inferred::Unknown => false,
    }
}

// The transform at `place` of the value at the start of `rec`, whose type at the start of `lay` ends at `end`: what is
// null or empty passes over a struct in one step.
fn over_by_table(
    lay: &[u8],
    end: Cursor,
    rec: &[u8],
    plan: &[u8],
    place: Place,
    out: &mut [u8],
) -> Reached
    requires raw_at { RawAt EditionOf.One lay.now 0 rec.now 0 }
    requires selector_at { SelectorAt plan.now place.selector.at }
    requires rec_len_bound { (length rec.now ≤ longest_plan) × (length plan.now ≤ longest_plan) × (place.k ≤ longest) }
    ensures { (ρ : Values) (X : RawAt EditionOf.One lay.now 0 rec.now 0) (P : SelectorAt plan.now place.selector.at) → X.value.tree ≡ eval ρ (input_of P.tree) → SelectorReached ρ P out.old place.k result out.new }
{
    let mut ends = [0u16; 4098];
    let start = Cursor { at: 0 };
    fill_local(lay, Edition::One, DEEPEST, start, end, &mut ends);
    let edition = Edition::One;
    let at = NodeAt::At(start, start);
    let node = Node { edition, at };
    transfer_over(lay, rec, node, plan, place, out, &ends)
}

// The transform at `place` of the value at the start of `rec`, whose type stands at the start of `lay`.
pub fn over_written(lay: &[u8], rec: &[u8], plan: &[u8], place: Place, out: &mut [u8]) -> Reached
    requires raw_at { RawAt EditionOf.One lay.now 0 rec.now 0 }
    requires selector_at { SelectorAt plan.now place.selector.at }
    requires rec_len_bound { (length rec.now ≤ longest_plan) × (length plan.now ≤ longest_plan) × (place.k ≤ longest) }
    ensures { (ρ : Values) (X : RawAt EditionOf.One lay.now 0 rec.now 0) (P : SelectorAt plan.now place.selector.at) → X.value.tree ≡ eval ρ (input_of P.tree) → SelectorReached ρ P out.old place.k result out.new }
{
    let none: [u16; 1] = [0; 1];
    let start = Cursor { at: 0 };
    let end = skip_type(lay, Edition::One, DEEPEST, start);
    if needs_table(rec, start, end, start) {
        return over_by_table(lay, end, rec, plan, place, out);
    }
    let edition = Edition::One;
    let at = NodeAt::At(start, start);
    let node = Node { edition, at };
    transfer_over(lay, rec, node, plan, place, out, &none[..0])
}

// The transform at `c`, whose input has the type at the start of `lay` and the value at the start of `rec`.
fn compose_over(
    lay: &[u8],
    rec: &[u8],
    plan: &[u8],
    c: Cursor,
    form: &mut [u8],
    value: &mut [u8],
) -> bool
    requires raw_at { RawAt EditionOf.One lay.now 0 rec.now 0 }
    requires selector_at { SelectorAt plan.now c.at }
    requires lay_len_bound { (length lay.now ≤ longest_plan) × (length rec.now ≤ longest_plan) × (length plan.now ≤ longest_plan) }
    requires form_len_bound { (length form.old ≤ longest) × (length value.old ≤ longest) }
    ensures { result ≡ true → (Γ : Fields) (ρ : Values) (P : SelectorAt plan.now c.at) → FitsAllOver Γ ρ → Composed Γ ρ (input_of P.tree) lay.now rec.now → Composed Γ ρ P.tree form.new value.new }
{
    let start = Cursor { at: 0 };
    match infer_over(lay, Edition::One, start, plan, c, DEEPEST, form, 0) {
        Inferred::Is(_) => {
            let place = Place {
                selector: c,
                levels: DEEPEST_SELECTOR,
                k: 0,
            };
            let len = value.len();
            stored_within(over_written(lay, rec, plan, place, value), len)
        }
        Inferred::Unknown => false,
    }
}

// The selector that stands innermost in the one at `c`: a position or a constant.
pub fn innermost(plan: &[u8], c: Cursor) -> Cursor
    requires { SelectorAt plan.now c.at }
    ensures { SelectorAt plan.now result.at }
{
    let mut d = c;
    loop {
        match input_of(plan, d) {
            Input::None => return d,
            Input::At(input) => {
                d = input;
            }
        }
    }
}

// Which pair of buffers holds a selector's type and value; or they are not settled.
#[derive(Clone, Copy)]
pub enum Composition {
    First,
    Second,
    Unknown,
}

// The selector at `c` around the one at `leaf`, whose type and value stand at the start of `form` and `value`: what lies
// between takes turns in the two pairs of buffers.
pub fn compose_value(
    plan: &[u8],
    c: Cursor,
    leaf: Cursor,
    form: &mut [u8],
    value: &mut [u8],
    other_form: &mut [u8],
    other_value: &mut [u8],
) -> Composition
    requires selector_at { SelectorAt plan.now c.at }
    requires fits_all_over { (Γ : Fields) × (ρ : Values) × FitsAllOver Γ ρ × (L : SelectorAt plan.now leaf.at) × Composed Γ ρ L.tree form.old value.old }
    requires plan_len_bound { length plan.now ≤ longest_plan }
    requires form_len_bound { (length form.old ≤ longest) × (length value.old ≤ longest) }
    requires other_form_len_bound { (length other_form.old ≤ longest) × (length other_value.old ≤ longest) }
    ensures { (Γ : Fields) (ρ : Values) (L : SelectorAt plan.now leaf.at) (P : SelectorAt plan.now c.at) → FitsAllOver Γ ρ → Composed Γ ρ L.tree form.old value.old → CompositionIs Γ ρ P.tree form.new value.new other_form.new other_value.new result }
{
    if leaf.at < c.at {
        return Composition::Unknown;
    }
    if leaf.at == c.at {
        return Composition::First;
    }
    match input_of(plan, c) {
        Input::None => Composition::Unknown,
        Input::At(input) => {
            match compose_value(plan, input, leaf, form, value, other_form, other_value) {
                Composition::First => {
                    if compose_over(form, value, plan, c, other_form, other_value) {
                        return Composition::Second;
                    }
                    Composition::Unknown
                }
                Composition::Second => {
                    if compose_over(other_form, other_value, plan, c, form, value) {
                        return Composition::First;
                    }
                    Composition::Unknown
                }
                Composition::Unknown => Composition::Unknown,
            }
        }
    }
}
