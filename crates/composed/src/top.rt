// What top selectors give over a record.
ghost use Rattle.std.specs.Prelude.{◌≤◌, ◌<◌, length};
ghost use Rattle.ends.specs.code.Ends.{Ends};
ghost use Rattle.layout.specs.Limits.{longest, longest_plan};
ghost use Rattle.walk.specs.code.Stands.{SelectorAt};
ghost use Rattle.index.specs.code.Indexed.{RowIn, IndexedIn};
ghost use Rattle.direct.specs.code.Inputs.{InputAt};
ghost use Rattle.transfer.specs.code.Given.{SelectorsIn, SelectorReached, RowReached};

use crate::compose::{Composition, compose_leaf, compose_value, innermost, over_written};
use direct::input::{Input, input_of, skip_renames};
use index::row::{Row, indexed_value};
use layout::cursor::Cursor;
use layout::limits::{LONGEST, LONGEST_PLAN};
use transfer::leaf::{Node, Place, Reached, Selectors, limited};
use transfer::origin::{is_position, taken_position};
use transfer::row::transfer;
use walk::head::{SelectorHead, head};

// A transform, where its input stands, and where what is innermost in it does.
#[derive(Clone, Copy)]
struct Transform {
    place: Place,
    input: Cursor,
    leaf: Cursor,
}

// With buffers for all that a result can be.
fn over_large(
    lay: &[u8],
    rec: &[u8],
    row: Row,
    types: &[u16],
    values: &[u16],
    plan: &[u8],
    transform: Transform,
    out: &mut [u8],
    ends: &[u16],
) -> Reached
    requires ends { Ends row.columns.edition lay.now ends.now }
    requires row_in { RowIn lay.now rec.now row }
    requires indexed_in { IndexedIn lay.now rec.now row types.now values.now × (0 < row.stride) }
    requires input_at { (P : SelectorAt plan.now transform.place.selector.at) × InputAt plan.now transform.place.selector.at P transform.input.at }
    requires selector_at { SelectorAt plan.now transform.leaf.at }
    requires lay_len_bound { (length lay.now ≤ longest_plan) × (length rec.now ≤ longest_plan) × (length plan.now ≤ longest_plan) × (transform.place.k ≤ longest) }
    ensures { (X : RowIn lay.now rec.now row) (P : SelectorAt plan.now transform.place.selector.at) → InputAt plan.now transform.place.selector.at P transform.input.at → SelectorReached X.values.values P out.old transform.place.k result out.new }
{
    let leaf = transform.leaf;
    let mut form: [u8; 16384] = [0; 16384];
    let mut value: [u8; 16384] = [0; 16384];
    let mut other_form: [u8; 16384] = [0; 16384];
    let mut other_value: [u8; 16384] = [0; 16384];
    if !compose_leaf(
        lay, rec, row, types, values, plan, leaf, &mut form, &mut value, ends,
    ) {
        return Reached::Unknown;
    }
    match compose_value(
        plan,
        transform.input,
        leaf,
        &mut form,
        &mut value,
        &mut other_form,
        &mut other_value,
    ) {
        Composition::First => over_written(&form, &value, plan, transform.place, out),
        Composition::Second => {
            over_written(&other_form, &other_value, plan, transform.place, out)
        }
        Composition::Unknown => Reached::Unknown,
    }
}

// The transform of a transform: with buffers that are cleared in no time, where these do.
fn over_input(
    lay: &[u8],
    rec: &[u8],
    row: Row,
    types: &[u16],
    values: &[u16],
    plan: &[u8],
    transform: Transform,
    out: &mut [u8],
    ends: &[u16],
) -> Reached
    requires ends { Ends row.columns.edition lay.now ends.now }
    requires row_in { RowIn lay.now rec.now row }
    requires indexed_in { IndexedIn lay.now rec.now row types.now values.now × (0 < row.stride) }
    requires input_at { (P : SelectorAt plan.now transform.place.selector.at) × InputAt plan.now transform.place.selector.at P transform.input.at }
    requires selector_at { SelectorAt plan.now transform.leaf.at }
    requires lay_len_bound { (length lay.now ≤ longest_plan) × (length rec.now ≤ longest_plan) × (length plan.now ≤ longest_plan) × (transform.place.k ≤ longest) }
    ensures { (X : RowIn lay.now rec.now row) (P : SelectorAt plan.now transform.place.selector.at) → InputAt plan.now transform.place.selector.at P transform.input.at → SelectorReached X.values.values P out.old transform.place.k result out.new }
{
    let leaf = transform.leaf;
    let mut form: [u8; 256] = [0; 256];
    let mut value: [u8; 256] = [0; 256];
    let mut other_form: [u8; 256] = [0; 256];
    let mut other_value: [u8; 256] = [0; 256];
    if !compose_leaf(
        lay, rec, row, types, values, plan, leaf, &mut form, &mut value, ends,
    ) {
        return over_large(lay, rec, row, types, values, plan, transform, out, ends);
    }
    match compose_value(
        plan,
        transform.input,
        leaf,
        &mut form,
        &mut value,
        &mut other_form,
        &mut other_value,
    ) {
        Composition::First => over_written(&form, &value, plan, transform.place, out),
        Composition::Second => {
            over_written(&other_form, &other_value, plan, transform.place, out)
        }
        Composition::Unknown => {
            over_large(lay, rec, row, types, values, plan, transform, out, ends)
        }
    }
}

// Whether the selector at `c` is made of casts and renames of a position.
fn is_chain(plan: &[u8], c: Cursor) -> bool
    requires { SelectorAt plan.now c.at }
{
    let mut d = c;
    loop {
        match head(plan, d) {
            SelectorHead::Position(_) => return true,
            SelectorHead::Cast(input) => {
                d = input;
            }
            SelectorHead::Rename(input) => {
                d = input;
            }
            _ => return false,
        }
    }
}

// Whether the selector at `c` is a position, a constant, a chain of casts or a mapping of a position, inside renames.
// Nothing rests on it but the time that is needed.
fn is_direct(plan: &[u8], c: Cursor) -> bool
    requires { SelectorAt plan.now c.at }
{
    let d = skip_renames(plan, c);
    match input_of(plan, d) {
        Input::None => true,
        Input::At(input) => {
            if is_position(plan, input) {
                return true;
            }
            is_chain(plan, c)
        }
    }
}

// The top selector at `place`.
pub fn transfer_top(
    lay: &[u8],
    rec: &[u8],
    row: Row,
    types: &[u16],
    values: &[u16],
    plan: &[u8],
    place: Place,
    out: &mut [u8],
    ends: &[u16],
) -> Reached
    requires ends { Ends row.columns.edition lay.now ends.now }
    requires row_in { RowIn lay.now rec.now row }
    requires indexed_in { IndexedIn lay.now rec.now row types.now values.now × (0 < row.stride) }
    requires selector_at { SelectorAt plan.now place.selector.at }
    requires rec_len_bound { (length rec.now ≤ longest_plan) × (length plan.now ≤ longest_plan) × (place.k ≤ 16387) }
    ensures { (X : RowIn lay.now rec.now row) (P : SelectorAt plan.now place.selector.at) → SelectorReached X.values.values P out.old place.k result out.new }
{
    let c = place.selector;
    if is_direct(plan, c) {
        let p = taken_position(plan, c);
        let columns = row.columns;
        let edition = columns.edition;
        let at = indexed_value(lay, rec, row, types, values, p, ends);
        let node = Node { edition, at };
        return transfer(lay, rec, node, plan, place, out, ends);
    }
    if LONGEST < place.k {
        return Reached::Unknown;
    }
    if LONGEST_PLAN < lay.len() {
        return Reached::Unknown;
    }
    match input_of(plan, c) {
        Input::None => Reached::Unknown,
        Input::At(input) => {
            let leaf = innermost(plan, input);
            let transform = Transform { place, input, leaf };
            over_input(lay, rec, row, types, values, plan, transform, out, ends)
        }
    }
}

// The top selectors.
pub fn transfer_tops(
    lay: &[u8],
    rec: &[u8],
    row: Row,
    types: &[u16],
    values: &[u16],
    plan: &[u8],
    selectors: Selectors,
    out: &mut [u8],
    ends: &[u16],
) -> Reached
    requires ends { Ends row.columns.edition lay.now ends.now }
    requires row_in { RowIn lay.now rec.now row }
    requires indexed_in { IndexedIn lay.now rec.now row types.now values.now × (0 < row.stride) }
    requires selectors_in { SelectorsIn plan.now selectors }
    requires rec_len_bound { (length rec.now ≤ longest_plan) × (length plan.now ≤ longest_plan) × (selectors.first.k ≤ 16387) }
    ensures { (X : RowIn lay.now rec.now row) (S : SelectorsIn plan.now selectors) → RowReached X S out.old selectors.first.k result out.new }
{
    let count = selectors.count;
    let levels = selectors.first.levels;
    let mut k = selectors.first.k;
    let mut c = selectors.first.selector;
    let mut i: u16 = 0;
    while i < count {
        let place = Place {
            selector: c,
            levels,
            k,
        };
        match transfer_top(lay, rec, row, types, values, plan, place, out, ends) {
            Reached::To(e, r) => {
                c = e;
                k = r;
            }
            Reached::Unknown => return Reached::Unknown,
        }
        i += 1;
    }
    limited(c, k)
}
