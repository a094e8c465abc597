// What selectors give, in one pass over the plan. Recursion goes as deep as selectors nest; columns and elements are
// loops.
ghost use Rattle.std.specs.Prelude.{◌≡◌, Bool, ℕ, ◌≤◌, ◌<◌, length, take};
ghost use Rattle.ends.specs.code.Ends.{Ends};
ghost use Rattle.layout.specs.Bytes.{Bytes};
ghost use Rattle.layout.specs.Limits.{longest, longest_plan};
ghost use Rattle.layout.specs.declared.edition.Edition.{Edition as EditionOf};
ghost use Rattle.values.specs.Value.{Value, Values, vnil, vcons};
ghost use Rattle.plan.specs.Run.{value_at, eval};
ghost use Rattle.walk.specs.code.Stands.{SelectorAt};
ghost use Rattle.walk.specs.code.Parts.{TextAt, StructAt, ListAt, ArrayAt};
ghost use Rattle.nodes.specs.code.Raw.{RawAt, NodeOf};
ghost use Rattle.index.specs.code.Indexed.{RowIn, IndexedIn};
ghost use Rattle.direct.specs.code.Inputs.{input_of, InputAt};
ghost use Rattle.transfer.specs.code.Reaching.{takes, NodeIn, ReachedIs};
ghost use Rattle.transfer.specs.code.Given.{SelectorsIn, ElementsIn, SelectorReached, RowReached, ElementsReached};

use crate::casts::{Each, cast_elements, each_of};
use crate::chain::{cast_value, put_chain, transfer_cast};
use crate::leaf::{Node, Place, Reached, Selectors, limited, put_constant, put_node, put_nothing};
use crate::opened::{Opened, open_node};
use crate::origin::{is_position, taken_position};
use index::columns::field_stride;
use index::row::{Row, index_row, indexed_value};
use layout::columns::ColumnRange;
use layout::cursor::{Cursor, Moved, Text};
use layout::edition::Edition;
use layout::limits::{DEEPEST, LONGEST};
use nodes::raw::NodeAt;
use raw::copy::put_lead;
use values::read::read_element;
use walk::head::{SelectorHead, head, skip_selector, struct_fields};

// The elements of a list or an array: how many, where their type stands, and where their values begin.
#[derive(Clone, Copy)]
pub struct Elements {
    pub edition: Edition,
    pub count: u32,
    pub element: Cursor,
    pub values: Cursor,
}

// What a rename's input gave, and past the name.
fn past_name(plan: &[u8], r: Reached) -> Reached
    ensures { (ok : Bool) (b : Bytes) (e : ℕ) (out : Bytes) (k : ℕ) (new : Bytes) (N : TextAt plan.now e) → ReachedIs ok b e out k r new → ReachedIs ok b N.end out k result new }
{
    match r {
        Reached::To(c, at) => match c.text(plan) {
            Text::Is(_, d) => Reached::To(d, at),
            Text::Refused(_) => Reached::Unknown,
        },
        Reached::Unknown => Reached::Unknown,
    }
}

// The one value that an element's selector can take.
fn element_node(p: u16, t: Cursor, c: Cursor) -> NodeAt
    ensures { (v : EditionOf) (lay rec : Bytes) (X : RawAt v lay t.at rec c.at) → NodeOf v lay rec (value_at (vcons X.value.tree vnil) p) result }
{
    if p == 0 {
        return NodeAt::At(t, c);
    }
    NodeAt::Null
}

// Past the element whose value begins at `c`.
pub fn skip_value(lay: &[u8], rec: &[u8], elements: Elements, c: Cursor, ends: &[u16]) -> Cursor
    requires ends { Ends elements.edition lay.now ends.now }
    requires raw_at { RawAt elements.edition lay.now elements.element.at rec.now c.at }
    ensures { (X : RawAt elements.edition lay.now elements.element.at rec.now c.at) → result.at ≡ X.value.end }
{
    let v = elements.edition;
    match read_element(lay, v, DEEPEST, elements.element, rec, c, ends) {
        Moved::To(d) => d,
        Moved::Refused(_) => c,
    }
}

// The selectors over the values of a row.
#[cycle(array_over_list_over_map_elements_struct_over_transfer_transfer_elements_transfer_fields_transfer_over_transfer_row_transfer_taken)]
pub fn transfer_row(
    lay: &[u8],
    rec: &[u8],
    row: Row,
    types: &[u16],
    values: &[u16],
    plan: &[u8],
    selectors: Selectors,
    out: &mut [u8],
    ends: &[u16],
) -> Reached
    requires ends { Ends row.columns.edition lay.now ends.now }
    requires row_in { RowIn lay.now rec.now row }
    requires indexed_in { IndexedIn lay.now rec.now row types.now values.now × (0 < row.stride) }
    requires selectors_in { SelectorsIn plan.now selectors }
    requires rec_len_bound { (length rec.now ≤ longest_plan) × (length plan.now ≤ longest_plan) × (selectors.first.k ≤ 16387) }
    ensures { (X : RowIn lay.now rec.now row) (S : SelectorsIn plan.now selectors) → RowReached X S out.old selectors.first.k result out.new }
{
    let columns = row.columns;
    let v = columns.edition;
    let count = selectors.count;
    let levels = selectors.first.levels;
    let mut k = selectors.first.k;
    let mut c = selectors.first.selector;
    let mut i: u16 = 0;
    while i < count {
        let p = taken_position(plan, c);
        let at = indexed_value(lay, rec, row, types, values, p, ends);
        let node = Node { edition: v, at };
        let place = Place {
            selector: c,
            levels,
            k,
        };
        match transfer(lay, rec, node, plan, place, out, ends) {
            Reached::To(e, r) => {
                c = e;
                k = r;
            }
            Reached::Unknown => return Reached::Unknown,
        }
        i += 1;
    }
    limited(c, k)
}

// The selector at `place` over each of the elements; the mapping ends at `end`.
#[cycle(array_over_list_over_map_elements_struct_over_transfer_transfer_elements_transfer_fields_transfer_over_transfer_row_transfer_taken)]
fn transfer_elements(
    lay: &[u8],
    rec: &[u8],
    elements: Elements,
    plan: &[u8],
    place: Place,
    end: Cursor,
    out: &mut [u8],
    ends: &[u16],
) -> Reached
    requires ends { Ends elements.edition lay.now ends.now }
    requires elements_in { ElementsIn lay.now rec.now elements }
    requires selector_at { SelectorAt plan.now place.selector.at }
    requires rec_len_bound { (length rec.now ≤ longest_plan) × (length plan.now ≤ longest_plan) × (place.k ≤ 16387) }
    ensures { (X : ElementsIn lay.now rec.now elements) (P : SelectorAt plan.now place.selector.at) → ElementsReached X P end.at out.old place.k result out.new }
{
    let v = elements.edition;
    let m = elements.count;
    let t = elements.element;
    let element = place.selector;
    let levels = place.levels;
    let p = taken_position(plan, element);
    let mut k = place.k;
    let mut c = elements.values;
    let mut i: u32 = 0;
    while i < m {
        let next = skip_value(lay, rec, elements, c, ends);
        let at = element_node(p, t, c);
        let node = Node { edition: v, at };
        let each = Place {
            selector: element,
            levels,
            k,
        };
        match transfer(lay, rec, node, plan, each, out, ends) {
            Reached::To(_, r) => {
                c = next;
                k = r;
            }
            Reached::Unknown => return Reached::Unknown,
        }
        i += 1;
    }
    limited(end, k)
}

// As `transfer_elements`; where the selector is a cast, the plan is looked at once.
#[cycle(array_over_list_over_map_elements_struct_over_transfer_transfer_elements_transfer_fields_transfer_over_transfer_row_transfer_taken)]
fn map_elements(
    lay: &[u8],
    rec: &[u8],
    elements: Elements,
    plan: &[u8],
    place: Place,
    end: Cursor,
    out: &mut [u8],
    ends: &[u16],
) -> Reached
    requires ends { Ends elements.edition lay.now ends.now }
    requires elements_in { ElementsIn lay.now rec.now elements }
    requires selector_at { SelectorAt plan.now place.selector.at }
    requires rec_len_bound { (length rec.now ≤ longest_plan) × (length plan.now ≤ longest_plan) × (place.k ≤ 16387) }
    ensures { (X : ElementsIn lay.now rec.now elements) (P : SelectorAt plan.now place.selector.at) → ElementsReached X P end.at out.old place.k result out.new }
{
    match each_of(plan, place.selector) {
        Each::Cast(to) => cast_elements(lay, rec, elements, to, end, out, place.k, ends),
        Each::Other => transfer_elements(lay, rec, elements, plan, place, end, out, ends),
    }
}

// Fills the tables of a struct's fields, of which `count` are taken; where these are few, it would take longer than
// passing over fields.
fn index_fields(
    lay: &[u8],
    rec: &[u8],
    row: Row,
    count: u16,
    types: &mut [u16],
    values: &mut [u16],
    ends: &[u16],
) -> usize
    requires ends { Ends row.columns.edition lay.now ends.now }
    requires row_in { RowIn lay.now rec.now row }
    ensures upper_bound { result ≤ length types.new }
    ensures upper_bound_2 { result ≤ length values.new }
    ensures indexed_in { IndexedIn lay.now rec.now row (take result types.new) (take result values.new) }
{
    if count <= 8 {
        return 0;
    }
    index_row(lay, rec, row, types, values, ends)
}

// The selectors of a struct mapping: as `transfer_row`, with tables of the struct's own fields.
#[cycle(array_over_list_over_map_elements_struct_over_transfer_transfer_elements_transfer_fields_transfer_over_transfer_row_transfer_taken)]
fn transfer_fields(
    lay: &[u8],
    rec: &[u8],
    row: Row,
    plan: &[u8],
    selectors: Selectors,
    out: &mut [u8],
    ends: &[u16],
) -> Reached
    requires ends { Ends row.columns.edition lay.now ends.now }
    requires row_in { RowIn lay.now rec.now row }
    requires stride_nonzero { 0 < row.stride }
    requires selectors_in { SelectorsIn plan.now selectors }
    requires rec_len_bound { (length rec.now ≤ longest_plan) × (length plan.now ≤ longest_plan) × (selectors.first.k ≤ 16387) }
    ensures { (X : RowIn lay.now rec.now row) (S : SelectorsIn plan.now selectors) → RowReached X S out.old selectors.first.k result out.new }
{
    let mut types = [0u16; 64];
    let mut values = [0u16; 64];
    let m = index_fields(
        lay,
        rec,
        row,
        selectors.count,
        &mut types,
        &mut values,
        ends,
    );
    transfer_row(
        lay,
        rec,
        row,
        &types[..m],
        &values[..m],
        plan,
        selectors,
        out,
        ends,
    )
}

// The struct mapping at `place`: the node is what its input gives.
#[cycle(array_over_list_over_map_elements_struct_over_transfer_transfer_elements_transfer_fields_transfer_over_transfer_row_transfer_taken)]
fn struct_over(
    lay: &[u8],
    rec: &[u8],
    node: Node,
    plan: &[u8],
    place: Place,
    input: Cursor,
    out: &mut [u8],
    ends: &[u16],
) -> Reached
    requires ends { Ends node.edition lay.now ends.now }
    requires node_in { (x : Value) × NodeIn lay.now rec.now x node }
    requires struct_at { (P : SelectorAt plan.now place.selector.at) × StructAt plan.now place.selector.at P input.at }
    requires rec_len_bound { (length rec.now ≤ longest_plan) × (length plan.now ≤ longest_plan) × (place.k ≤ longest) }
    ensures { (ρ : Values) (P : SelectorAt plan.now place.selector.at) (S : StructAt plan.now place.selector.at P input.at) → NodeIn lay.now rec.now (eval ρ S.input.tree) node → SelectorReached ρ P out.old place.k result out.new }
{
    let v = node.edition;
    match open_node(lay, rec, node) {
        Opened::Null => put_nothing(skip_selector(plan, place.selector), out, place.k),
        Opened::Row(n, t, d) => {
            let k = put_lead(false, 0, out, place.k);
            let f = struct_fields(plan, input);
            let selector = f.first;
            let columns = ColumnRange {
                edition: v,
                count: n,
                first: t,
            };
            let row = Row {
                columns,
                values: d,
                stride: field_stride(n),
            };
            let first = Place {
                selector,
                levels: place.levels,
                k,
            };
            let selectors = Selectors {
                count: f.count,
                first,
            };
            transfer_fields(lay, rec, row, plan, selectors, out, ends)
        }
        Opened::List(_, _, _) => Reached::Unknown,
        Opened::Array(_, _, _) => Reached::Unknown,
        Opened::Other => Reached::Unknown,
    }
}

// The list mapping at `place`: the node is what its input gives.
#[cycle(array_over_list_over_map_elements_struct_over_transfer_transfer_elements_transfer_fields_transfer_over_transfer_row_transfer_taken)]
fn list_over(
    lay: &[u8],
    rec: &[u8],
    node: Node,
    plan: &[u8],
    place: Place,
    input: Cursor,
    out: &mut [u8],
    ends: &[u16],
) -> Reached
    requires ends { Ends node.edition lay.now ends.now }
    requires node_in { (x : Value) × NodeIn lay.now rec.now x node }
    requires list_at { (P : SelectorAt plan.now place.selector.at) × ListAt plan.now place.selector.at P input.at }
    requires rec_len_bound { (length rec.now ≤ longest_plan) × (length plan.now ≤ longest_plan) × (place.k ≤ longest) }
    ensures { (ρ : Values) (P : SelectorAt plan.now place.selector.at) (L : ListAt plan.now place.selector.at P input.at) → NodeIn lay.now rec.now (eval ρ L.input.tree) node → SelectorReached ρ P out.old place.k result out.new }
{
    let v = node.edition;
    let end = skip_selector(plan, place.selector);
    match open_node(lay, rec, node) {
        Opened::Null => put_nothing(end, out, place.k),
        Opened::List(m, t, d) => {
            let k = put_lead(true, m, out, place.k);
            let selector = skip_selector(plan, input);
            let each = Place {
                selector,
                levels: place.levels,
                k,
            };
            let elements = Elements {
                edition: v,
                count: m,
                element: t,
                values: d,
            };
            map_elements(lay, rec, elements, plan, each, end, out, ends)
        }
        Opened::Row(_, _, _) => Reached::Unknown,
        Opened::Array(_, _, _) => Reached::Unknown,
        Opened::Other => Reached::Unknown,
    }
}

// The array mapping at `place`: the node is what its input gives.
#[cycle(array_over_list_over_map_elements_struct_over_transfer_transfer_elements_transfer_fields_transfer_over_transfer_row_transfer_taken)]
fn array_over(
    lay: &[u8],
    rec: &[u8],
    node: Node,
    plan: &[u8],
    place: Place,
    input: Cursor,
    out: &mut [u8],
    ends: &[u16],
) -> Reached
    requires ends { Ends node.edition lay.now ends.now }
    requires node_in { (x : Value) × NodeIn lay.now rec.now x node }
    requires array_at { (P : SelectorAt plan.now place.selector.at) × ArrayAt plan.now place.selector.at P input.at }
    requires rec_len_bound { (length rec.now ≤ longest_plan) × (length plan.now ≤ longest_plan) × (place.k ≤ longest) }
    ensures { (ρ : Values) (P : SelectorAt plan.now place.selector.at) (L : ArrayAt plan.now place.selector.at P input.at) → NodeIn lay.now rec.now (eval ρ L.input.tree) node → SelectorReached ρ P out.old place.k result out.new }
{
    let v = node.edition;
    let end = skip_selector(plan, place.selector);
    match open_node(lay, rec, node) {
        Opened::Null => put_nothing(end, out, place.k),
        Opened::Array(m, t, d) => {
            let k = put_lead(false, m, out, place.k);
            let selector = skip_selector(plan, input);
            let each = Place {
                selector,
                levels: place.levels,
                k,
            };
            let elements = Elements {
                edition: v,
                count: m,
                element: t,
                values: d,
            };
            map_elements(lay, rec, elements, plan, each, end, out, ends)
        }
        Opened::Row(_, _, _) => Reached::Unknown,
        Opened::List(_, _, _) => Reached::Unknown,
        Opened::Other => Reached::Unknown,
    }
}

// The transform at `place`: the node is what its input gives.
#[cycle(array_over_list_over_map_elements_struct_over_transfer_transfer_elements_transfer_fields_transfer_over_transfer_row_transfer_taken)]
pub fn transfer_over(
    lay: &[u8],
    rec: &[u8],
    node: Node,
    plan: &[u8],
    place: Place,
    out: &mut [u8],
    ends: &[u16],
) -> Reached
    requires ends { Ends node.edition lay.now ends.now }
    requires node_in { (x : Value) × NodeIn lay.now rec.now x node }
    requires selector_at { SelectorAt plan.now place.selector.at }
    requires rec_len_bound { (length rec.now ≤ longest_plan) × (length plan.now ≤ longest_plan) × (place.k ≤ longest) }
    ensures { (ρ : Values) (P : SelectorAt plan.now place.selector.at) → NodeIn lay.now rec.now (eval ρ (input_of P.tree)) node → SelectorReached ρ P out.old place.k result out.new }
{
    if place.levels == 0 {
        return Reached::Unknown;
    }
    let c = place.selector;
    let inner = Place {
        selector: c,
        levels: place.levels - 1,
        k: place.k,
    };
    match head(plan, c) {
        SelectorHead::Position(_) => Reached::Unknown,
        SelectorHead::Constant(_, _) => Reached::Unknown,
        SelectorHead::Cast(input) => {
            let q = cast_value(lay, rec, node, plan, c, input);
            put_chain(
                lay,
                rec,
                node,
                q,
                skip_selector(plan, c),
                out,
                place.k,
                ends,
            )
        }
        SelectorHead::Rename(_) => {
            put_node(lay, rec, node, skip_selector(plan, c), out, place.k, ends)
        }
        SelectorHead::Struct(input) => struct_over(lay, rec, node, plan, inner, input, out, ends),
        SelectorHead::List(input) => list_over(lay, rec, node, plan, inner, input, out, ends),
        SelectorHead::Array(input) => array_over(lay, rec, node, plan, inner, input, out, ends),
        SelectorHead::Refused => Reached::Unknown,
    }
}

// The transform at `place` of the position at `input`: the node is the value there.
#[cycle(array_over_list_over_map_elements_struct_over_transfer_transfer_elements_transfer_fields_transfer_over_transfer_row_transfer_taken)]
fn transfer_taken(
    lay: &[u8],
    rec: &[u8],
    node: Node,
    plan: &[u8],
    place: Place,
    input: Cursor,
    out: &mut [u8],
    ends: &[u16],
) -> Reached
    requires ends { Ends node.edition lay.now ends.now }
    requires node_in { (x : Value) × NodeIn lay.now rec.now x node }
    requires selector_at { SelectorAt plan.now place.selector.at }
    requires rec_len_bound { (length rec.now ≤ longest_plan) × (length plan.now ≤ longest_plan) × (place.k ≤ longest) }
    ensures { (ρ : Values) (P : SelectorAt plan.now place.selector.at) → InputAt plan.now place.selector.at P input.at → NodeIn lay.now rec.now (value_at ρ (takes P.tree)) node → SelectorReached ρ P out.old place.k result out.new }
{
    if is_position(plan, input) {
        return transfer_over(lay, rec, node, plan, place, out, ends);
    }
    Reached::Unknown
}

// The selector at `place`: the node is the value that it takes.
#[cycle(array_over_list_over_map_elements_struct_over_transfer_transfer_elements_transfer_fields_transfer_over_transfer_row_transfer_taken)]
pub fn transfer(
    lay: &[u8],
    rec: &[u8],
    node: Node,
    plan: &[u8],
    place: Place,
    out: &mut [u8],
    ends: &[u16],
) -> Reached
    requires ends { Ends node.edition lay.now ends.now }
    requires node_in { (x : Value) × NodeIn lay.now rec.now x node }
    requires selector_at { SelectorAt plan.now place.selector.at }
    requires rec_len_bound { (length rec.now ≤ longest_plan) × (length plan.now ≤ longest_plan) × (place.k ≤ 16387) }
    ensures { (ρ : Values) (P : SelectorAt plan.now place.selector.at) → NodeIn lay.now rec.now (value_at ρ (takes P.tree)) node → SelectorReached ρ P out.old place.k result out.new }
{
    if place.levels == 0 {
        return Reached::Unknown;
    }
    if LONGEST < place.k {
        return Reached::Unknown;
    }
    let c = place.selector;
    let k = place.k;
    let levels = place.levels - 1;
    let inner = Place {
        selector: c,
        levels,
        k,
    };
    match head(plan, c) {
        SelectorHead::Position(_) => {
            put_node(lay, rec, node, skip_selector(plan, c), out, k, ends)
        }
        SelectorHead::Constant(_, t) => put_constant(plan, t, skip_selector(plan, c), out, k),
        SelectorHead::Rename(input) => {
            let under = Place {
                selector: input,
                levels,
                k,
            };
            past_name(plan, transfer(lay, rec, node, plan, under, out, ends))
        }
        SelectorHead::Cast(_) => transfer_cast(lay, rec, node, plan, place, out, ends),
        SelectorHead::Struct(input) => {
            transfer_taken(lay, rec, node, plan, inner, input, out, ends)
        }
        SelectorHead::List(input) => transfer_taken(lay, rec, node, plan, inner, input, out, ends),
        SelectorHead::Array(input) => transfer_taken(lay, rec, node, plan, inner, input, out, ends),
        SelectorHead::Refused => Reached::Unknown,
    }
}
