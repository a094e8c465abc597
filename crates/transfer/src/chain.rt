// Casts over casts: a number is converted by each in turn, and any other value stays as it is.
ghost use Rattle.std.specs.Prelude.{◌≤◌, length};
ghost use Rattle.ends.specs.code.Ends.{Ends};
ghost use Rattle.layout.specs.Limits.{longest, longest_plan};
ghost use Rattle.layout.specs.Tree.{dtype_of};
ghost use Rattle.layout.specs.code.Stands.{TypeAt};
ghost use Rattle.layout.specs.declared.edition.Edition.{Edition as EditionOf};
ghost use Rattle.values.specs.Value.{Value, Values, vnumber};
ghost use Rattle.values.specs.Encode.{encode_value};
ghost use Rattle.plan.specs.Run.{value_at, cast_leaf, cast_value, eval, clean};
ghost use Rattle.walk.specs.code.Stands.{SelectorAt};
ghost use Rattle.walk.specs.code.Parts.{CastAt};
ghost use Rattle.transfer.specs.code.Reaching.{takes, NodeIn, ReachedIs};
ghost use Rattle.transfer.specs.code.Chains.{ChainIs, ChainedIs};

use crate::leaf::{Node, Place, Reached, limited, put_node};
use convert::leaf::{Converted, convert_leaf};
use convert::put::put_number;
use layout::cursor::Cursor;
use layout::leaf::Leaf;
use layout::types::Head;
use nodes::raw::NodeAt;
use raw::leaf::{LeafValue, leaf_at};
use walk::head::{SelectorHead, head, skip_selector};
use walk::inputs::{name_end, option_end};

// A number of a kind; or the value that was taken, which is no number.
#[derive(Clone, Copy)]
pub enum ChainValue {
    Number(Leaf, u64),
    Same,
    Unknown,
}

// What a chain of casts gives, and where its selector ends: each cast's type stands behind its input.
#[derive(Clone, Copy)]
pub enum Chained {
    To(ChainValue, Cursor),
    Unknown,
}

// The value that was taken.
pub fn taken_leaf(lay: &[u8], rec: &[u8], node: Node) -> ChainValue
    requires { (x : Value) × NodeIn lay.now rec.now x node }
    ensures { (x : Value) → NodeIn lay.now rec.now x node → ChainIs x x result }
{
    let v = node.edition;
    let at = node.at;
    match at {
        NodeAt::Null => ChainValue::Same,
        NodeAt::At(t, c) => match leaf_at(lay, v, t, rec, c) {
            LeafValue::Number(kind, n) => ChainValue::Number(kind, n),
            LeafValue::Other => ChainValue::Same,
        },
    }
}

// A number cast to the kind `to`.
fn converted(kind: Leaf, n: u64, to: Leaf) -> ChainValue
    ensures { (y : Value) → ChainIs (cast_leaf to (vnumber kind n)) y result }
{
    match convert_leaf(kind, to, n) {
        Converted::Number(m) => ChainValue::Number(to, m),
        Converted::Overflow => ChainValue::Unknown,
    }
}

// Cast to the kind `to`.
pub fn cast_to(q: ChainValue, to: Leaf) -> ChainValue
    ensures { (x y : Value) → ChainIs x y q → ChainIs (cast_leaf to x) y result }
{
    match q {
        ChainValue::Number(kind, n) => converted(kind, n, to),
        ChainValue::Same => ChainValue::Same,
        ChainValue::Unknown => ChainValue::Unknown,
    }
}

// Cast to the type that begins at `t` of the plan.
fn cast_by(q: ChainValue, plan: &[u8], t: Cursor) -> ChainValue
    ensures { (x y : Value) (T : TypeAt EditionOf.One 16 plan.now t.at) → ChainIs x y q → ChainIs (cast_value (dtype_of T.tree) x) y result }
{
    match t.head(plan) {
        Head::Leaf(l, _) => {
            let leaf = l.leaf;
            cast_to(q, leaf)
        }
        Head::Struct(_, _) => q,
        Head::List(_) => q,
        Head::Array(_, _) => q,
        Head::Refused(_) => ChainValue::Unknown,
    }
}

// The cast at `c` whose input begins at `input`: the node is what that gives.
pub fn cast_value(
    lay: &[u8],
    rec: &[u8],
    node: Node,
    plan: &[u8],
    c: Cursor,
    input: Cursor,
) -> ChainValue
    requires { (x : Value) × NodeIn lay.now rec.now x node }
    ensures { (ρ : Values) (P : SelectorAt plan.now c.at) (C : CastAt plan.now c.at P input.at) → NodeIn lay.now rec.now (eval ρ C.input.tree) node → ChainIs (eval ρ P.tree) (eval ρ C.input.tree) result }
{
    let q = taken_leaf(lay, rec, node);
    cast_by(q, plan, skip_selector(plan, input))
}

// What the selector at `c` gives, if it is made of casts and renames of a position: the node is the value there.
pub fn chain_value(
    lay: &[u8],
    rec: &[u8],
    node: Node,
    plan: &[u8],
    c: Cursor,
    levels: u8,
) -> Chained
    requires { (x : Value) × NodeIn lay.now rec.now x node }
    ensures { (ρ : Values) (P : SelectorAt plan.now c.at) → NodeIn lay.now rec.now (value_at ρ (takes P.tree)) node → ChainedIs (eval ρ P.tree) (value_at ρ (takes P.tree)) P.end result }
{
    if levels == 0 {
        return Chained::Unknown;
    }
    match head(plan, c) {
        SelectorHead::Position(_) => {
            Chained::To(taken_leaf(lay, rec, node), skip_selector(plan, c))
        }
        SelectorHead::Constant(_, _) => Chained::Unknown,
        SelectorHead::Cast(input) => {
            match chain_value(lay, rec, node, plan, input, levels - 1) {
                Chained::To(q, t) => Chained::To(cast_by(q, plan, t), option_end(plan, t)),
                Chained::Unknown => Chained::Unknown,
            }
        }
        SelectorHead::Rename(input) => {
            match chain_value(lay, rec, node, plan, input, levels - 1) {
                Chained::To(q, d) => Chained::To(q, name_end(plan, d)),
                Chained::Unknown => Chained::Unknown,
            }
        }
        SelectorHead::Struct(_) => Chained::Unknown,
        SelectorHead::List(_) => Chained::Unknown,
        SelectorHead::Array(_) => Chained::Unknown,
        SelectorHead::Refused => Chained::Unknown,
    }
}

// What casts made of the node, of a selector that ends at `end`.
pub fn put_chain(
    lay: &[u8],
    rec: &[u8],
    node: Node,
    q: ChainValue,
    end: Cursor,
    out: &mut [u8],
    k: usize,
    ends: &[u16],
) -> Reached
    requires ends { Ends node.edition lay.now ends.now }
    requires node_in { (x : Value) × NodeIn lay.now rec.now x node }
    requires rec_len_bound { (length rec.now ≤ longest_plan) × (k ≤ longest) }
    ensures { (x y : Value) → NodeIn lay.now rec.now y node → ChainIs x y q → ReachedIs (clean x) (encode_value x) end.at out.old k result out.new }
{
    match q {
        ChainValue::Number(kind, n) => limited(end, k + put_number(kind, n, out, k)),
        ChainValue::Same => put_node(lay, rec, node, end, out, k, ends),
        ChainValue::Unknown => Reached::Unknown,
    }
}

// The cast of a position, or of casts of one: the node is the value there.
pub fn transfer_cast(
    lay: &[u8],
    rec: &[u8],
    node: Node,
    plan: &[u8],
    place: Place,
    out: &mut [u8],
    ends: &[u16],
) -> Reached
    requires ends { Ends node.edition lay.now ends.now }
    requires node_in { (x : Value) × NodeIn lay.now rec.now x node }
    requires rec_len_bound { (length rec.now ≤ longest_plan) × (place.k ≤ longest) }
    ensures { (ρ : Values) (P : SelectorAt plan.now place.selector.at) → NodeIn lay.now rec.now (value_at ρ (takes P.tree)) node → ReachedIs (clean (eval ρ P.tree)) (encode_value (eval ρ P.tree)) P.end out.old place.k result out.new }
{
    match chain_value(lay, rec, node, plan, place.selector, place.levels) {
        Chained::To(q, end) => put_chain(lay, rec, node, q, end, out, place.k, ends),
        Chained::Unknown => Reached::Unknown,
    }
}
