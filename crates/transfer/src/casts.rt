// A mapping whose elements are cast each by itself: the plan is looked at once, for all elements.
ghost use Rattle.std.specs.Prelude.{◌≡◌, ◌≤◌, length};
ghost use Rattle.ends.specs.code.Ends.{Ends};
ghost use Rattle.layout.specs.Limits.{longest_plan};
ghost use Rattle.layout.specs.code.Stands.{TypeAt};
ghost use Rattle.layout.specs.declared.edition.Edition.{Edition as EditionOf};
ghost use Rattle.walk.specs.code.Stands.{SelectorAt};
ghost use Rattle.walk.specs.code.Parts.{CastAt};
ghost use Rattle.transfer.specs.code.Given.{ElementsIn};
ghost use Rattle.transfer.specs.code.Casts.{KindIs, EachIs, CastsReached};

use crate::chain::{cast_to, put_chain, taken_leaf};
use crate::leaf::{Node, Reached, limited};
use crate::row::{Elements, skip_value};
use layout::cursor::Cursor;
use layout::leaf::Leaf;
use layout::limits::LONGEST;
use layout::types::Head;
use nodes::raw::NodeAt;
use walk::head::{SelectorHead, head, skip_selector};

// What an element's selector does: it casts the element to a kind, or something else.
#[derive(Clone, Copy)]
pub enum Each {
    Cast(Leaf),
    Other,
}

// The kind of the type at `t` of the plan.
fn kind_at(plan: &[u8], t: Cursor) -> Each
    ensures { (T : TypeAt EditionOf.One 16 plan.now t.at) → KindIs T.tree result }
{
    match t.head(plan) {
        Head::Leaf(l, _) => {
            let leaf = l.leaf;
            Each::Cast(leaf)
        }
        Head::Struct(_, _) => Each::Other,
        Head::List(_) => Each::Other,
        Head::Array(_, _) => Each::Other,
        Head::Refused(_) => Each::Other,
    }
}

// The cast at `c` of what begins at `input`.
fn cast_at(plan: &[u8], c: Cursor, input: Cursor) -> Each
    requires { (P : SelectorAt plan.now c.at) × CastAt plan.now c.at P input.at }
    ensures { (P : SelectorAt plan.now c.at) → CastAt plan.now c.at P input.at → EachIs P.tree result }
{
    match head(plan, input) {
        SelectorHead::Position(k) => {
            if k.0 == 0 {
                return kind_at(plan, skip_selector(plan, input));
            }
            Each::Other
        }
        _ => Each::Other,
    }
}

// What the selector at `c` does with an element.
pub fn each_of(plan: &[u8], c: Cursor) -> Each
    requires { SelectorAt plan.now c.at }
    ensures { (P : SelectorAt plan.now c.at) → EachIs P.tree result }
{
    match head(plan, c) {
        SelectorHead::Cast(input) => cast_at(plan, c, input),
        _ => Each::Other,
    }
}

// The elements, each cast to the kind `to`; the mapping ends at `end`.
pub fn cast_elements(
    lay: &[u8],
    rec: &[u8],
    elements: Elements,
    to: Leaf,
    end: Cursor,
    out: &mut [u8],
    first: usize,
    ends: &[u16],
) -> Reached
    requires ends { Ends elements.edition lay.now ends.now }
    requires elements_in { ElementsIn lay.now rec.now elements }
    requires rec_len_bound { length rec.now ≤ longest_plan }
    ensures { (X : ElementsIn lay.now rec.now elements) → CastsReached X to end.at out.old first result out.new }
{
    let v = elements.edition;
    let m = elements.count;
    let t = elements.element;
    let mut k = first;
    let mut c = elements.values;
    let mut i: u32 = 0;
    while i < m {
        if LONGEST < k {
            return Reached::Unknown;
        }
        let at = NodeAt::At(t, c);
        let node = Node { edition: v, at };
        let q = cast_to(taken_leaf(lay, rec, node), to);
        match put_chain(lay, rec, node, q, end, out, k, ends) {
            Reached::To(_, r) => {
                c = skip_value(lay, rec, elements, c, ends);
                k = r;
            }
            Reached::Unknown => return Reached::Unknown,
        }
        i += 1;
    }
    limited(end, k)
}
