// The number that a leaf is.
ghost use Rattle.nodes.specs.code.Raw.{RawAt};
ghost use Rattle.raw.specs.code.Number.{LeafAt, LeafIs};

use layout::cursor::Cursor;
use layout::edition::Edition;
use layout::leaf::Leaf;
use layout::types::Head;
use values::content::{Content, content_of};
use values::leaf::{Presence, number_at, read_presence};

// The kind and the bit pattern of a number; or a null, a text, a struct, a list or an array.
#[derive(Clone, Copy)]
pub enum LeafValue {
    Number(Leaf, u64),
    Other,
}

// What follows the presence byte of a leaf that is present.
fn present_leaf(rec: &[u8], leaf: Leaf, c: Cursor) -> LeafValue
    requires { LeafAt leaf rec.now c.at }
    ensures { (X : LeafAt leaf rec.now c.at) → LeafIs X.tree result }
{
    let at = c.at;
    match content_of(leaf) {
        Content::Nothing => LeafValue::Other,
        Content::Flag => LeafValue::Number(leaf, rec[at] as u64),
        Content::Number(w) => LeafValue::Number(leaf, number_at(rec, at, w as usize)),
        Content::Decimal(_) => LeafValue::Number(leaf, number_at(rec, at, 8)),
        Content::Text => LeafValue::Other,
    }
}

pub fn leaf_at(lay: &[u8], v: Edition, t: Cursor, rec: &[u8], c: Cursor) -> LeafValue
    requires { RawAt v lay.now t.at rec.now c.at }
    ensures { (X : RawAt v lay.now t.at rec.now c.at) → LeafIs X.value.tree result }
{
    match read_presence(rec, c) {
        Presence::Null(_) => LeafValue::Other,
        Presence::Present(d) => match t.head(lay) {
            Head::Leaf(l, _) => {
                let leaf = l.leaf;
                present_leaf(rec, leaf, d)
            }
            Head::Struct(_, _) => LeafValue::Other,
            Head::List(_) => LeafValue::Other,
            Head::Array(_, _) => LeafValue::Other,
            Head::Refused(_) => LeafValue::Other,
        },
        Presence::Refused(_) => LeafValue::Other,
    }
}
