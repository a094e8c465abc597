// What a value is made of: the values of a struct's columns, the elements of a list or an array.
ghost use Rattle.layout.specs.Bytes.{Bytes};
ghost use Rattle.layout.specs.declared.edition.Edition.{Edition as EditionOf};
ghost use Rattle.values.specs.Value.{Value};
ghost use Rattle.nodes.specs.code.Raw.{RawAt, PresentAt, ListOf};
ghost use Rattle.transfer.specs.code.Reaching.{NodeIn};
ghost use Rattle.transfer.specs.code.Opening.{OpenedIs};

use crate::leaf::Node;
use layout::cursor::{Cursor, Short};
use layout::edition::Edition;
use layout::parts::TypeParts;
use nodes::raw::NodeAt;
use values::leaf::{Presence, read_presence};

// How many columns or elements there are, where their types begin and where their values do.
#[derive(Clone, Copy)]
pub enum Opened {
    Null,
    Other,
    Row(u16, Cursor, Cursor),
    List(u32, Cursor, Cursor),
    Array(u32, Cursor, Cursor),
}

// A list that is present, from its count on.
fn open_list(t: Cursor, rec: &[u8], c: Cursor) -> Opened
    ensures { (v : EditionOf) (lay : Bytes) (X : ListOf v lay t.at rec.now c.at) → OpenedIs v lay rec.now X.content.tree result }
{
    match c.short(rec) {
        Short::Is(n, d) => Opened::List(n as u32, t, d),
        Short::Refused(_) => Opened::Other,
    }
}

// A value that is present, after its presence byte.
fn open_present(lay: &[u8], v: Edition, t: Cursor, rec: &[u8], c: Cursor) -> Opened
    ensures { (X : PresentAt v lay.now t.at rec.now c.at) → OpenedIs v lay.now rec.now X.content.tree result }
{
    match t.parts(lay, v) {
        TypeParts::Leaf(_, _) => Opened::Other,
        TypeParts::Struct(n, e) => Opened::Row(n, e, c),
        TypeParts::List(_, e) => open_list(e, rec, c),
        TypeParts::Array(w, _, e) => Opened::Array(w, e, c),
        TypeParts::Refused(_) => Opened::Other,
    }
}

fn open_value(lay: &[u8], v: Edition, t: Cursor, rec: &[u8], c: Cursor) -> Opened
    ensures { (X : RawAt v lay.now t.at rec.now c.at) → OpenedIs v lay.now rec.now X.value.tree result }
{
    match read_presence(rec, c) {
        Presence::Null(_) => Opened::Null,
        Presence::Present(d) => open_present(lay, v, t, rec, d),
        Presence::Refused(_) => Opened::Other,
    }
}

pub fn open_node(lay: &[u8], rec: &[u8], node: Node) -> Opened
    ensures { (x : Value) → NodeIn lay.now rec.now x node → OpenedIs node.edition lay.now rec.now x result }
{
    let v = node.edition;
    let at = node.at;
    match at {
        NodeAt::Null => Opened::Null,
        NodeAt::At(t, c) => open_value(lay, v, t, rec, c),
    }
}
