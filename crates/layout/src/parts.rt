// What a type begins with, up to its columns or its element's type.
ghost use Rattle.layout.specs.code.Parts.{PartsIs};

use crate::columns::{Label, Labelled};
use crate::cursor::Cursor;
use crate::edition::Edition;
use crate::types::{Head, LeafType};

// A leaf type and where it ends; a struct's count of columns and where they begin; the label of a list's or array's
// element and where its type begins, with an array's width.
#[derive(Clone, Copy)]
pub enum TypeParts {
    Leaf(LeafType, Cursor),
    Struct(u16, Cursor),
    List(Label, Cursor),
    Array(u32, Label, Cursor),
    Refused(u8),
}

impl Cursor {
    pub fn parts(self, s: &[u8], v: Edition) -> TypeParts
        ensures { PartsIs v s.now self.at result }
    {
        match self.head(s) {
            Head::Leaf(l, c) => TypeParts::Leaf(l, c),
            Head::Struct(n, c) => TypeParts::Struct(n, c),
            Head::List(c) => match c.element_label(s, v) {
                Labelled::Is(l, d) => TypeParts::List(l, d),
                Labelled::Refused(k) => TypeParts::Refused(k),
            },
            Head::Array(w, c) => match c.element_label(s, v) {
                Labelled::Is(l, d) => TypeParts::Array(w, l, d),
                Labelled::Refused(k) => TypeParts::Refused(k),
            },
            Head::Refused(k) => TypeParts::Refused(k),
        }
    }
}
