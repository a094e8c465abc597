// A type's parts, or else the plain mismatch.
ghost use Rattle.std.specs.Prelude.{◌≡◌, ℕ};
ghost use Rattle.layout.specs.code.Stands.{TypeAt};
ghost use Rattle.layout.specs.declared.edition.Edition.{Edition as EditionOf};
ghost use Rattle.matching.specs.Build.{leaf_part, struct_part, list_part, array_part, is_null_type};
ghost use Rattle.builder.specs.code.Answers.{LeafPartIs, StructPartIs, ElementPartIs, element_of, InnerPartIs};

use layout::columns::Label;
use layout::cursor::Cursor;
use layout::edition::Edition;
use layout::parts::TypeParts;
use layout::types::{Head, LeafType};
use rules::kinds::kind;

#[derive(Clone, Copy)]
pub enum LeafPart {
    Is(LeafType),
    Mismatch,
}

// A struct's count of columns, and where they begin.
#[derive(Clone, Copy)]
pub enum StructPart {
    Is(u16, Cursor),
    Mismatch,
}

// A list's or array's element, with an array's width.
#[derive(Clone, Copy)]
pub enum ElementPart {
    List(Label, Cursor),
    Array(u32, Label, Cursor),
    Mismatch,
}

// The label of a list's or array's element, and where its type begins.
#[derive(Clone, Copy)]
pub enum InnerPart {
    Is(Label, Cursor),
    Mismatch,
}

pub fn leaf_part(s: &[u8], c: Cursor) -> LeafPart
    ensures { (v : EditionOf) (d : ℕ) (P : TypeAt v d s.now c.at) → LeafPartIs s.now (leaf_part P.tree) result }
{
    match c.head(s) {
        Head::Leaf(l, _) => LeafPart::Is(l),
        Head::Struct(_, _) => LeafPart::Mismatch,
        Head::List(_) => LeafPart::Mismatch,
        Head::Array(_, _) => LeafPart::Mismatch,
        Head::Refused(_) => LeafPart::Mismatch,
    }
}

pub fn struct_part(s: &[u8], c: Cursor) -> StructPart
    ensures { (v : EditionOf) (d : ℕ) (P : TypeAt v d s.now c.at) → StructPartIs v d s.now c.at (struct_part P.tree) P.end result }
{
    match c.head(s) {
        Head::Leaf(_, _) => StructPart::Mismatch,
        Head::Struct(n, d) => StructPart::Is(n, d),
        Head::List(_) => StructPart::Mismatch,
        Head::Array(_, _) => StructPart::Mismatch,
        Head::Refused(_) => StructPart::Mismatch,
    }
}

pub fn element_part(s: &[u8], v: Edition, c: Cursor) -> ElementPart
    ensures { (d : ℕ) (P : TypeAt v d s.now c.at) → ElementPartIs v d s.now c.at (element_of P.tree) P.end result }
{
    match c.parts(s, v) {
        TypeParts::Leaf(_, _) => ElementPart::Mismatch,
        TypeParts::Struct(_, _) => ElementPart::Mismatch,
        TypeParts::List(l, e) => ElementPart::List(l, e),
        TypeParts::Array(w, l, e) => ElementPart::Array(w, l, e),
        TypeParts::Refused(_) => ElementPart::Mismatch,
    }
}

pub fn list_part(s: &[u8], v: Edition, c: Cursor) -> InnerPart
    ensures { (d : ℕ) (P : TypeAt v d s.now c.at) → InnerPartIs v d s.now c.at (list_part P.tree) P.end result }
{
    match element_part(s, v, c) {
        ElementPart::List(l, e) => InnerPart::Is(l, e),
        ElementPart::Array(_, _, _) => InnerPart::Mismatch,
        ElementPart::Mismatch => InnerPart::Mismatch,
    }
}

// The array has the width `w`.
pub fn array_part(s: &[u8], v: Edition, w: u32, c: Cursor) -> InnerPart
    ensures { (d : ℕ) (P : TypeAt v d s.now c.at) → InnerPartIs v d s.now c.at (array_part w P.tree) P.end result }
{
    match element_part(s, v, c) {
        ElementPart::List(_, _) => InnerPart::Mismatch,
        ElementPart::Array(x, l, e) => {
            if x == w {
                return InnerPart::Is(l, e);
            }
            InnerPart::Mismatch
        }
        ElementPart::Mismatch => InnerPart::Mismatch,
    }
}

pub fn is_null_type(s: &[u8], c: Cursor) -> bool
    ensures { (v : EditionOf) (d : ℕ) (P : TypeAt v d s.now c.at) → result ≡ is_null_type P.tree }
{
    match leaf_part(s, c) {
        LeafPart::Is(l) => {
            let leaf = l.leaf;
            kind(leaf) == 0
        }
        LeafPart::Mismatch => false,
    }
}
