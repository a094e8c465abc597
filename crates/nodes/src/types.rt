// The type at the end of a path, and how long and how deep a type is, in the bytes of a layout or of a plan.
ghost use Rattle.std.specs.Prelude.{◌≡◌, List, ◌∷◌, ℕ, ◌+◌, ◌^◌, ◌≤◌, ◌<◌, max, length};
ghost use Rattle.std.proofs.Math.Seq.{slice};
ghost use Rattle.layout.specs.Limits.{deepest};
ghost use Rattle.layout.specs.Tree.{DataType, dtype_of, fields_of};
ghost use Rattle.layout.specs.code.Stands.{TypeAt, ColumnsAt};
ghost use Rattle.nodes.specs.code.Typed.{LeadsAt, TypeIs, SizeOf, SizesOf};

use layout::columns::{Labelled, Position};
use layout::cursor::Cursor;
use layout::edition::Edition;
use layout::find::{Found, column_at};
use layout::limits::DEEPEST;
use layout::parts::TypeParts;
use layout::types::Head;

// The type of field `k`, or of an element, whose number has no say.
fn type_part(s: &[u8], v: Edition, c: Cursor, k: u16) -> Cursor
    requires { TypeAt v deepest s.now c.at }
    ensures { (p : List ℕ) (u : DataType) → LeadsAt v s.now c.at (k ∷ p) u → LeadsAt v s.now result.at p u }
{
    match c.parts(s, v) {
        TypeParts::Leaf(_, _) => c,
        TypeParts::Struct(n, d) => match column_at(s, v, 15, n, d, Position(k)) {
            Found::At(_, _, e) => e,
            Found::Absent => c,
        },
        TypeParts::List(_, e) => e,
        TypeParts::Array(_, _, e) => e,
        TypeParts::Refused(_) => c,
    }
}

// The type at the end of a path that leads somewhere.
pub fn type_at(s: &[u8], v: Edition, c: Cursor, path: [u16; 64], from: usize, len: usize) -> Cursor
    requires leads_at { (u : DataType) × LeadsAt v s.now c.at (slice from len path) u }
    requires from_le_len { (from ≤ len) × (len ≤ length path) }
    ensures { (u : DataType) → LeadsAt v s.now c.at (slice from len path) u → TypeIs v s.now result.at u }
{
    let mut d = c;
    let mut i = from;
    while i < len {
        d = type_part(s, v, d, path[i]);
        i += 1;
    }
    d
}

// The length of a type's version 1 form and its depth; and where the type ends.
#[derive(Clone, Copy)]
pub struct FormSize {
    pub size: usize,
    pub deep: u8,
    pub end: Cursor,
}

// The answer where no type can be read, which a type that stands there rules out.
fn nothing(c: Cursor) -> FormSize {
    FormSize {
        size: 0,
        deep: 0,
        end: c,
    }
}

fn larger(a: u8, b: u8) -> u8
    ensures { result ≡ max a b }
{
    if a < b { b } else { a }
}

// A head of so many bytes, around what is one level inside.
fn around(head: usize, inner: FormSize) -> FormSize
    requires { (head + inner.size < 2 ^ 64) × (inner.deep < 255) }
    ensures { (result.size ≡ head + inner.size) × (result.deep ≡ inner.deep + 1) × (result.end.at ≡ inner.end.at) }
{
    let end = inner.end;
    FormSize {
        size: head + inner.size,
        deep: inner.deep + 1,
        end,
    }
}

#[cycle(fields_size_type_size)]
fn type_size(s: &[u8], v: Edition, depth: u8, c: Cursor) -> FormSize
    requires { TypeAt v depth s.now c.at }
    ensures { (P : TypeAt v depth s.now c.at) → SizeOf (dtype_of P.tree) P.end result }
{
    match c.head(s) {
        Head::Leaf(_, d) => FormSize {
            size: d.at - c.at,
            deep: 1,
            end: d,
        },
        Head::Struct(n, d) => {
            let fields = fields_size(s, v, depth - 1, n, d);
            around(d.at - c.at, fields)
        }
        Head::List(d) => match d.element_label(s, v) {
            Labelled::Is(_, e) => {
                let element = type_size(s, v, depth - 1, e);
                around(d.at - c.at, element)
            }
            Labelled::Refused(_) => nothing(c),
        },
        Head::Array(_, d) => match d.element_label(s, v) {
            Labelled::Is(_, e) => {
                let element = type_size(s, v, depth - 1, e);
                around(d.at - c.at, element)
            }
            Labelled::Refused(_) => nothing(c),
        },
        Head::Refused(_) => nothing(c),
    }
}

// The names and forms of `n` columns.
#[cycle(fields_size_type_size)]
fn fields_size(s: &[u8], v: Edition, depth: u8, n: u16, c: Cursor) -> FormSize
    requires { ColumnsAt v depth s.now n c.at }
    ensures { (P : ColumnsAt v depth s.now n c.at) → SizesOf (fields_of P.columns) P.end result }
{
    let mut d = c;
    let mut size = 0;
    let mut deep: u8 = 0;
    let mut i: u16 = 0;
    while i < n {
        match d.label(s, v) {
            Labelled::Is(l, next) => {
                let t = type_size(s, v, depth, next);
                size = size + (l.name.len + 1) + t.size;
                deep = larger(deep, t.deep);
                d = t.end;
            }
            Labelled::Refused(_) => return nothing(c),
        }
        i += 1;
    }
    FormSize { size, deep, end: d }
}

pub fn form_size(s: &[u8], v: Edition, c: Cursor) -> FormSize
    requires { TypeAt v deepest s.now c.at }
    ensures { (P : TypeAt v deepest s.now c.at) → SizeOf (dtype_of P.tree) P.end result }
{
    type_size(s, v, DEEPEST, c)
}
