// Where the parts of a type stand.
ghost use Rattle.layout.specs.Limits.{deepest};
ghost use Rattle.layout.specs.code.Stands.{TypeAt};
ghost use Rattle.direct.specs.code.Insides.{InsideIs, BothIs};

use layout::cursor::Cursor;
use layout::edition::Edition;
use layout::parts::TypeParts;

// A struct's columns, a list's or array's element; a leaf has none.
#[derive(Clone, Copy)]
pub enum Inside {
    Leaf,
    Struct(u16, Cursor),
    List(Cursor),
    Array(u32, Cursor),
}

// The parts of two types of one kind, arrays of one width.
#[derive(Clone, Copy)]
pub enum Both {
    Structs(u16, Cursor, u16, Cursor),
    Lists(Cursor, Cursor),
    Arrays(Cursor, Cursor),
    Apart,
}

pub fn inside_of(s: &[u8], v: Edition, c: Cursor) -> Inside
    ensures { (T : TypeAt v deepest s.now c.at) → InsideIs v s.now c.at T result }
{
    match c.parts(s, v) {
        TypeParts::Leaf(_, _) => Inside::Leaf,
        TypeParts::Struct(n, d) => Inside::Struct(n, d),
        TypeParts::List(_, e) => Inside::List(e),
        TypeParts::Array(w, _, e) => Inside::Array(w, e),
        TypeParts::Refused(_) => Inside::Leaf,
    }
}

// The types at `c` and at `d`, each in its own bytes.
pub fn both_inside(a: &[u8], va: Edition, c: Cursor, b: &[u8], vb: Edition, d: Cursor) -> Both
    ensures { (T : TypeAt va deepest a.now c.at) (Q : TypeAt vb deepest b.now d.at) → BothIs va a.now c.at T vb b.now d.at Q result }
{
    match inside_of(a, va, c) {
        Inside::Leaf => Both::Apart,
        Inside::Struct(n, x) => match inside_of(b, vb, d) {
            Inside::Struct(m, y) => Both::Structs(n, x, m, y),
            _ => Both::Apart,
        },
        Inside::List(x) => match inside_of(b, vb, d) {
            Inside::List(y) => Both::Lists(x, y),
            _ => Both::Apart,
        },
        Inside::Array(w, x) => match inside_of(b, vb, d) {
            Inside::Array(u, y) => {
                if w == u {
                    Both::Arrays(x, y)
                } else {
                    Both::Apart
                }
            }
            _ => Both::Apart,
        },
    }
}
