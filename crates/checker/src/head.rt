// What the type of what a selector gives begins with.
ghost use Rattle.std.specs.Prelude.{◌≡◌, ℕ};
ghost use Rattle.layout.specs.Bytes.{Bytes};
ghost use Rattle.layout.specs.Tree.{DataType, array};
ghost use Rattle.layout.specs.declared.edition.Edition.{Edition as EditionOf};
ghost use Rattle.nodes.specs.code.Typed.{TypeIs};
ghost use Rattle.direct.specs.code.Places.{bytes_of};
ghost use Rattle.checker.specs.code.TypesAt.{MappedAt, ResolvedAt, TypeHeadIs};
ghost use Rattle.checker.specs.code.Tables.{Tables};

use crate::place::TypeHead;
use crate::resolve::{Resolved, Source, resolve};
use direct::place::Place;
use layout::cursor::Cursor;
use layout::edition::Edition;
use layout::types::Head;
use walk::head::{SelectorHead, counted_at, head, skip_by};
use walk::walk::Walk;

// Of a type that stands in the bytes of a place.
fn raw_head(s: &[u8], place: Place, c: Cursor) -> TypeHead
    ensures { (incoming plan : Bytes) (v : EditionOf) (t : DataType) → bytes_of incoming plan place ≡ s.now → TypeIs v s.now c.at t → TypeHeadIs incoming plan t result }
{
    match c.head(s) {
        Head::Leaf(l, _) => TypeHead::Leaf(place, l),
        Head::Struct(n, _) => TypeHead::Struct(n),
        Head::List(_) => TypeHead::List,
        Head::Array(w, _) => TypeHead::Array(w),
        Head::Refused(_) => TypeHead::List,
    }
}

fn raw_width(s: &[u8], c: Cursor) -> u32
    ensures { (v : EditionOf) (w : ℕ) (t : DataType) → TypeIs v s.now c.at (array w t) → result ≡ w }
{
    match c.head(s) {
        Head::Leaf(_, _) => 0,
        Head::Struct(_, _) => 0,
        Head::List(_) => 0,
        Head::Array(w, _) => w,
        Head::Refused(_) => 0,
    }
}

// The width of the array that an array mapping makes is that of its input.
fn width(incoming: &[u8], v: Edition, n: u16, plan: &[u8], w: Walk, tables: &[u16]) -> u32
    requires tables { Tables incoming.now v n plan.now tables.now }
    requires by_index { (x : ℕ) × (t : DataType) × MappedAt incoming.now v n plan.now w (array x t) }
    ensures { (x : ℕ) (t : DataType) → MappedAt incoming.now v n plan.now w (array x t) → result ≡ x }
{
    let mut x = w;
    loop {
        let y = x.to_input();
        let r = resolve(incoming, v, n, plan, y, tables);
        let source = r.source;
        let at = r.at;
        match source {
            Source::Incoming => return raw_width(incoming, at),
            Source::Plan => return raw_width(plan, at),
            Source::Mapped => {
                let z = r.walk;
                x = z;
            }
        }
    }
}

// Of the type that a mapping makes.
fn mapped_head(
    incoming: &[u8],
    v: Edition,
    n: u16,
    plan: &[u8],
    w: Walk,
    tables: &[u16],
) -> TypeHead
    requires tables { Tables incoming.now v n plan.now tables.now }
    requires mapped_at { (t : DataType) × MappedAt incoming.now v n plan.now w t }
    ensures { (t : DataType) → MappedAt incoming.now v n plan.now w t → TypeHeadIs incoming.now plan.now t result }
{
    let c = Cursor { at: w.at };
    match head(plan, c) {
        SelectorHead::Position(_) => TypeHead::List,
        SelectorHead::Constant(_, _) => TypeHead::List,
        SelectorHead::Cast(_) => TypeHead::List,
        SelectorHead::Rename(_) => TypeHead::List,
        SelectorHead::Struct(input) => {
            let fields = counted_at(plan, skip_by(plan, input, tables));
            TypeHead::Struct(fields.count)
        }
        SelectorHead::List(_) => TypeHead::List,
        SelectorHead::Array(_) => TypeHead::Array(width(incoming, v, n, plan, w, tables)),
        SelectorHead::Refused => TypeHead::List,
    }
}

pub fn type_head(
    incoming: &[u8],
    v: Edition,
    n: u16,
    plan: &[u8],
    r: Resolved,
    tables: &[u16],
) -> TypeHead
    requires tables { Tables incoming.now v n plan.now tables.now }
    requires resolved_at { (t : DataType) × ResolvedAt incoming.now v n plan.now r t }
    ensures { (t : DataType) → ResolvedAt incoming.now v n plan.now r t → TypeHeadIs incoming.now plan.now t result }
{
    let source = r.source;
    let at = r.at;
    let w = r.walk;
    match source {
        Source::Incoming => raw_head(incoming, Place::Incoming, at),
        Source::Plan => raw_head(plan, Place::Plan, at),
        Source::Mapped => mapped_head(incoming, v, n, plan, w, tables),
    }
}
