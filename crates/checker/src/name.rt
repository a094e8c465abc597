// The name of the column that a selector gives, where it has an effect: an element has none.
ghost use Rattle.std.specs.Prelude.{◌≡◌, [], ℕ};
ghost use Rattle.layout.specs.Bytes.{Bytes};
ghost use Rattle.layout.specs.Tree.{DataType};
ghost use Rattle.layout.specs.declared.edition.Edition.{Edition as EditionOf};
ghost use Rattle.plan.specs.Check.{Column};
ghost use Rattle.plan.specs.code.Skips.{Skips};
ghost use Rattle.nodes.specs.code.Typed.{TypeIs};
ghost use Rattle.index.specs.code.Indexed.{stride_of, Indexed};
ghost use Rattle.direct.specs.code.Places.{bytes_of, NameAt};
ghost use Rattle.checker.specs.code.TypesAt.{PartOf, ColumnOf, NamedAt, MappedAt, ResolvedAt, OwnNameIs, MappedNameIs};
ghost use Rattle.checker.specs.code.Tables.{Tables};

use crate::part::enclosing;
use crate::resolve::{INDEX, Resolved, Source};
use direct::place::{Name, Place, named};
use index::columns::{indexed_column, stride_of};
use layout::bytes::Span;
use layout::columns::Position;
use layout::cursor::Cursor;
use layout::edition::Edition;
use layout::find::{Found, column_at};
use layout::types::Head;
use walk::head::{SelectorHead, head, name_behind, skip_by};
use walk::inputs::{ends_for, no_ends};
use walk::walk::Walk;

// A selector's own name; that of its input; or that of a column or field, by its position.
#[derive(Clone, Copy)]
pub enum OwnName {
    Is(Name),
    Input,
    Position(Position),
}

// A field's name; or that of the column that a mapping's selector for it gives.
#[derive(Clone, Copy)]
pub enum PartName {
    Is(Name),
    Child,
}

fn no_name(place: Place) -> Name
    ensures { (incoming plan : Bytes) → NameAt incoming plan result [] }
{
    Name {
        place,
        span: Span { start: 0, len: 0 },
    }
}

// Of part `k` of a type that stands in the bytes of a place.
fn raw_name(s: &[u8], v: Edition, place: Place, c: Cursor, k: u16) -> Name
    requires { (t : DataType) × TypeIs v s.now c.at t }
    ensures { (incoming plan : Bytes) (t : DataType) (a : Column) → bytes_of incoming plan place ≡ s.now → TypeIs v s.now c.at t → PartOf t k a → NameAt incoming plan result a.name }
{
    match c.head(s) {
        Head::Leaf(_, _) => no_name(place),
        Head::Struct(n, d) => match column_at(s, v, 15, n, d, Position(k)) {
            Found::At(_, l, _) => named(place, l.name),
            Found::Absent => no_name(place),
        },
        Head::List(_) => no_name(place),
        Head::Array(_, _) => no_name(place),
        Head::Refused(_) => no_name(place),
    }
}

// Of the column `k` of the incoming layout.
fn column_name(incoming: &[u8], v: Edition, n: u16, k: Position, index: &[u16]) -> Name
    requires indexed { Indexed v incoming.now n 7 (stride_of n) index.now }
    requires column_of { (a : Column) × ColumnOf incoming.now v n k a }
    ensures { (plan : Bytes) (a : Column) → ColumnOf incoming.now v n k a → NameAt incoming.now plan result a.name }
{
    match indexed_column(incoming, v, n, Cursor { at: 7 }, index, stride_of(n), k) {
        Found::At(_, l, _) => named(Place::Incoming, l.name),
        Found::Absent => no_name(Place::Incoming),
    }
}

// Of the selector where the walk stands.
fn own_name(plan: &[u8], w: Walk, tables: &[u16]) -> OwnName
    requires { Skips plan.now tables.now }
    ensures { (incoming : Bytes) (v : EditionOf) (n : ℕ) (a : Column) → NamedAt incoming v n plan.now w a → OwnNameIs incoming v n plan.now w a result }
{
    let c = Cursor { at: w.at };
    match head(plan, c) {
        SelectorHead::Position(k) => OwnName::Position(k),
        SelectorHead::Constant(name, _) => OwnName::Is(named(Place::Plan, name)),
        SelectorHead::Cast(_) => OwnName::Input,
        SelectorHead::Rename(input) => {
            let name = name_behind(plan, skip_by(plan, input, tables));
            OwnName::Is(named(Place::Plan, name))
        }
        SelectorHead::Struct(_) => OwnName::Input,
        SelectorHead::List(_) => OwnName::Input,
        SelectorHead::Array(_) => OwnName::Input,
        SelectorHead::Refused => OwnName::Input,
    }
}

// Of the part `k` of what a mapping makes.
fn mapped_name(plan: &[u8], w: Walk) -> PartName
    ensures { (incoming : Bytes) (v : EditionOf) (n : ℕ) (t : DataType) (k : ℕ) (a : Column) → MappedAt incoming v n plan.now w t → PartOf t k a → MappedNameIs incoming v n plan.now w k a result }
{
    let c = Cursor { at: w.at };
    match head(plan, c) {
        SelectorHead::Position(_) => PartName::Child,
        SelectorHead::Constant(_, _) => PartName::Child,
        SelectorHead::Cast(_) => PartName::Child,
        SelectorHead::Rename(_) => PartName::Child,
        SelectorHead::Struct(_) => PartName::Child,
        SelectorHead::List(_) => PartName::Is(no_name(Place::Plan)),
        SelectorHead::Array(_) => PartName::Is(no_name(Place::Plan)),
        SelectorHead::Refused => PartName::Child,
    }
}

// Of the part `k` of a type, where it stands there.
fn direct_name(incoming: &[u8], v: Edition, plan: &[u8], r: Resolved, k: u16) -> PartName
    requires { (n : ℕ) × (t : DataType) × ResolvedAt incoming.now v n plan.now r t }
    ensures { (n : ℕ) (t : DataType) (a : Column) → ResolvedAt incoming.now v n plan.now r t → PartOf t k a → MappedNameIs incoming.now v n plan.now r.walk k a result }
{
    let source = r.source;
    let at = r.at;
    let w = r.walk;
    match source {
        Source::Incoming => PartName::Is(raw_name(incoming, v, Place::Incoming, at, k)),
        Source::Plan => PartName::Is(raw_name(plan, Edition::One, Place::Plan, at, k)),
        Source::Mapped => mapped_name(plan, w),
    }
}

pub fn name_at(incoming: &[u8], v: Edition, n: u16, plan: &[u8], w: Walk, tables: &[u16]) -> Name
    requires tables { Tables incoming.now v n plan.now tables.now }
    requires named_at { (a : Column) × NamedAt incoming.now v n plan.now w a }
    ensures { (a : Column) → NamedAt incoming.now v n plan.now w a → NameAt incoming.now plan.now result a.name }
{
    let mut x = w;
    let mut ends = no_ends(0);
    loop {
        match own_name(plan, x, tables) {
            OwnName::Is(name) => return name,
            OwnName::Input => {
                x = x.to_input();
            }
            OwnName::Position(k) => {
                if x.deep == 0 {
                    return column_name(incoming, v, n, k, &tables[INDEX..]);
                }
                let r = enclosing(incoming, v, n, plan, x, tables);
                let i = k.0;
                match direct_name(incoming, v, plan, r, i) {
                    PartName::Is(name) => return name,
                    PartName::Child => {
                        let z = r.walk;
                        ends = ends_for(plan, ends, Cursor { at: z.at }, tables);
                        x = z.child_in(plan, ends, i, tables);
                    }
                }
            }
        }
    }
}
