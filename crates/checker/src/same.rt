// Refusal 33 for a type: whether the type of what a selector gives is the same as one of the target's, ids and element
// names dropped.
ghost use Rattle.std.specs.Prelude.{◌≡◌, ◌&&◌, ℕ};
ghost use Rattle.layout.specs.Bytes.{Bytes, same_bytes};
ghost use Rattle.layout.specs.Tree.{DataType, struct, Fields, count_fields, dtype_of, fields_of};
ghost use Rattle.layout.specs.code.Stands.{TypeAt, ColumnsAt};
ghost use Rattle.layout.specs.declared.edition.Edition.{Edition as EditionOf};
ghost use Rattle.forms.specs.code.Heads.{head_of};
ghost use Rattle.forms.specs.code.Compare.{same_dtype, same_fields_of};
ghost use Rattle.forms.specs.code.Labelled.{ElementAt, ColumnAt};
ghost use Rattle.plan.specs.Check.{Column};
ghost use Rattle.checker.specs.declared.resolve.Source.{Source as SourceOf};
ghost use Rattle.checker.specs.code.TypesAt.{PartOf, NamedAt, MappedAt, ResolvedAt, head_kind};
ghost use Rattle.checker.specs.code.Tables.{Tables};
ghost use Rattle.checker.specs.code.Same.{ends_from, ends_of, code_of};

use crate::head::type_head;
use crate::name::name_at;
use crate::part::part;
use crate::place::TypeHead;
use crate::resolve::{Resolved, Source, resolve};
use direct::place::same_name;
use forms::compare::{Same, same_type};
use forms::head::head_end;
use layout::columns::Labelled;
use layout::cursor::Cursor;
use layout::edition::Edition;
use layout::types::Head;
use nodes::places::TypePlace;
use walk::child::{child_at, first_child};
use walk::head::skip_by;
use walk::walk::Walk;

// Where the target's type ends, if it is the same.
#[derive(Clone, Copy)]
pub enum Ends {
    At(Cursor),
    Differ,
}

// A nested type's code, with a struct's count or an array's width; a leaf has code 0.
#[derive(Clone, Copy)]
pub struct HeadCode {
    pub code: u8,
    pub number: u32,
}

fn target_end(s: Same) -> Ends
    ensures { result ≡ ends_from s }
{
    match s {
        Same::To(_, e) => Ends::At(e),
        Same::No => Ends::Differ,
    }
}

fn code(h: TypeHead) -> HeadCode
    ensures { (incoming plan : Bytes) → result ≡ code_of (head_kind incoming plan h) }
{
    match h {
        TypeHead::Leaf(_, _) => HeadCode { code: 0, number: 0 },
        TypeHead::Struct(n) => HeadCode {
            code: 18,
            number: n as u32,
        },
        TypeHead::List => HeadCode {
            code: 19,
            number: 0,
        },
        TypeHead::Array(w) => HeadCode {
            code: 20,
            number: w,
        },
    }
}

// Of the target's type at a cursor.
fn target_code(s: &[u8], c: Cursor) -> HeadCode
    ensures { (v : EditionOf) (d : ℕ) (Q : TypeAt v d s.now c.at) → result ≡ code_of (head_of (dtype_of Q.tree)) }
{
    match c.head(s) {
        Head::Leaf(_, _) => HeadCode { code: 0, number: 0 },
        Head::Struct(n, _) => HeadCode {
            code: 18,
            number: n as u32,
        },
        Head::List(_) => HeadCode {
            code: 19,
            number: 0,
        },
        Head::Array(w, _) => HeadCode {
            code: 20,
            number: w,
        },
        Head::Refused(_) => HeadCode { code: 0, number: 0 },
    }
}

#[cycle(same_as_same_column_same_element_same_fields_same_mapped)]
pub fn same_as(
    incoming: &[u8],
    v: Edition,
    n: u16,
    plan: &[u8],
    r: Resolved,
    target: &[u8],
    place: TypePlace,
    tables: &[u16],
) -> Ends
    requires tables { Tables incoming.now v n plan.now tables.now }
    requires resolved_at { (t : DataType) × ResolvedAt incoming.now v n plan.now r t }
    requires type_at { TypeAt place.edition place.depth target.now place.at.at }
    ensures { (t : DataType) (Q : TypeAt place.edition place.depth target.now place.at.at) → ResolvedAt incoming.now v n plan.now r t → result ≡ ends_of (same_dtype t (dtype_of Q.tree)) Q.end }
{
    let source = r.source;
    let at = r.at;
    let vt = place.edition;
    let depth = place.depth;
    let c = place.at;
    match source {
        Source::Incoming => target_end(same_type(incoming, v, 16, at, target, vt, depth, c)),
        Source::Plan => target_end(same_type(plan, Edition::One, 16, at, target, vt, depth, c)),
        Source::Mapped => same_mapped(incoming, v, n, plan, r, target, place, tables),
    }
}

// A type that a mapping makes.
#[cycle(same_as_same_column_same_element_same_fields_same_mapped)]
fn same_mapped(
    incoming: &[u8],
    v: Edition,
    n: u16,
    plan: &[u8],
    r: Resolved,
    target: &[u8],
    place: TypePlace,
    tables: &[u16],
) -> Ends
    requires tables { Tables incoming.now v n plan.now tables.now }
    requires resolved_at { (t : DataType) × ResolvedAt incoming.now v n plan.now r t }
    requires source_value { r.source ≡ SourceOf.Mapped }
    requires type_at { TypeAt place.edition place.depth target.now place.at.at }
    ensures { (t : DataType) (Q : TypeAt place.edition place.depth target.now place.at.at) → ResolvedAt incoming.now v n plan.now r t → result ≡ ends_of (same_dtype t (dtype_of Q.tree)) Q.end }
{
    let c = place.at;
    let h = type_head(incoming, v, n, plan, r, tables);
    let a = code(h);
    let b = target_code(target, c);
    if a.code != b.code {
        return Ends::Differ;
    }
    if a.number != b.number {
        return Ends::Differ;
    }
    let edition = place.edition;
    let depth = place.depth - 1;
    let at = head_end(target, c);
    let inner = TypePlace { edition, depth, at };
    match h {
        TypeHead::Leaf(_, _) => Ends::Differ,
        TypeHead::Struct(count) => {
            let w = r.walk;
            same_fields(incoming, v, n, plan, w, count, target, inner, tables)
        }
        TypeHead::List => same_element(incoming, v, n, plan, r, target, inner, tables),
        TypeHead::Array(_) => same_element(incoming, v, n, plan, r, target, inner, tables),
    }
}

// The element of a list or an array; the target's label is dropped.
#[cycle(same_as_same_column_same_element_same_fields_same_mapped)]
fn same_element(
    incoming: &[u8],
    v: Edition,
    n: u16,
    plan: &[u8],
    r: Resolved,
    target: &[u8],
    place: TypePlace,
    tables: &[u16],
) -> Ends
    requires tables { Tables incoming.now v n plan.now tables.now }
    requires resolved_at { (t : DataType) × (a : Column) × ResolvedAt incoming.now v n plan.now r t × PartOf t 0 a }
    requires element_at { ElementAt place.edition place.depth target.now place.at.at }
    ensures { (t : DataType) (a : Column) (E : ElementAt place.edition place.depth target.now place.at.at) → ResolvedAt incoming.now v n plan.now r t → PartOf t 0 a → result ≡ ends_of (same_dtype a.type (dtype_of E.inner.tree)) E.inner.end }
{
    let edition = place.edition;
    let depth = place.depth;
    let c = place.at;
    match c.element_label(target, edition) {
        Labelled::Is(_, at) => {
            let p = part(incoming, v, n, plan, r, 0, tables);
            let inner = TypePlace { edition, depth, at };
            same_as(incoming, v, n, plan, p, target, inner, tables)
        }
        Labelled::Refused(_) => Ends::Differ,
    }
}

// The column that the selector where the walk stands gives, and the target's column at `place`: names and types.
#[cycle(same_as_same_column_same_element_same_fields_same_mapped)]
pub fn same_column(
    incoming: &[u8],
    v: Edition,
    n: u16,
    plan: &[u8],
    w: Walk,
    target: &[u8],
    place: TypePlace,
    tables: &[u16],
) -> Ends
    requires tables { Tables incoming.now v n plan.now tables.now }
    requires named_at { (a : Column) × NamedAt incoming.now v n plan.now w a }
    requires column_at { ColumnAt place.edition place.depth target.now place.at.at }
    ensures { (a : Column) (E : ColumnAt place.edition place.depth target.now place.at.at) → NamedAt incoming.now v n plan.now w a → result ≡ ends_of (same_bytes a.name E.label.name && same_dtype a.type (dtype_of E.inner.tree)) E.inner.end }
{
    let edition = place.edition;
    let depth = place.depth;
    let c = place.at;
    match c.label(target, edition) {
        Labelled::Is(l, at) => {
            let name = name_at(incoming, v, n, plan, w, tables);
            let q = l.name;
            if !same_name(incoming, plan, name, target, q) {
                return Ends::Differ;
            }
            let r = resolve(incoming, v, n, plan, w, tables);
            let inner = TypePlace { edition, depth, at };
            same_as(incoming, v, n, plan, r, target, inner, tables)
        }
        Labelled::Refused(_) => Ends::Differ,
    }
}

// The `count` fields that the struct mapping where the walk stands makes, and as many of the target's columns.
#[cycle(same_as_same_column_same_element_same_fields_same_mapped)]
fn same_fields(
    incoming: &[u8],
    v: Edition,
    n: u16,
    plan: &[u8],
    w: Walk,
    count: u16,
    target: &[u8],
    place: TypePlace,
    tables: &[u16],
) -> Ends
    requires tables { Tables incoming.now v n plan.now tables.now }
    requires mapped_at { (fs : Fields) × MappedAt incoming.now v n plan.now w (struct fs) × (count_fields fs ≡ count) }
    requires columns_at { ColumnsAt place.edition place.depth target.now count place.at.at }
    ensures { (fs : Fields) (Q : ColumnsAt place.edition place.depth target.now count place.at.at) → MappedAt incoming.now v n plan.now w (struct fs) → count_fields fs ≡ count → result ≡ ends_of (same_fields_of fs (fields_of Q.columns)) Q.end }
{
    let mut c = first_child(plan, w, tables);
    let mut at = place.at;
    let mut k: u16 = 0;
    while k < count {
        let x = child_at(w, k, c);
        let edition = place.edition;
        let column = TypePlace {
            edition,
            depth: place.depth,
            at,
        };
        match same_column(incoming, v, n, plan, x, target, column, tables) {
            Ends::At(e) => {
                at = e;
            }
            Ends::Differ => return Ends::Differ,
        }
        c = skip_by(plan, c, tables);
        k += 1;
    }
    Ends::At(at)
}
