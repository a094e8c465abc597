// The parts of a type: a struct's fields, or the element of a list or an array, whose number is 0.
ghost use Rattle.std.specs.Prelude.{◌≡◌, [], ◌∷◌, ◌<◌, length};
ghost use Rattle.std.proofs.Math.Seq.{slice};
ghost use Rattle.layout.specs.Tree.{DataType, Fields};
ghost use Rattle.plan.specs.Check.{Column};
ghost use Rattle.nodes.specs.code.Typed.{TypeIs};
ghost use Rattle.checker.specs.code.TypesAt.{PartOf, ResolvedAt, ScopedAt, EnclosingIs};
ghost use Rattle.checker.specs.code.Tables.{Tables};

use crate::resolve::{Resolved, Source, found_in, resolve};
use layout::cursor::Cursor;
use layout::edition::Edition;
use nodes::types::type_at;
use walk::walk::Walk;

// The path to one part.
fn one(k: u16) -> [u16; 64]
    ensures { (length result ≡ 64) × (slice 0 1 result ≡ k ∷ []) }
{
    let mut path = [0u16; 64];
    path[0] = k;
    path
}

// Of a type that stands in bytes.
fn raw_part(s: &[u8], v: Edition, c: Cursor, k: u16) -> Cursor
    requires { (t : DataType) × (a : Column) × TypeIs v s.now c.at t × PartOf t k a }
    ensures { (t : DataType) (a : Column) → TypeIs v s.now c.at t → PartOf t k a → TypeIs v s.now result.at a.type }
{
    let path = one(k);
    type_at(s, v, c, path, 0, 1)
}

pub fn part(
    incoming: &[u8],
    v: Edition,
    n: u16,
    plan: &[u8],
    r: Resolved,
    k: u16,
    tables: &[u16],
) -> Resolved
    requires tables { Tables incoming.now v n plan.now tables.now }
    requires resolved_at { (t : DataType) × (a : Column) × ResolvedAt incoming.now v n plan.now r t × PartOf t k a }
    ensures { (t : DataType) (a : Column) → ResolvedAt incoming.now v n plan.now r t → PartOf t k a → ResolvedAt incoming.now v n plan.now result a.type }
{
    let source = r.source;
    let at = r.at;
    let w = r.walk;
    match source {
        Source::Incoming => {
            let c = raw_part(incoming, v, at, k);
            found_in(Source::Incoming, c, w)
        }
        Source::Plan => {
            let c = raw_part(plan, Edition::One, at, k);
            found_in(Source::Plan, c, w)
        }
        Source::Mapped => {
            let x = w.child(plan, k, tables);
            resolve(incoming, v, n, plan, x, tables)
        }
    }
}

// The type whose parts the positions inside the innermost mapping take: that of the mapping's input.
pub fn enclosing(
    incoming: &[u8],
    v: Edition,
    n: u16,
    plan: &[u8],
    w: Walk,
    tables: &[u16],
) -> Resolved
    requires tables { Tables incoming.now v n plan.now tables.now }
    requires scoped_at { (Δ : Fields) × ScopedAt incoming.now v n plan.now w Δ }
    requires deep_nonzero { 0 < w.deep }
    ensures { (Δ : Fields) → ScopedAt incoming.now v n plan.now w Δ → EnclosingIs incoming.now v n plan.now w Δ result }
{
    let y = w.outward();
    resolve(incoming, v, n, plan, y, tables)
}
