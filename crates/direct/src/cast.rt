// "A cast passes if its leaf pair, flags all on, has that option, or null goes NonStrict to any other type; never
// between equal types."
ghost use Rattle.std.specs.Prelude.{◌≡◌};
ghost use Rattle.layout.specs.Limits.{deepest};
ghost use Rattle.layout.specs.Tree.{leaf, LeafType as LeafTypeOf, leaf_of, dtype_of};
ghost use Rattle.layout.specs.code.Answers.{leaf_at, SpanIn};
ghost use Rattle.layout.specs.code.Stands.{TypeAt};
ghost use Rattle.layout.specs.declared.edition.Edition.{Edition as EditionOf};
ghost use Rattle.rules.specs.Pairs.{cast_passes};
ghost use Rattle.plan.specs.Check.{cast_fits_of, from_null_of};

use layout::cursor::Cursor;
use layout::edition::Edition;
use layout::leaf::Leaf;
use layout::types::{Head, LeafType};
use rules::kinds::kind;
use rules::outcome::CastOption;
use rules::pair::cast_passes;

// Null goes NonStrict to a nested type.
fn from_null(leaf: Leaf, o: CastOption) -> bool
    ensures { (l : LeafTypeOf) → leaf_of l ≡ leaf → result ≡ from_null_of l o }
{
    match o {
        CastOption::NonStrict => kind(leaf) == 0,
        CastOption::Strict => false,
        CastOption::Overflowing => false,
    }
}

// Leaf types in two slices.
fn pair_passes(s: &[u8], l: LeafType, plan: &[u8], m: LeafType, o: CastOption) -> bool
    requires { SpanIn s.now l.zone × SpanIn plan.now m.zone }
    ensures { result ≡ cast_passes (leaf_at s.now l) (leaf_at plan.now m) o }
{
    let a = l.leaf;
    let b = m.leaf;
    let i = l.zone.start;
    let j = m.zone.start;
    cast_passes(a, &s[i..i + l.zone.len], b, &plan[j..j + m.zone.len], o)
}

// A leaf whose zone stands in `s`, to the type at `c` in the plan.
pub fn leaf_fits(s: &[u8], l: LeafType, plan: &[u8], c: Cursor, o: CastOption) -> bool
    requires { SpanIn s.now l.zone }
    ensures { (Q : TypeAt EditionOf.One deepest plan.now c.at) → result ≡ cast_fits_of (leaf (leaf_at s.now l)) (dtype_of Q.tree) o }
{
    let a = l.leaf;
    match c.head(plan) {
        Head::Leaf(m, _) => pair_passes(s, l, plan, m, o),
        Head::Struct(_, _) => from_null(a, o),
        Head::List(_) => from_null(a, o),
        Head::Array(_, _) => from_null(a, o),
        Head::Refused(_) => false,
    }
}

// The type at `d` in the incoming layout to the type at `c` in the plan.
pub fn type_fits(
    incoming: &[u8],
    v: Edition,
    d: Cursor,
    plan: &[u8],
    c: Cursor,
    o: CastOption,
) -> bool
    ensures { (T : TypeAt v deepest incoming.now d.at) (Q : TypeAt EditionOf.One deepest plan.now c.at) → result ≡ cast_fits_of (dtype_of T.tree) (dtype_of Q.tree) o }
{
    match d.head(incoming) {
        Head::Leaf(l, _) => leaf_fits(incoming, l, plan, c, o),
        Head::Struct(_, _) => false,
        Head::List(_) => false,
        Head::Array(_, _) => false,
        Head::Refused(_) => false,
    }
}
