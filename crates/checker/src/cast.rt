// "A cast passes if its leaf pair, flags all on, has that option, or null goes NonStrict to any other type; never
// between equal types."
ghost use Rattle.std.specs.Prelude.{◌≡◌};
ghost use Rattle.layout.specs.Tree.{DataType, dtype_of};
ghost use Rattle.layout.specs.code.Stands.{TypeAt};
ghost use Rattle.layout.specs.declared.edition.Edition.{Edition as EditionOf};
ghost use Rattle.plan.specs.Check.{cast_fits_of};
ghost use Rattle.checker.specs.code.TypesAt.{TypeHeadIs};

use crate::place::TypeHead;
use direct::cast::leaf_fits;
use direct::place::Place;
use layout::cursor::Cursor;
use rules::outcome::CastOption;

// A type that begins with `h` to the type at `c` in the plan.
pub fn cast_fits(incoming: &[u8], plan: &[u8], h: TypeHead, c: Cursor, o: CastOption) -> bool
    requires { (t : DataType) × TypeHeadIs incoming.now plan.now t h }
    ensures { (t : DataType) (Q : TypeAt EditionOf.One 16 plan.now c.at) → TypeHeadIs incoming.now plan.now t h → result ≡ cast_fits_of t (dtype_of Q.tree) o }
{
    match h {
        TypeHead::Leaf(place, l) => match place {
            Place::Incoming => leaf_fits(incoming, l, plan, c, o),
            Place::Plan => leaf_fits(plan, l, plan, c, o),
        },
        TypeHead::Struct(_) => false,
        TypeHead::List => false,
        TypeHead::Array(_) => false,
    }
}
