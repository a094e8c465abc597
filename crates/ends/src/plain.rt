// A type that is a code alone, as most are.
ghost use Rattle.std.specs.Prelude.{ℕ};
ghost use Rattle.layout.specs.code.Stands.{TypeAt};
ghost use Rattle.layout.specs.declared.edition.Edition.{Edition as EditionOf};
ghost use Rattle.ends.specs.code.Ends.{FoundIs};

use crate::table::EndFound;
use layout::cursor::{Cursor, Step};
use layout::types::{PlainLeaf, plain_leaf};

// The end of the type that starts at `c`, where it is a code alone.
pub fn plain_end(s: &[u8], c: Cursor) -> EndFound
    ensures { (v : EditionOf) (depth : ℕ) → TypeAt v depth s.now c.at → FoundIs v s.now c.at result }
{
    match c.byte(s) {
        Step::Byte(code, d) => match plain_leaf(code) {
            PlainLeaf::Known(_) => EndFound::At(d.at),
            PlainLeaf::Unknown => EndFound::Unknown,
        },
        Step::Refused(_) => EndFound::Unknown,
    }
}
