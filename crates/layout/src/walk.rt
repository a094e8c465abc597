// Walking over a layout that was read: `head` and `element_label` step into a type's parts; a type is passed over here.
ghost use Rattle.std.specs.Prelude.{◌≡◌};
ghost use Rattle.layout.specs.code.Stands.{TypeAt};

use crate::cursor::{Cursor, Moved};
use crate::edition::Edition;
use crate::pass::pass_type;

// The end of a type, without the tests for repeated siblings that reading makes.
pub fn skip_type(s: &[u8], v: Edition, depth: u8, c: Cursor) -> Cursor
    requires { TypeAt v depth s.now c.at }
    ensures { (P : TypeAt v depth s.now c.at) → result.at ≡ P.end }
{
    match pass_type(s, v, depth, c) {
        Moved::To(e) => e,
        Moved::Refused(_) => c,
    }
}
