// What a type begins with has the same bytes in both versions: its code, and a date-time's unit and zone, a struct's
// count or an array's width.
ghost use Rattle.std.specs.Prelude.{◌≡◌};
ghost use Rattle.layout.specs.Layout.{kind};
ghost use Rattle.forms.specs.code.Answers.{end_of};

use layout::cursor::Cursor;
use layout::types::Head;

// Where it ends.
pub fn head_end(s: &[u8], c: Cursor) -> Cursor
    ensures { result ≡ end_of (kind s.now c.at) c }
{
    match c.head(s) {
        Head::Leaf(_, d) => d,
        Head::Struct(_, d) => d,
        Head::List(d) => d,
        Head::Array(_, d) => d,
        Head::Refused(_) => c,
    }
}
