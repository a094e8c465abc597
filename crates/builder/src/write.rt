// The bytes of selectors. Bytes past the buffer's end are dropped.
ghost use Rattle.std.specs.Prelude.{◌≡◌, ◌∷◌, ◌+◌, ◌*◌, ◌^◌, ◌≤◌, ◌<◌, length};
ghost use Rattle.store.specs.code.Overlay.{overlay};
ghost use Rattle.layout.specs.Tree.{dtype_of};
ghost use Rattle.layout.specs.Limits.{longest_name};
ghost use Rattle.layout.specs.code.Answers.{span_at, SpanIn};
ghost use Rattle.layout.specs.code.Stands.{TypeAt};
ghost use Rattle.forms.specs.Form.{u16_bytes};
ghost use Rattle.plan.specs.Selector.{position, cast};
ghost use Rattle.plan.specs.Encode.{encode_selector};
ghost use Rattle.builder.specs.code.Answers.{constant_head};

use forms::write::{write_form, write_text};
use layout::bytes::Span;
use layout::columns::Position;
use layout::cursor::Cursor;
use layout::edition::Edition;
use rules::outcome::{CastOption, option_code};
use store::put;

pub fn put_short(out: &mut [u8], k: usize, n: u16)
    requires { k + 2 < 2 ^ 64 }
    ensures { out.new ≡ overlay out.old k (u16_bytes n) }
{
    put(out, k, (n % 256) as u8);
    put(out, k + 1, (n / 256) as u8);
}

// A bare position.
pub fn put_position(out: &mut [u8], k: usize, p: Position)
    requires { k + 3 < 2 ^ 64 }
    ensures { out.new ≡ overlay out.old k (encode_selector (position p)) }
{
    put(out, k, 0);
    put_short(out, k + 1, p.0);
}

// A transform's code and its input, a position.
pub fn put_head(out: &mut [u8], k: usize, code: u8, p: Position)
    requires { k + 4 < 2 ^ 64 }
    ensures { out.new ≡ overlay out.old k (code ∷ encode_selector (position p)) }
{
    put(out, k, code);
    put_position(out, k + 1, p);
}

// A position cast to a target type; its length.
pub fn put_cast(
    target: &[u8],
    v: Edition,
    depth: u8,
    b: Cursor,
    p: Position,
    o: CastOption,
    out: &mut [u8],
    k: usize,
) -> usize
    requires type_at { TypeAt v depth target.now b.at }
    requires target_bound { k + 5 + 2 * length target.now < 2 ^ 64 }
    ensures value { (Q : TypeAt v depth target.now b.at) → result ≡ length (encode_selector (cast (position p) (dtype_of Q.tree) o)) }
    ensures out_after { (Q : TypeAt v depth target.now b.at) → out.new ≡ overlay out.old k (encode_selector (cast (position p) (dtype_of Q.tree) o)) }
{
    put_head(out, k, 2, p);
    let w = write_form(target, v, depth, b, out, k + 4);
    put(out, k + 4 + w.len, option_code(o));
    5 + w.len
}

// A constant's code, name and type; their length.
pub fn put_constant_head(
    target: &[u8],
    v: Edition,
    depth: u8,
    name: Span,
    b: Cursor,
    out: &mut [u8],
    k: usize,
) -> usize
    requires span_in { SpanIn target.now name × (name.len ≤ longest_name) }
    requires type_at { TypeAt v depth target.now b.at }
    requires target_bound { k + 66 + 2 * length target.now < 2 ^ 64 }
    ensures value { (Q : TypeAt v depth target.now b.at) → result ≡ length (constant_head (span_at target.now name) (dtype_of Q.tree)) }
    ensures out_after { (Q : TypeAt v depth target.now b.at) → out.new ≡ overlay out.old k (constant_head (span_at target.now name) (dtype_of Q.tree)) }
{
    put(out, k, 1);
    let n = write_text(target, name, out, k + 1);
    let w = write_form(target, v, depth, b, out, k + 1 + n);
    1 + n + w.len
}
