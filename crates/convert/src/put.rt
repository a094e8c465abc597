// The bytes of a present number.
ghost use Rattle.std.specs.Prelude.{◌≡◌, ◌+◌, ◌^◌, ◌≤◌, ◌<◌, length};
ghost use Rattle.store.specs.code.Overlay.{overlay};
ghost use Rattle.values.specs.Value.{vnumber};
ghost use Rattle.values.specs.Content.{width_of};
ghost use Rattle.values.specs.Encode.{encode_value};

use layout::leaf::Leaf;
use values::content::{Content, content_of};

// How many bytes a number of a kind takes.
fn width(kind: Leaf) -> usize
    ensures { (result ≡ width_of kind) × (result ≤ 8) }
{
    match content_of(kind) {
        Content::Nothing => 0,
        Content::Flag => 1,
        Content::Number(w) => w as usize,
        Content::Decimal(_) => 8,
        Content::Text => 0,
    }
}

// Stores a number, its presence byte first, from an index on; answers how many bytes it takes.
pub fn put_number(kind: Leaf, n: u64, out: &mut [u8], k: usize) -> usize
    requires { k + 9 < 2 ^ 64 }
    ensures value { result ≡ length (encode_value (vnumber kind n)) }
    ensures out_after { out.new ≡ overlay out.old k (encode_value (vnumber kind n)) }
{
    let w = width(kind);
    store::put(out, k, 1);
    store::put_number(out, k + 1, n, w);
    w + 1
}
