// Buffers for what the words of a line stand for, longer than the limits allow. Each is a function's result, of which a
// caller knows the length alone: written in place, a list of that length would be computed in the caller's proof.
ghost use Rattle.std.specs.Prelude.{◌≡◌, ◌<◌, length};

use lines::has_bytes;

// For a layout, a table of defaults or a record.
pub fn short_buffer() -> [u8; 16640]
    ensures { 16640 ≡ length result }
{
    [0; 16640]
}

// For a plan.
pub fn plan_buffer() -> [u8; 66000]
    ensures { 66000 ≡ length result }
{
    [0; 66000]
}

// For a call to write into: bytes that it does not write stay 165.
pub fn filled_buffer() -> [u8; 70000]
    ensures { 70000 ≡ length result }
{
    [165; 70000]
}

// Whether words `k` and `k + 1` are bytes of two layouts.
pub fn has_layouts(line: &[u8], k: usize) -> bool
    requires { k < 16 }
{
    if !has_bytes(line, k, 16640) {
        return false;
    }
    has_bytes(line, k + 1, 16640)
}
