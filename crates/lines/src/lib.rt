// Words of a line, and what they stand for: hexadecimal digits for bytes (`-` for none) and decimal numbers.
#![tactic(auto)]

ghost use Rattle.std.specs.Prelude.{◌≤◌, ◌<◌, length, IfSome};

// The first place from `at` on where `b` stands, or else the end.
pub fn find(s: &[u8], b: u8, at: usize) -> usize
    requires { at ≤ length s.now }
    ensures lower_bound { at ≤ result }
    ensures upper_bound { result ≤ length s.now }
{
    match s[at..].iter().position(|x| *x == b) {
        Some(k) => at + k,
        None => s.len(),
    }
}

// A line from the first byte on that is no space.
fn without_spaces(line: &[u8]) -> &[u8]
    ensures { length result.now ≤ length line.now }
{
    match line.iter().position(|b| *b != b' ') {
        Some(k) => &line[k..],
        None => &line[line.len()..],
    }
}

// From word `k` of a line to its end; past the last word it is empty.
pub fn from_word(line: &[u8], k: usize) -> &[u8]
    ensures { length result.now ≤ length line.now }
{
    let mut rest = without_spaces(line);
    for _ in 0..k {
        rest = without_spaces(&rest[find(rest, b' ', 0)..]);
    }
    rest
}

// Word `k` of a line, from 0; past the last word it is empty.
pub fn word(line: &[u8], k: usize) -> &[u8]
    ensures { length result.now ≤ length line.now }
{
    let rest = from_word(line, k);
    &rest[..find(rest, b' ', 0)]
}

// A hexadecimal digit's value.
fn digit(b: u8) -> Option<u8>
    ensures { IfSome result (λ n. n < 16) }
{
    match b {
        b'0'..=b'9' => Some(b - b'0'),
        b'a'..=b'f' => Some(b - b'a' + 10),
        _ => None,
    }
}

// Whether a word is `-`, or two digits for each of at most `most` bytes.
fn is_hex(s: &[u8], most: usize) -> bool {
    s == b"-".as_slice()
        || !s.is_empty()
            && s.len() % 2 == 0
            && s.len() / 2 <= most
            && s.iter().all(|b| digit(*b).is_some())
}

// The byte of two digits; another character counts as 0.
fn pair(high: u8, low: u8) -> u8 {
    digit(high).unwrap_or(0) * 16 + digit(low).unwrap_or(0)
}

// Puts the bytes of a word that is hexadecimal at the start of `out`, as far as they fit, and answers how many.
fn decode(s: &[u8], out: &mut [u8]) -> usize
    ensures { result ≤ length out.new }
{
    for (byte, digits) in out.iter_mut().zip(s.chunks_exact(2)) {
        *byte = pair(digits[0], digits[1]);
    }
    out.len().min(s.len() / 2)
}

// Whether word `k` of a line is hexadecimal, of at most `most` bytes.
pub fn has_bytes(line: &[u8], k: usize, most: usize) -> bool {
    is_hex(word(line, k), most)
}

// Puts the bytes of word `k` at the start of `out`, and answers how many.
pub fn take_bytes(line: &[u8], k: usize, out: &mut [u8]) -> usize
    ensures { result ≤ length out.new }
{
    decode(word(line, k), out)
}

// One more decimal digit.
fn followed(x: u32, b: u8) -> Option<u32> {
    if !b.is_ascii_digit() {
        return None;
    }
    x.checked_mul(10)?.checked_add(u32::from(b - b'0'))
}

// A decimal number below 2^32.
pub fn number(s: &[u8]) -> Option<u32> {
    if s.is_empty() {
        return None;
    }
    s.iter().try_fold(0, |x, b| followed(x, *b))
}

// The length of a buffer that word `k` gives, as far as `buffer` goes.
pub fn room_in(line: &[u8], k: usize, buffer: &[u8]) -> usize
    ensures { result ≤ length buffer.now }
{
    let n = number(word(line, k)).unwrap_or(0);
    buffer.len().min(n as usize)
}
