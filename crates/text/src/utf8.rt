// Which bytes of a text are written as they are: letters in UTF-8 (RFC 3629) that can be seen and don't turn the
// writing round.
ghost use Rattle.std.specs.Prelude.{◌+◌, ◌≤◌, ◌<◌, length};

// No letter's number.
const NONE: u32 = 0x11_0000;

// By a letter's first byte, how many bytes it has; 0 where no letter begins so.
fn bytes_of(b: u8) -> usize {
    match b {
        0x00..=0x7F => 1,
        0xC2..=0xDF => 2,
        0xE0..=0xEF => 3,
        0xF0..=0xF4 => 4,
        _ => 0,
    }
}

// The number that `high` becomes with the six bits of the byte at `at`, which has to go on with a letter.
fn joined(high: u32, s: &[u8], at: usize) -> u32 {
    if s.len() <= at {
        return NONE;
    }
    if s[at] / 64 != 2 {
        return NONE;
    }
    if 0x4400 <= high {
        return NONE;
    }
    high * 64 + (s[at] % 64) as u32
}

// A number below `low` has a shorter form, which is the only one allowed.
fn at_least(low: u32, code: u32) -> u32 {
    if code < low { NONE } else { code }
}

// The number of the letter of `n` bytes at `at`, whose first is `b`.
fn code_at(s: &[u8], at: usize, n: usize, b: u8) -> u32
    requires { at + n ≤ length s.now }
{
    match n {
        1 => b as u32,
        2 => joined((b % 32) as u32, s, at + 1),
        3 => {
            let two = joined((b % 16) as u32, s, at + 1);
            at_least(0x800, joined(two, s, at + 2))
        }
        4 => {
            let two = joined((b % 8) as u32, s, at + 1);
            let three = joined(two, s, at + 2);
            at_least(0x1_0000, joined(three, s, at + 3))
        }
        _ => NONE,
    }
}

// Not a control, a quote, a backslash, half of a pair, or a letter that is not seen or turns the writing round.
fn is_plain(code: u32) -> bool {
    match code {
        0x00..=0x1F => false,
        0x22 => false,
        0x5C => false,
        0x7F..=0x9F => false,
        0xAD => false,
        0x61C => false,
        0x180E => false,
        0x200B..=0x200F => false,
        0x2028..=0x202E => false,
        0x2060..=0x206F => false,
        0xD800..=0xDFFF => false,
        0xFEFF => false,
        0xFFF9..=0xFFFB => false,
        0xE_0000..=0xE_007F => false,
        0x11_0000..=0xFFFF_FFFF => false,
        _ => true,
    }
}

// How many bytes from `at` on are a letter that is written as it is; 0 where there is none.
pub fn plain_len(s: &[u8], at: usize) -> usize
    requires { at < length s.now }
    ensures { at + result ≤ length s.now }
{
    let b = s[at];
    let n = bytes_of(b);
    if s.len() - at < n {
        return 0;
    }
    if is_plain(code_at(s, at, n, b)) { n } else { 0 }
}
