// The answer that a line expects, and whether a call gave it.
ghost use Rattle.std.specs.Prelude.{◌+◌, ◌*◌, ◌^◌, ◌<◌, ◌≡◌};

use crate::buffers::plan_buffer;
use crate::case::Outcome;
use layout::bytes::same_bytes;
use lines::{has_bytes, number, take_bytes, word};

#[derive(Clone, Copy)]
pub enum Expected {
    Is(u64),
    Malformed,
}

// An answer of the interface, from its two halves.
fn answer(number: u32, rest: u32) -> u64
    ensures { result ≡ number * 2 ^ 32 + rest }
{
    (number as u64) * 0x1_0000_0000 + (rest as u64)
}

// The last two words, from word `k` on: a number, and a place or 0.
pub fn expected_answer(line: &[u8], k: usize) -> Expected
    requires { k < 16 }
{
    let Some(n) = number(word(line, k)) else {
        return Expected::Malformed;
    };
    let Some(place) = number(word(line, k + 1)) else {
        return Expected::Malformed;
    };
    if word(line, k + 2).len() != 0 {
        return Expected::Malformed;
    }
    Expected::Is(answer(n, place))
}

pub fn compared(given: u64, expected: u64) -> Outcome {
    if given == expected {
        Outcome::Agrees
    } else {
        Outcome::Differs(given)
    }
}

// The byte that a buffer has after a call: the result's, and else the 165 that it was filled with.
fn left(res: &[u8], i: usize) -> u8 {
    if i < res.len() { res[i] } else { 165 }
}

// The result stands at the buffer's start, and the rest of the buffer is as it was.
fn holds(buffer: &[u8], res: &[u8]) -> bool {
    if buffer.len() < res.len() {
        return false;
    }
    let mut i = 0;
    while i < buffer.len() {
        if buffer[i] != left(res, i) {
            return false;
        }
        i += 1;
    }
    true
}

// An accepted call: the length, and the result whose bytes word `k` has.
fn accepted(line: &[u8], k: usize, given: u64, buffer: &[u8]) -> Outcome {
    if !has_bytes(line, k, 65536) {
        return Outcome::Malformed;
    }
    let mut result = plan_buffer();
    let n = take_bytes(line, k, &mut result);
    if given != n as u64 {
        return Outcome::Differs(given);
    }
    if holds(buffer, &result[..n]) {
        Outcome::Agrees
    } else {
        Outcome::Differs(given)
    }
}

// A call that was lent a buffer filled as above: an answer 0 is followed by the result's bytes; a refused call changed
// nothing.
pub fn written(line: &[u8], k: usize, given: u64, buffer: &[u8]) -> Outcome
    requires { k < 16 }
{
    if same_bytes(word(line, k), b"0") {
        if word(line, k + 2).len() != 0 {
            return Outcome::Malformed;
        }
        return accepted(line, k + 1, given, buffer);
    }
    let Expected::Is(expected) = expected_answer(line, k) else {
        return Outcome::Malformed;
    };
    if holds(buffer, b"") {
        compared(given, expected)
    } else {
        Outcome::Differs(given)
    }
}
