// One case: a line of the list, replayed by the call that its first word names. Another call is added by a function
// like `layout_case` and a kind: a line here in `kind_of`, `answer_word` and `replay_case`, and a count in the tally.
use crate::answer::{Expected, compared, expected_answer};
use crate::buffers::short_buffer;
use crate::build::{build_name_case, build_number_case};
use crate::check::{check_case, run_case};
use layout::bytes::same_bytes;
use lines::{has_bytes, take_bytes, word};

#[derive(Clone, Copy)]
pub enum Kind {
    Layout,
    BuildName,
    BuildNumber,
    Check,
    Run,
    Unknown,
}

#[derive(Clone, Copy)]
pub enum Outcome {
    Agrees,
    // With the answer that was given.
    Differs(u64),
    // The line is no case of its kind.
    Malformed,
}

pub fn kind_of(line: &[u8]) -> Kind {
    let name = word(line, 0);
    if same_bytes(name, b"layout") {
        return Kind::Layout;
    }
    if same_bytes(name, b"build_name") {
        return Kind::BuildName;
    }
    if same_bytes(name, b"build_number") {
        return Kind::BuildNumber;
    }
    if same_bytes(name, b"check") {
        return Kind::Check;
    }
    if same_bytes(name, b"run") {
        return Kind::Run;
    }
    Kind::Unknown
}

// Which word the expected answer begins with.
pub fn answer_word(kind: Kind) -> usize {
    match kind {
        Kind::Layout => 2,
        Kind::BuildName => 5,
        Kind::BuildNumber => 8,
        Kind::Check => 4,
        Kind::Run => 6,
        Kind::Unknown => 0,
    }
}

pub fn replay_case(kind: Kind, line: &[u8]) -> Outcome {
    match kind {
        Kind::Layout => layout_case(line),
        Kind::BuildName => build_name_case(line),
        Kind::BuildNumber => build_number_case(line),
        Kind::Check => check_case(line),
        Kind::Run => run_case(line),
        Kind::Unknown => Outcome::Malformed,
    }
}

// layout <layout> <number> <place>
fn layout_case(line: &[u8]) -> Outcome {
    if !has_bytes(line, 1, 16640) {
        return Outcome::Malformed;
    }
    let Expected::Is(expected) = expected_answer(line, 2) else {
        return Outcome::Malformed;
    };
    let mut bytes = short_buffer();
    let len = take_bytes(line, 1, &mut bytes);
    compared(selector::selector_read_layout(&bytes[..len]), expected)
}
