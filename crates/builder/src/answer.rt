// What the type matcher and the field matcher answer.
ghost use Rattle.std.specs.Prelude.{◌≡◌, ◌&&◌, eqb};
ghost use Rattle.builder.specs.code.Answers.{is_refused, is_bare, len_of, failed_of, refused_row};

use layout::columns::Position;

// A refusal's number; a bare position; or the length of the selector that was written.
#[derive(Clone, Copy)]
pub enum Made {
    Refused(u8),
    Bare(Position),
    Built(usize),
}

// The same for the selectors of a struct's fields: whether each takes its own position, and their length.
#[derive(Clone, Copy)]
pub enum Row {
    Failed(u8),
    Done(bool, usize),
}

pub fn is_refused(made: Made) -> bool
    ensures { result ≡ is_refused made }
{
    match made {
        Made::Refused(_) => true,
        Made::Bare(_) => false,
        Made::Built(_) => false,
    }
}

pub fn is_bare(made: Made, i: u16) -> bool
    ensures { result ≡ is_bare i made }
{
    match made {
        Made::Refused(_) => false,
        Made::Bare(p) => p.0 == i,
        Made::Built(_) => false,
    }
}

// A bare position has three bytes.
pub fn len_of(made: Made) -> usize
    ensures { result ≡ len_of made }
{
    match made {
        Made::Refused(_) => 0,
        Made::Bare(_) => 3,
        Made::Built(n) => n,
    }
}

pub fn failed(made: Made) -> Row
    ensures { result ≡ failed_of made }
{
    match made {
        Made::Refused(n) => Row::Failed(n),
        Made::Bare(_) => Row::Failed(0),
        Made::Built(_) => Row::Failed(0),
    }
}

pub fn refused_row(row: Row) -> Made
    ensures { result ≡ refused_row row }
{
    match row {
        Row::Failed(n) => Made::Refused(n),
        Row::Done(_, _) => Made::Refused(0),
    }
}

pub fn both(a: bool, b: bool) -> bool
    ensures { result ≡ (a && b) }
{
    if a { b } else { false }
}

// A mapping is left out when its selectors take each its own position and their counts are equal:
// `is_input_passthrough`.
pub fn unchanged(n: u16, m: u16, same: bool) -> bool
    ensures { result ≡ (eqb n m && same) }
{
    both(n == m, same)
}
