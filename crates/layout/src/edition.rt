// A layout's mark and version. Its version is called its edition: how a build matches is another thing
// (`matching::Matching`).
ghost use Rattle.std.specs.Prelude.{◌≡◌};
ghost use Rattle.layout.specs.Layout.{edition, top_rule, inner_rule};
ghost use Rattle.layout.specs.code.Answers.{edition_res};

use crate::bytes::same_bytes;
use crate::columns::Siblings;

// Version 1 has names, version 2 also field numbers, version 3 also required marks.
#[derive(Clone, Copy)]
pub enum Edition {
    One,
    Two,
    Three,
}

#[derive(Clone, Copy)]
pub enum EditionRead {
    Is(Edition),
    Refused(u8),
}

const ONE: [u8; 5] = [0x4C, 0x41, 0x59, 1, 0];

const TWO: [u8; 5] = [0x4C, 0x41, 0x59, 2, 0];

const THREE: [u8; 5] = [0x4C, 0x41, 0x59, 3, 0];

pub fn read_edition(s: &[u8]) -> EditionRead
    ensures { edition_res result ≡ edition s.now 0 }
{
    if s.len() < 5 {
        return EditionRead::Refused(1);
    }
    if same_bytes(&s[..5], &ONE) {
        return EditionRead::Is(Edition::One);
    }
    if same_bytes(&s[..5], &TWO) {
        return EditionRead::Is(Edition::Two);
    }
    if same_bytes(&s[..5], &THREE) {
        return EditionRead::Is(Edition::Three);
    }
    EditionRead::Refused(1)
}

// What top columns may not repeat.
pub fn top_rule(v: Edition) -> Siblings
    ensures { result ≡ top_rule v }
{
    match v {
        Edition::One => Siblings::Names,
        Edition::Two => Siblings::Ids,
        Edition::Three => Siblings::Ids,
    }
}

// What the fields of a struct may not repeat.
pub fn inner_rule(v: Edition) -> Siblings
    ensures { result ≡ inner_rule v }
{
    match v {
        Edition::One => Siblings::Free,
        Edition::Two => Siblings::Ids,
        Edition::Three => Siblings::Ids,
    }
}
