// What was counted, and the lines that are written.
ghost use Rattle.std.specs.Prelude.{◌≡◌, ◌+◌, min};

use crate::case::{Kind, Outcome, answer_word};
use lines::from_word;
use std::io;

// How many lines there were, how many cases of each kind agreed, and how many lines differ.
#[derive(Clone, Copy)]
pub struct Tally {
    pub lines: u64,
    pub layout: u64,
    pub build_name: u64,
    pub build_number: u64,
    pub check: u64,
    pub run: u64,
    pub differ: u64,
}

// One more, as far as there is one.
pub fn more(n: u64) -> u64
    ensures { result ≡ min (n + 1) 18446744073709551615 }
{
    if n < 18446744073709551615 { n + 1 } else { n }
}

impl Tally {
    pub fn new() -> Self
        ensures { (result.lines ≡ 0) × (result.differ ≡ 0) }
    {
        Tally {
            lines: 0,
            layout: 0,
            build_name: 0,
            build_number: 0,
            check: 0,
            run: 0,
            differ: 0,
        }
    }

    pub fn line(self) -> Self
        ensures { result.differ ≡ self.differ }
    {
        let mut t = self;
        t.lines = more(self.lines);
        t
    }

    fn agrees(self, kind: Kind) -> Self
        ensures { (result.lines ≡ self.lines) × (result.differ ≡ self.differ) }
    {
        let mut t = self;
        match kind {
            Kind::Layout => t.layout = more(self.layout),
            Kind::BuildName => t.build_name = more(self.build_name),
            Kind::BuildNumber => t.build_number = more(self.build_number),
            Kind::Check => t.check = more(self.check),
            Kind::Run => t.run = more(self.run),
            Kind::Unknown => t.lines = self.lines,
        }
        t
    }

    fn differs(self) -> Self
        ensures { result.lines ≡ self.lines }
    {
        let mut t = self;
        t.differ = more(self.differ);
        t
    }

    fn agreed(self) -> u64 {
        let layouts = sum(self.layout, self.build_name);
        let builds = sum(layouts, self.build_number);
        let checks = sum(builds, self.check);
        sum(checks, self.run)
    }

    // Counts an outcome, and writes a line unless the case agrees.
    pub fn with(
        self,
        rt: &impl Print,
        kind: Kind,
        outcome: Outcome,
        line: &[u8],
    ) -> io::Result<Self> {
        match outcome {
            Outcome::Agrees => Ok(self.agrees(kind)),
            Outcome::Differs(given) => {
                difference(rt, self.lines, given, from_word(line, answer_word(kind)))?;
                Ok(self.differs())
            }
            Outcome::Malformed => {
                no_case(rt, self.lines)?;
                Ok(self.differs())
            }
        }
    }
}

pub fn put(rt: &impl Print, text: &[u8]) -> io::Result<()> {
    rt.write_all(text)
}

pub fn put_number(rt: &impl Print, n: u64) -> io::Result<()> {
    rt.print(n)
}

// line 7: answered 3 1, expected 2 1
fn difference(rt: &impl Print, line_number: u64, given: u64, expected: &[u8]) -> io::Result<()> {
    put(rt, b"line ")?;
    put_number(rt, line_number)?;
    put(rt, b": answered ")?;
    put_number(rt, given / 0x1_0000_0000)?;
    put(rt, b" ")?;
    put_number(rt, given % 0x1_0000_0000)?;
    put(rt, b", expected ")?;
    put(rt, expected)?;
    put(rt, b"\n")
}

fn no_case(rt: &impl Print, line_number: u64) -> io::Result<()> {
    put(rt, b"line ")?;
    put_number(rt, line_number)?;
    put(rt, b": no case\n")
}

fn kind_line(rt: &impl Print, name: &[u8], agreed: u64) -> io::Result<()> {
    put(rt, name)?;
    put(rt, b": ")?;
    put_number(rt, agreed)?;
    put(rt, b" agree\n")
}

// The sum, as far as there is one.
fn sum(a: u64, b: u64) -> u64
    ensures { result ≡ min (a + b) 18446744073709551615 }
{
    if a <= 18446744073709551615 - b {
        a + b
    } else {
        18446744073709551615
    }
}

// `whole` says that the list was read to its end.
pub fn summary(rt: &impl Print, t: Tally, whole: bool) -> io::Result<()> {
    if !whole {
        put(rt, b"the list is longer than the buffer\n")?;
    }
    kind_line(rt, b"layout", t.layout)?;
    kind_line(rt, b"build_name", t.build_name)?;
    kind_line(rt, b"build_number", t.build_number)?;
    kind_line(rt, b"check", t.check)?;
    kind_line(rt, b"run", t.run)?;
    put_number(rt, sum(t.agreed(), t.differ))?;
    put(rt, b" cases, ")?;
    put_number(rt, t.differ)?;
    put(rt, b" differ\n")
}
