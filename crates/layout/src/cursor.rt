// A cursor over bytes, by value: each method takes it and hands it back with what was read, or answers a refusal's
// number.
ghost use Rattle.std.specs.Prelude.{◌≡◌};
ghost use Rattle.layout.specs.Parser.{byte, u16, u32};
ghost use Rattle.layout.specs.Layout.{text};
ghost use Rattle.layout.specs.code.Answers.{step_res, short_res, long_res, text_res, IsTextIn};

use crate::bytes::Span;
use crate::limits::LONGEST_NAME;

#[derive(Clone, Copy)]
pub struct Cursor {
    pub at: usize,
}

#[derive(Clone, Copy)]
pub enum Step {
    Byte(u8, Cursor),
    Refused(u8),
}

#[derive(Clone, Copy)]
pub enum Short {
    Is(u16, Cursor),
    Refused(u8),
}

#[derive(Clone, Copy)]
pub enum Long {
    Is(u32, Cursor),
    Refused(u8),
}

#[derive(Clone, Copy)]
pub enum Text {
    Is(Span, Cursor),
    Refused(u8),
}

// Where what was read is not in the answer.
#[derive(Clone, Copy)]
pub enum Moved {
    To(Cursor),
    Refused(u8),
}

impl Cursor {
    pub fn byte(self, s: &[u8]) -> Step
        ensures { step_res result ≡ byte s.now self.at }
    {
        let at = self.at;
        if at < s.len() {
            Step::Byte(s[at], Cursor { at: at + 1 })
        } else {
            Step::Refused(2)
        }
    }

    pub fn short(self, s: &[u8]) -> Short
        ensures { short_res result ≡ u16 s.now self.at }
    {
        match self.byte(s) {
            Step::Byte(a, c) => match c.byte(s) {
                Step::Byte(b, d) => Short::Is((a as u16) + 256 * (b as u16), d),
                Step::Refused(n) => Short::Refused(n),
            },
            Step::Refused(n) => Short::Refused(n),
        }
    }

    pub fn long(self, s: &[u8]) -> Long
        ensures { long_res result ≡ u32 s.now self.at }
    {
        match self.short(s) {
            Short::Is(a, c) => match c.short(s) {
                Short::Is(b, d) => Long::Is((a as u32) + 65536 * (b as u32), d),
                Short::Refused(n) => Long::Refused(n),
            },
            Short::Refused(n) => Long::Refused(n),
        }
    }

    // A name or a zone: a length byte of at most 63, and as many bytes.
    pub fn text(self, s: &[u8]) -> Text
        ensures result_value { text_res s.now result ≡ text s.now self.at }
        ensures text_in { IsTextIn s.now result }
    {
        match self.byte(s) {
            Step::Byte(b, c) => {
                if LONGEST_NAME < b {
                    return Text::Refused(4);
                }
                let start = c.at;
                let len = b as usize;
                if s.len() < start {
                    return Text::Refused(2);
                }
                if len <= s.len() - start {
                    Text::Is(Span { start, len }, Cursor { at: start + len })
                } else {
                    Text::Refused(2)
                }
            }
            Step::Refused(k) => Text::Refused(k),
        }
    }
}
