// What stands before a column's type: its name, from version 2 on its id, and in version 3 whether it is required.
ghost use Rattle.std.specs.Prelude.{◌≡◌, ◌+◌, ◌≤◌, length};
ghost use Rattle.layout.specs.Layout.{required_mark, label_rest, label, element_label, same_label};
ghost use Rattle.layout.specs.code.Answers.{mark_res, label_res, LabelIn, label_at, span_at, SpanIn};
ghost use Rattle.layout.specs.declared.edition.Edition.{Edition as EditionOf};

use crate::bytes::{Span, same_bytes};
use crate::cursor::{Cursor, Long, Step, Text};
use crate::edition::Edition;

// A field's id and a position among siblings are separate kinds of quantity: a lookup by id can't be given an index.
#[derive(Clone, Copy)]
pub struct FieldId(pub u32);

#[derive(Clone, Copy)]
pub struct Position(pub u16);

// What columns that stand side by side may not repeat.
#[derive(Clone, Copy)]
pub enum Siblings {
    Names,
    Ids,
    Free,
}

// Where the name stands, the id (0 in version 1), and whether the column is required (never before version 3).
#[derive(Clone, Copy)]
pub struct Label {
    pub name: Span,
    pub id: FieldId,
    pub required: bool,
}

// Columns side by side: their edition, how many, and where the first stands.
#[derive(Clone, Copy)]
pub struct ColumnRange {
    pub edition: Edition,
    pub count: u16,
    pub first: Cursor,
}

#[derive(Clone, Copy)]
pub enum MarkRead {
    Is(bool, Cursor),
    Refused(u8),
}

#[derive(Clone, Copy)]
pub enum Labelled {
    Is(Label, Cursor),
    Refused(u8),
}

impl Cursor {
    // A column's mark: 0 optional, 1 required.
    pub fn required_mark(self, s: &[u8]) -> MarkRead
        ensures { mark_res result ≡ required_mark s.now self.at }
    {
        match self.byte(s) {
            Step::Byte(m, c) => match m {
                0 => MarkRead::Is(false, c),
                1 => MarkRead::Is(true, c),
                _ => MarkRead::Refused(3),
            },
            Step::Refused(k) => MarkRead::Refused(k),
        }
    }

    // What follows a label's name in version 3.
    fn marked_label(self, s: &[u8], name: Span) -> Labelled
        requires { SpanIn s.now name }
        ensures result_value { label_res s.now result ≡ label_rest EditionOf.Three (span_at s.now name) s.now self.at }
        ensures label_in { LabelIn s.now result }
    {
        match self.long(s) {
            Long::Is(i, c) => match c.required_mark(s) {
                MarkRead::Is(required, d) => {
                    let id = FieldId(i);
                    Labelled::Is(Label { name, id, required }, d)
                }
                MarkRead::Refused(k) => Labelled::Refused(k),
            },
            Long::Refused(k) => Labelled::Refused(k),
        }
    }

    // In any version.
    fn label_of(self, s: &[u8], v: Edition) -> Labelled
        ensures result_value { label_res s.now result ≡ label v s.now self.at }
        ensures label_in { LabelIn s.now result }
    {
        match self.text(s) {
            Text::Is(name, next) => match v {
                Edition::One => Labelled::Is(
                    Label {
                        name,
                        id: FieldId(0),
                        required: false,
                    },
                    next,
                ),
                Edition::Two => match next.long(s) {
                    Long::Is(i, d) => Labelled::Is(
                        Label {
                            name,
                            id: FieldId(i),
                            required: false,
                        },
                        d,
                    ),
                    Long::Refused(k) => Labelled::Refused(k),
                },
                Edition::Three => next.marked_label(s, name),
            },
            Text::Refused(k) => Labelled::Refused(k),
        }
    }

    // The few steps of version 1 stand in line at the callers, which the compiler does not do with those of all
    // versions.
    pub fn label(self, s: &[u8], v: Edition) -> Labelled
        ensures result_value { label_res s.now result ≡ label v s.now self.at }
        ensures label_in { LabelIn s.now result }
    {
        match v {
            Edition::One => match self.text(s) {
                Text::Is(name, next) => Labelled::Is(
                    Label {
                        name,
                        id: FieldId(0),
                        required: false,
                    },
                    next,
                ),
                Text::Refused(k) => Labelled::Refused(k),
            },
            Edition::Two => self.label_of(s, v),
            Edition::Three => self.label_of(s, v),
        }
    }

    // An element's label: nothing stands for it in version 1.
    pub fn element_label(self, s: &[u8], v: Edition) -> Labelled
        ensures result_value { label_res s.now result ≡ element_label v s.now self.at }
        ensures label_in { LabelIn s.now result }
    {
        match v {
            Edition::One => Labelled::Is(
                Label {
                    name: Span { start: 0, len: 0 },
                    id: FieldId(0),
                    required: false,
                },
                self,
            ),
            Edition::Two => self.label_of(s, v),
            Edition::Three => self.label_of(s, v),
        }
    }
}

// Whether the label `l`, which stands in `s`, repeats `m`, which stands in `t`, under a rule.
pub fn same_label(rule: Siblings, s: &[u8], l: Label, t: &[u8], m: Label) -> bool
    requires len_in_bounds { l.name.start + l.name.len ≤ length s.now }
    requires len_in_bounds_2 { m.name.start + m.name.len ≤ length t.now }
    ensures { result ≡ same_label rule (label_at s.now l) (label_at t.now m) }
{
    match rule {
        Siblings::Names => {
            let a = l.name.start;
            let b = m.name.start;
            same_bytes(&s[a..a + l.name.len], &t[b..b + m.name.len])
        }
        Siblings::Ids => l.id.0 == m.id.0,
        Siblings::Free => false,
    }
}
