// Passing over selectors of a plan, by a table of where they end.
ghost use Rattle.std.specs.Prelude.{◌≡◌};
ghost use Rattle.layout.specs.code.Answers.{moved_of};
ghost use Rattle.plan.specs.Read.{selector, selectors, deepest_selector};
ghost use Rattle.plan.specs.code.Skips.{Skips, SkipIs};

use crate::read::{is_position, read_one};
use crate::skips::{LONG, Skip, known_skip};
use layout::cursor::{Cursor, Moved};
use layout::limits::DEEPEST_SELECTOR;

// A selector, read as far as the table does not have it.
pub fn pass_selector(s: &[u8], c: Cursor, skips: &[u16]) -> Moved
    requires { Skips s.now skips.now }
    ensures { result ≡ moved_of (selector deepest_selector s.now c.at) }
{
    let known = known_skip(skips, c.at, 1);
    if known.count != 0 {
        return Moved::To(Cursor { at: known.to });
    }
    let mut none = [0u16; 1];
    read_one(s, DEEPEST_SELECTOR, c, skips, &mut none)
}

// The positions in a row at `c`, of at most `most` selectors, up to the first that ends at `end` or behind it: few are
// passed over faster than the table is asked.
fn positions_at(s: &[u8], c: Cursor, most: u16, end: usize) -> Skip
    ensures { SkipIs s.now c.at most result }
{
    let mut to = c.at;
    let mut count: u16 = 0;
    while count < most {
        if end <= to {
            return Skip { count, to };
        }
        if !is_position(s, DEEPEST_SELECTOR, Cursor { at: to }) {
            return Skip { count, to };
        }
        to += 3;
        count += 1;
    }
    Skip { count, to }
}

// `n` selectors. Short ones have an entry of the table together: the next begins behind the first of them that ends at
// `end` or behind it, as `keep_passed` counts, whether this one was found or not.
pub fn pass_selectors(s: &[u8], n: u16, c: Cursor, skips: &[u16]) -> Moved
    requires { Skips s.now skips.now }
    ensures { result ≡ moved_of (selectors (selector deepest_selector) n s.now c.at) }
{
    let mut d = c;
    let mut i: u16 = 0;
    let mut end = c.at;
    while i < n {
        if end <= d.at {
            end = d.at.saturating_add(LONG);
        }
        let known = known_skip(skips, d.at, n - i);
        if known.count != 0 {
            d = Cursor { at: known.to };
            i += known.count;
        } else {
            let row = positions_at(s, d, n - i, end);
            if row.count != 0 {
                d = Cursor { at: row.to };
                i += row.count;
            } else {
                match pass_selector(s, d, skips) {
                    Moved::To(e) => {
                        d = e;
                        i += 1;
                    }
                    Moved::Refused(k) => return Moved::Refused(k),
                }
            }
        }
    }
    Moved::To(d)
}
