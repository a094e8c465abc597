// The two layouts of a build.
ghost use Rattle.std.specs.Prelude.{◌≡◌};
ghost use Rattle.matching.specs.Calls.{takes as takesEdition};
ghost use Rattle.calls.specs.code.Answers.{BothIs};

use builder::answer::both;
use builder::build::Fields;
use layout::edition::Edition;
use layout::matching::Matching;
use layout::read::{LayoutRead, read_layout};

// The columns of the two layouts.
#[derive(Clone, Copy)]
pub struct Both {
    pub incoming: Fields,
    pub target: Fields,
}

// The editions of the two layouts, the incoming one first, and their columns; or a refusal's number and place.
#[derive(Clone, Copy)]
pub enum BothRead {
    Read(Edition, Edition, Both),
    Refused(u8, u16),
}

// By name takes edition 1 alone, by number 2 and 3.
fn takes(how: Matching, v: Edition) -> bool
    ensures { result ≡ takesEdition how v }
{
    match how {
        Matching::ByName => match v {
            Edition::One => true,
            Edition::Two => false,
            Edition::Three => false,
        },
        Matching::ByNumber => match v {
            Edition::One => false,
            Edition::Two => true,
            Edition::Three => true,
        },
    }
}

// The incoming layout, the target layout, 10.
pub fn read_both(how: Matching, incoming: &[u8], target: &[u8]) -> BothRead
    ensures { BothIs how incoming.now target.now result }
{
    match read_layout(incoming) {
        LayoutRead::Read {
            edition: a,
            count: n,
            columns: c,
        } => match read_layout(target) {
            LayoutRead::Read {
                edition: w,
                count: m,
                columns: b,
            } => {
                if both(takes(how, a), takes(how, w)) {
                    let columns = Both {
                        incoming: Fields { count: n, first: c },
                        target: Fields { count: m, first: b },
                    };
                    return BothRead::Read(a, w, columns);
                }
                BothRead::Refused(10, 0)
            }
            LayoutRead::Refused(k) => BothRead::Refused(k, 2),
        },
        LayoutRead::Refused(k) => BothRead::Refused(k, 1),
    }
}
