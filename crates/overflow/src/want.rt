// What is asked of the nodes at a path, and what is then to be asked of a cast's input.
ghost use Rattle.std.specs.Prelude.{◌≡◌, ◌*◌, ◌^◌, ◌<◌, ◌≤◌, min};
ghost use Rattle.numeric.specs.Integers.{signed};
ghost use Rattle.plan.specs.Convert.{multiply, divide, unit_change};
ghost use Rattle.overflow.specs.code.Want.{outside, Small, bounds_before, time_of, count_beyond};

use layout::leaf::{Leaf, TimeUnit};
use rules::kinds::{Class, class_of};

const HALF: u64 = 9223372036854775808;

const LAST: u64 = 18446744073709551615;

// A count n from `above` on, or -(n + 1) with n from `below` on.
#[derive(Clone, Copy)]
pub struct Bounds {
    pub above: u64,
    pub below: u64,
}

// Parts: a struct that is present. Element: a list or array that has an element. Beyond: an overflow, or a date-time
// whose count, brought to the unit, is beyond the bounds.
#[derive(Clone, Copy)]
pub enum Want {
    Parts,
    Element,
    Beyond(Bounds, TimeUnit),
}

// The unit of a leaf that is a date-time.
#[derive(Clone, Copy)]
pub enum Timed {
    In(TimeUnit),
    Never,
}

pub fn time_of(leaf: Leaf) -> Timed
    ensures { result ≡ time_of leaf }
{
    match class_of(leaf) {
        Class::Integer(_) => Timed::Never,
        Class::Float(_) => Timed::Never,
        Class::Datetime(u) => Timed::In(u),
        Class::Other => Timed::Never,
    }
}

// Times f, no further than the bounds can be.
fn scaled(a: u64, f: u64) -> u64
    requires { 0 < f }
    ensures { result ≡ min (a * f) (2 ^ 63) }
{
    if HALF / f < a {
        return HALF;
    }
    a * f
}

// The bounds before a multiplication by f.
fn before_product(d: Bounds, f: u64) -> Bounds
    requires small { Small d }
    requires f_nonzero { (0 < f) × (f ≤ 1000000) }
    ensures { result ≡ bounds_before (multiply f) d }
{
    Bounds {
        above: (d.above + (f - 1)) / f,
        below: d.below / f,
    }
}

// The bounds before a division by f.
fn before_quotient(d: Bounds, f: u64) -> Bounds
    requires { 0 < f }
    ensures { result ≡ bounds_before (divide f) d }
{
    let above = scaled(d.above, f);
    let below = scaled(d.below, f);
    Bounds { above, below }
}

// The bounds of counts of the unit `from`, by those of what they are in the unit `to`.
pub fn bounds_before(d: Bounds, from: TimeUnit, to: TimeUnit) -> Bounds
    requires { Small d }
    ensures { result ≡ bounds_before (unit_change from to) d }
{
    match from {
        TimeUnit::Nanoseconds => match to {
            TimeUnit::Nanoseconds => d,
            TimeUnit::Microseconds => before_quotient(d, 1000),
            TimeUnit::Milliseconds => before_quotient(d, 1000000),
        },
        TimeUnit::Microseconds => match to {
            TimeUnit::Nanoseconds => before_product(d, 1000),
            TimeUnit::Microseconds => d,
            TimeUnit::Milliseconds => before_quotient(d, 1000),
        },
        TimeUnit::Milliseconds => match to {
            TimeUnit::Nanoseconds => before_product(d, 1000000),
            TimeUnit::Microseconds => before_product(d, 1000),
            TimeUnit::Milliseconds => d,
        },
    }
}

// A count, as its bit pattern.
fn is_outside(d: Bounds, n: u64) -> bool
    ensures { result ≡ outside d (signed 64 n) }
{
    if n < HALF {
        return d.above <= n;
    }
    d.below <= LAST - n
}

// A number of a leaf.
pub fn count_beyond(d: Bounds, u: TimeUnit, t: Timed, n: u64) -> bool
    requires { Small d }
    ensures { result ≡ count_beyond d u t n }
{
    match t {
        Timed::In(r) => is_outside(bounds_before(d, r, u), n),
        Timed::Never => false,
    }
}
