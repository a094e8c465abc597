// Converting a present number from one leaf kind to another, on bit patterns.
ghost use Rattle.std.specs.Prelude.{◌≡◌, ◌<◌};
ghost use Rattle.layout.specs.declared.leaf.Leaf.{Leaf};
ghost use Rattle.rules.specs.Classes.{class_of};
ghost use Rattle.rules.specs.declared.kinds.Class.{Class as ClassOf};
ghost use Rattle.plan.specs.Convert.{unit_change, rescaled, convert_as, convert};
ghost use Rattle.convert.specs.code.Converted.{change_of, Positive, value_of};

use layout::leaf::{Leaf, TimeUnit};
use numeric::floats::{Format, convert, from_integer};
use numeric::integers::{Integer, widen};
use numeric::times::{divide, multiply};
use rules::kinds::{Class, class_of};

// A number of the kind that was asked for, or a date-time that is too large.
#[derive(Clone, Copy)]
pub enum Converted {
    Number(u64),
    Overflow,
}

// From one date-time unit to another.
#[derive(Clone, Copy)]
pub enum UnitChange {
    Multiply(u64),
    Divide(u64),
    Keep,
}

fn unit_change(u: TimeUnit, v: TimeUnit) -> UnitChange
    ensures result_value { change_of result ≡ unit_change u v }
    ensures positive { Positive result }
{
    match u {
        TimeUnit::Nanoseconds => match v {
            TimeUnit::Nanoseconds => UnitChange::Keep,
            TimeUnit::Microseconds => UnitChange::Divide(1000),
            TimeUnit::Milliseconds => UnitChange::Divide(1000000),
        },
        TimeUnit::Microseconds => match v {
            TimeUnit::Nanoseconds => UnitChange::Multiply(1000),
            TimeUnit::Microseconds => UnitChange::Keep,
            TimeUnit::Milliseconds => UnitChange::Divide(1000),
        },
        TimeUnit::Milliseconds => match v {
            TimeUnit::Nanoseconds => UnitChange::Multiply(1000000),
            TimeUnit::Microseconds => UnitChange::Multiply(1000),
            TimeUnit::Milliseconds => UnitChange::Keep,
        },
    }
}

fn rescale(c: UnitChange, n: u64) -> Converted
    requires { Positive c }
    ensures { (k : Leaf) → value_of k result ≡ rescaled (change_of c) k n }
{
    match c {
        UnitChange::Multiply(f) => match multiply(n, f) {
            Some(m) => Converted::Number(m),
            None => Converted::Overflow,
        },
        UnitChange::Divide(f) => Converted::Number(divide(n, f)),
        UnitChange::Keep => Converted::Number(n),
    }
}

fn convert_integer(i: Integer, k: Leaf, n: u64) -> Converted
    ensures { value_of k result ≡ convert_as (ClassOf.Integer i) (class_of k) k n }
{
    match class_of(k) {
        Class::Integer(j) => Converted::Number(widen(n, i, j)),
        Class::Float(g) => Converted::Number(from_integer(n, i, g)),
        Class::Datetime(_) => Converted::Number(n),
        Class::Other => Converted::Number(n),
    }
}

fn convert_float(f: Format, k: Leaf, n: u64) -> Converted
    ensures { value_of k result ≡ convert_as (ClassOf.Float f) (class_of k) k n }
{
    match class_of(k) {
        Class::Integer(_) => Converted::Number(n),
        Class::Float(g) => Converted::Number(convert(n, f, g)),
        Class::Datetime(_) => Converted::Number(n),
        Class::Other => Converted::Number(n),
    }
}

fn convert_datetime(u: TimeUnit, k: Leaf, n: u64) -> Converted
    ensures { value_of k result ≡ convert_as (ClassOf.Datetime u) (class_of k) k n }
{
    match class_of(k) {
        Class::Integer(_) => Converted::Number(n),
        Class::Float(_) => Converted::Number(n),
        Class::Datetime(v) => rescale(unit_change(u, v), n),
        Class::Other => Converted::Number(n),
    }
}

// The pattern `n` of the kind `i`, as a number of the kind `k`.
pub fn convert_leaf(i: Leaf, k: Leaf, n: u64) -> Converted
    ensures { value_of k result ≡ convert i k n }
{
    match class_of(i) {
        Class::Integer(j) => convert_integer(j, k, n),
        Class::Float(f) => convert_float(f, k, n),
        Class::Datetime(u) => convert_datetime(u, k, n),
        Class::Other => Converted::Number(n),
    }
}
