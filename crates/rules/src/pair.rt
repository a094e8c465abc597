// The rules of leaf pairs, as the end of `attach_transforms` has them.
ghost use Rattle.std.specs.Prelude.{◌≡◌};
ghost use Rattle.layout.specs.Tree.{leaf_type};
ghost use Rattle.rules.specs.code.Answers.{number_of, verdict_of};
ghost use Rattle.rules.specs.Outcomes.{need, cast};
ghost use Rattle.rules.specs.Chain.{chain};
ghost use Rattle.rules.specs.code.Rules.{integers, datetimes, decimals, rule_of};
ghost use Rattle.rules.specs.Pairs.{pair_rule, has_option, cast_passes};

use crate::kinds::kind;
use crate::lossless::lossless;
use crate::outcome::{CastOption, Mismatch, Outcome, option_code};
use crate::params::{Params, compare_params, is_identical, same_as_utc};
use crate::policy::Policy;
use crate::table::table;
use layout::leaf::Leaf;

// A cast that a flag allows.
fn attach_cast(flag: bool, m: Mismatch, o: CastOption) -> Outcome
    ensures { verdict_of result ≡ need flag (number_of m) (cast o) }
{
    if flag {
        Outcome::Cast(o)
    } else {
        Outcome::Refused(m)
    }
}

// A cast between integers.
fn integer(flag: bool, fits: bool) -> Outcome
    ensures { verdict_of result ≡ integers flag fits }
{
    if flag {
        attach_cast(fits, Mismatch::IntegerRange, CastOption::Overflowing)
    } else {
        Outcome::Refused(Mismatch::IntegerUpcast)
    }
}

// A cast between date-times: first the zones, then the flag for the two units.
fn datetime(p: Policy, z: Params, flag: bool, o: CastOption) -> Outcome
    ensures { verdict_of result ≡ datetimes p z flag o }
{
    if p.datetime_convert_timezone {
        return attach_cast(flag, Mismatch::UnitCast, o);
    }
    if same_as_utc(z) {
        attach_cast(flag, Mismatch::UnitCast, o)
    } else {
        Outcome::Refused(Mismatch::TimeZone)
    }
}

// A cast between decimals: to a larger precision at the same scale.
fn decimal(flag: bool, z: Params) -> Outcome
    ensures { verdict_of result ≡ decimals flag z }
{
    match z {
        Params::Identical => Outcome::Untouched,
        Params::SameAsUtc => Outcome::Refused(Mismatch::NoRule),
        Params::Widened => attach_cast(flag, Mismatch::DecimalWidening, CastOption::NonStrict),
        Params::Different => Outcome::Refused(Mismatch::NoRule),
    }
}

// What a rule number of the table means under a policy. 0 and any number that names no rule refuse.
fn apply_rule(p: Policy, z: Params, fits: bool, rule: u8) -> Outcome
    ensures { verdict_of result ≡ rule_of p z fits rule }
{
    match rule {
        1 => Outcome::Untouched,
        2 => attach_cast(p.null_upcast, Mismatch::NullUpcast, CastOption::NonStrict),
        3 => integer(p.integer_upcast, fits),
        4 => attach_cast(p.float_upcast, Mismatch::FloatUpcast, CastOption::NonStrict),
        5 => attach_cast(
            p.float_downcast,
            Mismatch::FloatDowncast,
            CastOption::NonStrict,
        ),
        6 => attach_cast(
            p.integer_to_float_cast,
            Mismatch::IntegerToFloat,
            CastOption::Overflowing,
        ),
        7 => if is_identical(z) {
            Outcome::Untouched
        } else {
            datetime(p, z, true, CastOption::NonStrict)
        },
        8 => datetime(p, z, p.datetime_nanoseconds_downcast, CastOption::NonStrict),
        9 => datetime(
            p,
            z,
            p.datetime_microseconds_downcast,
            CastOption::NonStrict,
        ),
        10 => datetime(p, z, p.datetime_microseconds_upcast, CastOption::Strict),
        11 => datetime(p, z, p.datetime_milliseconds_upcast, CastOption::Strict),
        12 => attach_cast(
            p.categorical_to_string,
            Mismatch::CategoricalToString,
            CastOption::NonStrict,
        ),
        13 => decimal(p.decimal_widening, z),
        _ => Outcome::Refused(Mismatch::NoRule),
    }
}

// What becomes of an incoming leaf under a target leaf whose parameters compare as z.
pub fn leaf_pair(p: Policy, z: Params, incoming: Leaf, target: Leaf) -> Outcome
    ensures { verdict_of result ≡ chain p z incoming target }
{
    let i = kind(incoming);
    let t = kind(target);
    let rules = table();
    let row = 3 * (i as usize) + (t as usize) / 7;
    let column = (t as usize) % 7;
    apply_rule(p, z, lossless(i, t), rules[row][column])
}

// The same with the zones beside the two leaves; only date-times have one.
pub fn leaf_type_pair(
    p: Policy,
    incoming: Leaf,
    incoming_zone: &[u8],
    target: Leaf,
    target_zone: &[u8],
) -> Outcome
    ensures { verdict_of result ≡ pair_rule p (leaf_type incoming incoming_zone.now) (leaf_type target target_zone.now) }
{
    leaf_pair(
        p,
        compare_params(incoming, incoming_zone, target, target_zone),
        incoming,
        target,
    )
}

fn has_option(r: Outcome, o: CastOption) -> bool
    ensures { result ≡ has_option o (verdict_of r) }
{
    match r {
        Outcome::Untouched => false,
        Outcome::Refused(_) => false,
        Outcome::Cast(a) => option_code(a) == option_code(o),
    }
}

// Whether the check passes a cast with the option o from the incoming leaf to the target.
pub fn cast_passes(
    incoming: Leaf,
    incoming_zone: &[u8],
    target: Leaf,
    target_zone: &[u8],
    o: CastOption,
) -> bool
    ensures { result ≡ cast_passes (leaf_type incoming incoming_zone.now) (leaf_type target target_zone.now) o }
{
    let r = leaf_type_pair(
        Policy::all_on(),
        incoming,
        incoming_zone,
        target,
        target_zone,
    );
    has_option(r, o)
}
