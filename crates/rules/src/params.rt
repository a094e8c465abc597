// What leaf types have beside their kinds: the zones of two date-times, or precision and scale of two decimals.
ghost use Rattle.std.specs.Prelude.{◌≡◌};
ghost use Rattle.rules.specs.Classes.{is_decimal};
ghost use Rattle.rules.specs.Params.{identical, same_as_utc, decimals_of, decimal_of, params_of};

use crate::kinds::kind;
use crate::zones::compare_zones;
use layout::leaf::{Decimal, Leaf};

// How they compare: the same bytes; zones that both count as UTC; the same scale and a larger precision in the target;
// or none of these.
#[derive(Clone, Copy)]
pub enum Params {
    Identical,
    SameAsUtc,
    Widened,
    Different,
}

const NONE: Decimal = Decimal {
    precision: 0,
    scale: 0,
};

pub fn is_identical(z: Params) -> bool
    ensures { result ≡ identical z }
{
    match z {
        Params::Identical => true,
        Params::SameAsUtc => false,
        Params::Widened => false,
        Params::Different => false,
    }
}

pub fn same_as_utc(z: Params) -> bool
    ensures { result ≡ same_as_utc z }
{
    match z {
        Params::Identical => true,
        Params::SameAsUtc => true,
        Params::Widened => false,
        Params::Different => false,
    }
}

pub fn compare_decimals(incoming: Decimal, target: Decimal) -> Params
    ensures { result ≡ decimals_of incoming target }
{
    if incoming.scale != target.scale {
        return Params::Different;
    }
    if incoming.precision < target.precision {
        return Params::Widened;
    }
    if incoming.precision == target.precision {
        return Params::Identical;
    }
    Params::Different
}

// A leaf's precision and scale; a leaf that is no decimal has none.
fn decimal_of(leaf: Leaf) -> Decimal
    ensures { result ≡ decimal_of leaf }
{
    match leaf {
        Leaf::Decimal(d) => d,
        Leaf::Null => NONE,
        Leaf::Boolean => NONE,
        Leaf::Integer(_) => NONE,
        Leaf::Float(_) => NONE,
        Leaf::Date => NONE,
        Leaf::Datetime(_) => NONE,
        Leaf::String => NONE,
        Leaf::Binary => NONE,
        Leaf::Categorical => NONE,
    }
}

fn is_decimal(leaf: Leaf) -> bool
    ensures { result ≡ is_decimal leaf }
{
    kind(leaf) == 20
}

// Between two decimals their precisions and scales count, else the zones, which only date-times have.
pub fn compare_params(
    incoming: Leaf,
    incoming_zone: &[u8],
    target: Leaf,
    target_zone: &[u8],
) -> Params
    ensures { result ≡ params_of incoming incoming_zone.now target target_zone.now }
{
    if !is_decimal(incoming) {
        return compare_zones(incoming_zone, target_zone);
    }
    if !is_decimal(target) {
        return compare_zones(incoming_zone, target_zone);
    }
    compare_decimals(decimal_of(incoming), decimal_of(target))
}
