// The zones of two date-times, compared as bytes.
ghost use Rattle.std.specs.Prelude.{◌≡◌};
ghost use Rattle.rules.specs.Zones.{is_utc, zones_of};

use crate::params::Params;
use layout::bytes::same_bytes;

// Whether a zone counts as UTC where zones are compared: it is absent, or one of three texts.
pub fn is_utc(zone: &[u8]) -> bool
    ensures { result ≡ is_utc zone.now }
{
    if same_bytes(zone, b"") {
        return true;
    }
    if same_bytes(zone, b"UTC") {
        return true;
    }
    if same_bytes(zone, b"Etc/UTC") {
        return true;
    }
    same_bytes(zone, b"Z")
}

pub fn compare_zones(a: &[u8], b: &[u8]) -> Params
    ensures { result ≡ zones_of a.now b.now }
{
    if same_bytes(a, b) {
        return Params::Identical;
    }
    if is_utc(a) {
        if is_utc(b) {
            return Params::SameAsUtc;
        }
    }
    Params::Different
}
