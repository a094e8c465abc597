// Days and counts since 1970-01-01 as calendar times, by the Gregorian calendar, which goes on without end on both
// sides. Time is counted here from 1 March of the year -292,400,000, so that no count is negative; a year that begins
// in March has its leap day last.
ghost use Rattle.std.specs.Prelude.{◌<◌};

use crate::out::{put, put_digits, put_number};
use layout::leaf::TimeUnit;
use std::io;

const HALF: u64 = 0x8000_0000_0000_0000;

// 400 years.
const ERA: u64 = 146097;

// The year of the start, before the year 0.
const START_YEAR: u64 = 292_400_000;

// Days from the start to 1970-01-01: 731,000 times 400 years, and 719,468 days.
const EPOCH: u64 = 106_797_626_468;

const A_DAY: u64 = 86_400;

// Seconds from the start to 1970-01-01.
const START: u64 = 9_227_314_926_835_200;

const LAST: u64 = 0xFFFF_FFFF_FFFF_FFFF;

// With zeros in front, two digits.
fn put_two(rt: &impl Print, n: u64) -> io::Result<()> {
    put_number(rt, n / 10 % 10)?;
    put_number(rt, n % 10)
}

// Years past 9999 or before 0 have a sign.
fn put_year(rt: &impl Print, year: u64) -> io::Result<()> {
    if year < START_YEAR {
        put(rt, b"-")?;
        return put_padded(rt, START_YEAR - year);
    }
    let n = year - START_YEAR;
    if 9999 < n {
        put(rt, b"+")?;
    }
    put_padded(rt, n)
}

// Four digits or more.
fn put_padded(rt: &impl Print, n: u64) -> io::Result<()> {
    if 9999 < n {
        return put_number(rt, n);
    }
    put_two(rt, n / 100)?;
    put_two(rt, n)
}

// The day of a year that begins in March, as month and day. Five months have 153 days.
fn put_month_day(rt: &impl Print, day: u64) -> io::Result<()>
    requires { day < 366 }
{
    let month = (5 * day + 2) / 153;
    let before = (153 * month + 2) / 5;
    put(rt, b"-")?;
    put_two(rt, (month + 2) % 12 + 1)?;
    put(rt, b"-")?;
    put_two(rt, (day + 1).saturating_sub(before))
}

// A day, counted from the start. Within 400 years a year's number is its days, without the leap days before, by 365.
fn put_days(rt: &impl Print, days: u64) -> io::Result<()> {
    let in_era = days % ERA;
    let leap_days = (in_era / 1460 + in_era / 146_096).saturating_sub(in_era / 36_524);
    let year_of_era = in_era.saturating_sub(leap_days) / 365;
    let before = (365 * year_of_era + year_of_era / 4).saturating_sub(year_of_era / 100);
    let day = in_era.saturating_sub(before) % 366;
    let year = days / ERA % 2_000_000 * 400 + year_of_era;
    // January and February are the last months of the year that began in March.
    put_year(rt, year + day / 306)?;
    put_month_day(rt, day)
}

// A number of days since 1970-01-01, by its pattern of 32 bits.
pub fn put_date(rt: &impl Print, x: u64) -> io::Result<()> {
    if x < 0x8000_0000 {
        return put_days(rt, EPOCH + x);
    }
    put_days(
        rt,
        (EPOCH - 1).saturating_sub(u64::from(u32::MAX).saturating_sub(x)),
    )
}

// The whole seconds from the start of a count by its pattern, of which `second` are a second. A count below 0 is -(LAST
// - x) - 1.
fn seconds_of(x: u64, second: u64) -> u64
    requires { 0 < second }
{
    if x < HALF {
        let q = x / second;
        return if q < HALF { START + q } else { START };
    }
    (START - 1).saturating_sub((LAST - x) / second)
}

// What is left of it.
fn part_of(x: u64, second: u64) -> u64
    requires { 0 < second }
{
    if x < HALF {
        return x % second;
    }
    (second - 1).saturating_sub((LAST - x) % second)
}

// 2023-11-14T22:13:20
fn put_seconds(rt: &impl Print, seconds: u64) -> io::Result<()> {
    put_days(rt, seconds / A_DAY)?;
    put(rt, b"T")?;
    put_two(rt, seconds / 3600 % 24)?;
    put(rt, b":")?;
    put_two(rt, seconds / 60 % 60)?;
    put(rt, b":")?;
    put_two(rt, seconds % 60)?;
    put(rt, b".")
}

// With all the digits of the unit: 2023-11-14T22:13:20.000
pub fn put_datetime(rt: &impl Print, x: u64, unit: TimeUnit) -> io::Result<()> {
    match unit {
        TimeUnit::Nanoseconds => {
            put_seconds(rt, seconds_of(x, 1_000_000_000))?;
            put_digits(rt, part_of(x, 1_000_000_000), 9)
        }
        TimeUnit::Microseconds => {
            put_seconds(rt, seconds_of(x, 1_000_000))?;
            put_digits(rt, part_of(x, 1_000_000), 6)
        }
        TimeUnit::Milliseconds => {
            put_seconds(rt, seconds_of(x, 1000))?;
            put_digits(rt, part_of(x, 1000), 3)
        }
    }
}
