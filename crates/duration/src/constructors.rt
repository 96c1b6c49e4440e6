// Durations from counts: of one unit, of nanoseconds in two words, of seconds with nanoseconds beside. The names are the Rust's, and
// each unit has its own constants, which a const parameter would only move into the type.
ghost use Rattle.std.specs.Prelude.{◌≡◌, ◌+◌, ◌*◌, ◌^◌, ◌<◌, ◌≤◌};
ghost use Rattle.wide.specs.Wide.{wide};
ghost use Rattle.duration.specs.Meaning.{of_nanos, exact};
ghost use Rattle.duration.specs.Units.{from_unit_number};

use crate::Duration;
use refusal::Refusal;
use wide::Wide;

mod whole;

// Whole seconds with nanoseconds beside, of which each 10^9 carry into the seconds.
pub fn new(secs: u64, nanos: u32) -> Result<Duration, Refusal>
    ensures { result ≡ exact (secs * 10 ^ 9 + nanos) }
{
    let carry = (nanos / 1_000_000_000) as u64;
    let secs = secs.checked_add(carry).ok_or(Refusal::Overflow)?;
    Ok(Duration {
        secs,
        nanos: nanos % 1_000_000_000,
    })
}

pub fn from_secs(secs: u64) -> Duration
    ensures { result ≡ of_nanos (secs * 10 ^ 9) }
{
    Duration { secs, nanos: 0 }
}

pub fn from_millis(millis: u64) -> Duration
    ensures { result ≡ of_nanos (millis * 10 ^ 6) }
{
    Duration {
        secs: millis / 1_000,
        nanos: (millis % 1_000) as u32 * 1_000_000,
    }
}

pub fn from_micros(micros: u64) -> Duration
    ensures { result ≡ of_nanos (micros * 10 ^ 3) }
{
    Duration {
        secs: micros / 1_000_000,
        nanos: (micros % 1_000_000) as u32 * 1_000,
    }
}

pub fn from_nanos(nanos: u64) -> Duration
    ensures { result ≡ of_nanos nanos }
{
    Duration {
        secs: nanos / 1_000_000_000,
        nanos: (nanos % 1_000_000_000) as u32,
    }
}

// Nanoseconds in two words. The quotient by 10^9 is one word exactly where the high word is below 10^9, and is worked in two digits of 32 bits.
pub fn from_nanos_u128(nanos: Wide) -> Result<Duration, Refusal>
    ensures { result ≡ exact (wide nanos) }
{
    if 1_000_000_000 <= nanos.hi {
        return Err(Refusal::Overflow);
    }
    let upper = nanos.hi * 0x1_0000_0000 + nanos.lo / 0x1_0000_0000;
    let lower = upper % 1_000_000_000 * 0x1_0000_0000 + nanos.lo % 0x1_0000_0000;
    Ok(Duration {
        secs: upper / 1_000_000_000 * 0x1_0000_0000 + lower / 1_000_000_000,
        nanos: (lower % 1_000_000_000) as u32,
    })
}

pub fn from_mins(mins: u64) -> Result<Duration, Refusal>
    ensures { result ≡ exact (mins * (60 * 10 ^ 9)) }
{
    whole::seconds(mins, 60, 307_445_734_561_825_860)
}

pub fn from_hours(hours: u64) -> Result<Duration, Refusal>
    ensures { result ≡ exact (hours * (3600 * 10 ^ 9)) }
{
    whole::seconds(hours, 3_600, 5_124_095_576_030_431)
}

pub fn from_days(days: u64) -> Result<Duration, Refusal>
    ensures { result ≡ exact (days * (86400 * 10 ^ 9)) }
{
    whole::seconds(days, 86_400, 213_503_982_334_601)
}

pub fn from_weeks(weeks: u64) -> Result<Duration, Refusal>
    ensures { result ≡ exact (weeks * (604800 * 10 ^ 9)) }
{
    whole::seconds(weeks, 604_800, 30_500_568_904_943)
}

// Microseconds, milliseconds or seconds, of which any count fits.
fn any_count(count: u64, unit: u32) -> Result<Duration, Refusal>
    requires { (1 ≤ unit) × (unit ≤ 3) }
    ensures { result ≡ from_unit_number count unit }
{
    match unit {
        1 => Ok(from_micros(count)),
        2 => Ok(from_millis(count)),
        _ => Ok(from_secs(count)),
    }
}

// So many of the unit with that number, by a match on it, as document 01 names the form. Three units share an arm: the compiler tests for four arms of one number by a slower jump.
pub fn from_unit(count: u64, unit: u32) -> Result<Duration, Refusal>
    ensures { result ≡ from_unit_number count unit }
{
    match unit {
        0 => Ok(from_nanos(count)),
        1..=3 => any_count(count, unit),
        4..=7 => whole::seconds(count, whole::scale(unit), whole::limit(unit)),
        8.. => Err(Refusal::BadUnit),
    }
}
