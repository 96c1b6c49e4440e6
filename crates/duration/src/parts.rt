// What a duration is made of: whole seconds, the parts below a second, the wide counts, whether it is zero, and the order. The names
// are the Rust's, and each function is a line or two over its own constants, which a const parameter would not shorten.
ghost use Rattle.std.specs.Prelude.{◌≡◌, ◌^◌};
ghost use Rattle.duration.specs.Parts.{whole_secs, subsec, count, is_zero, compared};

use crate::{Duration, ZERO};
use refusal::Refusal;
use std::cmp::Ordering;
use wide::Wide;

pub fn as_secs(d: Duration) -> Result<u64, Refusal>
    ensures { result ≡ whole_secs d }
{
    Ok(d.checked()?.secs)
}

pub fn subsec_millis(d: Duration) -> Result<u32, Refusal>
    ensures { result ≡ subsec (10 ^ 6) d }
{
    Ok(d.checked()?.nanos / 1_000_000)
}

pub fn subsec_micros(d: Duration) -> Result<u32, Refusal>
    ensures { result ≡ subsec (10 ^ 3) d }
{
    Ok(d.checked()?.nanos / 1_000)
}

pub fn subsec_nanos(d: Duration) -> Result<u32, Refusal>
    ensures { result ≡ subsec 1 d }
{
    Ok(d.checked()?.nanos)
}

pub fn as_millis(d: Duration) -> Result<Wide, Refusal>
    ensures { result ≡ count (10 ^ 6) d }
{
    let Duration { secs, nanos } = d.checked()?;
    Ok(wide::scaled(secs, 1_000, nanos / 1_000_000))
}

pub fn as_micros(d: Duration) -> Result<Wide, Refusal>
    ensures { result ≡ count (10 ^ 3) d }
{
    let Duration { secs, nanos } = d.checked()?;
    Ok(wide::scaled(secs, 1_000_000, nanos / 1_000))
}

pub fn as_nanos(d: Duration) -> Result<Wide, Refusal>
    ensures { result ≡ count 1 d }
{
    let Duration { secs, nanos } = d.checked()?;
    Ok(wide::scaled(secs, 1_000_000_000, nanos))
}

pub fn is_zero(d: Duration) -> Result<bool, Refusal>
    ensures { result ≡ is_zero d }
{
    Ok(d.checked()? == ZERO)
}

// The order of two durations, Rust's `cmp`.
pub fn cmp(a: Duration, b: Duration) -> Result<Ordering, Refusal>
    ensures { result ≡ compared a b }
{
    Ok(a.checked()?.cmp(&b.checked()?))
}
