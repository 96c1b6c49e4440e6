// Integer arithmetic: sums, differences, and products and quotients by a whole number. Each is exact, or refused.
#![tactic(auto, unfolding(duration::specs::Meaning::valid, duration::specs::Meaning::exact, duration::specs::Meaning::checked, duration::specs::Parts::count, wide::specs::Wide::wide, wide::specs::Wide::words, crate::specs::Arithmetic::added, crate::specs::Arithmetic::subtracted, crate::specs::Arithmetic::apart, crate::specs::Arithmetic::times, crate::specs::Arithmetic::shared, crate::specs::Arithmetic::floor_of, crate::specs::Arithmetic::ceil_of, crate::specs::Arithmetic::saturated))]

ghost use Rattle.std.specs.Prelude.{◌≡◌, ◌+◌, ◌-◌, ◌*◌, ◌/◌, ◌^◌, ◌<◌, ◌≤◌};
ghost use Rattle.duration.specs.Meaning.{N, of_nanos};
ghost use Rattle.arithmetic.specs.Arithmetic.{added, subtracted, apart, times, shared, quotient_of, floor_of, ceil_of, saturated};

use duration::{Duration, constructors, parts};
use refusal::Refusal;
use wide::Wide;

pub fn checked_add(a: Duration, b: Duration) -> Result<Duration, Refusal>
    ensures { result ≡ added a b }
{
    let a = a.checked()?;
    let b = b.checked()?;
    let secs = a.secs.checked_add(b.secs).ok_or(Refusal::Overflow)?;
    constructors::new(secs, a.nanos + b.nanos)
}

// a - b. A second is lent to the nanoseconds, and given back where there was no need of it: no branch on numbers.
fn minus(a: Duration, b: Duration) -> Duration
    requires { (a.nanos < 10 ^ 9) × (b.nanos < 10 ^ 9) × (N b ≤ N a) }
    ensures { result ≡ of_nanos (N a - N b) }
{
    let nanos = 1_000_000_000 + a.nanos - b.nanos;
    let borrow = (1 - nanos / 1_000_000_000) as u64;
    Duration {
        secs: a.secs - b.secs - borrow,
        nanos: nanos % 1_000_000_000,
    }
}

pub fn checked_sub(a: Duration, b: Duration) -> Result<Duration, Refusal>
    ensures { result ≡ subtracted a b }
{
    let a = a.checked()?;
    let b = b.checked()?;
    if a < b {
        return Err(Refusal::Underflow);
    }
    Ok(minus(a, b))
}

// The longer less the shorter.
pub fn abs_diff(a: Duration, b: Duration) -> Result<Duration, Refusal>
    ensures { result ≡ apart a b }
{
    let a = a.checked()?;
    let b = b.checked()?;
    Ok(minus(a.max(b), a.min(b)))
}

// The seconds pass a word by the product, or by what the nanoseconds carry.
pub fn checked_mul(d: Duration, k: u32) -> Result<Duration, Refusal>
    ensures { result ≡ times d k }
{
    let d = d.checked()?;
    let by = k as u64;
    let secs = d.secs.checked_mul(by).ok_or(Refusal::Overflow)?;
    let nanos = d.nanos as u64 * by;
    let carry = nanos / 1_000_000_000;
    Ok(Duration {
        secs: secs.checked_add(carry).ok_or(Refusal::Overflow)?,
        nanos: (nanos % 1_000_000_000) as u32,
    })
}

// The seconds that are left over, less than 2^32, are divided as nanoseconds.
#[tactic(auto, using(crate::proofs::Quotients::share_is), unfolding(duration::specs::Meaning::valid, duration::specs::Meaning::checked, crate::specs::Arithmetic::shared))]
pub fn checked_div(d: Duration, k: u32) -> Result<Duration, Refusal>
    ensures { result ≡ shared d k }
{
    let d = d.checked()?;
    if k == 0 {
        return Err(Refusal::ZeroDivisor);
    }
    let by = k as u64;
    let left = d.secs % by * 1_000_000_000 + d.nanos as u64;
    Ok(Duration {
        secs: d.secs / by,
        nanos: (left / by) as u32,
    })
}

// n / d, of two words each. The machine divides what both have above their last 31 bits: that quotient is at most 1 too small.
#[tactic(auto, using(crate::proofs::Quotients::not_above, crate::proofs::Quotients::as_it_is, crate::proofs::Quotients::one_more))]
fn long_quotient(n: u128, d: u128) -> u128
    requires { (n < 2 ^ 65 * 10 ^ 9) × (d < 2 ^ 65 * 10 ^ 9) × (2 ^ 64 ≤ d) }
    ensures { result ≡ n / d }
{
    let near = ((n >> 31) as u64 / ((d >> 31) as u64 + 1)) as u128;
    if n - near * d < d { near } else { near + 1 }
}

// n / d, where n has one word: the machine divides, or d is the longer.
#[tactic(auto, using(crate::proofs::Quotients::none), unfolding(crate::specs::Arithmetic::quotient_of, wide::specs::Wide::words))]
fn short_quotient(n: u64, d: u128) -> Result<Wide, Refusal>
    ensures { result ≡ quotient_of (n / d) d }
{
    match u64::try_from(d) {
        Ok(0) => Err(Refusal::ZeroDivisor),
        Ok(d) => Ok(Wide::from((n / d) as u128)),
        Err(_) => Ok(Wide::from(0)),
    }
}

// The same, rounded up.
#[tactic(auto, using(crate::proofs::Quotients::nothing_left, crate::proofs::Quotients::something_left, crate::proofs::Quotients::one_part, crate::proofs::Quotients::no_part), unfolding(crate::specs::Arithmetic::quotient_of))]
fn short_ceiling(n: u64, d: u128) -> Result<Wide, Refusal>
    ensures { result ≡ quotient_of ((n + (d - 1)) / d) d }
{
    match u64::try_from(d) {
        Ok(0) => Err(Refusal::ZeroDivisor),
        Ok(d) => {
            let whole = n / d;
            Ok(Wide::from(if whole * d < n {
                whole as u128 + 1
            } else {
                whole as u128
            }))
        }
        Err(_) => Ok(Wide::from(if 0 < n { 1 } else { 0 })),
    }
}

// n / d, by the lengths of both.
#[tactic(auto, unfolding(wide::specs::Wide::wide, wide::specs::Wide::words, wide::specs::Wide::division, crate::specs::Arithmetic::quotient_of))]
fn quotient(n: u128, d: u128) -> Result<Wide, Refusal>
    requires { (n < 2 ^ 65 * 10 ^ 9) × (d < 2 ^ 65 * 10 ^ 9) }
    ensures { result ≡ quotient_of (n / d) d }
{
    if let Ok(n) = u64::try_from(n) {
        return short_quotient(n, d);
    }
    if d > u64::MAX as u128 {
        return Ok(Wide::from(long_quotient(n, d)));
    }
    Ok(wide::div(Wide::from(n), Wide::from(d))?.quotient)
}

// n / d rounded up, from n / d rounded down.
#[tactic(auto, using(crate::proofs::Quotients::nothing_left, crate::proofs::Quotients::something_left))]
fn upward(whole: u128, n: u128, d: u128) -> u128
    requires { (n < 2 ^ 65 * 10 ^ 9) × (0 < d) × (whole ≡ n / d) }
    ensures { result ≡ (n + (d - 1)) / d }
{
    if whole * d < n { whole + 1 } else { whole }
}

// The same as `quotient`, rounded up.
#[tactic(auto, unfolding(wide::specs::Wide::wide, wide::specs::Wide::words, wide::specs::Wide::division, crate::specs::Arithmetic::quotient_of))]
fn ceiling(n: u128, d: u128) -> Result<Wide, Refusal>
    requires { (n < 2 ^ 65 * 10 ^ 9) × (d < 2 ^ 65 * 10 ^ 9) }
    ensures { result ≡ quotient_of ((n + (d - 1)) / d) d }
{
    if let Ok(n) = u64::try_from(n) {
        return short_ceiling(n, d);
    }
    if d > u64::MAX as u128 {
        return Ok(Wide::from(upward(long_quotient(n, d), n, d)));
    }
    let whole = wide::div(Wide::from(n), Wide::from(d))?.quotient;
    Ok(Wide::from(upward(u128::from(whole), n, d)))
}

// How many times a holds b, rounded down. Both pairs are tested before anything is worked out, so that one branch does for the two.
pub fn div_duration_floor(a: Duration, b: Duration) -> Result<Wide, Refusal>
    ensures { result ≡ floor_of a b }
{
    let a = a.checked()?;
    let b = b.checked()?;
    let over = u128::from(parts::as_nanos(a)?);
    let by = u128::from(parts::as_nanos(b)?);
    quotient(over, by)
}

// How many times a holds b, rounded up. Two names, as the Rust has them: one function with the way of rounding for a parameter, and
// two more over it, would be no plainer.
pub fn div_duration_ceil(a: Duration, b: Duration) -> Result<Wide, Refusal>
    ensures { result ≡ ceil_of a b }
{
    let a = a.checked()?;
    let b = b.checked()?;
    let over = u128::from(parts::as_nanos(a)?);
    let by = u128::from(parts::as_nanos(b)?);
    ceiling(over, by)
}

// MAX in place of an overflow, and ZERO in place of an underflow.
fn saturate(a: Result<Duration, Refusal>) -> Result<Duration, Refusal>
    ensures { result ≡ saturated a }
{
    match a {
        Err(Refusal::Overflow) => Ok(duration::MAX),
        Err(Refusal::Underflow) => Ok(duration::ZERO),
        other => other,
    }
}

pub fn saturating_add(a: Duration, b: Duration) -> Result<Duration, Refusal>
    ensures { result ≡ saturated (added a b) }
{
    saturate(checked_add(a, b))
}

pub fn saturating_sub(a: Duration, b: Duration) -> Result<Duration, Refusal>
    ensures { result ≡ saturated (subtracted a b) }
{
    saturate(checked_sub(a, b))
}

pub fn saturating_mul(d: Duration, k: u32) -> Result<Duration, Refusal>
    ensures { result ≡ saturated (times d k) }
{
    saturate(checked_mul(d, k))
}
