// A whole number over a power of two, in seconds: the ways of a float's digits m to the nearest nanosecond. Each way has limits of its
// own on m and k, so they stay two parameters: a type for both would carry no fact.
ghost use Rattle.std.specs.Prelude.{◌≡◌, ◌+◌, ◌-◌, ◌*◌, ◌^◌, ◌<◌, ◌≤◌};
ghost use Rattle.std.specs.Float.Ieee.Nearest.{closest};
ghost use Rattle.duration.specs.Meaning.{exact};
ghost use Rattle.seconds.specs.From.{of_fraction};

use duration::{Duration, constructors};
use refusal::Refusal;

// (a * 2^32 + b) / 2^(32 + j) to the nearest whole number, a tie to the even one. Half a unit less one is added, and one more
// where b is not zero or the whole part is odd: no branch, since which way a number rounds is not to be foretold.
#[tactic(auto, using(crate::proofs::Rounding::rounded_fits, crate::proofs::Rounding::rounded_is))]
fn rounded(a: u64, b: u64, j: u64) -> u64
    requires { (a < 2 ^ 62) × (b < 2 ^ 32) × (0 < j) × (j < 64) }
    ensures { result ≡ closest (a * 2 ^ 32 + b) (2 ^ (32 + j)) }
{
    let half = 1u64 << (j - 1);
    let odd = (a >> j) % 2;
    let more = (b + 0xffff_ffff) / 0x1_0000_0000;
    (a + (half - 1) + (odd | more)) >> j
}

// f / 2^(32 + j) seconds in whole nanoseconds.
fn nanos(f: u64, j: u64) -> u64
    requires { (0 < j) × (j < 64) }
    ensures { result ≡ closest (f * 10 ^ 9) (2 ^ (32 + j)) }
{
    let low = f % 0x1_0000_0000 * 1_000_000_000;
    let a = f / 0x1_0000_0000 * 1_000_000_000 + low / 0x1_0000_0000;
    rounded(a, low % 0x1_0000_0000, j)
}

// m / 2^k seconds. The shift drops the whole seconds, and leaves the fraction over 2^64. Its nanoseconds may be a second, which carries.
#[tactic(auto, using(crate::proofs::Rounding::near_is, crate::proofs::Rounding::near_pair))]
pub fn near(m: u64, k: u64) -> Result<Duration, Refusal>
    requires { (m < 2 ^ 53) × (0 < k) × (k < 64) }
    ensures { result ≡ of_fraction m (2 ^ k) }
{
    constructors::new(m >> k, nanos(m << (64 - k), 32) as u32)
}

// m / 2^k seconds, for a short m: one shift for both parts, one product, and no carry.
#[tactic(auto, using(crate::proofs::FewDigits::short_is))]
pub fn short(m: u64, k: u64) -> Result<Duration, Refusal>
    requires { (m < 2 ^ 24) × (0 < k) × (k ≤ 34) }
    ensures { result ≡ of_fraction m (2 ^ k) }
{
    let v = m << (34 - k);
    let p = v % 0x4_0000_0000 * 1_000_000_000;
    let n = (p + 0x1_ffff_ffff + p / 0x4_0000_0000 % 2) / 0x4_0000_0000;
    Ok(Duration {
        secs: v / 0x4_0000_0000,
        nanos: n as u32,
    })
}

// m / 2^k seconds, for an m so far below 2^k that there is no tie: half a unit is added, and the digits below count for nothing.
#[tactic(auto, using(crate::proofs::NoTie::tiny_fits, crate::proofs::NoTie::tiny_is))]
pub fn tiny(m: u64, k: u64) -> Result<Duration, Refusal>
    requires { (m < 2 ^ 53) × (m < 2 ^ (k - 10)) × (32 < k) × (k < 96) }
    ensures { result ≡ of_fraction m (2 ^ k) }
{
    let a = m / 0x1_0000_0000 * 1_000_000_000 + m % 0x1_0000_0000 * 1_000_000_000 / 0x1_0000_0000;
    let n = (a + (1u64 << (k - 33))) >> (k - 32);
    Ok(Duration {
        secs: 0,
        nanos: n as u32,
    })
}

// m / 2^k seconds, for a short m so far below 2^k that there is no tie: one product, and half a unit is added.
#[tactic(auto, using(crate::proofs::NoTie::faint_fits, crate::proofs::NoTie::faint_is))]
pub fn faint(m: u64, k: u64) -> Result<Duration, Refusal>
    requires { (m < 2 ^ 24) × (34 ≤ k) × (k ≤ 55) }
    ensures { result ≡ of_fraction m (2 ^ k) }
{
    let n = (m * 1_000_000_000 + (1u64 << (k - 1))) >> k;
    Ok(Duration {
        secs: 0,
        nanos: n as u32,
    })
}

// m * 2^up seconds, for an m of 64 - most digits.
#[tactic(auto, using(crate::proofs::Fraction::too_far, crate::proofs::Fraction::shifted))]
pub fn large(m: u64, up: u64, most: u64) -> Result<Duration, Refusal>
    requires { (m * 2 ^ most < 2 ^ 64) × (2 ^ 64 ≤ m * 2 ^ (most + 1)) × (most < 64) }
    ensures { result ≡ of_fraction (m * 2 ^ up) 1 }
{
    if up > most {
        return Err(Refusal::OverflowOrNan);
    }
    Ok(Duration {
        secs: m << up,
        nanos: 0,
    })
}
