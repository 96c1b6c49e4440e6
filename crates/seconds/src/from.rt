// Floats in: float seconds as a duration, and a duration times and over a float.
ghost use Rattle.std.specs.Prelude.{◌≡◌};
ghost use Rattle.seconds.specs.From.{from_seconds, times_float, over_float};

use crate::from::fraction::{faint, large, near, short, tiny};
use crate::value::seconds;
use duration::{Duration, ZERO};
use refusal::Refusal;

mod fraction;

// x seconds. Document 01 asks for one function per width over one shared rule, and for shifts and masks on the bits: each width takes
// its own fast way. The one test on the way of most floats is false for a NaN.
pub fn try_from_secs_f64(x: f64) -> Result<Duration, Refusal>
    ensures { result ≡ from_seconds x }
{
    if x >= 0.0 {
        let bits = x.to_bits();
        let exponent = (bits >> 52) & 0x7ff;
        let m = bits & 0xf_ffff_ffff_ffff | 0x10_0000_0000_0000;
        if exponent >= 1013 {
            if exponent < 1075 {
                return near(m, 1075 - exponent);
            }
            return large(m, exponent - 1075, 11);
        }
        if exponent < 991 {
            return Ok(ZERO);
        }
        return tiny(m, 1075 - exponent);
    }
    if x < 0.0 {
        return Err(Refusal::Negative);
    }
    Err(Refusal::OverflowOrNan)
}

// x seconds, by the way of an f32.
pub fn try_from_secs_f32(x: f32) -> Result<Duration, Refusal>
    ensures { result ≡ from_seconds x }
{
    if x >= 0.0 {
        let bits = x.to_bits() as u64;
        let exponent = (bits >> 23) & 0xff;
        let m = bits & 0x7f_ffff | 0x80_0000;
        if exponent >= 150 {
            return large(m, exponent - 150, 40);
        }
        if exponent >= 117 {
            return short(m, 150 - exponent);
        }
        if exponent >= 95 {
            return faint(m, 150 - exponent);
        }
        return Ok(ZERO);
    }
    if x < 0.0 {
        return Err(Refusal::Negative);
    }
    Err(Refusal::OverflowOrNan)
}

// d times x, by one product of f64s.
pub fn mul_f64(d: Duration, x: f64) -> Result<Duration, Refusal>
    ensures { result ≡ times_float d x }
{
    try_from_secs_f64(x * seconds::<f64>(d.checked()?))
}

// d over x, by one quotient of f64s.
pub fn div_f64(d: Duration, x: f64) -> Result<Duration, Refusal>
    ensures { result ≡ over_float d x }
{
    try_from_secs_f64(seconds::<f64>(d.checked()?) / x)
}

// An f32 is an f64 as it stands.
pub fn mul_f32(d: Duration, x: f32) -> Result<Duration, Refusal>
    ensures { result ≡ times_float d x }
{
    mul_f64(d, f64::from(x))
}

// d over an f32, as an f64.
pub fn div_f32(d: Duration, x: f32) -> Result<Duration, Refusal>
    ensures { result ≡ over_float d x }
{
    div_f64(d, f64::from(x))
}
