// Floats out: a duration's seconds and milliseconds, and the quotient of two durations, as a float of each width. The names are the
// Rust's, and each function is one line over a generic one.
ghost use Rattle.std.specs.Prelude.{◌≡◌, ◌&&◌};
ghost use Rattle.std.specs.Float.{binary32, binary64};
ghost use Rattle.duration.specs.Meaning.{valid};
ghost use Rattle.seconds.specs.Out.{seconds_as, millis_as, quotient_as, float_if};

use crate::value;
use duration::Duration;
use refusal::Refusal;

pub fn as_secs_f64(d: Duration) -> Result<f64, Refusal>
    ensures { result ≡ float_if (valid d) (seconds_as binary64 d) }
{
    Ok(value::seconds::<f64>(d.checked()?))
}

pub fn as_secs_f32(d: Duration) -> Result<f32, Refusal>
    ensures { result ≡ float_if (valid d) (seconds_as binary32 d) }
{
    Ok(value::seconds::<f32>(d.checked()?))
}

pub fn as_millis_f64(d: Duration) -> Result<f64, Refusal>
    ensures { result ≡ float_if (valid d) (millis_as binary64 d) }
{
    Ok(value::millis::<f64>(d.checked()?))
}

pub fn as_millis_f32(d: Duration) -> Result<f32, Refusal>
    ensures { result ≡ float_if (valid d) (millis_as binary32 d) }
{
    Ok(value::millis::<f32>(d.checked()?))
}

// Over ZERO an infinity, and ZERO over ZERO a NaN: neither is a refusal.
pub fn div_duration_f64(a: Duration, b: Duration) -> Result<f64, Refusal>
    ensures { result ≡ float_if (valid a && valid b) (quotient_as binary64 a b) }
{
    Ok(value::nanos::<f64>(a.checked()?) / value::nanos::<f64>(b.checked()?))
}

// Over ZERO an infinity, and ZERO over ZERO a NaN: neither is a refusal.
pub fn div_duration_f32(a: Duration, b: Duration) -> Result<f32, Refusal>
    ensures { result ≡ float_if (valid a && valid b) (quotient_as binary32 a b) }
{
    Ok(value::nanos::<f32>(a.checked()?) / value::nanos::<f32>(b.checked()?))
}
