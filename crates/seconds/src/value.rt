// A pair's seconds, milliseconds and nanoseconds as a float of either width, in the Rust's order of operations. The scales are floats
// exactly.
ghost use Rattle.std.specs.Prelude.{◌≡◌};
ghost use Rattle.seconds.specs.Out.{seconds_as, millis_as, nanos_as};

use crate::float::IeeeFloat;
use duration::Duration;

pub fn seconds<F: IeeeFloat>(d: Duration) -> F
    ensures { F.float result ≡ seconds_as F.format d }
{
    F::nearest_u64(d.secs) + F::nearest_u32(d.nanos) / F::nearest_u32(1_000_000_000)
}

pub fn millis<F: IeeeFloat>(d: Duration) -> F
    ensures { F.float result ≡ millis_as F.format d }
{
    F::nearest_u64(d.secs) * F::nearest_u32(1_000)
        + F::nearest_u32(d.nanos) / F::nearest_u32(1_000_000)
}

pub fn nanos<F: IeeeFloat>(d: Duration) -> F
    ensures { F.float result ≡ nanos_as F.format d }
{
    F::nearest_u64(d.secs) * F::nearest_u32(1_000_000_000) + F::nearest_u32(d.nanos)
}
