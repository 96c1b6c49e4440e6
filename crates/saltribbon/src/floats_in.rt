// C functions that take a float: seconds as a duration, and a duration times and over a float.
ghost use Rattle.seconds.specs.From.{from_seconds, times_float, over_float};
ghost use Rattle.reply.specs.Reply.{Replied, duration_reply};

use duration::Duration;
use reply::{Words, send};
use seconds::from;

#[unsafe(no_mangle)]
pub extern "C" fn salt_try_from_secs_f64(x: f64, out: &mut [u8]) -> u32
    ensures { Replied out.old out.new (duration_reply (from_seconds x)) result }
{
    send(from::try_from_secs_f64(x).map(Words::from), out)
}

#[unsafe(no_mangle)]
pub extern "C" fn salt_try_from_secs_f32(x: f32, out: &mut [u8]) -> u32
    ensures { Replied out.old out.new (duration_reply (from_seconds x)) result }
{
    send(from::try_from_secs_f32(x).map(Words::from), out)
}

#[unsafe(no_mangle)]
pub extern "C" fn salt_mul_f64(secs: u64, nanos: u32, x: f64, out: &mut [u8]) -> u32
    ensures { Replied out.old out.new (duration_reply (times_float (record { secs = secs; nanos = nanos }) x)) result }
{
    send(
        from::mul_f64(Duration { secs, nanos }, x).map(Words::from),
        out,
    )
}

#[unsafe(no_mangle)]
pub extern "C" fn salt_mul_f32(secs: u64, nanos: u32, x: f32, out: &mut [u8]) -> u32
    ensures { Replied out.old out.new (duration_reply (times_float (record { secs = secs; nanos = nanos }) x)) result }
{
    send(
        from::mul_f32(Duration { secs, nanos }, x).map(Words::from),
        out,
    )
}

#[unsafe(no_mangle)]
pub extern "C" fn salt_div_f64(secs: u64, nanos: u32, x: f64, out: &mut [u8]) -> u32
    ensures { Replied out.old out.new (duration_reply (over_float (record { secs = secs; nanos = nanos }) x)) result }
{
    send(
        from::div_f64(Duration { secs, nanos }, x).map(Words::from),
        out,
    )
}

#[unsafe(no_mangle)]
pub extern "C" fn salt_div_f32(secs: u64, nanos: u32, x: f32, out: &mut [u8]) -> u32
    ensures { Replied out.old out.new (duration_reply (over_float (record { secs = secs; nanos = nanos }) x)) result }
{
    send(
        from::div_f32(Duration { secs, nanos }, x).map(Words::from),
        out,
    )
}
