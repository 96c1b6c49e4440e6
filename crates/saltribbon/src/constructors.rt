// C functions that make a duration: from counts, and the six constants.
#![tactic(auto, unfolding(duration::specs::Meaning::exact))]

ghost use Rattle.std.specs.Prelude.{◌+◌, ◌*◌, ◌^◌};
ghost use Rattle.wide.specs.Wide.{wide};
ghost use Rattle.duration.specs.Meaning.{exact, most};
ghost use Rattle.duration.specs.Units.{from_unit_number};
ghost use Rattle.reply.specs.Reply.{Replied, duration_reply};

use duration::constructors;
use reply::{Words, send};
use wide::Wide;

#[unsafe(no_mangle)]
pub extern "C" fn salt_new(secs: u64, nanos: u32, out: &mut [u8]) -> u32
    ensures { Replied out.old out.new (duration_reply (exact (secs * 10 ^ 9 + nanos))) result }
{
    send(constructors::new(secs, nanos).map(Words::from), out)
}

#[unsafe(no_mangle)]
pub extern "C" fn salt_from_unit(count: u64, unit: u32, out: &mut [u8]) -> u32
    ensures { Replied out.old out.new (duration_reply (from_unit_number count unit)) result }
{
    send(constructors::from_unit(count, unit).map(Words::from), out)
}

#[unsafe(no_mangle)]
pub extern "C" fn salt_from_nanos_u128(low: u64, high: u64, out: &mut [u8]) -> u32
    ensures { Replied out.old out.new (duration_reply (exact (wide (record { hi = high; lo = low })))) result }
{
    send(
        constructors::from_nanos_u128(Wide { hi: high, lo: low }).map(Words::from),
        out,
    )
}

#[unsafe(no_mangle)]
pub extern "C" fn salt_second(out: &mut [u8]) -> u32
    ensures { Replied out.old out.new (duration_reply (exact (10 ^ 9))) result }
{
    send(Ok(Words::from(duration::SECOND)), out)
}

#[unsafe(no_mangle)]
pub extern "C" fn salt_millisecond(out: &mut [u8]) -> u32
    ensures { Replied out.old out.new (duration_reply (exact (10 ^ 6))) result }
{
    send(Ok(Words::from(duration::MILLISECOND)), out)
}

#[unsafe(no_mangle)]
pub extern "C" fn salt_microsecond(out: &mut [u8]) -> u32
    ensures { Replied out.old out.new (duration_reply (exact (10 ^ 3))) result }
{
    send(Ok(Words::from(duration::MICROSECOND)), out)
}

#[unsafe(no_mangle)]
pub extern "C" fn salt_nanosecond(out: &mut [u8]) -> u32
    ensures { Replied out.old out.new (duration_reply (exact 1)) result }
{
    send(Ok(Words::from(duration::NANOSECOND)), out)
}

#[unsafe(no_mangle)]
pub extern "C" fn salt_zero(out: &mut [u8]) -> u32
    ensures { Replied out.old out.new (duration_reply (exact 0)) result }
{
    send(Ok(Words::from(duration::ZERO)), out)
}

#[unsafe(no_mangle)]
pub extern "C" fn salt_max(out: &mut [u8]) -> u32
    ensures { Replied out.old out.new (duration_reply (exact most)) result }
{
    send(Ok(Words::from(duration::MAX)), out)
}
