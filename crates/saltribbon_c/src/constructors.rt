// The exports that make a duration.
ghost use Rattle.std.specs.Prelude.{◌+◌, ◌*◌, ◌^◌};
ghost use Rattle.wide.specs.Wide.{wide};
ghost use Rattle.duration.specs.Meaning.{exact, most};
ghost use Rattle.duration.specs.Units.{from_unit_number};
ghost use Rattle.reply.specs.Reply.{Replied, duration_reply};

#[unsafe(no_mangle)]
pub extern "C" fn salt_new(secs: u64, nanos: u32, out: &mut [u8]) -> u32
    ensures { Replied out.old out.new (duration_reply (exact (secs * 10 ^ 9 + nanos))) result }
{
    saltribbon::constructors::salt_new(secs, nanos, out)
}

#[unsafe(no_mangle)]
pub extern "C" fn salt_from_unit(count: u64, unit: u32, out: &mut [u8]) -> u32
    ensures { Replied out.old out.new (duration_reply (from_unit_number count unit)) result }
{
    saltribbon::constructors::salt_from_unit(count, unit, out)
}

#[unsafe(no_mangle)]
pub extern "C" fn salt_from_nanos_u128(low: u64, high: u64, out: &mut [u8]) -> u32
    ensures { Replied out.old out.new (duration_reply (exact (wide (record { hi = high; lo = low })))) result }
{
    saltribbon::constructors::salt_from_nanos_u128(low, high, out)
}

#[unsafe(no_mangle)]
pub extern "C" fn salt_second(out: &mut [u8]) -> u32
    ensures { Replied out.old out.new (duration_reply (exact (10 ^ 9))) result }
{
    saltribbon::constructors::salt_second(out)
}

#[unsafe(no_mangle)]
pub extern "C" fn salt_millisecond(out: &mut [u8]) -> u32
    ensures { Replied out.old out.new (duration_reply (exact (10 ^ 6))) result }
{
    saltribbon::constructors::salt_millisecond(out)
}

#[unsafe(no_mangle)]
pub extern "C" fn salt_microsecond(out: &mut [u8]) -> u32
    ensures { Replied out.old out.new (duration_reply (exact (10 ^ 3))) result }
{
    saltribbon::constructors::salt_microsecond(out)
}

#[unsafe(no_mangle)]
pub extern "C" fn salt_nanosecond(out: &mut [u8]) -> u32
    ensures { Replied out.old out.new (duration_reply (exact 1)) result }
{
    saltribbon::constructors::salt_nanosecond(out)
}

#[unsafe(no_mangle)]
pub extern "C" fn salt_zero(out: &mut [u8]) -> u32
    ensures { Replied out.old out.new (duration_reply (exact 0)) result }
{
    saltribbon::constructors::salt_zero(out)
}

#[unsafe(no_mangle)]
pub extern "C" fn salt_max(out: &mut [u8]) -> u32
    ensures { Replied out.old out.new (duration_reply (exact most)) result }
{
    saltribbon::constructors::salt_max(out)
}
