// C functions of the integer arithmetic: two durations, or a duration and a whole number.
ghost use Rattle.arithmetic.specs.Arithmetic.{added, subtracted, apart, times, shared, floor_of, ceil_of, saturated};
ghost use Rattle.reply.specs.Reply.{Replied, duration_reply, wide_reply};

use duration::Duration;
use reply::{Words, send};

#[unsafe(no_mangle)]
pub extern "C" fn salt_checked_add(
    secs: u64,
    nanos: u32,
    secs2: u64,
    nanos2: u32,
    out: &mut [u8],
) -> u32
    ensures { Replied out.old out.new (duration_reply (added (record { secs = secs; nanos = nanos }) (record { secs = secs2; nanos = nanos2 }))) result }
{
    let a = Duration { secs, nanos };
    let b = Duration {
        secs: secs2,
        nanos: nanos2,
    };
    send(arithmetic::checked_add(a, b).map(Words::from), out)
}

#[unsafe(no_mangle)]
pub extern "C" fn salt_saturating_add(
    secs: u64,
    nanos: u32,
    secs2: u64,
    nanos2: u32,
    out: &mut [u8],
) -> u32
    ensures { Replied out.old out.new (duration_reply (saturated (added (record { secs = secs; nanos = nanos }) (record { secs = secs2; nanos = nanos2 })))) result }
{
    let a = Duration { secs, nanos };
    let b = Duration {
        secs: secs2,
        nanos: nanos2,
    };
    send(arithmetic::saturating_add(a, b).map(Words::from), out)
}

#[unsafe(no_mangle)]
pub extern "C" fn salt_checked_sub(
    secs: u64,
    nanos: u32,
    secs2: u64,
    nanos2: u32,
    out: &mut [u8],
) -> u32
    ensures { Replied out.old out.new (duration_reply (subtracted (record { secs = secs; nanos = nanos }) (record { secs = secs2; nanos = nanos2 }))) result }
{
    let a = Duration { secs, nanos };
    let b = Duration {
        secs: secs2,
        nanos: nanos2,
    };
    send(arithmetic::checked_sub(a, b).map(Words::from), out)
}

#[unsafe(no_mangle)]
pub extern "C" fn salt_saturating_sub(
    secs: u64,
    nanos: u32,
    secs2: u64,
    nanos2: u32,
    out: &mut [u8],
) -> u32
    ensures { Replied out.old out.new (duration_reply (saturated (subtracted (record { secs = secs; nanos = nanos }) (record { secs = secs2; nanos = nanos2 })))) result }
{
    let a = Duration { secs, nanos };
    let b = Duration {
        secs: secs2,
        nanos: nanos2,
    };
    send(arithmetic::saturating_sub(a, b).map(Words::from), out)
}

#[unsafe(no_mangle)]
pub extern "C" fn salt_abs_diff(
    secs: u64,
    nanos: u32,
    secs2: u64,
    nanos2: u32,
    out: &mut [u8],
) -> u32
    ensures { Replied out.old out.new (duration_reply (apart (record { secs = secs; nanos = nanos }) (record { secs = secs2; nanos = nanos2 }))) result }
{
    let a = Duration { secs, nanos };
    let b = Duration {
        secs: secs2,
        nanos: nanos2,
    };
    send(arithmetic::abs_diff(a, b).map(Words::from), out)
}

#[unsafe(no_mangle)]
pub extern "C" fn salt_checked_mul(secs: u64, nanos: u32, k: u32, out: &mut [u8]) -> u32
    ensures { Replied out.old out.new (duration_reply (times (record { secs = secs; nanos = nanos }) k)) result }
{
    send(
        arithmetic::checked_mul(Duration { secs, nanos }, k).map(Words::from),
        out,
    )
}

#[unsafe(no_mangle)]
pub extern "C" fn salt_saturating_mul(secs: u64, nanos: u32, k: u32, out: &mut [u8]) -> u32
    ensures { Replied out.old out.new (duration_reply (saturated (times (record { secs = secs; nanos = nanos }) k))) result }
{
    send(
        arithmetic::saturating_mul(Duration { secs, nanos }, k).map(Words::from),
        out,
    )
}

#[unsafe(no_mangle)]
pub extern "C" fn salt_checked_div(secs: u64, nanos: u32, k: u32, out: &mut [u8]) -> u32
    ensures { Replied out.old out.new (duration_reply (shared (record { secs = secs; nanos = nanos }) k)) result }
{
    send(
        arithmetic::checked_div(Duration { secs, nanos }, k).map(Words::from),
        out,
    )
}

#[unsafe(no_mangle)]
pub extern "C" fn salt_div_duration_floor(
    secs: u64,
    nanos: u32,
    secs2: u64,
    nanos2: u32,
    out: &mut [u8],
) -> u32
    ensures { Replied out.old out.new (wide_reply (floor_of (record { secs = secs; nanos = nanos }) (record { secs = secs2; nanos = nanos2 }))) result }
{
    let a = Duration { secs, nanos };
    let b = Duration {
        secs: secs2,
        nanos: nanos2,
    };
    send(arithmetic::div_duration_floor(a, b).map(Words::from), out)
}

#[unsafe(no_mangle)]
pub extern "C" fn salt_div_duration_ceil(
    secs: u64,
    nanos: u32,
    secs2: u64,
    nanos2: u32,
    out: &mut [u8],
) -> u32
    ensures { Replied out.old out.new (wide_reply (ceil_of (record { secs = secs; nanos = nanos }) (record { secs = secs2; nanos = nanos2 }))) result }
{
    let a = Duration { secs, nanos };
    let b = Duration {
        secs: secs2,
        nanos: nanos2,
    };
    send(arithmetic::div_duration_ceil(a, b).map(Words::from), out)
}
