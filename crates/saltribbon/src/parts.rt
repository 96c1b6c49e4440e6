// C functions that read a duration: its parts, its counts, whether it is zero, and the order of two.
ghost use Rattle.std.specs.Prelude.{◌^◌};
ghost use Rattle.duration.specs.Parts.{whole_secs, subsec, count, is_zero, compared};
ghost use Rattle.reply.specs.Reply.{Replied, wide_reply, word_reply, flag_reply, order_reply};

use duration::{Duration, parts};
use reply::{Words, send};

#[unsafe(no_mangle)]
pub extern "C" fn salt_as_secs(secs: u64, nanos: u32, out: &mut [u8]) -> u32
    ensures { Replied out.old out.new (word_reply (whole_secs (record { secs = secs; nanos = nanos }))) result }
{
    send(
        parts::as_secs(Duration { secs, nanos }).map(Words::from),
        out,
    )
}

#[unsafe(no_mangle)]
pub extern "C" fn salt_subsec_millis(secs: u64, nanos: u32, out: &mut [u8]) -> u32
    ensures { Replied out.old out.new (word_reply (subsec (10 ^ 6) (record { secs = secs; nanos = nanos }))) result }
{
    send(
        parts::subsec_millis(Duration { secs, nanos }).map(Words::from),
        out,
    )
}

#[unsafe(no_mangle)]
pub extern "C" fn salt_subsec_micros(secs: u64, nanos: u32, out: &mut [u8]) -> u32
    ensures { Replied out.old out.new (word_reply (subsec (10 ^ 3) (record { secs = secs; nanos = nanos }))) result }
{
    send(
        parts::subsec_micros(Duration { secs, nanos }).map(Words::from),
        out,
    )
}

#[unsafe(no_mangle)]
pub extern "C" fn salt_subsec_nanos(secs: u64, nanos: u32, out: &mut [u8]) -> u32
    ensures { Replied out.old out.new (word_reply (subsec 1 (record { secs = secs; nanos = nanos }))) result }
{
    send(
        parts::subsec_nanos(Duration { secs, nanos }).map(Words::from),
        out,
    )
}

#[unsafe(no_mangle)]
pub extern "C" fn salt_as_millis(secs: u64, nanos: u32, out: &mut [u8]) -> u32
    ensures { Replied out.old out.new (wide_reply (count (10 ^ 6) (record { secs = secs; nanos = nanos }))) result }
{
    send(
        parts::as_millis(Duration { secs, nanos }).map(Words::from),
        out,
    )
}

#[unsafe(no_mangle)]
pub extern "C" fn salt_as_micros(secs: u64, nanos: u32, out: &mut [u8]) -> u32
    ensures { Replied out.old out.new (wide_reply (count (10 ^ 3) (record { secs = secs; nanos = nanos }))) result }
{
    send(
        parts::as_micros(Duration { secs, nanos }).map(Words::from),
        out,
    )
}

#[unsafe(no_mangle)]
pub extern "C" fn salt_as_nanos(secs: u64, nanos: u32, out: &mut [u8]) -> u32
    ensures { Replied out.old out.new (wide_reply (count 1 (record { secs = secs; nanos = nanos }))) result }
{
    send(
        parts::as_nanos(Duration { secs, nanos }).map(Words::from),
        out,
    )
}

#[unsafe(no_mangle)]
pub extern "C" fn salt_is_zero(secs: u64, nanos: u32, out: &mut [u8]) -> u32
    ensures { Replied out.old out.new (flag_reply (is_zero (record { secs = secs; nanos = nanos }))) result }
{
    send(
        parts::is_zero(Duration { secs, nanos }).map(Words::from),
        out,
    )
}

#[unsafe(no_mangle)]
pub extern "C" fn salt_cmp(secs: u64, nanos: u32, secs2: u64, nanos2: u32, out: &mut [u8]) -> u32
    ensures { Replied out.old out.new (order_reply (compared (record { secs = secs; nanos = nanos }) (record { secs = secs2; nanos = nanos2 }))) result }
{
    let a = Duration { secs, nanos };
    let b = Duration {
        secs: secs2,
        nanos: nanos2,
    };
    send(parts::cmp(a, b).map(Words::from), out)
}
