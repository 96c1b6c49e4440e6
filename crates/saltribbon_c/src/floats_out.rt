// The exports that answer with a float.
ghost use Rattle.std.specs.Prelude.{◌&&◌};
ghost use Rattle.std.specs.Float.{binary32, binary64};
ghost use Rattle.duration.specs.Meaning.{valid};
ghost use Rattle.seconds.specs.Out.{seconds_as, millis_as, quotient_as, float_if};
ghost use Rattle.reply.specs.Reply.{Replied, f32_reply, f64_reply};

#[unsafe(no_mangle)]
pub extern "C" fn salt_as_secs_f64(secs: u64, nanos: u32, out: &mut [u8]) -> u32
    ensures { Replied out.old out.new (f64_reply (float_if (valid (record { secs = secs; nanos = nanos })) (seconds_as binary64 (record { secs = secs; nanos = nanos })))) result }
{
    saltribbon::floats_out::salt_as_secs_f64(secs, nanos, out)
}

#[unsafe(no_mangle)]
pub extern "C" fn salt_as_secs_f32(secs: u64, nanos: u32, out: &mut [u8]) -> u32
    ensures { Replied out.old out.new (f32_reply (float_if (valid (record { secs = secs; nanos = nanos })) (seconds_as binary32 (record { secs = secs; nanos = nanos })))) result }
{
    saltribbon::floats_out::salt_as_secs_f32(secs, nanos, out)
}

#[unsafe(no_mangle)]
pub extern "C" fn salt_as_millis_f64(secs: u64, nanos: u32, out: &mut [u8]) -> u32
    ensures { Replied out.old out.new (f64_reply (float_if (valid (record { secs = secs; nanos = nanos })) (millis_as binary64 (record { secs = secs; nanos = nanos })))) result }
{
    saltribbon::floats_out::salt_as_millis_f64(secs, nanos, out)
}

#[unsafe(no_mangle)]
pub extern "C" fn salt_as_millis_f32(secs: u64, nanos: u32, out: &mut [u8]) -> u32
    ensures { Replied out.old out.new (f32_reply (float_if (valid (record { secs = secs; nanos = nanos })) (millis_as binary32 (record { secs = secs; nanos = nanos })))) result }
{
    saltribbon::floats_out::salt_as_millis_f32(secs, nanos, out)
}

#[unsafe(no_mangle)]
pub extern "C" fn salt_div_duration_f64(
    secs: u64,
    nanos: u32,
    secs2: u64,
    nanos2: u32,
    out: &mut [u8],
) -> u32
    ensures { Replied out.old out.new (f64_reply (float_if (valid (record { secs = secs; nanos = nanos }) && valid (record { secs = secs2; nanos = nanos2 })) (quotient_as binary64 (record { secs = secs; nanos = nanos }) (record { secs = secs2; nanos = nanos2 })))) result }
{
    saltribbon::floats_out::salt_div_duration_f64(secs, nanos, secs2, nanos2, out)
}

#[unsafe(no_mangle)]
pub extern "C" fn salt_div_duration_f32(
    secs: u64,
    nanos: u32,
    secs2: u64,
    nanos2: u32,
    out: &mut [u8],
) -> u32
    ensures { Replied out.old out.new (f32_reply (float_if (valid (record { secs = secs; nanos = nanos }) && valid (record { secs = secs2; nanos = nanos2 })) (quotient_as binary32 (record { secs = secs; nanos = nanos }) (record { secs = secs2; nanos = nanos2 })))) result }
{
    saltribbon::floats_out::salt_div_duration_f32(secs, nanos, secs2, nanos2, out)
}
