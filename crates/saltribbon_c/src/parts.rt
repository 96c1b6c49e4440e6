// The exports that read a duration.
ghost use Rattle.std.specs.Prelude.{◌^◌};
ghost use Rattle.duration.specs.Parts.{whole_secs, subsec, count, is_zero, compared};
ghost use Rattle.reply.specs.Reply.{Replied, wide_reply, word_reply, flag_reply, order_reply};

#[unsafe(no_mangle)]
pub extern "C" fn salt_as_secs(secs: u64, nanos: u32, out: &mut [u8]) -> u32
    ensures { Replied out.old out.new (word_reply (whole_secs (record { secs = secs; nanos = nanos }))) result }
{
    saltribbon::parts::salt_as_secs(secs, nanos, out)
}

#[unsafe(no_mangle)]
pub extern "C" fn salt_subsec_millis(secs: u64, nanos: u32, out: &mut [u8]) -> u32
    ensures { Replied out.old out.new (word_reply (subsec (10 ^ 6) (record { secs = secs; nanos = nanos }))) result }
{
    saltribbon::parts::salt_subsec_millis(secs, nanos, out)
}

#[unsafe(no_mangle)]
pub extern "C" fn salt_subsec_micros(secs: u64, nanos: u32, out: &mut [u8]) -> u32
    ensures { Replied out.old out.new (word_reply (subsec (10 ^ 3) (record { secs = secs; nanos = nanos }))) result }
{
    saltribbon::parts::salt_subsec_micros(secs, nanos, out)
}

#[unsafe(no_mangle)]
pub extern "C" fn salt_subsec_nanos(secs: u64, nanos: u32, out: &mut [u8]) -> u32
    ensures { Replied out.old out.new (word_reply (subsec 1 (record { secs = secs; nanos = nanos }))) result }
{
    saltribbon::parts::salt_subsec_nanos(secs, nanos, out)
}

#[unsafe(no_mangle)]
pub extern "C" fn salt_as_millis(secs: u64, nanos: u32, out: &mut [u8]) -> u32
    ensures { Replied out.old out.new (wide_reply (count (10 ^ 6) (record { secs = secs; nanos = nanos }))) result }
{
    saltribbon::parts::salt_as_millis(secs, nanos, out)
}

#[unsafe(no_mangle)]
pub extern "C" fn salt_as_micros(secs: u64, nanos: u32, out: &mut [u8]) -> u32
    ensures { Replied out.old out.new (wide_reply (count (10 ^ 3) (record { secs = secs; nanos = nanos }))) result }
{
    saltribbon::parts::salt_as_micros(secs, nanos, out)
}

#[unsafe(no_mangle)]
pub extern "C" fn salt_as_nanos(secs: u64, nanos: u32, out: &mut [u8]) -> u32
    ensures { Replied out.old out.new (wide_reply (count 1 (record { secs = secs; nanos = nanos }))) result }
{
    saltribbon::parts::salt_as_nanos(secs, nanos, out)
}

#[unsafe(no_mangle)]
pub extern "C" fn salt_is_zero(secs: u64, nanos: u32, out: &mut [u8]) -> u32
    ensures { Replied out.old out.new (flag_reply (is_zero (record { secs = secs; nanos = nanos }))) result }
{
    saltribbon::parts::salt_is_zero(secs, nanos, out)
}

#[unsafe(no_mangle)]
pub extern "C" fn salt_cmp(secs: u64, nanos: u32, secs2: u64, nanos2: u32, out: &mut [u8]) -> u32
    ensures { Replied out.old out.new (order_reply (compared (record { secs = secs; nanos = nanos }) (record { secs = secs2; nanos = nanos2 }))) result }
{
    saltribbon::parts::salt_cmp(secs, nanos, secs2, nanos2, out)
}
