// The export of the sum.
ghost use Rattle.sums.specs.Sum.{bytes_sum};
ghost use Rattle.reply.specs.Reply.{Replied, duration_reply};

#[unsafe(no_mangle)]
pub extern "C" fn salt_sum(secs: &[u8], nanos: &[u8], first: u64, end: u64, out: &mut [u8]) -> u32
    ensures { Replied out.old out.new (duration_reply (bytes_sum secs.now nanos.now first end)) result }
{
    saltribbon::sum::salt_sum(secs, nanos, first, end, out)
}
