// The C function of the sum: rows as bytes, eight of seconds and four of nanoseconds for each, the lowest first.
ghost use Rattle.sums.specs.Sum.{bytes_sum};
ghost use Rattle.reply.specs.Reply.{Replied, duration_reply};

use reply::{Words, send};

#[unsafe(no_mangle)]
pub extern "C" fn salt_sum(secs: &[u8], nanos: &[u8], first: u64, end: u64, out: &mut [u8]) -> u32
    ensures { Replied out.old out.new (duration_reply (bytes_sum secs.now nanos.now first end)) result }
{
    send(
        sums::sum_bytes(secs, nanos, first as usize, end as usize).map(Words::from),
        out,
    )
}
