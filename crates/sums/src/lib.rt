// The sum of rows that are lent as two slices, from any first row up to any end row.
#![tactic(auto)]

ghost use Rattle.std.specs.Prelude.{◌≡◌};
ghost use Rattle.sums.specs.Sum.{sum_of, bytes_sum};

use duration::Duration;
use refusal::Refusal;

mod blocks;
mod run;
mod word;

// Rows as numbers. Document 01 has them lent as two slices.
pub fn sum(secs: &[u64], nanos: &[u32], first: usize, end: usize) -> Result<Duration, Refusal>
    ensures { result ≡ sum_of secs.now nanos.now first end }
{
    blocks::part(secs, nanos, first, end)
}

// Rows as bytes, the lowest first: eight of seconds and four of nanoseconds for each.
#[tactic(auto, using(crate::proofs::Words::decoded_chunks), unfolding(crate::specs::Sum::bytes_sum, crate::specs::Sum::whole_rows))]
pub fn sum_bytes(secs: &[u8], nanos: &[u8], first: usize, end: usize) -> Result<Duration, Refusal>
    ensures { result ≡ bytes_sum secs.now nanos.now first end }
{
    let (secs, odd_secs) = secs.as_chunks::<8>();
    let (nanos, odd_nanos) = nanos.as_chunks::<4>();
    if !odd_secs.is_empty() || !odd_nanos.is_empty() {
        return Err(Refusal::BadRange);
    }
    blocks::part(secs, nanos, first, end)
}
