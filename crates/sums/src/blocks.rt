// The sum of rows that are lent as two slices, seconds and nanoseconds, in blocks that need no carry within.
ghost use Rattle.std.specs.Prelude.{◌≡◌, ◌^◌, ◌≤◌, ◌<◌, length, map};
ghost use Rattle.sums.specs.Sum.{rows, sum_answer, sum_of};
ghost use Rattle.sums.specs.Runs.{Sums};

use crate::run::{Block, Total};
use crate::word::Word;
use duration::Duration;
use refusal::Refusal;

// The rows of a whole block.
const BLOCK: usize = 65_536;

// The sums of one block. Document 01 names the reads by index, and a `zip` of the two slices is slower for few rows.
#[tactic(auto, using(crate::proofs::Runs::sums_none, crate::proofs::Runs::short), unfolding(crate::specs::Sum::rows))]
fn sums_of<S: Word<u64>, N: Word<u32>>(secs: &[S], nanos: &[N]) -> Block
    requires same { length secs.now ≡ length nanos.now }
    requires few { length secs.now ≤ BLOCK }
    ensures { Sums (rows (map S.number secs.now) (map N.number nanos.now)) result }
{
    let mut block = Block::NONE;
    for i in 0..secs.len() {
        block = block.add(secs[i].read(), nanos[i].read());
    }
    block
}

// The sum of all rows.
#[tactic(auto, using(crate::proofs::Runs::short, crate::proofs::Chunks::passed_none))]
fn all_rows<S: Word<u64>, N: Word<u32>>(secs: &[S], nanos: &[N]) -> Result<Duration, Refusal>
    requires same { length secs.now ≡ length nanos.now }
    requires room { length secs.now < 2 ^ 62 }
    ensures { result ≡ sum_answer (rows (map S.number secs.now) (map N.number nanos.now)) }
{
    let mut total = Total::NONE;
    for (secs, nanos) in secs.chunks(BLOCK).zip(nanos.chunks(BLOCK)) {
        total = total.join(sums_of(secs, nanos));
    }
    total.answer()
}

// The sum of the rows from first up to end: parts of both slices, as document 01 names them, go to the sum of all their rows.
#[tactic(auto, unfolding(crate::specs::Sum::sum_of, crate::specs::Sum::within))]
pub fn part<S: Word<u64>, N: Word<u32>>(
    secs: &[S],
    nanos: &[N],
    first: usize,
    end: usize,
) -> Result<Duration, Refusal>
    requires { length secs.now < 2 ^ 62 }
    ensures { result ≡ sum_of (map S.number secs.now) (map N.number nanos.now) first end }
{
    if secs.len() != nanos.len() {
        return Err(Refusal::BadRange);
    }
    let secs = secs.get(first..end).ok_or(Refusal::BadRange)?;
    let nanos = nanos.get(first..end).ok_or(Refusal::BadRange)?;
    all_rows(secs, nanos)
}
