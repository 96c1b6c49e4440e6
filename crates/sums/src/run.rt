// A sum that carries late: the rows of a block are added with no carry, and each block is then carried into the total.
ghost use Rattle.std.specs.Prelude.{◌^◌, ◌<◌, ◌≡◌, length, List, [], ◌∷◌, ◌++◌};
ghost use Rattle.duration.specs.declared.Duration.{Duration};
ghost use Rattle.sums.specs.Sum.{sum_answer};
ghost use Rattle.sums.specs.Runs.{Sums, Short, Totals};

use duration::Duration;
use refusal::Refusal;

// The sums of a block's rows, with no carry.
#[derive(Clone, Copy)]
pub struct Block {
    // The sum of the seconds wraps, and that of their high halves tells how often.
    secs: u64,
    high: u64,
    nanos: u64,
    // The largest nanoseconds of a row: a flag for a bad row takes half as long again.
    largest: u32,
}

impl Block {
    // The sums of no rows.
    pub const NONE: Block = Block {
        secs: 0,
        high: 0,
        nanos: 0,
        largest: 0,
    };

    // With one row more.
    pub fn add(self, secs: u64, nanos: u32) -> Block
        requires { Short self }
        ensures { (ds : List Duration) → length ds < 65536 → Sums ds self → Sums (ds ++ record { secs = secs; nanos = nanos } ∷ []) result }
    {
        Block {
            secs: self.secs.wrapping_add(secs),
            high: self.high + (secs >> 32),
            nanos: self.nanos + nanos as u64,
            largest: self.largest.max(nanos),
        }
    }
}

// The total of all blocks so far, carried, and whether each row is a duration.
#[derive(Clone, Copy)]
pub struct Total {
    secs: u128,
    nanos: u32,
    valid: bool,
}

impl Total {
    // The total of no rows.
    pub const NONE: Total = Total {
        secs: 0,
        nanos: 0,
        valid: true,
    };

    // With one block more. The sum of the low halves is what the wrapped sum has beyond the high ones.
    pub fn join(self, block: Block) -> Total
        requires room { self.secs < 2 ^ 127 }
        requires short { Short block }
        ensures { (ds es : List Duration) → Totals ds self → Sums es block → Totals (ds ++ es) result }
    {
        let high = (block.high as u128) << 32;
        let low = block.secs.wrapping_sub(block.high << 32);
        let nanos = self.nanos as u64 + block.nanos;
        let carry = nanos / 1_000_000_000;
        Total {
            secs: self.secs + high + low as u128 + carry as u128,
            nanos: (nanos % 1_000_000_000) as u32,
            valid: self.valid && block.largest < 1_000_000_000,
        }
    }

    // The answer of a whole sum: a bad row comes before an overflow.
    pub fn answer(self) -> Result<Duration, Refusal>
        ensures { (ds : List Duration) → Totals ds self → result ≡ sum_answer ds }
    {
        if !self.valid {
            return Err(Refusal::BadRow);
        }
        let secs = u64::try_from(self.secs).map_err(|_| Refusal::Overflow)?;
        Ok(Duration {
            secs,
            nanos: self.nanos,
        })
    }
}
