// The digit step: the digits of a fraction, and how many of them are in use.
ghost use Rattle.std.specs.Prelude.{◌≡◌, ◌≢◌, ℕ, ◌-◌, ◌*◌, ◌^◌, ◌≤◌, ◌<◌, length, slice_index};

use crate::digits::put_digits;
use crate::unit::Amount;

// Nine digits, and how many of them are in use: one record, as document 01 has it.
#[derive(Clone, Copy)]
pub struct Fraction {
    pub digits: [u8; 9],
    pub count: usize,
    ghost used: { count ≤ 9 },
}

// How many digits stand before the zeros at the end. Not inlined, so that the digits stay in memory: in registers each is moved alone.
#[inline(never)]
fn count_used(digits: &[u8]) -> usize
    ensures within { result ≤ length digits.now }
    ensures zeros { (k : ℕ) → result ≤ k → k < length digits.now → slice_index digits.now k ≡ 48 }
    ensures last { 0 < result → slice_index digits.now (result - 1) ≢ 48 }
{
    digits.iter().rposition(|b| *b != b'0').map_or(0, |i| i + 1)
}

impl Fraction {
    ghost use Rattle.text.specs.Parts.{IsFraction};

    // n in k digits, and zeros behind them. Inlined, so that k is known.
    #[inline(always)]
    fn of_digits(n: u32, k: usize) -> Fraction
        requires { k ≤ 9 }
        ensures { IsFraction (n * 10 ^ (9 - k)) result }
    {
        let mut digits = [b'0'; 9];
        put_digits(&mut digits[..k], n as u64);
        let count = count_used(&digits[..k]);
        Fraction { digits, count }
    }

    // The digits of the billionths. Milliseconds end in three zeros and microseconds in six: these go at once.
    #[tactic(auto, using(crate::proofs::Places::as_part), unfolding(crate::specs::Digits::ending_digits, crate::specs::Digits::least, crate::specs::Text::exact_places))]
    pub fn of(a: Amount) -> Fraction
        ensures { IsFraction a.part result }
    {
        let part = a.part;
        if part == 0 {
            let digits = [b'0'; 9];
            return Fraction { digits, count: 0 };
        }
        if part % 1_000_000 == 0 {
            return Fraction::of_digits(part / 1_000_000, 3);
        }
        if part % 1_000 == 0 {
            return Fraction::of_digits(part / 1_000, 6);
        }
        Fraction::of_digits(part, 9)
    }
}
