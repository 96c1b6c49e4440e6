// The rounding step: a fraction to fewer digits, half to even.
ghost use Rattle.std.specs.Prelude.{◌≡◌, ◌+◌, ◌*◌, ◌/◌, ◌-◌, ◌^◌, ◌<◌};
ghost use Rattle.std.specs.Int.{from_bool};
ghost use Rattle.text.specs.Parts.{IsFraction, nearest_to, Bumps, Rounds};

use crate::fraction::Fraction;
use crate::unit::Amount;

// A rounded fraction, and whether one is carried into the whole part.
#[derive(Clone, Copy)]
pub struct Rounded {
    pub fraction: Fraction,
    pub carry: bool,
}

// Whether rounding a, whose fraction is f, to q digits adds one to the last digit that is kept.
#[tactic(auto, using(crate::proofs::Rounding::by_high, crate::proofs::Rounding::by_more, crate::proofs::Rounding::by_whole, crate::proofs::Rounding::by_last))]
fn goes_up(a: Amount, f: Fraction, q: usize) -> bool
    requires { (q < 9) × IsFraction a.part f }
    ensures { a.whole * 10 ^ q + a.part / 10 ^ (9 - q) + from_bool result ≡ nearest_to q a.whole a.part }
{
    let digits = f.digits;
    let next = digits[q];
    if f.count <= q || next < b'5' {
        return false;
    }
    if b'5' < next || q + 1 < f.count {
        return true;
    }
    if q == 0 {
        return a.whole % 2 == 1;
    }
    digits[q - 1] % 2 == 1
}

// Adds one to the number whose decimal digits are d; whether that carries one out of them.
#[tactic(auto, using(crate::proofs::Carrying::carry_start, crate::proofs::Carrying::carry_step, crate::proofs::Carrying::carry_stop, crate::proofs::Carrying::carry_end))]
fn bump(d: &mut [u8]) -> bool
    ensures { Bumps d.old d.new result }
{
    for i in (0..d.len()).rev() {
        if d[i] < b'9' {
            d[i] += 1;
            return false;
        }
        d[i] = b'0';
    }
    true
}

// a, whose fraction is f, to q digits.
pub fn round(a: Amount, f: Fraction, q: usize) -> Rounded
    requires { (q < 9) × IsFraction a.part f }
    ensures { Rounds a.whole a.part q result }
{
    let mut digits = f.digits;
    let carry = goes_up(a, f, q) && bump(&mut digits[..q]);
    Rounded {
        fraction: Fraction { digits, count: q },
        carry,
    }
}
