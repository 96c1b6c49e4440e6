// Division by two words: the quotient is one word, of one or two digits of 32 bits.
ghost use Rattle.std.specs.Prelude.{◌≡◌, ◌+◌, ◌*◌, ◌^◌, ◌<◌, ◌≤◌};

use super::Step;

// The base of a half word.
const HALF: u128 = 0x1_0000_0000;

// q * d + r, divided by d, for an r below 3 * d.
fn settle(q: u128, r: u128, d: u128) -> Step
    requires { (q < 2 ^ 32) × (r < d * 3) }
    ensures { (result.q * d + result.r ≡ q * d + r) × (result.r < d) }
{
    if r < d {
        return Step { q, r };
    }
    let once = r - d;
    if once < d {
        return Step { q: q + 1, r: once };
    }
    Step {
        q: q + 2,
        r: once - d,
    }
}

// x by d, where the quotient is half a word. The estimate is that of `short::estimate`, whose bound holds here too: q is at most
// 2 too small, and what it leaves of x is below 3 * d.
#[tactic(auto, using(crate::proofs::Estimate::zeros_few, crate::proofs::Estimate::units_fit, crate::proofs::Estimate::divisor_fits, crate::proofs::Estimate::digit_lt, crate::proofs::Estimate::not_above, crate::proofs::Estimate::few_left))]
fn digit(x: u128, d: u128) -> Step
    requires { (2 ^ 64 ≤ d) × (x < d * 2 ^ 32) }
    ensures { (result.q * d + result.r ≡ x) × (result.r < d) }
{
    let k = 96 - d.leading_zeros();
    let n = (x >> k) as u64;
    let m = (d >> k) as u64;
    let q = (n / (m + 1)) as u128;
    settle(q, x - q * d, d)
}

// n by d: no digit where n is the shorter, one where what n has above its last 32 bits is below d, and else two. Lengths tell which,
// since of two numbers as long the smaller is not to be foretold.
#[tactic(auto, using(crate::proofs::Estimate::shorter))]
pub fn by_words(n: u128, d: u128) -> Step
    requires { 2 ^ 64 ≤ d }
    ensures { (result.q * d + result.r ≡ n) × (result.r < d) }
{
    let (high, over) = ((n >> 64) as u64, (d >> 64) as u64);
    if over.leading_zeros() < high.leading_zeros() {
        return Step { q: 0, r: n };
    }
    let above = n >> 32;
    if above < d {
        return digit(n, d);
    }
    let x = digit(above, d);
    let y = digit((x.r << 32) + n % HALF, d);
    Step {
        q: x.q * HALF + y.q,
        r: y.r,
    }
}
