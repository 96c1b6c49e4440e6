// Two-word arithmetic: a number below 2^128 as a high and a low word of 64 bits. Every function here answers for every input.
#![tactic(auto, unfolding(crate::specs::Wide::wide, crate::specs::Wide::words, crate::specs::Wide::answer, crate::specs::Wide::difference, crate::specs::Wide::division))]

ghost use Rattle.std.specs.Prelude.{◌≡◌, ◌+◌, ◌*◌, ◌/◌, ◌^◌, ◌<◌};
ghost use Rattle.std.specs.Ordering.{nat_cmp};
ghost use Rattle.wide.specs.Wide.{wide, words, answer, difference, division};

use refusal::Refusal;
use std::cmp::Ordering;

mod long; // division by two words
mod short; // division by one word

// Two words of a number, compared as the number is: document 01's two-word number goes in and comes out, and u128 does the work.
#[derive(Clone, Copy, Debug, PartialEq, Eq, PartialOrd, Ord)]
pub struct Wide {
    pub hi: u64,
    pub lo: u64,
}

#[derive(Clone, Copy, Debug, PartialEq, Eq)]
pub struct Division {
    pub quotient: Wide,
    pub remainder: Wide,
}

impl From<u128> for Wide {
    ghost from_gives = { λ n w. w ≡ words n };

    fn from(n: u128) -> Wide {
        Wide {
            hi: (n >> 64) as u64,
            lo: (n % 0x1_0000_0000_0000_0000) as u64,
        }
    }
}

impl From<Wide> for u128 {
    ghost from_gives = { λ w n. n ≡ wide w };

    fn from(w: Wide) -> u128 {
        ((w.hi as u128) << 64) + w.lo as u128
    }
}

// a * b, exactly.
pub fn widening_mul(a: u64, b: u64) -> Wide
    ensures { result ≡ words (a * b) }
{
    Wide::from(a as u128 * b as u128)
}

// a * b + c, which always fits two words.
pub fn scaled(a: u64, b: u32, c: u32) -> Wide
    ensures { result ≡ words (a * b + c) }
{
    Wide::from(a as u128 * b as u128 + c as u128)
}

// x * y. Two numbers of two words each always have a product of more. Both are asked at once, since two tests one after the other
// would be a branch that is not to be foretold.
#[tactic(auto, using(crate::proofs::Products::both_long), unfolding(crate::specs::Wide::wide, crate::specs::Wide::answer))]
pub fn mul(x: Wide, y: Wide) -> Result<Wide, Refusal>
    ensures { result ≡ answer (wide x * wide y) }
{
    if (0 < x.hi) & (0 < y.hi) {
        return Err(Refusal::Overflow);
    }
    let product = u128::from(x).checked_mul(u128::from(y));
    Ok(Wide::from(product.ok_or(Refusal::Overflow)?))
}

// x + y.
pub fn add(x: Wide, y: Wide) -> Result<Wide, Refusal>
    ensures { result ≡ answer (wide x + wide y) }
{
    let sum = u128::from(x).checked_add(u128::from(y));
    Ok(Wide::from(sum.ok_or(Refusal::Overflow)?))
}

// x - y.
pub fn sub(x: Wide, y: Wide) -> Result<Wide, Refusal>
    ensures { result ≡ difference (wide x) (wide y) }
{
    let rest = u128::from(x).checked_sub(u128::from(y));
    Ok(Wide::from(rest.ok_or(Refusal::Underflow)?))
}

// The order of x and y.
pub fn compare(x: Wide, y: Wide) -> Ordering
    ensures { result ≡ nat_cmp (wide x) (wide y) }
{
    u128::from(x).cmp(&u128::from(y))
}

// x * 2^n, where x has room for it. Zero has room for any shift.
#[tactic(auto, using(crate::proofs::Shifts::shl_fits, crate::proofs::Shifts::shl_over), unfolding(crate::specs::Wide::wide, crate::specs::Wide::words, crate::specs::Wide::answer))]
pub fn shl(x: Wide, n: u32) -> Result<Wide, Refusal>
    ensures { result ≡ answer (wide x * 2 ^ n) }
{
    let number = u128::from(x);
    if number == 0 {
        return Ok(x);
    }
    if number.leading_zeros() < n {
        return Err(Refusal::Overflow);
    }
    Ok(Wide::from(number << n))
}

// x / 2^n, rounded down. Nothing is left from 128 places on: by a product, since of an `if` the compiler makes a branch, and how far a
// shift goes is not to be foretold.
#[tactic(auto, using(crate::proofs::Shifts::shr_kept, crate::proofs::Shifts::shr_none), unfolding(crate::specs::Wide::wide, crate::specs::Wide::words))]
pub fn shr(x: Wide, n: u32) -> Wide
    ensures { result ≡ words (wide x / 2 ^ n) }
{
    let down = u128::from(x) >> (n % 128);
    Wide::from(down * (n < 128) as u128)
}

// A quotient, and what it leaves.
#[derive(Clone, Copy)]
struct Step {
    q: u128,
    r: u128,
}

// n by d. A d of two words and one of one have each their own way. Neither is std's `/` of two u128s: that is a call of a routine of
// the compiler's, which the archives for C would need from outside.
fn divided(n: Wide, d: Wide) -> Step
    requires { 0 < wide d }
    ensures { (result.q * wide d + result.r ≡ wide n) × (result.r < wide d) }
{
    if 0 < d.hi {
        return long::by_words(u128::from(n), u128::from(d));
    }
    short::by_word(n.hi, n.lo, d.lo)
}

// n by d, with remainder.
#[tactic(auto, using(crate::proofs::Quotient::division_is, crate::proofs::Quotient::no_division), unfolding(crate::specs::Wide::wide))]
pub fn div(n: Wide, d: Wide) -> Result<Division, Refusal>
    ensures { result ≡ division (wide n) (wide d) }
{
    if d.hi == 0 && d.lo == 0 {
        return Err(Refusal::ZeroDivisor);
    }
    let s = divided(n, d);
    Ok(Division {
        quotient: Wide::from(s.q),
        remainder: Wide::from(s.r),
    })
}
