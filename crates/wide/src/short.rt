// Division by one word, in digits of 32 bits: long division with two of them.
ghost use Rattle.std.specs.Prelude.{◌≡◌, ◌+◌, ◌*◌, ◌^◌, ◌<◌, ◌≤◌};

// The base of a half word.
const HALF: u64 = 0x1_0000_0000;

use super::Step;

// A quotient and a remainder that each fit one word.
#[derive(Clone, Copy)]
struct Digit {
    q: u64,
    r: u64,
}

// A power of two, p, and the one that makes 2^32 of it.
#[derive(Clone, Copy)]
struct Unit {
    p: u64,
    up: u64,
}

// r with d taken out once, where r holds it, and counted in q.
fn trim(q: u64, r: u64, d: u64) -> Digit
    requires { (q < 2 ^ 63) × (r < d * 2) }
    ensures { (result.q * d + result.r ≡ q * d + r) × (result.r < d) × (result.q ≤ q + 1) }
{
    if r < d {
        return Digit { q, r };
    }
    Digit { q: q + 1, r: r - d }
}

// q * d + a + b, divided by d. The sum a + b may pass a word, so each is brought below d first, and then added to the room that
// the other leaves below d.
fn settle(q: u64, a: u64, b: u64, d: u64) -> Digit
    requires { (q < 2 ^ 32) × (a < d * 2) × (b < d * 2) }
    ensures { (result.q * d + result.r ≡ q * d + (a + b)) × (result.r < d) }
{
    let x = trim(q, a, d);
    let y = trim(x.q, b, d);
    let room = d - y.r;
    if x.r < room {
        return Digit {
            q: y.q,
            r: x.r + y.r,
        };
    }
    Digit {
        q: y.q + 1,
        r: x.r - room,
    }
}

// The unit in which d has 32 bits. Both are made by shifts of 1, so that the compiler makes shifts of what multiplies or divides
// by them.
fn unit_of(d: u64) -> Unit
    requires { 2 ^ 32 ≤ d }
    ensures { (result.p * result.up ≡ 2 ^ 32) × (result.p * 2 ^ 31 ≤ d) × (d < result.p * 2 ^ 32) }
{
    let k = 32 - d.leading_zeros();
    Unit {
        p: 1 << k,
        up: 1 << (32 - k),
    }
}

// One digit of 32 bits: h * 2^32 + l by d, in units of p. One machine division by d's top 32 bits, rounded up, gives a q that is
// never too large, so that nothing is ever taken back. What q leaves is a, q times what the rounding added to d, and b, the rest
// of that division: no product passes a word, and d itself is never multiplied.
fn estimate(h: u64, l: u64, d: u64, p: u64, up: u64) -> Digit
    requires { (p * up ≡ 2 ^ 32) × (p * 2 ^ 31 ≤ d) × (d < p * 2 ^ 32) × (h < d) × (l < 2 ^ 32) }
    ensures { (result.q * d + result.r ≡ h * 2 ^ 32 + l) × (result.r < d) }
{
    let m = d / p + 1;
    let n = h * up + l / p;
    let q = n / m;
    let a = q * (p - d % p);
    let b = n % m * p + l % p;
    settle(q, a, b, d)
}

// h * 2^32 + l by d. While h is half a word the number is a word, and the machine divides it: for a d of half a word it always
// is, so that `estimate` never sees one. A first digit is often 0, and a test is faster than the machine's division.
fn next(h: u64, l: u64, d: u64) -> Digit
    requires { (h < d) × (l < 2 ^ 32) }
    ensures { (result.q * d + result.r ≡ h * 2 ^ 32 + l) × (result.r < d) }
{
    if h < HALF {
        let n = h * HALF + l;
        if n < d {
            return Digit { q: 0, r: n };
        }
        return Digit { q: n / d, r: n % d };
    }
    let u = unit_of(d);
    estimate(h, l, d, u.p, u.up)
}

// h * 2^64 + l by d, where the quotient is one word: two digits.
fn two_digits(h: u64, l: u64, d: u64) -> Digit
    requires { h < d }
    ensures { (result.q * d + result.r ≡ h * 2 ^ 64 + l) × (result.r < d) }
{
    let x = next(h, l / HALF, d);
    let y = next(x.r, l % HALF, d);
    Digit {
        q: x.q * HALF + y.q,
        r: y.r,
    }
}

// h * 2^64 + l by d. The tests spare the machine divisions that would give 0.
#[tactic(auto, using(crate::proofs::Quotient::carried_is))]
pub fn by_word(h: u64, l: u64, d: u64) -> Step
    requires { 0 < d }
    ensures { (result.q * d + result.r ≡ h * 2 ^ 64 + l) × (result.r < d) }
{
    if h == 0 {
        return Step {
            q: (l / d) as u128,
            r: (l % d) as u128,
        };
    }
    if h < d {
        let s = two_digits(h, l, d);
        return Step {
            q: s.q as u128,
            r: s.r as u128,
        };
    }
    let s = two_digits(h % d, l, d);
    Step {
        q: (h / d) as u128 * 0x1_0000_0000_0000_0000 + s.q as u128,
        r: s.r as u128,
    }
}
