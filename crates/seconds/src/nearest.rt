// The parts that the floats nearest to whole numbers are made of, in one rounding each: an f32 by way of an f64 would be rounded twice.
ghost use Rattle.std.specs.Prelude.{◌≡◌, ◌+◌, ◌*◌, ◌^◌, ◌<◌, ◌≤◌, if◌then◌else◌, nat_lt};
ghost use Rattle.std.specs.Float.{binary32, binary64};
ghost use Rattle.seconds.specs.Out.{whole};

// t * 2^place exactly: the digits below a float of exponent 52 + place count in 2^place, and the float itself is taken off again.
// Std's `nearest_u64_to_f64` misses a bar of speed: by it div_duration_f64 takes 1.55 of the Rust's time, and by this 0.72. `f64::from`
// would leave this function for the u64, and takes as_secs_f64 from 0.60 to 1.09: on x86 it waits for what its register held.
#[tactic(auto, using(std::proofs::lemmas::Float::not_nan_f64_bits, crate::proofs::Placed::placed_is))]
pub fn placed_f64(t: u64, place: u64) -> f64
    requires { (t < 2 ^ 52) × (place ≤ 32) }
    ensures { result ≡ whole binary64 (t * 2 ^ place) }
{
    let unit = (1075 + place) * 0x10_0000_0000_0000;
    f64::from_bits(unit + t) - f64::from_bits(unit)
}

// t * 2^place exactly, by the same way. One function for both widths would take two constants, a type of bits and a difference from
// the trait, in more lines than it saves.
#[tactic(auto, using(std::proofs::lemmas::Float::not_nan_f32_bits, crate::proofs::Placed::placed_is))]
fn placed_f32(t: u64, place: u64) -> f32
    requires { (t < 2 ^ 23) × (place ≤ 23) }
    ensures { result ≡ whole binary32 (t * 2 ^ place) }
{
    let unit = (150 + place) * 0x80_0000;
    f32::from_bits((unit + t) as u32) - f32::from_bits(unit as u32)
}

// Only the sum of the halves rounds. Std's `nearest_u64_to_f32` misses a bar: by it as_secs_f32 takes 2.06 of the Rust's time, by this 0.82.
#[tactic(auto, using(crate::proofs::Operations::f32_halves))]
pub fn halves_f32(m: u64) -> f32
    requires { m < 2 ^ 46 }
    ensures { result ≡ whole binary32 m }
{
    placed_f32(m / 0x80_0000, 23) + placed_f32(m % 0x80_0000, 0)
}

// From here on the last 18 bits count only as zero or not.
const LONG: u64 = 0x4000_0000_0000;

// The bits of what the last digit that counts stands for, 1.0 or 2^18: a choice of integers is no branch, as one of floats is.
pub fn power(n: u64) -> u32
    ensures { result ≡ (127 + (if nat_lt n (2 ^ 46) then 0 else 18)) * 2 ^ 23 }
{
    if n < LONG {
        return 0x3f80_0000;
    }
    0x4880_0000
}

// The digits of n that count: of a long n the bit above the last 18 takes over what these say. Both are worked out and one is
// taken, since a branch on the length of n is not to be foretold.
#[tactic(auto, using(crate::proofs::LastDigits::cut_is, crate::proofs::LastDigits::cut_lt))]
pub fn digits(n: u64) -> u64
    ensures { (result < 2 ^ 46) × (whole binary32 (result * 2 ^ (if nat_lt n (2 ^ 46) then 0 else 18)) ≡ whole binary32 n) }
{
    let more = (n % 0x4_0000 + 0x3_ffff) / 0x4_0000;
    let cut = n / 0x4_0000 | more;
    if n < LONG {
        return n;
    }
    cut
}
