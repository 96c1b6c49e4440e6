// A float of either width: the floats nearest to whole numbers, and the operators that floats out are made with.
ghost use Rattle.std.specs.Prelude.{◌≡◌};
ghost use Rattle.std.specs.Float.{Float, Format, binary32, binary64};
ghost use Rattle.std.specs.Float.Ieee.{add, mul, div};
ghost use Rattle.seconds.specs.Out.{whole};

use crate::nearest::{digits, halves_f32, placed_f64, power};
use std::ops::{Add, Div, Mul};

// Each operator rounds once, and may always be used. A u32 has a method of its own, since it takes half the steps of a u64.
pub trait IeeeFloat: Add<Output = Self> + Mul<Output = Self> + Div<Output = Self> {
    ghost format: { Format };

    ghost float: { Self → Float };

    fn nearest_u32(n: u32) -> Self
        ensures { float result ≡ whole format n };

    fn nearest_u64(n: u64) -> Self
        ensures { float result ≡ whole format n };

    ghost may_add: { (a b : Self) → Self.can_add a b };

    ghost may_mul: { (a b : Self) → Self.can_mul a b };

    ghost may_div: { (a b : Self) → Self.can_div a b };

    ghost adds: { (a b r : Self) → Self.add_gives a b r → float r ≡ add format (float a) (float b) };

    ghost multiplies: { (a b r : Self) → Self.mul_gives a b r → float r ≡ mul format (float a) (float b) };

    ghost divides: { (a b r : Self) → Self.div_gives a b r → float r ≡ div format (float a) (float b) };
}

impl IeeeFloat for f64 {
    ghost format = { binary64 };

    ghost float = { λ x. x };

    ghost may_add = { λ _ _. tt };

    ghost may_mul = { λ _ _. tt };

    ghost may_div = { λ _ _. tt };

    ghost adds = { λ _ _ _ e. e };

    ghost multiplies = { λ _ _ _ e. e };

    ghost divides = { λ _ _ _ e. e };

    fn nearest_u32(n: u32) -> f64 {
        placed_f64(n as u64, 0)
    }

    // Only the sum of the halves rounds.
    #[tactic(auto, using(crate::proofs::Operations::f64_halves))]
    fn nearest_u64(n: u64) -> f64 {
        placed_f64(n / 0x1_0000_0000, 32) + placed_f64(n % 0x1_0000_0000, 0)
    }
}

impl IeeeFloat for f32 {
    ghost format = { binary32 };

    ghost float = { λ x. x };

    ghost may_add = { λ _ _. tt };

    ghost may_mul = { λ _ _. tt };

    ghost may_div = { λ _ _. tt };

    ghost adds = { λ _ _ _ e. e };

    ghost multiplies = { λ _ _ _ e. e };

    ghost divides = { λ _ _ _ e. e };

    fn nearest_u32(n: u32) -> f32 {
        halves_f32(n as u64)
    }

    // The product is exact.
    #[tactic(auto, using(crate::proofs::Placed::scale_number, crate::proofs::Placed::scaled_digits))]
    fn nearest_u64(n: u64) -> f32 {
        halves_f32(digits(n)) * f32::from_bits(power(n))
    }
}
