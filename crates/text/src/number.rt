// A number as it is printed: made of a whole part and billionths, measured, and written.
ghost use Rattle.std.specs.Prelude.{◌≡◌, ◌^◌, ◌≤◌};
ghost use Rattle.text.specs.Digits.{width};
ghost use Rattle.text.specs.Options.{limit};

use crate::digits::width_of;
use crate::fraction::Fraction;
use crate::round::round;
use crate::unit::Amount;
use crate::write::Writer;

// The whole part, the digits of the fraction in use, and zeros after them.
#[derive(Clone, Copy)]
pub struct Number {
    // rounding can carry one past the largest word
    pub whole: u128,
    // how many digits that has, learnt once
    pub digits: usize,
    pub fraction: Fraction,
    pub zeros: usize,
    ghost one_past: { whole ≤ 2 ^ 64 },
    ghost measured: { digits ≡ width whole },
    ghost few: { zeros ≤ limit },
}

impl Number {
    ghost use Rattle.std.specs.Prelude.{◌+◌, length};
    ghost use Rattle.std.specs.Option.{ForSome};
    ghost use Rattle.text.specs.Digits.{pointed, decimal};
    ghost use Rattle.text.specs.Text.{places_of, shown};
    ghost use Rattle.text.specs.Parts.{billionths, laid, laid_out, places};
    ghost use Rattle.text.specs.Writing.{HasRoom, Appended};

    #[tactic(auto, using(crate::proofs::Lengths::past_width))]
    fn new(whole: u128, fraction: Fraction, zeros: usize) -> Number
        requires { (whole ≤ 2 ^ 64) × (zeros ≤ limit) }
        ensures { laid result ≡ laid_out whole fraction zeros }
    {
        let digits = match u64::try_from(whole) {
            Ok(n) => width_of(n),
            Err(_) => 20,
        };
        Number {
            whole,
            digits,
            fraction,
            zeros,
        }
    }

    // a to p digits. From nine digits on nothing is rounded.
    #[tactic(auto, using(crate::proofs::Layouts::rounded_is))]
    fn rounded(a: Amount, p: usize) -> Number
        requires { p ≤ limit }
        ensures { laid result ≡ shown 9 (billionths a) p }
    {
        let f = Fraction::of(a);
        if 9 <= p {
            let digits = f.digits;
            return Number::new(a.whole as u128, Fraction { digits, count: 9 }, p - 9);
        }
        let r = round(a, f, p);
        Number::new(a.whole as u128 + r.carry as u128, r.fraction, 0)
    }

    // a as the precision asks: with none, all its digits.
    #[tactic(auto, using(crate::proofs::Layouts::exactly_is), unfolding(crate::specs::Text::places_of))]
    pub fn of(a: Amount, precision: Option<u64>) -> Number
        requires { ForSome precision (λ p. p ≤ limit) }
        ensures { laid result ≡ shown 9 (billionths a) (places_of precision 9 (billionths a)) }
    {
        match precision {
            None => Number::new(a.whole as u128, Fraction::of(a), 0),
            Some(p) => Number::rounded(a, p as usize),
        }
    }

    // How many bytes it has: a point is written only before digits.
    pub fn bytes(self) -> usize
        ensures { (result ≡ length (laid self)) × (result ≤ limit + 30) }
    {
        let places = self.fraction.count + self.zeros;
        if places == 0 {
            return self.digits;
        }
        self.digits + 1 + places
    }

    #[tactic(auto, using(crate::proofs::Writing::as_same, crate::proofs::Lengths::past_width, crate::proofs::Lengths::past_decimal, crate::proofs::Lengths::word_decimal))]
    fn write_whole(self, w: &mut Writer)
        requires { HasRoom w.old self.digits }
        ensures { Appended w.old w.new (decimal self.whole) }
    {
        match u64::try_from(self.whole) {
            Ok(n) => w.digits(n, self.digits),
            Err(_) => w.put(b"18446744073709551616"),
        }
    }

    // A point, the digits in use and the zeros; nothing where there are none.
    #[tactic(auto, using(crate::proofs::Writing::as_same, crate::proofs::Writing::unchanged, crate::proofs::Lengths::no_places, crate::proofs::Lengths::length_some))]
    fn write_places(self, w: &mut Writer)
        requires { HasRoom w.old (length (pointed (places self.fraction self.zeros))) }
        ensures { Appended w.old w.new (pointed (places self.fraction self.zeros)) }
    {
        let count = self.fraction.count;
        let digits = self.fraction.digits;
        if count + self.zeros == 0 {
            return;
        }
        w.put(b".");
        w.put(&digits[..count]);
        w.repeat(b'0', self.zeros);
    }

    #[tactic(auto, using(crate::proofs::Writing::left, crate::proofs::Lengths::length_laid, crate::proofs::Decimals::length_decimal))]
    pub fn write(self, w: &mut Writer)
        requires { HasRoom w.old (length (laid self)) }
        ensures { Appended w.old w.new (laid self) }
    {
        self.write_whole(w);
        self.write_places(w);
    }
}
