// The unit that a duration is printed in.
ghost use Rattle.std.specs.Prelude.{◌<◌, ◌^◌};

use duration::Duration;

#[derive(Clone, Copy)]
pub enum Unit {
    Seconds,
    Millis,
    Micros,
    Nanos,
}

impl Unit {
    ghost use Rattle.std.specs.Prelude.{◌≡◌};
    ghost use Rattle.text.specs.Text.{suffix_of, characters};

    // Fixed bytes, as document 01 has them.
    pub fn suffix(self) -> &'static [u8]
        ensures { result.now ≡ suffix_of self }
    {
        match self {
            Unit::Seconds => b"s",
            Unit::Millis => b"ms",
            Unit::Micros => b"\xC2\xB5s",
            Unit::Nanos => b"ns",
        }
    }

    // How many characters those are: the micro sign has two bytes and is one.
    pub fn characters(self) -> usize
        ensures { result ≡ characters (suffix_of self) }
    {
        match self {
            Unit::Seconds => 1,
            Unit::Millis | Unit::Micros | Unit::Nanos => 2,
        }
    }
}

// A number of units: whole ones, and billionths of one.
#[derive(Clone, Copy)]
pub struct Amount {
    pub whole: u64,
    pub part: u32,
    ghost below_one: { part < 10 ^ 9 },
}

// A duration in its unit.
#[derive(Clone, Copy)]
pub struct Scaled {
    pub amount: Amount,
    pub unit: Unit,
}

impl Scaled {
    ghost use Rattle.duration.specs.Meaning.{N};
    ghost use Rattle.text.specs.Parts.{Scales};

    pub fn of(d: Duration) -> Scaled
        requires { d.nanos < 10 ^ 9 }
        ensures { Scales (N d) result }
    {
        let Duration { secs, nanos } = d;
        let (unit, whole, part) = if 0 < secs {
            (Unit::Seconds, secs, nanos)
        } else if 1_000_000 <= nanos {
            (
                Unit::Millis,
                (nanos / 1_000_000) as u64,
                nanos % 1_000_000 * 1_000,
            )
        } else if 1_000 <= nanos {
            (
                Unit::Micros,
                (nanos / 1_000) as u64,
                nanos % 1_000 * 1_000_000,
            )
        } else {
            (Unit::Nanos, nanos as u64, 0)
        };
        let amount = Amount { whole, part };
        Scaled { unit, amount }
    }
}
