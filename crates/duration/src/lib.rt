// A duration, the six constants, and which pairs are durations.
#![tactic(auto, unfolding(wide::specs::Wide::wide, crate::specs::Meaning::valid, crate::specs::Meaning::exact, crate::specs::Meaning::checked, crate::specs::Parts::whole_secs, crate::specs::Parts::subsec, crate::specs::Parts::count, crate::specs::Parts::is_zero, crate::specs::Parts::compared))]

ghost use Rattle.std.specs.Prelude.{◌≡◌};
ghost use Rattle.duration.specs.Meaning.{checked};

use refusal::Refusal;

pub mod constructors;
pub mod parts;

// Whole seconds and the nanoseconds below a second, in the order of their nanoseconds. Any pair can be handed in: one with 10^9
// nanoseconds or more is refused.
#[derive(Clone, Copy, Debug, PartialEq, Eq, PartialOrd, Ord)]
pub struct Duration {
    pub secs: u64,
    pub nanos: u32,
}

impl Duration {
    // The pair itself, where it is a duration: what every operation begins with.
    pub fn checked(self) -> Result<Duration, Refusal>
        ensures { result ≡ checked self }
    {
        if self.nanos < 1_000_000_000 {
            Ok(self)
        } else {
            Err(Refusal::BadDuration)
        }
    }
}

pub const SECOND: Duration = Duration { secs: 1, nanos: 0 };

pub const MILLISECOND: Duration = Duration {
    secs: 0,
    nanos: 1_000_000,
};

pub const MICROSECOND: Duration = Duration {
    secs: 0,
    nanos: 1_000,
};

pub const NANOSECOND: Duration = Duration { secs: 0, nanos: 1 };

pub const ZERO: Duration = Duration { secs: 0, nanos: 0 };

pub const MAX: Duration = Duration {
    secs: u64::MAX,
    nanos: 999_999_999,
};
