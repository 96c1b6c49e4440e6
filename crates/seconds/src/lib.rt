// Float seconds: durations as floats, and floats as durations.
#![tactic(auto, unfolding(duration::specs::Meaning::valid, duration::specs::Meaning::checked, crate::specs::Out::seconds_as, crate::specs::Out::millis_as, crate::specs::Out::nanos_as, crate::specs::Out::quotient_as, crate::specs::From::times_float, crate::specs::From::over_float,))]

mod float;
pub mod from;
mod nearest;
pub mod out;
mod value;
