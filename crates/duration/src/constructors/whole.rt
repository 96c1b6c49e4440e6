// Counts of units that are whole seconds. Document 01 names the form: a match on the unit's number chooses scale and limit.
ghost use Rattle.std.specs.Prelude.{◌≡◌, ◌+◌, ◌*◌, ◌^◌, ◌<◌, ◌≤◌, get_or};
ghost use Rattle.duration.specs.Meaning.{exact};
ghost use Rattle.duration.specs.Units.{units};

use crate::Duration;
use refusal::Refusal;

// The seconds of the unit with that number, from a minute to a week.
pub fn scale(unit: u32) -> u64
    requires { (4 ≤ unit) × (unit ≤ 7) }
    ensures { result * 10 ^ 9 ≡ get_or units unit 0 }
{
    match unit {
        4 => 60,
        5 => 3_600,
        6 => 86_400,
        _ => 604_800,
    }
}

// The largest count of it that fits.
pub fn limit(unit: u32) -> u64
    requires { (4 ≤ unit) × (unit ≤ 7) }
    ensures { (result * get_or units unit 0 < 2 ^ 64 * 10 ^ 9) × (2 ^ 64 * 10 ^ 9 ≤ (result + 1) * get_or units unit 0) }
{
    match unit {
        4 => 307_445_734_561_825_860,
        5 => 5_124_095_576_030_431,
        6 => 213_503_982_334_601,
        _ => 30_500_568_904_943,
    }
}

// count units of scale seconds each; limit is the largest count that fits.
pub fn seconds(count: u64, scale: u64, limit: u64) -> Result<Duration, Refusal>
    requires { (limit * scale < 2 ^ 64) × (2 ^ 64 ≤ (limit + 1) * scale) }
    ensures { result ≡ exact (count * (scale * 10 ^ 9)) }
{
    if limit < count {
        return Err(Refusal::Overflow);
    }
    Ok(Duration {
        secs: count * scale,
        nanos: 0,
    })
}
