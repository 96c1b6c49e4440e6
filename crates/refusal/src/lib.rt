// The refusals of document 01, by name and by number.
#![tactic(auto)]

ghost use Rattle.std.specs.Prelude.{◌≡◌};
ghost use Rattle.refusal.specs.Numbers.{number_of};

// Why a call has no answer. The order is that of the numbers.
#[derive(Clone, Copy, Debug, PartialEq, Eq)]
pub enum Refusal {
    Negative,
    OverflowOrNan,
    Overflow,
    Underflow,
    ZeroDivisor,
    BadRow,
    BadRange,
    BadOptions,
    NoRoom,
    BadDuration,
    BadUnit,
}

// The refusal's number in document 01's table, which is what the C functions return: docs/CONTRACTS.md names it, so it stays a function
// and no `From`. A match, beside which the table can be held.
pub fn number(r: Refusal) -> u32
    ensures { result ≡ number_of r }
{
    match r {
        Refusal::Negative => 1,
        Refusal::OverflowOrNan => 2,
        Refusal::Overflow => 3,
        Refusal::Underflow => 4,
        Refusal::ZeroDivisor => 5,
        Refusal::BadRow => 6,
        Refusal::BadRange => 7,
        Refusal::BadOptions => 8,
        Refusal::NoRoom => 9,
        Refusal::BadDuration => 10,
        Refusal::BadUnit => 11,
    }
}
