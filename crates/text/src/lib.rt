// The printed form of a duration, Rust's Debug, written into a lent buffer.
#![tactic(auto, unfolding(duration::specs::Meaning::valid, duration::specs::Meaning::checked, crate::specs::Options::accepts, crate::specs::Options::within, crate::specs::Text::unit_of, crate::specs::Text::characters, crate::specs::Text::lacking, crate::specs::Text::front, crate::specs::Answer::fitted, crate::specs::Answer::answer_of, crate::specs::Answer::left_in,))]

ghost use Rattle.text.specs.Answer.{Printed};

use crate::layout::Layout;
use crate::plain::Plain;
use crate::print::place;
use crate::unit::Scaled;
use duration::Duration;
use refusal::Refusal;

mod digits;
mod fraction;
mod layout;
mod number;
mod plain;
mod print;
mod round;
mod unit;
mod write;

// How a duration is printed. Any numbers can be handed in, and those outside the limits are refused: narrower types would ask more of
// callers.
#[derive(Clone, Copy)]
pub struct Options {
    // 1 for a plus sign in front, else 0
    pub plus: u64,
    // how many fraction digits; none, as many as show the exact value
    pub precision: Option<u64>,
    // how many characters at least
    pub width: Option<u64>,
    // 0 none, which is left; 1 left, 2 centre, 3 right
    pub alignment: u64,
    // the byte that fills the width
    pub fill: u64,
}

// The text of a duration at the front of the buffer: measured first, then written at its final place. The room is tested last, and a
// refusal writes nothing.
pub fn fmt(d: Duration, o: Options, out: &mut [u8]) -> Result<usize, Refusal>
    ensures { Printed out.old out.new d o result }
{
    let d = d.checked()?;
    let layout = Layout::try_from(o)?;
    let plain = Plain::new(Scaled::of(d), layout);
    let size = plain.size();
    let pad = layout.width.saturating_sub(size.characters);
    if out.len() < size.bytes + pad {
        return Err(Refusal::NoRoom);
    }
    Ok(place(out, plain, layout, pad))
}
