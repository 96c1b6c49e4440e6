// A duration's text without padding: laid out, measured, and written.
ghost use Rattle.std.specs.Prelude.{◌≡◌, length};
ghost use Rattle.text.specs.Parts.{composed, emitted, Sized, IsAscii};
ghost use Rattle.text.specs.Writing.{HasRoom, Appended};

use crate::layout::Layout;
use crate::number::Number;
use crate::unit::{Scaled, Unit};
use crate::write::Writer;

// Sign, number and suffix.
#[derive(Clone, Copy)]
pub struct Plain {
    pub plus: bool,
    pub number: Number,
    pub unit: Unit,
}

// How many bytes a text has, and how many characters.
#[derive(Clone, Copy)]
pub struct Size {
    pub bytes: usize,
    pub characters: usize,
}

impl Plain {
    #[tactic(auto, using(crate::proofs::Plains::ascii_is), unfolding(crate::specs::Parts::emitted, crate::specs::Parts::composed))]
    pub fn new(s: Scaled, l: Layout) -> Plain
        ensures { (emitted result ≡ composed s l) × IsAscii result.number }
    {
        Plain {
            plus: l.plus,
            number: Number::of(s.amount, l.precision),
            unit: s.unit,
        }
    }

    #[tactic(auto, using(crate::proofs::Plains::sign_le, crate::proofs::Plains::suffix_le, crate::proofs::Plains::suffix_characters_le, crate::proofs::Plains::length_emitted, crate::proofs::Plains::characters_emitted))]
    pub fn size(self) -> Size
        requires { IsAscii self.number }
        ensures { Sized self result }
    {
        let body = usize::from(self.plus) + self.number.bytes();
        Size {
            bytes: body + self.unit.suffix().len(),
            characters: body + self.unit.characters(),
        }
    }

    // Rust's `emit_without_padding`.
    #[tactic(auto, using(crate::proofs::Plains::length_emitted, crate::proofs::Plains::length_sign))]
    pub fn write(self, w: &mut Writer)
        requires { HasRoom w.old (length (emitted self)) }
        ensures { Appended w.old w.new (emitted self) }
    {
        if self.plus {
            w.put(b"+");
        }
        self.number.write(w);
        w.put(self.unit.suffix());
    }
}
