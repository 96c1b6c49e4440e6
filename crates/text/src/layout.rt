// What accepted options ask for.
ghost use Rattle.std.specs.Prelude.{◌≤◌};
ghost use Rattle.std.specs.Option.{ForSome};
ghost use Rattle.text.specs.Options.{limit};

use crate::Options;
use refusal::Refusal;

// The most fraction digits, and the most characters, that can be asked for.
const LIMIT: u64 = 255;

#[derive(Clone, Copy)]
pub enum Alignment {
    Left,
    Centre,
    Right,
}

impl Alignment {
    ghost use Rattle.std.specs.Prelude.{◌≡◌};
    ghost use Rattle.text.specs.Parts.{in_front};

    // How much of the padding goes in front.
    pub fn front(self, pad: usize) -> usize
        ensures { result ≡ in_front self pad }
    {
        match self {
            Alignment::Left => 0,
            Alignment::Centre => pad / 2,
            Alignment::Right => pad,
        }
    }
}

#[derive(Clone, Copy)]
pub struct Layout {
    pub plus: bool,
    // none, for all digits
    pub precision: Option<u64>,
    // how many characters at least
    pub width: usize,
    pub alignment: Alignment,
    pub fill: u8,
    ghost few_digits: { ForSome precision (λ p. p ≤ limit) },
    ghost few_columns: { width ≤ limit },
}

impl TryFrom<Options> for Layout {
    ghost use Rattle.text.specs.Parts.{IsLayout};

    type Error = Refusal;

    ghost try_from_gives = { λ o r. IsLayout o r };

    fn try_from(o: Options) -> Result<Layout, Refusal> {
        let plus = match o.plus {
            0 => false,
            1 => true,
            _ => return Err(Refusal::BadOptions),
        };
        let alignment = match o.alignment {
            0 | 1 => Alignment::Left,
            2 => Alignment::Centre,
            3 => Alignment::Right,
            _ => return Err(Refusal::BadOptions),
        };
        let width = o.width.unwrap_or(0);
        if o.fill < 0x20 || 0x7E < o.fill || LIMIT < o.precision.unwrap_or(0) || LIMIT < width {
            return Err(Refusal::BadOptions);
        }
        Ok(Layout {
            plus,
            precision: o.precision,
            width: width as usize,
            alignment,
            fill: o.fill as u8,
        })
    }
}
