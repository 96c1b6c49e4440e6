// A text with its padding in a lent buffer.
ghost use Rattle.std.specs.Prelude.{◌+◌, ◌≤◌, length};
ghost use Rattle.laws.specs.Written.{Wrote};
ghost use Rattle.text.specs.Parts.{emitted, surrounded};

use crate::layout::Layout;
use crate::plain::Plain;
use crate::write::Writer;

// The text with so much padding at the front of the buffer; its length.
pub fn place(out: &mut [u8], p: Plain, l: Layout, pad: usize) -> usize
    requires { length (emitted p) + pad ≤ length out.old }
    ensures { Wrote out.old out.new 0 result (surrounded l pad (emitted p)) }
{
    let front = l.alignment.front(pad);
    let mut w = Writer { out, at: 0 };
    w.repeat(l.fill, front);
    p.write(&mut w);
    w.repeat(l.fill, pad - front);
    w.at
}
