// Writing into a lent buffer.
ghost use Rattle.std.specs.Prelude.{◌≡◌, length};
ghost use Rattle.laws.specs.Written.{times};
ghost use Rattle.text.specs.Digits.{ending_digits};
ghost use Rattle.text.specs.Writing.{HasRoom, Appended};

use crate::digits::put_digits;

// The bytes of src into out. By std's `copy_from_slice`, a call for a few bytes, a text of whole seconds takes 0.52 of the Rust's
// time, and by this 0.35.
fn copy(out: &mut [u8], src: &[u8])
    requires { length out.old ≡ length src.now }
    ensures { out.new ≡ src.now }
{
    for i in 0..src.len() {
        out[i] = src[i];
    }
}

// The byte b into all of out: not by std's `fill`, for the same reason.
fn fill(out: &mut [u8], b: u8)
    ensures { out.new ≡ times (length out.old) b }
{
    for to in out {
        *to = b;
    }
}

// A lent buffer, and how many of its bytes are written: there is no heap, so no Vec.
#[derive(Drop)]
pub struct Writer<'a> {
    pub out: &'a mut [u8],
    pub at: usize,
}

impl Writer<'_> {
    // Inlined, as `repeat` is, so that the place stays in a register: by a call, a rounded text in 12 columns takes 0.41 of the Rust's time.
    #[tactic(auto, using(crate::proofs::Writing::part_written))]
    #[inline(always)]
    pub fn put(&mut self, src: &[u8])
        requires { HasRoom self.old (length src.now) }
        ensures { Appended self.old self.new src.now }
    {
        let end = self.at + src.len();
        copy(&mut self.out[self.at..end], src);
        self.at = end;
    }

    #[tactic(auto, using(crate::proofs::Writing::part_written), unfolding(laws::specs::Written::times))]
    #[inline(always)]
    pub fn repeat(&mut self, b: u8, n: usize)
        requires { HasRoom self.old n }
        ensures { Appended self.old self.new (times n b) }
    {
        let end = self.at + n;
        fill(&mut self.out[self.at..end], b);
        self.at = end;
    }

    // Appends the last k decimal digits of n.
    pub fn digits(&mut self, n: u64, k: usize)
        requires { HasRoom self.old k }
        ensures { Appended self.old self.new (ending_digits k n) }
    {
        let end = self.at + k;
        put_digits(&mut self.out[self.at..end], n);
        self.at = end;
    }
}
