// How an answer goes back to a C program: as two little-endian words at the front of its buffer, or as a refusal's number.
#![tactic(auto, unfolding(crate::specs::Reply::reply_of, crate::specs::Reply::code_of, crate::specs::Reply::left_in))]

ghost use Rattle.std.specs.Prelude.{◌≡◌, ◌++◌, ◌≤◌, length, drop};
ghost use Rattle.laws.specs.Bytes.{little_endian};
ghost use Rattle.reply.specs.Reply.{Replied, duration_words, wide_words, number_words, flag_words, order_words, f32_words, f64_words};

use duration::Duration;
use refusal::Refusal;
use std::cmp::Ordering;
use wide::Wide;

// What every function but the text's hands back where it answers, and how each kind of answer becomes that.
#[derive(Clone, Copy, Debug, PartialEq, Eq)]
pub struct Words {
    pub low: u64,
    pub high: u64,
}

impl From<Duration> for Words {
    ghost from_gives = { λ d words. words ≡ duration_words d };

    fn from(d: Duration) -> Words {
        Words {
            low: d.secs,
            high: d.nanos as u64,
        }
    }
}

impl From<Wide> for Words {
    ghost from_gives = { λ w words. words ≡ wide_words w };

    fn from(w: Wide) -> Words {
        Words {
            low: w.lo,
            high: w.hi,
        }
    }
}

impl From<u64> for Words {
    ghost from_gives = { λ n words. words ≡ number_words n };

    fn from(n: u64) -> Words {
        Words { low: n, high: 0 }
    }
}

impl From<u32> for Words {
    ghost from_gives = { λ n words. words ≡ number_words n };

    fn from(n: u32) -> Words {
        Words::from(n as u64)
    }
}

impl From<bool> for Words {
    ghost from_gives = { λ b words. words ≡ flag_words b };

    fn from(b: bool) -> Words {
        Words::from(b as u64)
    }
}

impl From<Ordering> for Words {
    ghost from_gives = { λ o words. words ≡ order_words o };

    fn from(o: Ordering) -> Words {
        let place: u64 = match o {
            Ordering::Less => 0,
            Ordering::Equal => 1,
            Ordering::Greater => 2,
        };
        Words::from(place)
    }
}

// A NaN goes back as one pattern, whichever it was.
impl From<f64> for Words {
    ghost from_gives = { λ x words. words ≡ f64_words x };

    fn from(x: f64) -> Words {
        if x.is_nan() {
            return Words::from(0x7ff8_0000_0000_0000u64);
        }
        Words::from(x.to_bits())
    }
}

impl From<f32> for Words {
    ghost from_gives = { λ x words. words ≡ f32_words x };

    fn from(x: f32) -> Words {
        if x.is_nan() {
            return Words::from(0x7fc0_0000u32);
        }
        Words::from(x.to_bits())
    }
}

// The eight bytes of w at the front of out, the lowest first.
fn put_word(out: &mut [u8], w: u64)
    requires { 8 ≤ length out.old }
    ensures { out.new ≡ little_endian 8 w ++ drop 8 out.old }
{
    out[..8].copy_from_slice(&w.to_le_bytes());
}

// Two words at the front of out.
fn put_words(out: &mut [u8], words: Words)
    requires { 16 ≤ length out.old }
    ensures { out.new ≡ little_endian 8 words.low ++ little_endian 8 words.high ++ drop 16 out.old }
{
    put_word(out, words.low);
    put_word(&mut out[8..], words.high);
}

// The room is tested last, and a refusal writes nothing.
pub fn send(reply: Result<Words, Refusal>, out: &mut [u8]) -> u32
    ensures { Replied out.old out.new reply result }
{
    match reply {
        Err(refusal) => refusal::number(refusal),
        Ok(words) => {
            if out.len() < 16 {
                return refusal::number(Refusal::NoRoom);
            }
            put_words(out, words);
            0
        }
    }
}
