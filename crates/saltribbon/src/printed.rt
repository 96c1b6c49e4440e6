// The C function that prints a duration: the text alone goes into the buffer, and its length comes back.
ghost use Rattle.std.specs.Prelude.{◌≡◌};
ghost use Rattle.saltribbon.specs.Said.{option_of, count_of, options_of, Short, signed_of, Said};

use duration::Duration;
use refusal::Refusal;
use text::Options;

// An option's number. One below zero goes over as the largest word, which no limit admits.
fn option(n: i64) -> u64
    ensures { result ≡ option_of n }
{
    n.max(-1).cast_unsigned()
}

// A number of digits or of characters, of which C writes -1 for none: a match, since no library method has that case.
fn count(n: i64) -> Option<u64>
    ensures { result ≡ count_of n }
{
    match n {
        -1 => None,
        _ => Some(option(n)),
    }
}

// The length, or the refusal's number negated.
fn signed(a: Result<usize, Refusal>) -> i64
    requires { Short a }
    ensures { result ≡ signed_of a }
{
    match a {
        Ok(k) => k as i64,
        Err(f) => -(refusal::number(f) as i64),
    }
}

#[unsafe(no_mangle)]
pub extern "C" fn salt_fmt(
    secs: u64,
    nanos: u32,
    plus: i64,
    precision: i64,
    width: i64,
    align: i64,
    fill: i64,
    out: &mut [u8],
) -> i64
    ensures { Said out.old out.new (record { secs = secs; nanos = nanos }) (options_of plus precision width align fill) result }
{
    let o = Options {
        plus: option(plus),
        precision: count(precision),
        width: count(width),
        alignment: option(align),
        fill: option(fill),
    };
    signed(text::fmt(Duration { secs, nanos }, o, out))
}
