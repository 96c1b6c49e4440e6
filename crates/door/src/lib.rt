// The operations of `wide` as C functions, for the judge of the tests alone: no part of the product. A number goes in as its low
// and its high word. Each function returns 0 or the refusal's number, and writes four words into `out`, or on a refusal none. The judge
// calls each by its name, so they stay as many.
#![tactic(auto, unfolding(crate::specs::Door::answer_reply, crate::specs::Door::division_reply, crate::specs::Door::code_of, crate::specs::Door::left_in))]

ghost use Rattle.std.specs.Prelude.{◌≡◌, ◌+◌, ◌*◌, ◌/◌, ◌^◌};
ghost use Rattle.std.specs.Ordering.{nat_cmp};
ghost use Rattle.wide.specs.Wide.{wide, words, answer, difference, division};
ghost use Rattle.door.specs.Door.{pair, wide_reply, answer_reply, order_reply, division_reply, Gives};

use refusal::Refusal;
use std::cmp::Ordering;
use wide::{Division, Wide};

// What a call writes, or why it writes nothing.
type Reply = Result<[u64; 4], Refusal>;

fn of_wide(w: Wide) -> Reply
    ensures { result ≡ wide_reply w }
{
    Ok([w.lo, w.hi, 0, 0])
}

fn of_answer(a: Result<Wide, Refusal>) -> Reply
    ensures { result ≡ answer_reply a }
{
    of_wide(a?)
}

fn of_order(o: Ordering) -> Reply
    ensures { result ≡ order_reply o }
{
    match o {
        Ordering::Less => Ok([0, 0, 0, 0]),
        Ordering::Equal => Ok([1, 0, 0, 0]),
        Ordering::Greater => Ok([2, 0, 0, 0]),
    }
}

fn of_division(a: Result<Division, Refusal>) -> Reply
    ensures { result ≡ division_reply a }
{
    let Division {
        quotient,
        remainder,
    } = a?;
    Ok([quotient.lo, quotient.hi, remainder.lo, remainder.hi])
}

// The reply, written and numbered: what every function below ends with.
fn finish(reply: Reply, out: &mut [u64; 4]) -> u32
    ensures { Gives reply result out.old out.new }
{
    match reply {
        Ok(words) => {
            *out = words;
            0
        }
        Err(f) => refusal::number(f),
    }
}

#[unsafe(no_mangle)]
pub extern "C" fn door_widening_mul(a: u64, b: u64, out: &mut [u64; 4]) -> u32
    ensures { Gives (wide_reply (words (a * b))) result out.old out.new }
{
    finish(of_wide(wide::widening_mul(a, b)), out)
}

#[unsafe(no_mangle)]
pub extern "C" fn door_mul(xl: u64, xh: u64, yl: u64, yh: u64, out: &mut [u64; 4]) -> u32
    ensures { Gives (answer_reply (answer (wide (pair xl xh) * wide (pair yl yh)))) result out.old out.new }
{
    finish(
        of_answer(wide::mul(Wide { hi: xh, lo: xl }, Wide { hi: yh, lo: yl })),
        out,
    )
}

#[unsafe(no_mangle)]
pub extern "C" fn door_add(xl: u64, xh: u64, yl: u64, yh: u64, out: &mut [u64; 4]) -> u32
    ensures { Gives (answer_reply (answer (wide (pair xl xh) + wide (pair yl yh)))) result out.old out.new }
{
    finish(
        of_answer(wide::add(Wide { hi: xh, lo: xl }, Wide { hi: yh, lo: yl })),
        out,
    )
}

#[unsafe(no_mangle)]
pub extern "C" fn door_sub(xl: u64, xh: u64, yl: u64, yh: u64, out: &mut [u64; 4]) -> u32
    ensures { Gives (answer_reply (difference (wide (pair xl xh)) (wide (pair yl yh)))) result out.old out.new }
{
    finish(
        of_answer(wide::sub(Wide { hi: xh, lo: xl }, Wide { hi: yh, lo: yl })),
        out,
    )
}

#[unsafe(no_mangle)]
pub extern "C" fn door_compare(xl: u64, xh: u64, yl: u64, yh: u64, out: &mut [u64; 4]) -> u32
    ensures { Gives (order_reply (nat_cmp (wide (pair xl xh)) (wide (pair yl yh)))) result out.old out.new }
{
    finish(
        of_order(wide::compare(Wide { hi: xh, lo: xl }, Wide { hi: yh, lo: yl })),
        out,
    )
}

#[unsafe(no_mangle)]
pub extern "C" fn door_shl(xl: u64, xh: u64, n: u32, out: &mut [u64; 4]) -> u32
    ensures { Gives (answer_reply (answer (wide (pair xl xh) * 2 ^ n))) result out.old out.new }
{
    finish(of_answer(wide::shl(Wide { hi: xh, lo: xl }, n)), out)
}

#[unsafe(no_mangle)]
pub extern "C" fn door_shr(xl: u64, xh: u64, n: u32, out: &mut [u64; 4]) -> u32
    ensures { Gives (wide_reply (words (wide (pair xl xh) / 2 ^ n))) result out.old out.new }
{
    finish(of_wide(wide::shr(Wide { hi: xh, lo: xl }, n)), out)
}

#[unsafe(no_mangle)]
pub extern "C" fn door_div(nl: u64, nh: u64, dl: u64, dh: u64, out: &mut [u64; 4]) -> u32
    ensures { Gives (division_reply (division (wide (pair nl nh)) (wide (pair dl dh)))) result out.old out.new }
{
    finish(
        of_division(wide::div(Wide { hi: nh, lo: nl }, Wide { hi: dh, lo: dl })),
        out,
    )
}
