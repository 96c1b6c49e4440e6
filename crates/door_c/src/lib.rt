// The static library of `door` for the judge of the tests: each function under its name there, with its clauses.
#![tactic(auto)]

ghost use Rattle.std.specs.Prelude.{◌+◌, ◌*◌, ◌/◌, ◌^◌};
ghost use Rattle.std.specs.Ordering.{nat_cmp};
ghost use Rattle.wide.specs.Wide.{wide, words, answer, difference, division};
ghost use Rattle.door.specs.Door.{pair, wide_reply, answer_reply, order_reply, division_reply, Gives};

#[unsafe(no_mangle)]
pub extern "C" fn door_widening_mul(a: u64, b: u64, out: &mut [u64; 4]) -> u32
    ensures { Gives (wide_reply (words (a * b))) result out.old out.new }
{
    door::door_widening_mul(a, b, out)
}

#[unsafe(no_mangle)]
pub extern "C" fn door_mul(xl: u64, xh: u64, yl: u64, yh: u64, out: &mut [u64; 4]) -> u32
    ensures { Gives (answer_reply (answer (wide (pair xl xh) * wide (pair yl yh)))) result out.old out.new }
{
    door::door_mul(xl, xh, yl, yh, out)
}

#[unsafe(no_mangle)]
pub extern "C" fn door_add(xl: u64, xh: u64, yl: u64, yh: u64, out: &mut [u64; 4]) -> u32
    ensures { Gives (answer_reply (answer (wide (pair xl xh) + wide (pair yl yh)))) result out.old out.new }
{
    door::door_add(xl, xh, yl, yh, out)
}

#[unsafe(no_mangle)]
pub extern "C" fn door_sub(xl: u64, xh: u64, yl: u64, yh: u64, out: &mut [u64; 4]) -> u32
    ensures { Gives (answer_reply (difference (wide (pair xl xh)) (wide (pair yl yh)))) result out.old out.new }
{
    door::door_sub(xl, xh, yl, yh, out)
}

#[unsafe(no_mangle)]
pub extern "C" fn door_compare(xl: u64, xh: u64, yl: u64, yh: u64, out: &mut [u64; 4]) -> u32
    ensures { Gives (order_reply (nat_cmp (wide (pair xl xh)) (wide (pair yl yh)))) result out.old out.new }
{
    door::door_compare(xl, xh, yl, yh, out)
}

#[unsafe(no_mangle)]
pub extern "C" fn door_shl(xl: u64, xh: u64, n: u32, out: &mut [u64; 4]) -> u32
    ensures { Gives (answer_reply (answer (wide (pair xl xh) * 2 ^ n))) result out.old out.new }
{
    door::door_shl(xl, xh, n, out)
}

#[unsafe(no_mangle)]
pub extern "C" fn door_shr(xl: u64, xh: u64, n: u32, out: &mut [u64; 4]) -> u32
    ensures { Gives (wide_reply (words (wide (pair xl xh) / 2 ^ n))) result out.old out.new }
{
    door::door_shr(xl, xh, n, out)
}

#[unsafe(no_mangle)]
pub extern "C" fn door_div(nl: u64, nh: u64, dl: u64, dh: u64, out: &mut [u64; 4]) -> u32
    ensures { Gives (division_reply (division (wide (pair nl nh)) (wide (pair dl dh)))) result out.old out.new }
{
    door::door_div(nl, nh, dl, dh, out)
}
