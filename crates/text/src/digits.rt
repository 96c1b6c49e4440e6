// Whole numbers in decimal.
ghost use Rattle.std.specs.Prelude.{◌≡◌, length};
ghost use Rattle.text.specs.Digits.{ending_digits, width};

// How many decimal digits n has.
#[tactic(auto, using(crate::proofs::Decimals::width_one, crate::proofs::Decimals::width_log))]
pub fn width_of(n: u64) -> usize
    ensures { result ≡ width n }
{
    if n == 0 {
        return 1;
    }
    n.ilog10() as usize + 1
}

// The last decimal digits of n, as many as out has bytes, from the last on. Two at a time, since each division waits for the one before.
#[tactic(auto, using(crate::proofs::Decimals::digit_pair, crate::proofs::Decimals::one_left, crate::proofs::Decimals::none_left, crate::proofs::Decimals::all_digits))]
fn put_short(out: &mut [u8], n: u64)
    ensures { out.new ≡ ending_digits (length out.old) n }
{
    let odd = out.len() % 2;
    let mut rest = n;
    for i in (0..out.len() / 2).rev() {
        let pair = rest % 100;
        out[odd + 2 * i + 1] = b'0' + (pair % 10) as u8;
        out[odd + 2 * i] = b'0' + (pair / 10) as u8;
        rest /= 100;
    }
    if odd == 1 {
        out[0] = b'0' + (rest % 10) as u8;
    }
}

// The same for any number: a long one in two parts, which do not wait for each other.
#[tactic(auto, using(crate::proofs::Decimals::two_parts))]
pub fn put_digits(out: &mut [u8], n: u64)
    ensures { out.new ≡ ending_digits (length out.old) n }
{
    if out.len() <= 10 {
        return put_short(out, n);
    }
    let (high, low) = out.split_at_mut(out.len() - 10);
    put_short(high, n / 10_000_000_000);
    put_short(low, n % 10_000_000_000);
}
