// The sum of a list that a row describes: count rows, of first, first + step, .. seconds and of nanoseconds 7919 apart.
use saltribbon::sum;

// Function 29. There is room for 64 rows; only those that are summed are made.
pub fn sum([first, step, count, nanos]: [u64; 4], out: &mut [u8]) -> u32 {
    let rows = count % 65;
    let mut seconds = [[0u8; 8]; 64];
    let mut parts = [[0u8; 4]; 64];
    for (i, (s, n)) in (0..rows).zip(seconds.iter_mut().zip(&mut parts)) {
        *s = first.wrapping_add(step.wrapping_mul(i)).to_le_bytes();
        let part = (nanos % 1_000_000_000).wrapping_add(i.wrapping_mul(7919)) % 1_000_000_000;
        *n = (part as u32).to_le_bytes();
    }
    let (seconds, parts) = (seconds.as_flattened(), parts.as_flattened());
    sum::salt_sum(seconds, parts, 0, rows, out)
}
