// The names of the C functions, for the report.
use std::io;
use std::ops::Range;

// The name of each function at its number, and at 0 what stands for a number that names none.
const NAMES: [&str; 42] = [
    "function without a name",
    "salt_new",
    "salt_from_unit",
    "salt_from_nanos_u128",
    "salt_second",
    "salt_millisecond",
    "salt_microsecond",
    "salt_nanosecond",
    "salt_zero",
    "salt_max",
    "salt_as_secs",
    "salt_subsec_millis",
    "salt_subsec_micros",
    "salt_subsec_nanos",
    "salt_as_millis",
    "salt_as_micros",
    "salt_as_nanos",
    "salt_is_zero",
    "salt_cmp",
    "salt_checked_add",
    "salt_saturating_add",
    "salt_checked_sub",
    "salt_saturating_sub",
    "salt_abs_diff",
    "salt_div_duration_floor",
    "salt_div_duration_ceil",
    "salt_checked_mul",
    "salt_saturating_mul",
    "salt_checked_div",
    "salt_sum",
    "salt_as_secs_f64",
    "salt_as_secs_f32",
    "salt_as_millis_f64",
    "salt_as_millis_f32",
    "salt_div_duration_f64",
    "salt_div_duration_f32",
    "salt_try_from_secs_f64",
    "salt_try_from_secs_f32",
    "salt_mul_f64",
    "salt_div_f64",
    "salt_mul_f32",
    "salt_div_f32",
];

// A line for a function that has rows.
pub fn print(rt: &impl Print, function: u64, rows: Range<u64>) -> io::Result<()> {
    if rows.is_empty() {
        return Ok(());
    }
    let name = NAMES.get(function as usize).unwrap_or(&NAMES[0]);
    println!(rt; "{name} {}", rows.end - rows.start)
}
