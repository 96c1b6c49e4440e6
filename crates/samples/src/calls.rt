// The C functions by their number in the list of stored answers.
// An enum of them would be no plainer: it lists the 41 three times more, as variants, for their numbers and for their names.
use crate::list;
use crate::row::{Row, half};
use saltribbon::{constructors, floats_in, floats_out, integers, parts};
use std::num::{f32_from_bits_with_nan, f64_from_bits_with_nan};

// What a number that names no function returns, as no function does.
const UNNAMED: u32 = u32::MAX;

// Functions 1 to 9 make a duration.
fn makes(row: &Row, out: &mut [u8]) -> u32 {
    let [a, b, _, _] = row.arguments;
    match row.function {
        1 => constructors::salt_new(a, half(b), out),
        2 => constructors::salt_from_unit(a, half(b), out),
        3 => constructors::salt_from_nanos_u128(a, b, out),
        4 => constructors::salt_second(out),
        5 => constructors::salt_millisecond(out),
        6 => constructors::salt_microsecond(out),
        7 => constructors::salt_nanosecond(out),
        8 => constructors::salt_zero(out),
        9 => constructors::salt_max(out),
        _ => UNNAMED,
    }
}

// Functions 10 to 18 read one.
fn reads(row: &Row, out: &mut [u8]) -> u32 {
    let (a, b) = row.first();
    let (c, d) = row.second();
    match row.function {
        10 => parts::salt_as_secs(a, b, out),
        11 => parts::salt_subsec_millis(a, b, out),
        12 => parts::salt_subsec_micros(a, b, out),
        13 => parts::salt_subsec_nanos(a, b, out),
        14 => parts::salt_as_millis(a, b, out),
        15 => parts::salt_as_micros(a, b, out),
        16 => parts::salt_as_nanos(a, b, out),
        17 => parts::salt_is_zero(a, b, out),
        18 => parts::salt_cmp(a, b, c, d, out),
        _ => UNNAMED,
    }
}

// Functions 19 to 28 work with two durations, or with one and a whole number.
fn works(row: &Row, out: &mut [u8]) -> u32 {
    let (a, b) = row.first();
    let (c, d) = row.second();
    match row.function {
        19 => integers::salt_checked_add(a, b, c, d, out),
        20 => integers::salt_saturating_add(a, b, c, d, out),
        21 => integers::salt_checked_sub(a, b, c, d, out),
        22 => integers::salt_saturating_sub(a, b, c, d, out),
        23 => integers::salt_abs_diff(a, b, c, d, out),
        24 => integers::salt_div_duration_floor(a, b, c, d, out),
        25 => integers::salt_div_duration_ceil(a, b, c, d, out),
        26 => integers::salt_checked_mul(a, b, half(c), out),
        27 => integers::salt_saturating_mul(a, b, half(c), out),
        28 => integers::salt_checked_div(a, b, half(c), out),
        _ => UNNAMED,
    }
}

// Functions 30 to 41 go from and to floats, which stand in the list as their bits. Any NaN stands for the bits of one.
fn floats(row: &Row, out: &mut [u8]) -> u32 {
    let (a, b) = row.first();
    let (c, d) = row.second();
    match row.function {
        30 => floats_out::salt_as_secs_f64(a, b, out),
        31 => floats_out::salt_as_secs_f32(a, b, out),
        32 => floats_out::salt_as_millis_f64(a, b, out),
        33 => floats_out::salt_as_millis_f32(a, b, out),
        34 => floats_out::salt_div_duration_f64(a, b, c, d, out),
        35 => floats_out::salt_div_duration_f32(a, b, c, d, out),
        36 => floats_in::salt_try_from_secs_f64(f64_from_bits_with_nan(a), out),
        37 => floats_in::salt_try_from_secs_f32(f32_from_bits_with_nan(half(a)), out),
        38 => floats_in::salt_mul_f64(a, b, f64_from_bits_with_nan(c), out),
        39 => floats_in::salt_div_f64(a, b, f64_from_bits_with_nan(c), out),
        40 => floats_in::salt_mul_f32(a, b, f32_from_bits_with_nan(half(c)), out),
        41 => floats_in::salt_div_f32(a, b, f32_from_bits_with_nan(half(c)), out),
        _ => UNNAMED,
    }
}

// The function that a row names, called with the row's arguments.
pub fn run(row: &Row, out: &mut [u8]) -> u32 {
    match row.function {
        0..=9 => makes(row, out),
        10..=18 => reads(row, out),
        19..=28 => works(row, out),
        29 => list::sum(row.arguments, out),
        _ => floats(row, out),
    }
}
