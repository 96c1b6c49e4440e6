// Replays the stored texts of the Rust through `salt_fmt`. A row is eight numbers of 16 hex digits (seconds, nanoseconds, the five
// options and the number that is returned, those below zero in two's complement), a space and the text in hex, with '-' behind it.
use crate::MOST;
use crate::row::{HEAD, digit, half, numbers};
use saltribbon::printed;
use std::io::Read;
use std::rt::Files;
use std::{fs, io};

// The bytes of the buffer, of which each is two of a row.
const ROOM: usize = 300;

// The bytes of a row, with the end of the line.
const LINE: usize = HEAD + 2 * ROOM + 1;

// The byte of two hex digits, and zero behind the text, where the buffer keeps its zeros.
fn byte(pair: &[u8; 2]) -> u8 {
    match pair {
        [b'-', _] => 0,
        [high, low] => digit(*high) << 4 | digit(*low),
    }
}

// Whether `salt_fmt` answers as the row says.
fn agrees(line: &[u8; LINE]) -> bool {
    let mut out = [0u8; ROOM];
    let [secs, nanos, plus, precision, width, align, fill, said] = numbers(line);
    let answer = printed::salt_fmt(
        secs,
        half(nanos),
        plus.cast_signed(),
        precision.cast_signed(),
        width.cast_signed(),
        align.cast_signed(),
        fill.cast_signed(),
        &mut out,
    );
    let (text, _) = line[HEAD..].as_chunks::<2>();
    answer == said.cast_signed() && text.iter().map(byte).eq(out.iter().copied())
}

// Counts the rows of the file `texts`, and stops at the first that differs. A file that cannot be opened has no rows, and a row that
// cannot be read whole is the end of the list.
pub fn replay(rt: &(impl Files + Print)) -> io::Result<()> {
    let Ok(mut file) = fs::open(rt, "texts") else {
        return println!(rt; "0 stored texts, 0 differ");
    };
    let mut line = [0u8; LINE];
    let mut rows = 0;
    for number in 1..=MOST {
        if file.read_exact(&mut line).is_err() {
            break;
        }
        if !agrees(&line) {
            return println!(rt; "{number} is the first text that differs");
        }
        rows = number;
    }
    println!(rt; "{rows} stored texts, 0 differ")
}
