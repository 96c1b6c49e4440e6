// Replays the stored answers of the Rust through the C functions and compares returned numbers and bytes.
// A row of standard input is eight numbers of 16 hex digits: the function, four arguments, the number it must return, two words.
#![tactic(auto)]

mod calls;
mod list;
mod names;
mod row;
mod texts;

use row::{HEAD, Row};
use std::io;
use std::io::{Read, Write};

// More rows than this are not read, of either list.
const MOST: u64 = 100_000;

// Whether the function answers as the row says.
fn agrees(row: &Row) -> bool {
    let mut out = [[0u8; 8]; 2];
    let code = calls::run(row, out.as_flattened_mut());
    u64::from(code) == row.code && out.map(u64::from_le_bytes) == row.words
}

// Counts the rows of each function, which stand together, and stops at the first row that differs. A row that cannot be read whole
// is the end of the list.
fn main(rt: HostRuntime) -> io::Result<()> {
    let mut input = rt.stdin();
    let mut text = [0u8; HEAD];
    let mut rows = 0;
    let mut began = 0;
    let mut current = 0;
    for number in 1..=MOST {
        if input.read_exact(&mut text).is_err() {
            break;
        }
        let row = Row::from(&text);
        if !agrees(&row) {
            println!(rt; "{number} is the first row that differs:")?;
            return rt.stdout().write_all(&text);
        }
        if row.function != current {
            names::print(&rt, current, began..rows)?;
            current = row.function;
            began = rows;
        }
        rows = number;
    }
    names::print(&rt, current, began..rows)?;
    println!(rt; "{rows} stored answers, 0 differ")?;
    texts::replay(&rt)
}
