// Rows of text, which begin with eight fields: a number of 16 hex digits in each, and a byte behind it.

// The bytes of the eight fields.
pub const HEAD: usize = 8 * 17;

// A row of the list: the function's number, its arguments, the number that it must return and the words that it must write.
#[derive(Drop)]
pub struct Row {
    pub function: u64,
    pub arguments: [u64; 4],
    pub code: u64,
    pub words: [u64; 2],
}

impl From<&[u8; HEAD]> for Row {
    fn from(text: &[u8; HEAD]) -> Row {
        let [function, a, b, c, d, code, low, high] = numbers(text);
        Row {
            function,
            arguments: [a, b, c, d],
            code,
            words: [low, high],
        }
    }
}

impl Row {
    // The duration that the first two arguments are.
    pub fn first(&self) -> (u64, u32) {
        (self.arguments[0], half(self.arguments[1]))
    }

    // The duration that the other two are.
    pub fn second(&self) -> (u64, u32) {
        (self.arguments[2], half(self.arguments[3]))
    }
}

// The low half of a word.
pub fn half(n: u64) -> u32 {
    (n % 0x1_0000_0000) as u32
}

// What a hex digit is worth. Not `to_digit`: any other byte is worth nothing here, a small letter too.
pub fn digit(b: u8) -> u8 {
    match b {
        b'0'..=b'9' => b - b'0',
        b'A'..=b'F' => b - b'A' + 10,
        _ => 0,
    }
}

// The numbers in the first eight fields.
pub fn numbers(text: &[u8]) -> [u64; 8] {
    let mut numbers = [0; 8];
    let (fields, _) = text.as_chunks::<17>();
    for (number, field) in numbers.iter_mut().zip(fields) {
        *number = field[..16]
            .iter()
            .fold(0, |n, b| n << 4 | u64::from(digit(*b)));
    }
    numbers
}
