// Decimal numbers, read from the text of recorded cases, in which any other bytes part them. For test programs alone.
#![tactic(auto)]

ghost use Rattle.std.specs.Prelude.{◌≤◌, length, IfOk};

use std::io;
use std::io::Read;

// A number, and where the reading stands after it and the bytes that part it from the next.
#[derive(Clone, Copy)]
pub struct Number {
    pub value: u64,
    pub at: usize,
}

// Reads until the text is full or the input ends. Tells how many bytes were read.
pub fn read_full<R: Read>(source: &mut R, text: &mut [u8]) -> io::Result<usize>
    ensures { IfOk result (λ n. n ≤ length text.new) }
{
    let mut size: usize = 0;
    while size < text.len() {
        let count = source.read(&mut text[size..])?;
        if count == 0 {
            break;
        }
        size += count;
    }
    Ok(size)
}

// The number that begins here, 0 where no digit stands.
pub fn read_number(text: &[u8], from: usize) -> Number {
    let mut value: u64 = 0;
    for at in from..text.len() {
        if !text[at].is_ascii_digit() {
            return Number {
                value,
                at: skip_to_digit(text, at),
            };
        }
        value = with_digit(value, text[at]);
    }
    Number {
        value,
        at: text.len(),
    }
}

// The first place from here on that has a digit, or the end of the text.
pub fn skip_to_digit(text: &[u8], from: usize) -> usize {
    for at in from..text.len() {
        if text[at].is_ascii_digit() {
            return at;
        }
    }
    text.len()
}

// A number held to 32 bits.
pub fn narrow(number: u64) -> u32 {
    u32::try_from(number).unwrap_or(u32::MAX)
}

// The number with one more digit, held to 64 bits.
fn with_digit(value: u64, byte: u8) -> u64 {
    let digit = (byte as u64).saturating_sub(48);
    arith::saturating_mul(value, 10).saturating_add(digit)
}
