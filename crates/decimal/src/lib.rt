// Numbers as decimal digits: read from a field, and written.
#![tactic(auto)]

ghost use Rattle.std.specs.Prelude.{◌≡◌, ◌+◌, ◌≤◌, length};
ghost use Rattle.rows.specs.Outcome.{outcome};
ghost use Rattle.decimal.specs.Decimal.{front_of, at_most, number_of, digits_of, written};

// The digits that bytes begin with from a place on, as a number, and the place after them.
#[derive(Clone, Copy)]
pub struct Digits {
    pub value: u64,
    pub end: usize,
}

// Reads the digits from a place on, up to 19 of them: so many never pass 64 bits.
pub fn front(bytes: &[u8], from: usize) -> Digits
    requires { from ≤ length bytes.now }
    ensures { result ≡ front_of bytes.now from }
{
    let stop = from + (bytes.len() - from).min(19);
    let mut value: u64 = 0;
    for end in from..stop {
        let byte = bytes[end];
        if !byte.is_ascii_digit() {
            return Digits { value, end };
        }
        value = 10 * value + (byte - b'0') as u64;
    }
    Digits { value, end: stop }
}

// A value as a number that is at most `most`.
pub fn at_most(value: u64, most: u64) -> Option<u64>
    ensures { result ≡ at_most most value }
{
    if value > most {
        return None;
    }
    Some(value)
}

// The number that the bytes are in decimal, if they are 1 to 20 digits and it is at most `most`. Only a 20th digit can pass 64 bits.
pub fn number(bytes: &[u8], most: u64) -> Option<u64>
    ensures { result ≡ number_of most bytes.now }
{
    if bytes.len() < 1 || bytes.len() > 20 {
        return None;
    }
    let Digits { value, end } = front(bytes, 0);
    if end == bytes.len() {
        return at_most(value, most);
    }
    let byte = bytes[end];
    if !byte.is_ascii_digit() {
        return None;
    }
    let digit = (byte - b'0') as u64;
    at_most(value.checked_mul(10)?.checked_add(digit)?, most)
}

// How many digits a number has. 0 has one, as 1 has.
pub fn width(n: u64) -> usize
    ensures { result ≡ length (digits_of n) }
{
    n.max(1).ilog10() as usize + 1
}

// Writes the digits of a number into `out` from a place on, the last one first. Tells the place after them.
pub fn put(out: &mut [u8], at: usize, n: u64) -> usize
    requires { at + length (digits_of n) ≤ length out.old }
    ensures { outcome result out.new ≡ written at n out.old }
{
    if n < 10 {
        out[at] = b'0' + n as u8;
        return at + 1;
    }
    let end = at + width(n);
    let mut rest = n;
    for i in (at..end).rev() {
        out[i] = b'0' + (rest % 10) as u8;
        rest /= 10;
    }
    end
}
