// Times: a number of nanoseconds, or a decimal number with a unit.
ghost use Rattle.std.specs.Prelude.{◌≡◌, ◌+◌, ◌*◌, ◌^◌, ◌≤◌, ◌<◌, length};
ghost use Rattle.lesson_words.specs.Times as Times;

use crate::{Fault, small};
use decimal::Digits;

// A unit has `by` times ten to the power `tens` nanoseconds.
#[derive(Clone, Copy)]
pub struct Unit {
    pub by: u64,
    pub tens: usize,
}

// The digits after a point as a number, how many they are, and the place after them.
#[derive(Clone, Copy)]
pub struct Fraction {
    pub value: u64,
    pub places: usize,
    pub end: usize,
}

// The most digits that a number with a point or a unit may have.
const MOST_DIGITS: usize = 17;

// A time. A plain number is in nanoseconds.
#[tactic(auto, unfolding(crate::specs::Times::time_of))]
pub fn time(word: &[u8]) -> Result<u64, Fault>
    ensures { result ≡ Times.time_of word.now }
{
    match decimal::number(word, u64::MAX) {
        Some(nanos) => Ok(nanos),
        None => with_unit(word),
    }
}

// A decimal number with a unit.
fn with_unit(word: &[u8]) -> Result<u64, Fault>
    ensures { result ≡ Times.with_unit word.now }
{
    let whole = decimal::front(word, 0);
    let fraction = fraction_at(word, whole.end);
    let end = fraction.end;
    let unit = unit_of(&word[end..]).ok_or(Fault::Time)?;
    of_decimal(whole, fraction, unit)
}

// What comes after the digits before a place.
fn fraction_at(word: &[u8], end: usize) -> Fraction
    requires { end ≤ length word.now }
    ensures { result ≡ Times.fraction_of word.now end }
{
    if end == word.len() {
        return none(end);
    }
    if word[end] == b'.' {
        let digits = decimal::front(word, end + 1);
        return Fraction {
            value: digits.value,
            places: digits.end - (end + 1),
            end: digits.end,
        };
    }
    none(end)
}

// No fraction.
fn none(end: usize) -> Fraction
    ensures { result ≡ Times.no_fraction end }
{
    Fraction {
        value: 0,
        places: 0,
        end,
    }
}

// The unit that bytes are. No bytes are nanoseconds.
fn unit_of(bytes: &[u8]) -> Option<Unit>
    ensures { result ≡ Times.unit_of bytes.now }
{
    match bytes {
        [] => Some(Unit { by: 1, tens: 0 }),
        [a] => one_letter(small(*a)),
        [a, b] => two_letters(small(*a), small(*b)),
        [a, b, c] => three_letters(small(*a), small(*b), small(*c)),
        _ => None,
    }
}

#[tactic(auto, unfolding(crate::specs::Times::one_letter))]
fn one_letter(a: u8) -> Option<Unit>
    ensures { result ≡ Times.one_letter a }
{
    match a {
        b's' => Some(Unit { by: 1, tens: 9 }),
        b'h' => Some(Unit { by: 36, tens: 11 }),
        _ => None,
    }
}

#[tactic(auto, unfolding(crate::specs::Times::two_letters))]
fn two_letters(a: u8, b: u8) -> Option<Unit>
    ensures { result ≡ Times.two_letters a b }
{
    match b {
        b's' => part_of_second(a),
        _ => None,
    }
}

#[tactic(auto, unfolding(crate::specs::Times::part_of_second))]
fn part_of_second(a: u8) -> Option<Unit>
    ensures { result ≡ Times.part_of_second a }
{
    match a {
        b'n' => Some(Unit { by: 1, tens: 0 }),
        b'u' => Some(Unit { by: 1, tens: 3 }),
        b'm' => Some(Unit { by: 1, tens: 6 }),
        _ => None,
    }
}

#[tactic(auto, unfolding(crate::specs::Times::three_letters))]
fn three_letters(a: u8, b: u8, c: u8) -> Option<Unit>
    ensures { result ≡ Times.three_letters a b c }
{
    match (a, b, c) {
        (b'm', b'i', b'n') => Some(Unit { by: 6, tens: 10 }),
        _ => None,
    }
}

// Digits, with a point among them or not, and a unit.
fn of_decimal(whole: Digits, fraction: Fraction, unit: Unit) -> Result<u64, Fault>
    requires { (whole.value < 10 ^ whole.end) × (fraction.value < 10 ^ fraction.places) × (whole.end ≤ 19) × (fraction.places ≤ 19)
        × (0 < unit.by) × (unit.by ≤ 36) × (unit.tens ≤ 11) }
    ensures { result ≡ Times.of_decimal whole fraction unit }
{
    let count = whole.end + fraction.places;
    if count == 0 {
        return Err(Fault::Time);
    }
    if count > MOST_DIGITS {
        return Err(Fault::Long);
    }
    let digits = whole.value * power(fraction.places) + fraction.value;
    in_nanos(digits, fraction.places, unit)
}

// A number of units in nanoseconds: its digits as one number, of which so many come after the point.
fn in_nanos(digits: u64, places: usize, unit: Unit) -> Result<u64, Fault>
    requires { (digits < 10 ^ 17) × (places ≤ 17) × (unit.by ≤ 36) × (0 < unit.by) × (unit.tens ≤ 11) }
    ensures { result ≡ Times.in_nanos digits places unit }
{
    if places <= unit.tens {
        return product(digits, unit.by * power(unit.tens - places));
    }
    quotient(digits * unit.by, power(places - unit.tens))
}

// A product, if it has at most 64 bits.
#[tactic(auto, unfolding(crate::specs::Times::product_of))]
fn product(n: u64, by: u64) -> Result<u64, Fault>
    ensures { result ≡ Times.product_of n by }
{
    n.checked_mul(by).ok_or(Fault::Far)
}

// A quotient, if nothing is left over.
#[tactic(auto, unfolding(crate::specs::Times::quotient_of))]
fn quotient(n: u64, by: u64) -> Result<u64, Fault>
    requires { 0 < by }
    ensures { result ≡ Times.quotient_of n by }
{
    if n % by == 0 {
        return Ok(n / by);
    }
    Err(Fault::Split)
}

// A power of ten.
#[tactic(auto, using(crate::proofs::TimeLaws::power_fits))]
fn power(n: usize) -> u64
    requires { n ≤ 17 }
    ensures { result ≡ 10 ^ n }
{
    10u64.pow(n as u32)
}
