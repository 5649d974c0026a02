// The words of a lesson: where a line's next word is, and the number that a word stands for, or what is wrong with it.
#![tactic(auto)]

ghost use Rattle.std.specs.Prelude.{◌≡◌, ◌+◌, ◌≤◌, length, drop};
ghost use Rattle.decimal.specs.Decimal.{all_digits};
ghost use Rattle.lesson_words.specs.Words as Words;
ghost use Rattle.lesson_words.specs.Values as Values;

pub mod addresses;
pub mod times;

// What a word has to be.
#[derive(Clone, Copy)]
pub enum Kind {
    // A number of at most this.
    Number(u64),
    // How often a call is made.
    Count,
    Time,
    Moment,
    Modem,
}

// What is wrong with a word.
#[derive(Clone, Copy)]
pub enum Fault {
    // The line ends before it.
    Missing,
    // A line of this letter has no such word.
    Extra,
    // It is no letter of a lesson.
    Letter,
    // It is no number.
    Number,
    // Its number is more than this.
    Large(u64),
    // It is a count of 0.
    Zero,
    // It is no time.
    Time,
    // It is a time of more than 17 digits.
    Long,
    // It is a time that is no whole number of nanoseconds.
    Split,
    // It comes to more than 64 bits.
    Far,
    // It is neither a number nor an address.
    Modem,
    // It begins a settings line that has more bytes than the desk reads.
    Wide,
}

// The largest count.
pub const MOST_CALLS: u64 = 65536;

// Whether a byte separates words.
#[tactic(auto, unfolding(crate::specs::Words::is_blank))]
pub fn is_blank(byte: u8) -> bool
    ensures { result ≡ Words.is_blank byte }
{
    matches!(byte, b' ' | b'\t' | b'\r')
}

// The place of the next word's first byte, from a place on; the end of the line where there is none.
pub fn word_start(line: &[u8], from: usize) -> usize
    requires { from ≤ length line.now }
    ensures { result ≡ from + Words.blanks_ahead (drop from line.now) }
{
    for at in from..line.len() {
        if !is_blank(line[at]) {
            return at;
        }
    }
    line.len()
}

// The place after the word that begins at a place.
pub fn word_end(line: &[u8], from: usize) -> usize
    requires { from ≤ length line.now }
    ensures { result ≡ from + Words.word_size (drop from line.now) }
{
    for at in from..line.len() {
        if is_blank(line[at]) {
            return at;
        }
    }
    line.len()
}

// A capital letter as the small letter.
#[tactic(auto, unfolding(crate::specs::Words::small))]
pub fn small(byte: u8) -> u8
    ensures { result ≡ Words.small byte }
{
    byte.to_ascii_lowercase()
}

// The number that a word stands for, by what it has to be. A moment may be counted from the clock.
pub fn value_of(kind: Kind, clock: u64, word: &[u8]) -> Result<u64, Fault>
    ensures { result ≡ Values.value_of kind clock word.now }
{
    match kind {
        Kind::Number(most) => plain(most, word),
        Kind::Count => count(word),
        Kind::Time => times::time(word),
        Kind::Moment => moment(clock, word),
        Kind::Modem => modem(word),
    }
}

// A number of at most `most`.
fn plain(most: u64, word: &[u8]) -> Result<u64, Fault>
    ensures { result ≡ Values.plain_of most word.now }
{
    decimal::number(word, most).ok_or_else(|| number_fault(most, word))
}

// What is wrong with a word that is no number.
#[tactic(auto, unfolding(crate::specs::Values::number_fault))]
fn number_fault(most: u64, word: &[u8]) -> Fault
    ensures { result ≡ Values.number_fault most word.now }
{
    if all_digits(word) {
        return Fault::Large(most);
    }
    Fault::Number
}

// Whether all bytes of a word are digits.
fn all_digits(word: &[u8]) -> bool
    ensures { result ≡ all_digits word.now }
{
    word.iter().all(|byte| byte.is_ascii_digit())
}

// A count, which is not 0.
fn count(word: &[u8]) -> Result<u64, Fault>
    ensures { result ≡ Values.count_of word.now }
{
    let count = plain(MOST_CALLS, word)?;
    if count == 0 {
        return Err(Fault::Zero);
    }
    Ok(count)
}

// A moment: a time, or after a plus sign a time after the clock.
fn moment(clock: u64, word: &[u8]) -> Result<u64, Fault>
    ensures { result ≡ Values.moment_of clock word.now }
{
    match word.strip_prefix(b"+") {
        Some(time) => later(clock, times::time(time)?),
        None => times::time(word),
    }
}

// A time after the clock.
fn later(clock: u64, time: u64) -> Result<u64, Fault>
    ensures { result ≡ Values.later clock time }
{
    clock.checked_add(time).ok_or(Fault::Far)
}

// A modem: its number, or its address.
fn modem(word: &[u8]) -> Result<u64, Fault>
    ensures { result ≡ Values.modem_of word.now }
{
    decimal::number(word, u64::MAX)
        .or_else(|| addresses::address(word))
        .ok_or(Fault::Modem)
}
