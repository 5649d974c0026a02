// What is written on standard error for a line that is answered with 9: the line's number, and why. A note is one line, and one write.
#![tactic(auto)]

ghost use Rattle.std.specs.Prelude.{◌≤◌, length};

use desk_reasons::{Fault, Reason};

mod names;
mod words;

// The bytes of a note. The longest has about 100.
const NOTE_BYTES: usize = 192;

// Writes why a line is answered with 9, as line 1 or as another. A write that fails here has nobody to be told.
pub fn tell(err: &impl Print, number: u64, first: bool, line: &[u8]) {
    let mut note: [u8; NOTE_BYTES] = [0; NOTE_BYTES];
    let letter = letter_of(line);
    let reason = desk_reasons::reason_at(first, line);
    let end = compose(&mut note, number, letter, reason);
    write(err, &note, end);
}

// Writes the first bytes of a buffer.
fn write(err: &impl Print, note: &[u8], end: usize)
    requires { end ≤ length note.now }
{
    streams::say(err, &note[..end]);
}

// The letter of a line, or 0 where it has no byte.
fn letter_of(line: &[u8]) -> u8 {
    line.first().copied().unwrap_or(0)
}

// Makes the bytes of a note. Tells how many they are.
fn compose(note: &mut [u8], number: u64, letter: u8, reason: Option<Reason>) -> usize
    ensures { result ≤ length note.new }
{
    let at = words::add(note, 0, b"desk: line ");
    let at = words::add_number(note, at, number);
    let at = words::add(note, at, b": ");
    let at = why(note, at, letter, reason);
    words::add(note, at, b"\n")
}

// A reason in words; nothing where there is none.
fn why(note: &mut [u8], at: usize, letter: u8, reason: Option<Reason>) -> usize
    requires { at ≤ length note.old }
    ensures { result ≤ length note.new }
{
    match reason {
        None => at,
        Some(Reason::Blank) => words::add(note, at, b"it is empty"),
        Some(Reason::Long) => words::add(note, at, b"it has more than 100 bytes"),
        Some(Reason::Field(n, fault)) => field(note, at, letter, n, fault),
        Some(Reason::Early) => words::add(note, at, b"it is not an s line"),
        Some(Reason::Late) => words::add(note, at, b"a second s line: only line 1 is one"),
    }
}

// A field, and what is wrong with it.
fn field(note: &mut [u8], at: usize, letter: u8, n: usize, fault: Fault) -> usize
    requires { at ≤ length note.old }
    ensures { result ≤ length note.new }
{
    let at = words::add(note, at, b"field ");
    let at = words::add_number(note, at, n as u64);
    let at = names::add(note, at, letter, n);
    wrong(note, at, fault)
}

// A fault in words.
fn wrong(note: &mut [u8], at: usize, fault: Fault) -> usize
    requires { at ≤ length note.old }
    ensures { result ≤ length note.new }
{
    match fault {
        Fault::Missing => words::add(note, at, b" is missing"),
        Fault::Extra => words::add(note, at, b" is one too many"),
        Fault::Empty => words::add(note, at, b" is empty: there is a space too many"),
        Fault::Return => words::add(note, at, b" has a CR in it: end lines with LF alone"),
        Fault::Tab => words::add(
            note,
            at,
            b" has a tab in it: separate fields with one space",
        ),
        Fault::Mark => words::add(note, at, b" begins with a byte order mark"),
        Fault::Letter => words::add(note, at, b" is not one of s, a, p, r, f, d"),
        Fault::Digits => words::add(note, at, b" is not a number"),
        Fault::Long => words::add(note, at, b" has more than 20 digits"),
        Fault::Large(most) => large(note, at, most),
    }
}

// A number is too large.
fn large(note: &mut [u8], at: usize, most: u64) -> usize
    requires { at ≤ length note.old }
    ensures { result ≤ length note.new }
{
    let at = words::add(note, at, b" is more than ");
    words::add_number(note, at, most)
}
