// What the program tells a person on standard error. A write that fails here has nobody to be told.
ghost use Rattle.std.specs.Prelude.{◌≤◌, length};

use lesson_run::Note;
use lesson_words::Fault;
use streams::{say, say_number};

// The most bytes of a line that are shown.
const SHOWN_BYTES: usize = 100;

// How many lines were written, and how many were left out.
pub(crate) fn summary(err: &impl Print, written: u64, wrong: u64) {
    say(err, b"lesson: lines written: ");
    say_number(err, written);
    say(err, b"; left out: ");
    say_number(err, wrong);
    say(err, b"\n");
}

// Tells a note of the line between two places of the text. The second one is past its LF.
pub(crate) fn tell(err: &impl Print, note: Note, text: &[u8], from: usize, next: usize) {
    match note {
        Note::Nothing => {}
        Note::Wrong(number, place, fault) => wrong(err, number, place, fault, text, from, next),
        Note::Falls(number, moment, clock) => falls(err, number, moment, clock),
    }
}

// That moments fall.
fn falls(err: &impl Print, number: u64, moment: u64, clock: u64) {
    line(err, number);
    say(err, b": the moment ");
    say_number(err, moment);
    say(err, b" is before ");
    say_number(err, clock);
    say(
        err,
        b", the last one written: a clock set back, if that is meant\n",
    );
}

fn line(err: &impl Print, number: u64) {
    say(err, b"lesson: line ");
    say_number(err, number);
}

// What is wrong with a line, and its text.
fn wrong(
    err: &impl Print,
    number: u64,
    place: usize,
    fault: Fault,
    text: &[u8],
    from: usize,
    next: usize,
) {
    line(err, number);
    say(err, b", column ");
    say_number(err, (place as u64).wrapping_add(1));
    say(err, b": ");
    why(err, fault);
    say(err, b"\n    ");
    show(err, text, from, next);
    say(err, b"\n");
}

// Shows the first bytes of a line. A byte that is no printed character is shown as a question mark.
fn show(err: &impl Print, text: &[u8], from: usize, next: usize) {
    let mut shown: [u8; SHOWN_BYTES] = [b' '; SHOWN_BYTES];
    let size = copy(text, from, next, &mut shown);
    write(err, &shown, size);
}

fn write(err: &impl Print, shown: &[u8], size: usize)
    requires { size ≤ length shown.now }
{
    say(err, &shown[0..size]);
}

// Copies the bytes of a line up to its LF or CR. Tells how many they are.
fn copy(text: &[u8], from: usize, next: usize, shown: &mut [u8]) -> usize
    ensures { result ≤ length shown.new }
{
    for size in 0..shown.len() {
        let at = from.wrapping_add(size);
        if at >= next || at >= text.len() || is_end(text[at]) {
            return size;
        }
        shown[size] = printed(text[at]);
    }
    shown.len()
}

fn is_end(byte: u8) -> bool {
    matches!(byte, b'\n' | b'\r')
}

// A tab as a space, and any other byte that is no printed character as a question mark.
fn printed(byte: u8) -> u8 {
    match byte {
        b'\t' => b' ',
        b' '..=b'~' => byte,
        _ => b'?',
    }
}

// A fault in words.
fn why(err: &impl Print, fault: Fault) {
    match fault {
        Fault::Missing => say(err, b"a word is missing"),
        Fault::Extra => say(err, b"one word too many"),
        Fault::Letter => say(
            err,
            b"not a letter of a lesson: s, a, p, r, f, d or v, and after v a call",
        ),
        Fault::Number => say(err, b"not a number"),
        Fault::Large(most) => large(err, most),
        Fault::Zero => say(err, b"a count of 0: it is 1 at least"),
        Fault::Time => say(err, b"not a time, such as 1500, 20ms, 0.5s, 2min or 1h"),
        Fault::Long => say(err, b"a time with a point or a unit has 17 digits at most"),
        Fault::Split => say(
            err,
            b"not a whole number of nanoseconds; without a unit a number is in nanoseconds",
        ),
        Fault::Far => say(err, b"a moment or a modem's number past 64 bits"),
        Fault::Modem => say(
            err,
            b"neither the number of a modem nor an address such as 00:1a:2b:3c:4d:5e",
        ),
        Fault::Wide => say(
            err,
            b"the settings line would have more than 100 bytes, which the desk does not read",
        ),
    }
}

fn large(err: &impl Print, most: u64) {
    say(err, b"more than ");
    say_number(err, most);
}
