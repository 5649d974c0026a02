// The words of a line, taken one after the other.
ghost use Rattle.std.specs.Prelude.{◌≡◌, ◌≤◌, length};
ghost use Rattle.lesson_lines.specs.Lesson as Lesson;

use crate::Wrong;
use lesson_words::{Fault, Kind};

// A letter, and the places where it begins and ends.
#[derive(Clone, Copy)]
pub struct Letter {
    pub value: u8,
    pub from: usize,
    pub end: usize,
}

// Where the next word begins: at the end of the line, or where the reading stands if that is past it, where there is none.
pub(crate) fn word_from(line: &[u8], at: usize) -> usize
    ensures { result ≡ Lesson.word_from line.now at }
{
    if line.len() < at {
        return at;
    }
    lesson_words::word_start(line, at)
}

// Where a word ends.
fn word_end(line: &[u8], from: usize) -> usize
    ensures { result ≡ Lesson.word_end line.now from }
{
    if line.len() < from {
        return from;
    }
    lesson_words::word_end(line, from)
}

// The next word from a place on, as what it has to be, and the place after it.
pub(crate) fn next_number(
    line: &[u8],
    kind: Kind,
    clock: u64,
    at: usize,
) -> Result<(u64, usize), Wrong>
    ensures { result ≡ Lesson.taken line.now kind clock at }
{
    let from = word_from(line, at);
    number_at(line, kind, clock, from, word_end(line, from))
}

// A word between two places, as what it has to be. There is none between equal places.
fn number_at(
    line: &[u8],
    kind: Kind,
    clock: u64,
    from: usize,
    end: usize,
) -> Result<(u64, usize), Wrong>
    requires { Lesson.Between from end (length line.now) }
    ensures { result ≡ Lesson.taken_at line.now kind clock from end }
{
    if from == end {
        return Err(Wrong {
            at: from,
            fault: Fault::Missing,
        });
    }
    match lesson_words::value_of(kind, clock, &line[from..end]) {
        Ok(value) => Ok((value, end)),
        Err(fault) => Err(Wrong { at: from, fault }),
    }
}

// The next word as a letter.
pub(crate) fn next_letter(line: &[u8], at: usize) -> Result<Letter, Wrong>
    ensures { result ≡ Lesson.taken_letter line.now at }
{
    let from = word_from(line, at);
    letter_at(line, from, word_end(line, from))
}

// The word between two places as a letter.
fn letter_at(line: &[u8], from: usize, end: usize) -> Result<Letter, Wrong>
    requires { Lesson.Between from end (length line.now) }
    ensures { result ≡ Lesson.letter_at line.now from end }
{
    match end - from {
        0 => Err(Wrong {
            at: from,
            fault: Fault::Missing,
        }),
        1 => Ok(Letter {
            value: lesson_words::small(line[from]),
            from,
            end,
        }),
        _ => Err(Wrong {
            at: from,
            fault: Fault::Letter,
        }),
    }
}

// The next word as an idle time.
pub(crate) fn next_idle(line: &[u8], at: usize) -> Result<(Option<u64>, usize), Wrong>
    ensures { result ≡ Lesson.taken_idle line.now at }
{
    let from = word_from(line, at);
    idle_at(line, from, word_end(line, from))
}

// The word between two places as an idle time.
fn idle_at(line: &[u8], from: usize, end: usize) -> Result<(Option<u64>, usize), Wrong>
    requires { Lesson.Between from end (length line.now) }
    ensures { result ≡ Lesson.idle_at line.now from end }
{
    if dash_at(line, from, end) {
        return Ok((None, end));
    }
    let (time, after) = number_at(line, Kind::Time, 0, from, end)?;
    Ok((Some(time), after))
}

// Whether the word between two places is the one byte `-`.
fn dash_at(line: &[u8], from: usize, end: usize) -> bool
    requires { Lesson.Between from end (length line.now) }
    ensures { result ≡ Lesson.dash_at line.now from end }
{
    if end - from == 1 {
        return line[from] == b'-';
    }
    false
}

// No word may be left.
#[tactic(auto, unfolding(crate::specs::Lesson::finished))]
pub(crate) fn finish(line: &[u8], at: usize) -> Result<(), Wrong>
    ensures { result ≡ Lesson.finished line.now at }
{
    let from = word_from(line, at);
    if from == word_end(line, from) {
        return Ok(());
    }
    Err(Wrong {
        at: from,
        fault: Fault::Extra,
    })
}
