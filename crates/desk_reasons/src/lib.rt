// Why a line of the desk is answered with 9: the first of its fields that is at fault and what is wrong with it, or the line's place in the input.
#![tactic(auto)]

ghost use Rattle.std.specs.Prelude.{◌≡◌, ◌+◌, ◌^◌, ◌≤◌, ◌<◌, length};
ghost use Rattle.desk_lines.specs.Fields.{fields_from};
ghost use Rattle.desk_lines.specs.Lines.{longest_line};
ghost use Rattle.desk_reasons.specs.Reasons as Reasons;

use desk_lines::{LONGEST_LINE, Line};
use kinds::Kind;

mod faults;
mod kinds;

// What is wrong with a field.
#[derive(Clone, Copy)]
pub enum Fault {
    // The line ends before it.
    Missing,
    // A line of this letter has no such field.
    Extra,
    // It has no byte.
    Empty,
    // It has a CR in it.
    Return,
    // It has a tab in it.
    Tab,
    // It begins with a byte order mark.
    Mark,
    // It is no letter of the desk.
    Letter,
    // It has a byte that is no digit.
    Digits,
    // It has more than 20 digits.
    Long,
    // Its number is more than this.
    Large(u64),
}

// Why a line is answered with 9.
#[derive(Clone, Copy)]
pub enum Reason {
    // It has no byte.
    Blank,
    // It has more bytes than a line may have.
    Long,
    // The field of this number, the letter being 1, is at fault.
    Field(usize, Fault),
    // It is line 1, and no settings line.
    Early,
    // It is a settings line, and not line 1.
    Late,
}

// Why a line is answered with 9, as line 1 or as another, if it is.
pub fn reason_at(first: bool, line: &[u8]) -> Option<Reason>
    ensures { result ≡ Reasons.reason_at first line.now }
{
    if let Some(reason) = reason_of(line) {
        return Some(reason);
    }
    out_of_place(first, is_set_up(desk_lines::read(line)))
}

// Whether a line sets the store up.
fn is_set_up(line: Line) -> bool
    ensures { result ≡ Reasons.is_set_up line }
{
    matches!(line, Line::SetUp(_))
}

// Line 1 sets the store up, and no other line does.
fn out_of_place(first: bool, sets_up: bool) -> Option<Reason>
    ensures { result ≡ Reasons.out_of_place first sets_up }
{
    match (first, sets_up) {
        (true, false) => Some(Reason::Early),
        (false, true) => Some(Reason::Late),
        _ => None,
    }
}

// Why a line is malformed, whichever line it is, if it is.
pub fn reason_of(line: &[u8]) -> Option<Reason>
    ensures { result ≡ Reasons.reason_of line.now }
{
    if line.is_empty() {
        return Some(Reason::Blank);
    }
    if LONGEST_LINE < line.len() {
        return Some(Reason::Long);
    }
    let end = scan::find(line, 0, line.len(), b' ');
    match kinds::letter_in(&line[..end]) {
        None => Some(Reason::Field(1, faults::of_letter(&line[..end]))),
        Some(letter) => of_fields(line, letter, end + 1),
    }
}

// The first fault among the fields after the letter, which begin at a place.
fn of_fields(line: &[u8], letter: u8, from: usize) -> Option<Reason>
    requires { length line.now ≤ longest_line }
    ensures { result ≡ Reasons.fields_reason 0 (Reasons.kinds_of letter) (fields_from line.now from) }
{
    let mut at = from;
    let mut i: usize = 0;
    while at <= line.len() {
        let end = scan::find(line, at, line.len(), b' ');
        let kind = kinds::at(letter, i);
        if !kinds::accepts(kind, &line[at..end]) {
            return Some(Reason::Field(i + 2, faults::of_field(kind, &line[at..end])));
        }
        at = end + 1;
        i += 1;
    }
    at_end(kinds::at(letter, i), i)
}

// The line ends before a field: that is missing, if there is one.
fn at_end(kind: Option<Kind>, i: usize) -> Option<Reason>
    requires { i + 2 < 2 ^ 64 }
    ensures { result ≡ Reasons.end_reason kind i }
{
    kind?;
    Some(Reason::Field(i + 2, Fault::Missing))
}
