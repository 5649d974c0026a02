// A lesson, step by step: each step hands out at most one line for the desk and at most one note for a person.
#![tactic(auto)]

ghost use Rattle.std.specs.Prelude.{◌≡◌, ◌+◌, ◌-◌, ◌<◌, ◌≤◌, true, length, IfOk};
ghost use Rattle.exercise_lines.specs.Repeats.{within64, call_on};
ghost use Rattle.lesson_lines.specs.Lesson as Lesson;
ghost use Rattle.lesson_run.specs.Run as Run;

use desk_writer::DeskCall;
use lesson_lines::{Limits, Meaning, Wrong};
use lesson_words::Fault;

// What is told of a line, by its number.
#[derive(Clone, Copy)]
pub enum Note {
    Nothing,
    // The word that begins at this place of the line is at fault.
    Wrong(u64, usize, Fault),
    // Its first moment, which is before the clock; and the clock.
    Falls(u64, u64, u64),
}

// Where a run stands.
#[derive(Clone, Copy)]
pub struct Progress {
    // The place at which the next line begins.
    pub at: usize,
    // The number of the last line.
    pub number: u64,
    pub clock: u64,
    // The calls of the last line: the first one, how many are written, how many there are, and the spacing.
    pub call: DeskCall,
    pub place: u64,
    pub count: u64,
    pub spacing: u64,
}

// A step: where the run stands after it, how many bytes of a line it put, and what is to be told.
#[derive(Clone, Copy)]
pub struct Step {
    pub progress: Progress,
    pub size: usize,
    pub note: Note,
}

// Where a run begins: before the first line, after a byte order mark.
pub fn start(text: &[u8]) -> Progress
    ensures { result ≡ Run.start_at (Run.start_of text.now) }
{
    if is_marked(text) {
        return start_at(3);
    }
    start_at(0)
}

fn start_at(at: usize) -> Progress
    ensures { result ≡ Run.start_at at }
{
    at_line(at, 0, 0)
}

// At a line, with no call left of the line before.
fn at_line(at: usize, number: u64, clock: u64) -> Progress
    ensures { result ≡ Run.at_line at number clock }
{
    Progress {
        at,
        number,
        clock,
        call: DeskCall::Remove(0),
        place: 0,
        count: 0,
        spacing: 0,
    }
}

// Whether bytes begin with a byte order mark.
fn is_marked(text: &[u8]) -> bool
    ensures { result ≡ Run.is_marked text.now }
{
    text.starts_with(b"\xef\xbb\xbf")
}

// The next step, unless nothing is left. A line is put at the start of the buffer.
pub fn next(text: &[u8], out: &mut [u8], progress: Progress) -> Option<Step>
    requires { (170 ≤ length out.old) × Run.Good progress }
    ensures { Run.SteppedOrOver text.now progress result out.new }
{
    if progress.place < progress.count {
        return Some(next_call(out, progress));
    }
    let at = progress.at;
    if at < text.len() {
        let stop = scan::find(text, at, text.len(), b'\n');
        let line = lesson_lines::read(progress.clock, &text[at..stop]);
        let number = progress.number.wrapping_add(1);
        return Some(take(line, out, stop + 1, number, progress.clock));
    }
    None
}

// Puts the next of the calls that are left.
fn next_call(out: &mut [u8], progress: Progress) -> Step
    requires { (170 ≤ length out.old) × (progress.place < progress.count)
        × (within64 progress.spacing (progress.count - 1) progress.call ≡ true) }
    ensures { Run.CallPut progress result out.new }
{
    let first = progress.call;
    let call = exercise_lines::call_on(first, progress.spacing, progress.place);
    let written = desk_writer::write(call, out);
    let progress = Progress {
        at: progress.at,
        number: progress.number,
        clock: progress.clock,
        call: first,
        place: progress.place + 1,
        count: progress.count,
        spacing: progress.spacing,
    };
    Step {
        progress,
        size: written.size,
        note: Note::Nothing,
    }
}

// Takes a line by its meaning, or by what is wrong with it.
fn take(line: Result<Meaning, Wrong>, out: &mut [u8], at: usize, number: u64, clock: u64) -> Step
    requires { (170 ≤ length out.old) × IfOk line Run.CallsWithin }
    ensures { Run.LineTaken line at number clock result out.new }
{
    match line {
        Ok(Meaning::Blank) => quiet(at_line(at, number, clock), Note::Nothing),
        Ok(Meaning::SetUp(limits)) => set_up(limits, out, at_line(at, number, clock)),
        Ok(Meaning::Calls(call, count, spacing)) => calls(call, count, spacing, at, number, clock),
        Err(wrong) => quiet(
            at_line(at, number, clock),
            Note::Wrong(number, wrong.at, wrong.fault),
        ),
    }
}

// A step that puts no line.
fn quiet(progress: Progress, note: Note) -> Step
    ensures { result ≡ Run.quiet progress note }
{
    Step {
        progress,
        size: 0,
        note,
    }
}

// Puts a settings line.
fn set_up(limits: Limits, out: &mut [u8], progress: Progress) -> Step
    requires { 170 ≤ length out.old }
    ensures { Run.LimitsPut limits progress result out.new }
{
    let size = lesson_writer::put_limits(out, limits);
    Step {
        progress,
        size,
        note: Note::Nothing,
    }
}

// The calls of a line, none of them written yet.
fn calls(call: DeskCall, count: u64, spacing: u64, at: usize, number: u64, clock: u64) -> Step
    requires { within64 spacing (count - 1) call ≡ true }
    ensures { result ≡ Run.calls_begun call count spacing at number clock }
{
    let last = exercise_lines::call_on(call, spacing, exercise_lines::last(count));
    let progress = Progress {
        at,
        number,
        clock: moment_in(clock, last),
        call,
        place: 0,
        count,
        spacing,
    };
    quiet(progress, falls(number, moment_in(clock, call), clock))
}

// That a moment is before the clock.
fn falls(number: u64, moment: u64, clock: u64) -> Note
    ensures { result ≡ Run.falls_note number moment clock }
{
    if moment < clock {
        return Note::Falls(number, moment, clock);
    }
    Note::Nothing
}

// The moment of a call. One without a moment is at the clock.
fn moment_in(clock: u64, call: DeskCall) -> u64
    ensures { result ≡ Lesson.moment_in clock call }
{
    match call {
        DeskCall::Try(request) | DeskCall::Peek(request) | DeskCall::Reserve(request, _) => {
            request.at.0
        }
        DeskCall::Refund(_, _) | DeskCall::Remove(_) => clock,
    }
}

// How many lines a step put.
pub fn lines_in(size: usize) -> u64
    ensures { result ≡ Run.lines_in size }
{
    if size == 0 {
        return 0;
    }
    1
}

// How many lines were left out, by what is told.
pub fn wrong_in(note: Note) -> u64
    ensures { result ≡ Run.wrong_one note }
{
    match note {
        Note::Wrong(_, _, _) => 1,
        Note::Nothing | Note::Falls(_, _, _) => 0,
    }
}
