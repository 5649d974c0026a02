// The lines of a lesson: what a line means, or what is wrong with it and where.
#![tactic(auto)]

ghost use Rattle.std.specs.Prelude.{◌≡◌, ◌≤◌, length};
ghost use Rattle.desk_writer.specs.Writer.{field};
ghost use Rattle.lesson_lines.specs.Lesson as Lesson;
ghost use Rattle.lesson_lines.specs.Written.{idle_field, limits_bytes};

use desk_lines::LONGEST_LINE;
use desk_writer::DeskCall;
use lesson_words::{Fault, Kind};
use words::Letter;

mod calls;
mod words;

// The numbers of a settings line.
#[derive(Clone, Copy)]
pub struct Limits {
    pub amount: u32,
    // In nanoseconds.
    pub period: u64,
    pub burst: u32,
    pub initial: u32,
    pub modems: u64,
    pub shards: u64,
    // In nanoseconds.
    pub idle: Option<u64>,
    // 0 or 1.
    pub when_full: u64,
}

// What a line means.
#[derive(Clone, Copy)]
pub enum Meaning {
    // It is empty.
    Blank,
    SetUp(Limits),
    // The first call, how many they are, and the spacing. Every number of every call has at most 64 bits.
    Calls(DeskCall, u64, u64),
}

// What is wrong with a line: the word that begins at a place of it.
#[derive(Clone, Copy)]
pub struct Wrong {
    pub at: usize,
    pub fault: Fault,
}

// What a line means, where relative moments are counted from the clock. The line has no LF.
pub fn read(clock: u64, line: &[u8]) -> Result<Meaning, Wrong>
    ensures { result ≡ Lesson.meaning_of clock line.now }
{
    let stop = scan::find(line, 0, line.len(), b'#');
    of_words(clock, &line[0..stop])
}

// What the words of a line mean.
#[tactic(auto, unfolding(crate::specs::Lesson::words_mean))]
fn of_words(clock: u64, line: &[u8]) -> Result<Meaning, Wrong>
    ensures { result ≡ Lesson.words_mean clock line.now }
{
    if words::word_from(line, 0) == line.len() {
        return Ok(Meaning::Blank);
    }
    by_letter(line, clock, words::next_letter(line, 0)?)
}

#[tactic(auto, unfolding(crate::specs::Lesson::by_letter))]
fn by_letter(line: &[u8], clock: u64, letter: Letter) -> Result<Meaning, Wrong>
    ensures { result ≡ Lesson.by_letter line.now clock letter }
{
    match letter.value {
        b's' => settings_line(line, letter),
        b'v' => village_line(line, clock, letter),
        _ => village_of(letter.from, 1, 0, calls::read(line, clock, letter)?),
    }
}

// `v`: a count, a spacing and a call.
#[tactic(auto, unfolding(crate::specs::Lesson::village))]
fn village_line(line: &[u8], clock: u64, v: Letter) -> Result<Meaning, Wrong>
    ensures { result ≡ Lesson.village line.now clock v }
{
    let (count, at) = words::next_number(line, Kind::Count, clock, v.end)?;
    let (spacing, at) = words::next_number(line, Kind::Time, clock, at)?;
    let letter = words::next_letter(line, at)?;
    let call = calls::read(line, clock, letter)?;
    village_of(v.from, count, spacing, call)
}

// The calls, unless a number of the last one has more than 64 bits.
#[tactic(auto, unfolding(crate::specs::Lesson::village_of))]
fn village_of(from: usize, count: u64, spacing: u64, call: DeskCall) -> Result<Meaning, Wrong>
    ensures { result ≡ Lesson.village_of from count spacing call }
{
    if exercise_lines::is_within(call, spacing, exercise_lines::last(count)) {
        return Ok(Meaning::Calls(call, count, spacing));
    }
    Err(Wrong {
        at: from,
        fault: Fault::Far,
    })
}

// `s`: the limits.
#[tactic(auto, unfolding(crate::specs::Lesson::settings))]
fn settings_line(line: &[u8], s: Letter) -> Result<Meaning, Wrong>
    ensures { result ≡ Lesson.settings line.now s }
{
    let (limits, at) = limits_in(line, s.end)?;
    words::finish(line, at)?;
    set_up(s.from, limits)
}

// The limits, unless the desk's line would be too long.
#[tactic(auto, unfolding(crate::specs::Lesson::set_up_by))]
fn set_up(from: usize, limits: Limits) -> Result<Meaning, Wrong>
    ensures { result ≡ Lesson.set_up_by from limits }
{
    if limits_size(limits) <= LONGEST_LINE {
        return Ok(Meaning::SetUp(limits));
    }
    Err(Wrong {
        at: from,
        fault: Fault::Wide,
    })
}

// The numbers of a settings line, and the place after them.
#[tactic(auto, unfolding(crate::specs::Lesson::taken_limits))]
fn limits_in(line: &[u8], at: usize) -> Result<(Limits, usize), Wrong>
    ensures { result ≡ Lesson.taken_limits line.now at }
{
    let (amount, at) = words::next_number(line, Kind::Number(calls::MOST_32), 0, at)?;
    let (period, at) = words::next_number(line, Kind::Time, 0, at)?;
    let (burst, at) = words::next_number(line, Kind::Number(calls::MOST_32), 0, at)?;
    let (initial, at) = words::next_number(line, Kind::Number(calls::MOST_32), 0, at)?;
    let (modems, at) = words::next_number(line, Kind::Number(u64::MAX), 0, at)?;
    let (shards, at) = words::next_number(line, Kind::Number(u64::MAX), 0, at)?;
    let (idle, at) = words::next_idle(line, at)?;
    let (when_full, at) = words::next_number(line, Kind::Number(1), 0, at)?;
    let limits = Limits {
        amount: amount as u32,
        period,
        burst: burst as u32,
        initial: initial as u32,
        modems,
        shards,
        idle,
        when_full,
    };
    Ok((limits, at))
}

// How many bytes a settings line has, without its LF.
fn limits_size(limits: Limits) -> usize
    ensures { result ≡ length (limits_bytes limits) }
{
    let idle = limits.idle;
    let rate = field_size(limits.amount as u64)
        + field_size(limits.period)
        + field_size(limits.burst as u64)
        + field_size(limits.initial as u64);
    let room = field_size(limits.modems) + field_size(limits.shards);
    1 + rate + room + idle_size(idle) + field_size(limits.when_full)
}

// How many bytes a number has, with the space in front.
fn field_size(n: u64) -> usize
    ensures { (result ≡ length (field n)) × (result ≤ 21) }
{
    1 + decimal::width(n)
}

// How many bytes an idle time has, with the space in front.
fn idle_size(idle: Option<u64>) -> usize
    ensures { (result ≡ length (idle_field idle)) × (result ≤ 21) }
{
    match idle {
        Some(n) => field_size(n),
        None => 2,
    }
}
