// The calls of a lesson: a letter and its words.
ghost use Rattle.std.specs.Prelude.{◌≡◌};
ghost use Rattle.lesson_lines.specs.Lesson as Lesson;

use crate::words::Letter;
use crate::{Wrong, words};
use desk_lines::Request;
use desk_writer::DeskCall;
use lesson_words::{Fault, Kind};
use units::Nanos;

// The largest number of 32 bits.
pub(crate) const MOST_32: u64 = 0xffff_ffff;

// The call of a letter.
#[tactic(auto, unfolding(crate::specs::Lesson::call_of))]
pub(crate) fn read(line: &[u8], clock: u64, letter: Letter) -> Result<DeskCall, Wrong>
    ensures { result ≡ Lesson.call_of line.now clock letter }
{
    match letter.value {
        b'a' => try_call(line, clock, letter.end),
        b'p' => peek_call(line, clock, letter.end),
        b'r' => reserve_call(line, clock, letter.end),
        b'f' => refund_call(line, clock, letter.end),
        b'd' => remove_call(line, clock, letter.end),
        _ => Err(Wrong {
            at: letter.from,
            fault: Fault::Letter,
        }),
    }
}

// The moment, the modem and the cost.
#[tactic(auto, unfolding(crate::specs::Lesson::taken_request))]
fn request(line: &[u8], clock: u64, at: usize) -> Result<(Request, usize), Wrong>
    ensures { result ≡ Lesson.taken_request line.now clock at }
{
    let (moment, at) = words::next_number(line, Kind::Moment, clock, at)?;
    let (key, at) = words::next_number(line, Kind::Modem, clock, at)?;
    let (cost, at) = words::next_number(line, Kind::Number(MOST_32), clock, at)?;
    let request = Request {
        at: Nanos(moment),
        key,
        cost: cost as u32,
    };
    Ok((request, at))
}

#[tactic(auto, unfolding(crate::specs::Lesson::try_of))]
fn try_call(line: &[u8], clock: u64, at: usize) -> Result<DeskCall, Wrong>
    ensures { result ≡ Lesson.try_of line.now clock at }
{
    let (request, at) = request(line, clock, at)?;
    words::finish(line, at)?;
    Ok(DeskCall::Try(request))
}

#[tactic(auto, unfolding(crate::specs::Lesson::peek_of))]
fn peek_call(line: &[u8], clock: u64, at: usize) -> Result<DeskCall, Wrong>
    ensures { result ≡ Lesson.peek_of line.now clock at }
{
    let (request, at) = request(line, clock, at)?;
    words::finish(line, at)?;
    Ok(DeskCall::Peek(request))
}

#[tactic(auto, unfolding(crate::specs::Lesson::reserve_of))]
fn reserve_call(line: &[u8], clock: u64, at: usize) -> Result<DeskCall, Wrong>
    ensures { result ≡ Lesson.reserve_of line.now clock at }
{
    let (request, at) = request(line, clock, at)?;
    let (longest, at) = words::next_number(line, Kind::Time, clock, at)?;
    words::finish(line, at)?;
    Ok(DeskCall::Reserve(request, Nanos(longest)))
}

#[tactic(auto, unfolding(crate::specs::Lesson::refund_of))]
fn refund_call(line: &[u8], clock: u64, at: usize) -> Result<DeskCall, Wrong>
    ensures { result ≡ Lesson.refund_of line.now clock at }
{
    let (key, at) = words::next_number(line, Kind::Modem, clock, at)?;
    let (cost, at) = words::next_number(line, Kind::Number(MOST_32), clock, at)?;
    words::finish(line, at)?;
    Ok(DeskCall::Refund(key, cost as u32))
}

#[tactic(auto, unfolding(crate::specs::Lesson::remove_of))]
fn remove_call(line: &[u8], clock: u64, at: usize) -> Result<DeskCall, Wrong>
    ensures { result ≡ Lesson.remove_of line.now clock at }
{
    let (key, at) = words::next_number(line, Kind::Modem, clock, at)?;
    words::finish(line, at)?;
    Ok(DeskCall::Remove(key))
}
