// The lines `v COUNT SPACING CALL` of an exercise: each stands for COUNT lines of that call, for one modem after another and at moments SPACING apart.
#![tactic(auto)]

ghost use Rattle.std.specs.Prelude.{◌≡◌, true, ◌+◌, ◌*◌, ◌-◌, ◌≤◌, leb, length};
ghost use Rattle.desk_lines.specs.Lines.{most64};
ghost use Rattle.exercise_lines.specs.Repeats.{request_on, call_on, request_within, within64, begins_with_v, repeat_of, of_bytes, of_parts, of_line, of_call};

use desk_lines::{Line, Request};
use desk_writer::DeskCall;
use units::Nanos;

// The largest COUNT.
pub const MOST_LINES: u64 = 65536;

// What a line is as a `v` line.
#[derive(Clone, Copy)]
pub enum Repeat {
    // The call of the first line, the number of lines, and the spacing. Every number of every line has at most 64 bits.
    Calls(DeskCall, u64, u64),
    // A line that is no `v` line.
    Other,
    // A moment or a modem's number of a later line has more than 64 bits.
    TooFar,
}

// What the bytes of a line are, without the LF.
pub fn read(line: &[u8]) -> Repeat
    ensures { result ≡ repeat_of line.now }
{
    if begins_with_v(line) {
        return of_bytes(line);
    }
    Repeat::Other
}

// Whether a line begins with `v` and a space.
fn begins_with_v(line: &[u8]) -> bool
    ensures { result ≡ begins_with_v line.now }
{
    line.starts_with(b"v ")
}

// The same of a line that begins with `v` and a space: two numbers, each with a space behind it, and then a line of the desk.
fn of_bytes(line: &[u8]) -> Repeat
    requires { 2 ≤ length line.now }
    ensures { result ≡ of_bytes line.now }
{
    let count_end = scan::find(line, 2, line.len(), b' ');
    if count_end == line.len() {
        return Repeat::Other;
    }
    let spacing_at = count_end + 1;
    let spacing_end = scan::find(line, spacing_at, line.len(), b' ');
    if spacing_end == line.len() {
        return Repeat::Other;
    }
    let count = decimal::number(&line[2..count_end], MOST_LINES);
    let spacing = decimal::number(&line[spacing_at..spacing_end], u64::MAX);
    let call_at = spacing_end + 1;
    of_parts(count, spacing, desk_lines::read(&line[call_at..]))
}

// The calls, if both numbers are numbers.
#[tactic(auto, unfolding(crate::specs::Repeats::of_parts))]
fn of_parts(count: Option<u64>, spacing: Option<u64>, line: Line) -> Repeat
    ensures { result ≡ of_parts count spacing line }
{
    match (count, spacing) {
        (Some(count), Some(spacing)) => of_line(line, count, spacing),
        _ => Repeat::Other,
    }
}

// The calls of a line of the desk. Settings are no call.
#[tactic(auto, unfolding(crate::specs::Repeats::of_line))]
fn of_line(line: Line, count: u64, spacing: u64) -> Repeat
    ensures { result ≡ of_line count spacing line }
{
    match line {
        Line::Try(request) => of_call(DeskCall::Try(request), count, spacing),
        Line::Peek(request) => of_call(DeskCall::Peek(request), count, spacing),
        Line::Reserve(request, max_wait) => {
            of_call(DeskCall::Reserve(request, max_wait), count, spacing)
        }
        Line::Refund(key, cost) => of_call(DeskCall::Refund(key, cost), count, spacing),
        Line::Remove(key) => of_call(DeskCall::Remove(key), count, spacing),
        Line::SetUp(_) | Line::Malformed => Repeat::Other,
    }
}

// The calls, unless a number of the last one has more than 64 bits.
#[tactic(auto, unfolding(crate::specs::Repeats::of_call))]
fn of_call(call: DeskCall, count: u64, spacing: u64) -> Repeat
    ensures { result ≡ of_call count spacing call }
{
    if is_within(call, spacing, last(count)) {
        return Repeat::Calls(call, count, spacing);
    }
    Repeat::TooFar
}

// The place of the last of some calls. The first has place 0.
pub fn last(count: u64) -> u64
    ensures { result ≡ count - 1 }
{
    count.saturating_sub(1)
}

// Whether the numbers of the call at a place have at most 64 bits.
#[tactic(auto, unfolding(crate::specs::Repeats::within64))]
pub fn is_within(call: DeskCall, spacing: u64, place: u64) -> bool
    ensures { result ≡ within64 spacing place call }
{
    match call {
        DeskCall::Try(request) | DeskCall::Peek(request) | DeskCall::Reserve(request, _) => {
            request_is_within(request, spacing, place)
        }
        DeskCall::Refund(key, _) => key_is_within(key, place),
        DeskCall::Remove(key) => key_is_within(key, place),
    }
}

#[tactic(auto, unfolding(crate::specs::Repeats::request_within))]
fn request_is_within(request: Request, spacing: u64, place: u64) -> bool
    ensures { result ≡ request_within spacing place request }
{
    let at = request.at;
    moment_is_within(at.0, spacing, place) && key_is_within(request.key, place)
}

fn moment_is_within(at: u64, spacing: u64, place: u64) -> bool
    ensures { result ≡ leb (at + place * spacing) most64 }
{
    if spacing == 0 {
        return true;
    }
    place <= (u64::MAX - at) / spacing
}

fn key_is_within(key: u64, place: u64) -> bool
    ensures { result ≡ leb (key + place) most64 }
{
    place <= u64::MAX - key
}

// The call at a place: for the modem that many after the first one, and that many spacings later.
pub fn call_on(call: DeskCall, spacing: u64, place: u64) -> DeskCall
    requires { within64 spacing place call ≡ true }
    ensures { result ≡ call_on spacing place call }
{
    match call {
        DeskCall::Try(request) => DeskCall::Try(request_on(request, spacing, place)),
        DeskCall::Peek(request) => DeskCall::Peek(request_on(request, spacing, place)),
        DeskCall::Reserve(request, max_wait) => {
            DeskCall::Reserve(request_on(request, spacing, place), max_wait)
        }
        DeskCall::Refund(key, cost) => DeskCall::Refund(key_on(key, place), cost),
        DeskCall::Remove(key) => DeskCall::Remove(key_on(key, place)),
    }
}

fn request_on(request: Request, spacing: u64, place: u64) -> Request
    requires { request_within spacing place request ≡ true }
    ensures { result ≡ request_on spacing place request }
{
    let at = request.at;
    Request {
        at: Nanos(at.0 + place * spacing),
        key: request.key + place,
        cost: request.cost,
    }
}

fn key_on(key: u64, place: u64) -> u64
    requires { leb (key + place) most64 ≡ true }
    ensures { result ≡ key + place }
{
    key + place
}
