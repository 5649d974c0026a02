// Lines of the desk program: which call a line's bytes are, and the bytes of what is printed for it.
#![tactic(auto)]

ghost use Rattle.std.specs.Prelude.{◌≡◌, unwrap_or};
ghost use Rattle.settings.specs.Eviction.{bounds, when_full_of};
ghost use Rattle.desk_lines.specs.Lines.{left};
ghost use Rattle.desk_lines.specs.Lines as Lines;

use fields::Fields;
use settings::eviction::{Eviction, WhenFull};
use settings::{Limit, Settings};
use units::Nanos;

mod fields;
mod parts;
pub mod print;

// The moment, key and cost of a try, a peek or a reservation.
#[derive(Clone, Copy)]
pub struct Request {
    pub at: Nanos,
    pub key: u64,
    pub cost: u32,
}

// What a line asks for.
#[derive(Clone, Copy)]
pub enum Line {
    SetUp(Settings),
    Try(Request),
    Peek(Request),
    // With the longest wait.
    Reserve(Request, Nanos),
    // The key and the cost.
    Refund(u64, u32),
    // The key.
    Remove(u64),
    Malformed,
}

// The most bytes that a line may have before its end.
pub const LONGEST_LINE: usize = 100;

// The line that the bytes are, without the LF.
pub fn read(line: &[u8]) -> Line
    ensures { result ≡ Lines.line_of line.now }
{
    if LONGEST_LINE < line.len() {
        return Line::Malformed;
    }
    if fields::end(line, 0) != 1 {
        return Line::Malformed;
    }
    of_letter(line[0], Fields::new(line, 2)).unwrap_or(Line::Malformed)
}

// The line of a letter that is the first field, by the fields after it, if it is one.
#[tactic(auto, unfolding(crate::specs::Lines::line_of_letter))]
fn of_letter(letter: u8, fields: Fields) -> Option<Line>
    ensures { unwrap_or result Line.Malformed ≡ Lines.line_of_letter letter (left fields.entry) }
{
    match letter {
        b'a' => try_line(fields),
        b'p' => peek_line(fields),
        b'r' => reserve_line(fields),
        b'f' => refund_line(fields),
        b'd' => remove_line(fields),
        b's' => set_up_line(fields),
        _ => None,
    }
}

// `a`: a try.
fn try_line(mut fields: Fields) -> Option<Line>
    ensures { unwrap_or result Line.Malformed ≡ Lines.try (left fields.entry) }
{
    let request = fields.request()?;
    fields.finish()?;
    Some(Line::Try(request))
}

// `p`: a peek.
fn peek_line(mut fields: Fields) -> Option<Line>
    ensures { unwrap_or result Line.Malformed ≡ Lines.peek (left fields.entry) }
{
    let request = fields.request()?;
    fields.finish()?;
    Some(Line::Peek(request))
}

// `r`: a reservation.
#[tactic(auto, using(crate::proofs::ReadingLaws::no_number))]
fn reserve_line(mut fields: Fields) -> Option<Line>
    ensures { unwrap_or result Line.Malformed ≡ Lines.reserve (left fields.entry) }
{
    let request = fields.request()?;
    let longest = fields.number(u64::MAX)?;
    fields.finish()?;
    Some(Line::Reserve(request, Nanos(longest)))
}

// `f`: a refund.
#[tactic(auto, using(crate::proofs::ReadingLaws::no_number))]
fn refund_line(mut fields: Fields) -> Option<Line>
    ensures { unwrap_or result Line.Malformed ≡ Lines.refund (left fields.entry) }
{
    let key = fields.number(u64::MAX)?;
    let cost = fields.number_u32()?;
    fields.finish()?;
    Some(Line::Refund(key, cost))
}

// `d`: a removal.
fn remove_line(mut fields: Fields) -> Option<Line>
    ensures { unwrap_or result Line.Malformed ≡ Lines.remove (left fields.entry) }
{
    let key = fields.number(u64::MAX)?;
    fields.finish()?;
    Some(Line::Remove(key))
}

// `s`: a set-up.
#[tactic(auto, using(crate::proofs::ReadingLaws::stays_failed))]
fn set_up_line(mut fields: Fields) -> Option<Line>
    ensures { unwrap_or result Line.Malformed ≡ Lines.set_up (left fields.entry) }
{
    let rate = fields.rate()?;
    let keys = fields.number(u64::MAX)?;
    let shards = fields.number(u64::MAX)?;
    let idle = fields.idle()?;
    let rule = fields.number(1)?;
    fields.finish()?;
    Some(Line::SetUp(Settings {
        limit: Limit::Open(rate),
        eviction: eviction(keys as usize, idle, rule),
        shards: shards as usize,
        classes: 0,
    }))
}

// The bounds of a set-up line: its cap on keys, its idle time and its rule when full.
fn eviction(max_keys: usize, idle: Option<Nanos>, rule: u64) -> Eviction
    ensures { result ≡ bounds max_keys idle (when_full_of rule) }
{
    let when_full = WhenFull::numbered(rule);
    match idle {
        None => Eviction::capacity(max_keys).with_when_full(when_full),
        Some(ttl) => Eviction::new(max_keys, ttl).with_when_full(when_full),
    }
}
