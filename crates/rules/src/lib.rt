// What an operation answers, and what a closed limiter answers. The definitions of this crate are the rules of all operations.
#![tactic(auto)]

ghost use Rattle.std.specs.Prelude.{◌≡◌};
ghost use Rattle.rows.specs.Outcome.{outcome};
ghost use Rattle.settings.specs.Refusal.{number_of};
ghost use Rattle.settings.specs.Settings.{ShapeOfAccepted, first_refusal};
ghost use Rattle.store.specs.Lending.{number_in};
ghost use Rattle.store.specs.Refusals.{shape_refusal};
ghost use Rattle.rules.specs.Asks as Asks;
ghost use Rattle.rules.specs.Rules.{unless_refused};
ghost use Rattle.rules.specs.declared.Reply.TheVariants.{Refused};

use bucket::Due;
use settings::Shape;
use settings::decision::Decision;
use settings::refusal::Refusal;
use store::lending;
use store::numbered::Numbered;
use units::Nanos;

pub mod codes;

// What an operation answers.
#[derive(Clone, Copy)]
pub enum Reply {
    // The answer to a try or a peek.
    Tried(Decision),
    // A reservation that is granted: usable when it is due.
    Reserved(Due),
    // No reservation, or an unknown key.
    Nothing,
    // Accepted, or a known key.
    Done,
    // Tokens available, tries turned away, or keys with a slot.
    Count(u64),
    // Refused by number.
    Refused(u32),
}

impl From<Refusal> for Reply {
    ghost from_gives = { λ refusal reply. reply ≡ Refused (number_of refusal) };

    // Refused by its number.
    fn from(refusal: Refusal) -> Reply {
        Reply::Refused(refusal.into())
    }
}

// Due at the moment itself, without a wait.
pub fn due_now(at: Nanos) -> Due
    ensures { result ≡ Asks.due_now at }
{
    Due::after(at, Nanos(0))
}

// A closed limiter's answer to a try or a peek: cost 0 is granted, any other cost is impossible.
pub fn closed(at: Nanos, cost: u32) -> Decision
    ensures { result ≡ Asks.closed at cost }
{
    if cost == 0 {
        Decision::Acquired(due_now(at))
    } else {
        Decision::Impossible
    }
}

// A closed limiter's reply to a call on a key: the refusal, else `told`. `accepted` is the check of the settings, `shape` is theirs, and `further` is the check
// of the call's other arguments. It is inlined: where a caller's check refuses, the compiler then knows the refusal, and reads its number from no table.
#[inline(always)]
pub fn unless_refused<E: Numbered>(
    accepted: Result<(), E>,
    shape: Shape,
    ws: &[u64],
    hash: u64,
    further: Result<(), E>,
    told: Reply,
) -> Reply
    requires { number_in E.number accepted ≡ 0 → ShapeOfAccepted shape }
    ensures { outcome result ws.now ≡
        unless_refused (first_refusal (number_in E.number accepted) (first_refusal (shape_refusal shape hash ws.now) (number_in E.number further))) ws.now
        (outcome told ws.now) }
{
    if let Err(refusal) = accepted {
        return Reply::Refused(refusal.number());
    }
    match lending::lend(shape, ws, hash, further) {
        Err(refusal) => Reply::Refused(refusal.number()),
        Ok(_) => told,
    }
}
