// A request, a try or a reservation, in two halves. The attempt answers every request on a closed limiter, cost 0, a cost over the burst, and a known key;
// where there is a rate it leaves a refused request and a new key, and `finish` answers these. An operation calls the attempt, then `finish` if the attempt
// left the request. An export calls both itself, so that a known key's call keeps nothing in registers that only `finish` needs (docs/DECISIONS.md).
#![tactic(auto)]

ghost use Rattle.std.specs.Prelude.{◌≡◌};
ghost use Rattle.rows.specs.Outcome.{outcome};
ghost use Rattle.bucket.specs.declared.Request.TheVariants.{Acquire, Reserve};
ghost use Rattle.settings.specs.declared.Limit.TheVariants.{Open};
ghost use Rattle.settings.specs.Refusal.{numbered};
ghost use Rattle.settings.specs.Settings.{first_refusal};
ghost use Rattle.store.specs.Memory.{part_of};
ghost use Rattle.store.specs.Refusals.{keyed_refusal, moment_refusal, wait_refusal};
ghost use Rattle.rules.specs.declared.Reply.TheVariants.{Refused};
ghost use Rattle.rules.specs.Asks as Asks;
ghost use Rattle.rules.specs.Asks.{further_to, manner_of, as_try, as_reservation};
ghost use Rattle.requests.specs.code.Attempts.{LeftFor, NewKey, attempted, refusal_to, rule_to};

use bucket::{BucketDecision, Request};
use rules::Reply;
use settings::decision::Decision;
use settings::eviction::WhenFull;
use settings::rate::Rate;
use settings::refusal::Refusal;
use settings::{Limit, Settings};
use shard::{Identity, Policy};
use store::{Part, lending, refusals};
use units::Nanos;

// What an attempt comes to.
#[derive(Clone, Copy)]
pub enum Attempt {
    // The answer.
    Answered(Reply),
    // Nothing was changed, and `finish` answers.
    Left(Why),
}

// Why an attempt leaves a request, on a limiter with a rate: it is refused by number, or its key has no slot.
#[derive(Clone, Copy)]
pub enum Why {
    Refused,
    New,
}

// A try, up to where a new key has to be let in. Each operation that asks a bucket asks first whether there is a rate, so that all that follows is compiled
// for a limiter that has one (docs/DECISIONS.md).
pub fn attempt_try(
    settings: Settings,
    ws: &mut [u64],
    at: Nanos,
    id: Identity,
    cost: u32,
) -> Attempt
    ensures { outcome result ws.new ≡ attempted Acquire settings at id cost ws.old }
{
    match settings.limit {
        Limit::Closed => {
            let told = Reply::Tried(rules::closed(at, cost));
            let reply = rules::unless_refused(
                settings.check(),
                settings.shape(),
                ws,
                id.hash,
                refusals::check_moment(at),
                told,
            );
            Attempt::Answered(reply)
        }
        Limit::Open(rate) => try_open(settings, rate, ws, at, id, cost),
    }
}

// A try on a limiter that has a rate. By which number it is refused is not looked at, so that the common case is compiled to comparisons alone. So the moment
// may be looked at before the memory, and a hot key's try takes fewer instructions (docs/DECISIONS.md).
fn try_open(
    settings: Settings,
    rate: Rate,
    ws: &mut [u64],
    at: Nanos,
    id: Identity,
    cost: u32,
) -> Attempt
    requires { settings.limit ≡ Open rate }
    ensures { outcome result ws.new ≡ attempted Acquire settings at id cost ws.old }
{
    if settings.check().is_err() {
        return Attempt::Left(Why::Refused);
    }
    let in_time = refusals::check_moment(at);
    if in_time.is_err() {
        return Attempt::Left(Why::Refused);
    }
    match lending::lend(settings.shape(), ws, id.hash, in_time) {
        Err(_) => Attempt::Left(Why::Refused),
        Ok(part) => decide(settings, rate, ws, part, at, id, cost),
    }
}

// A try that is not refused. No state is made for a cost that can never be granted, nor for cost 0. The attempts of a try and of a reservation are written
// apart, while `finish` is one function: the compiler puts a function with one caller into it, and a known key's call is to be compiled as one function.
fn decide(
    settings: Settings,
    rate: Rate,
    ws: &mut [u64],
    part: Part,
    at: Nanos,
    id: Identity,
    cost: u32,
) -> Attempt
    requires { (refusal_to Acquire settings at id ws.old ≡ 0) × (part ≡ part_of settings id.hash) × (settings.limit ≡ Open rate) }
    ensures { outcome result ws.new ≡ attempted Acquire settings at id cost ws.old }
{
    if rate.capacity() < cost {
        return Attempt::Answered(Reply::Tried(Decision::Impossible));
    }
    if cost == 0 {
        return Attempt::Answered(Reply::Tried(Decision::Acquired(rules::due_now(at))));
    }
    match store::position(ws, part, id) {
        Some(pos) => {
            let request = Request::Acquire;
            let decision = store::with_existing(
                ws,
                part,
                policy(settings, rate),
                pos,
                request,
                cost,
                at,
            );
            Attempt::Answered(try_reply(decision))
        }
        None => Attempt::Left(Why::New),
    }
}

// A reservation, up to where a new key has to be let in.
pub fn attempt_reserve(
    settings: Settings,
    ws: &mut [u64],
    at: Nanos,
    id: Identity,
    cost: u32,
    max_wait: Nanos,
) -> Attempt
    ensures { outcome result ws.new ≡ attempted (Reserve max_wait) settings at id cost ws.old }
{
    match settings.limit {
        Limit::Closed => {
            let reply = rules::unless_refused(
                settings.check(),
                settings.shape(),
                ws,
                id.hash,
                check_reservation(at, max_wait),
                Reply::Nothing,
            );
            Attempt::Answered(reply)
        }
        Limit::Open(rate) => reserve_open(settings, rate, ws, at, id, cost, max_wait),
    }
}

// A reservation on a limiter that has a rate.
fn reserve_open(
    settings: Settings,
    rate: Rate,
    ws: &mut [u64],
    at: Nanos,
    id: Identity,
    cost: u32,
    max_wait: Nanos,
) -> Attempt
    requires { settings.limit ≡ Open rate }
    ensures { outcome result ws.new ≡ attempted (Reserve max_wait) settings at id cost ws.old }
{
    if settings.check().is_err() {
        return Attempt::Left(Why::Refused);
    }
    match lending::lend(
        settings.shape(),
        ws,
        id.hash,
        check_reservation(at, max_wait),
    ) {
        Err(_) => Attempt::Left(Why::Refused),
        Ok(part) => reserve_within(settings, rate, ws, part, at, id, cost, max_wait),
    }
}

// A reservation that is not refused. It is written apart from a try, for the reason told above `decide`.
fn reserve_within(
    settings: Settings,
    rate: Rate,
    ws: &mut [u64],
    part: Part,
    at: Nanos,
    id: Identity,
    cost: u32,
    max_wait: Nanos,
) -> Attempt
    requires { (refusal_to (Reserve max_wait) settings at id ws.old ≡ 0) × (part ≡ part_of settings id.hash) × (settings.limit ≡ Open rate) }
    ensures { outcome result ws.new ≡ attempted (Reserve max_wait) settings at id cost ws.old }
{
    if rate.capacity() < cost {
        return Attempt::Answered(Reply::Nothing);
    }
    if cost == 0 {
        return Attempt::Answered(Reply::Reserved(rules::due_now(at)));
    }
    match store::position(ws, part, id) {
        Some(pos) => {
            let request = Request::Reserve(max_wait);
            let decision = store::with_existing(
                ws,
                part,
                policy(settings, rate),
                pos,
                request,
                cost,
                at,
            );
            Attempt::Answered(reserve_reply(decision))
        }
        None => Attempt::Left(Why::New),
    }
}

// The rest of a request that an attempt left: the number is told, or the key is let in.
pub fn finish(
    settings: Settings,
    ws: &mut [u64],
    at: Nanos,
    id: Identity,
    request: Request,
    cost: u32,
    why: Why,
) -> Reply
    requires { LeftFor why request settings at id cost ws.old }
    ensures { outcome result ws.new ≡ rule_to request settings at id cost ws.old }
{
    match why {
        Why::Refused => refuse(settings, ws, id.hash, check_further(request, at)),
        Why::New => {
            let decision = admit(settings, ws, at, id, request, cost);
            reply_to(request, decision)
        }
    }
}

// The refusal of a call on a key, as a reply. `further` is the check of its other arguments. A call that is lent a part is not refused, so the second arm is
// never taken.
fn refuse(settings: Settings, ws: &[u64], hash: u64, further: Result<(), Refusal>) -> Reply
    requires { first_refusal (keyed_refusal settings hash ws.now) (numbered further) ≡ 0 → ⊥ }
    ensures { result ≡ Refused (first_refusal (keyed_refusal settings hash ws.now) (numbered further)) }
{
    match lending::lend_for(settings, ws, hash, further) {
        Err(refusal) => refusal.into(),
        Ok(_) => unreachable!(),
    }
}

// Whether a moment is not too late, and the longest wait of a reservation not too long.
fn check_further(request: Request, at: Nanos) -> Result<(), Refusal>
    ensures { numbered result ≡ further_to request at }
{
    match request {
        Request::Acquire => refusals::check_moment(at),
        Request::Reserve(max_wait) => check_reservation(at, max_wait),
        Request::Through(_) => refusals::check_moment(at),
    }
}

// The same of a reservation.
fn check_reservation(at: Nanos, max_wait: Nanos) -> Result<(), Refusal>
    ensures { numbered result ≡ first_refusal (moment_refusal at) (wait_refusal max_wait) }
{
    refusals::check_moment(at)?;
    refusals::check_wait(max_wait)
}

// A request of a new key. There is a rate then: the arm of a closed limiter is never taken.
fn admit(
    settings: Settings,
    ws: &mut [u64],
    at: Nanos,
    id: Identity,
    request: Request,
    cost: u32,
) -> BucketDecision
    requires { NewKey request settings at id cost ws.old }
    ensures { outcome (Asks.reply_to (manner_of request) result) ws.new ≡ rule_to request settings at id cost ws.old }
{
    match settings.limit {
        Limit::Closed => BucketDecision::Denied(rules::due_now(at)),
        Limit::Open(rate) => {
            let part = store::part_of(settings.shape(), id.hash);
            store::admit(ws, part, policy(settings, rate), id, request, cost, at)
        }
    }
}

// The answer to a request by what was decided, by the bucket or for lack of space.
fn reply_to(request: Request, decision: BucketDecision) -> Reply
    ensures { result ≡ Asks.reply_to (manner_of request) decision }
{
    match request {
        Request::Acquire => try_reply(decision),
        Request::Reserve(_) => reserve_reply(decision),
        Request::Through(_) => try_reply(decision),
    }
}

// The answer to a try.
fn try_reply(decision: BucketDecision) -> Reply
    ensures { result ≡ Asks.reply_to as_try decision }
{
    match decision {
        BucketDecision::Allowed(due) => Reply::Tried(Decision::Acquired(due)),
        BucketDecision::Denied(after) => Reply::Tried(Decision::Retry { after }),
    }
}

// The answer to a reservation.
fn reserve_reply(decision: BucketDecision) -> Reply
    ensures { result ≡ Asks.reply_to as_reservation decision }
{
    match decision {
        BucketDecision::Allowed(due) => Reply::Reserved(due),
        BucketDecision::Denied(_) => Reply::Nothing,
    }
}

// The settings that a shard needs.
pub fn policy(settings: Settings, rate: Rate) -> Policy
    ensures { result ≡ Asks.policy_of settings rate }
{
    Policy {
        config: rate.config(),
        idle_ttl: settings.eviction.idle_ttl,
        forget_debt: forgets(settings.eviction.when_full),
    }
}

// Whether a full ledger forgets a debt rather than turning a new key away.
fn forgets(when_full: WhenFull) -> bool
    ensures { result ≡ Asks.forgets when_full }
{
    match when_full {
        WhenFull::RefuseNew => false,
        WhenFull::ForgetDebt => true,
    }
}
