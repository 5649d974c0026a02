// The limiter: its ten operations, on settings, arguments and lent words of any kind. A call that is refused by number changes no word.
#![tactic(auto)]

ghost use Rattle.std.specs.Prelude.{◌≡◌};
ghost use Rattle.rows.specs.Outcome.{outcome};
ghost use Rattle.settings.specs.Settings.{limit_refusal};
ghost use Rattle.bucket.specs.Bucket.{Accepted};
ghost use Rattle.settings.specs.declared.Limit.TheVariants.{Open};
ghost use Rattle.settings.specs.Rate.{config_of};
ghost use Rattle.shard_map.specs.Model.{Sound};
ghost use Rattle.store.specs.Memory.{Placed, shard_in, in_part};
ghost use Rattle.rules.specs.Asks as Asks;
ghost use Rattle.rules.specs.Asks.{refunds};
ghost use Rattle.rules.specs.Rules as Rules;

use bucket::{Due, Request};
use requests::Attempt;
use rules::Reply;
use settings::decision::Decision;
use settings::rate::Rate;
use settings::refusal::Refusal;
use settings::{Limit, Settings};
use shard::Identity;
use store::{Part, lending, refusals};
use units::Nanos;

// Sets the store up in the lent words, without classes.
pub fn set_up(settings: Settings, ws: &mut [u64]) -> Reply
    ensures { outcome result ws.new ≡ Rules.set_up settings ws.old }
{
    if let Err(refusal) = refusals::check_set_up(settings, 0, ws) {
        return refusal.into();
    }
    store::clear(ws);
    Reply::Done
}

// Takes tokens for a key without waiting: granted, to be tried again after a wait, or impossible.
pub fn try_acquire_with_cost(
    settings: Settings,
    ws: &mut [u64],
    at: Nanos,
    id: Identity,
    cost: u32,
) -> Reply
    ensures { outcome result ws.new ≡ Rules.try_acquire settings at id cost ws.old }
{
    match requests::attempt_try(settings, ws, at, id, cost) {
        Attempt::Answered(reply) => reply,
        Attempt::Left(why) => requests::finish(settings, ws, at, id, Request::Acquire, cost, why),
    }
}

// Takes tokens for a key that become usable after a wait, if the wait is at most `max_wait`.
pub fn reserve(
    settings: Settings,
    ws: &mut [u64],
    at: Nanos,
    id: Identity,
    cost: u32,
    max_wait: Nanos,
) -> Reply
    ensures { outcome result ws.new ≡ Rules.reserve settings at id cost max_wait ws.old }
{
    match requests::attempt_reserve(settings, ws, at, id, cost, max_wait) {
        Attempt::Answered(reply) => reply,
        Attempt::Left(why) => {
            let request = Request::Reserve(max_wait);
            requests::finish(settings, ws, at, id, request, cost, why)
        }
    }
}

// What the key's own bucket would answer to a try, taking nothing. It says nothing of space. A peek and a refund ask first whether there is a rate, as requests
// do, so that all that follows is compiled for a limiter that has one (docs/DECISIONS.md).
pub fn peek(settings: Settings, ws: &[u64], at: Nanos, id: Identity, cost: u32) -> Reply
    ensures { outcome result ws.exit.now ≡ Rules.peek settings at id cost ws.now }
{
    match settings.limit {
        Limit::Closed => {
            let told = Reply::Tried(rules::closed(at, cost));
            rules::unless_refused(
                settings.check(),
                settings.shape(),
                ws,
                id.hash,
                refusals::check_moment(at),
                told,
            )
        }
        Limit::Open(rate) => peek_open(settings, rate, ws, at, id, cost),
    }
}

// A peek on a limiter that has a rate.
fn peek_open(
    settings: Settings,
    rate: Rate,
    ws: &[u64],
    at: Nanos,
    id: Identity,
    cost: u32,
) -> Reply
    requires { settings.limit ≡ Open rate }
    ensures { outcome result ws.exit.now ≡ Rules.peek settings at id cost ws.now }
{
    match lending::lend_for(settings, ws, id.hash, refusals::check_moment(at)) {
        Err(refusal) => refusal.into(),
        Ok(part) => peek_bucket(rate, ws, part, at, id, cost),
    }
}

// When the bucket that the key has, or would have if it came in now, has the cost. Each arm ends by itself, so that a known key's peek is compiled into the
// call, and makes the bucket's rate itself: a known key's peek does not work out the initial tokens (docs/DECISIONS.md).
fn peek_bucket(rate: Rate, ws: &[u64], part: Part, at: Nanos, id: Identity, cost: u32) -> Reply
    requires { Placed part ws.now × Sound (shard_in part ws.now) × Accepted (config_of rate) }
    ensures { result ≡ Asks.peeked_in (Open rate) at cost id (shard_in part ws.now) }
{
    if rate.capacity() < cost {
        return Reply::Tried(Decision::Impossible);
    }
    match store::position(ws, part, id) {
        Some(pos) => {
            let bucket = store::bucket_at(ws, part, pos);
            due_reply(bucket.due_at(rate.config(), cost, at))
        }
        None => {
            let config = rate.config();
            let bucket = store::returning_bucket(ws, part, config, id.hash, at);
            due_reply(bucket.due_at(config, cost, at))
        }
    }
}

// When a bucket has the cost, as the reply to a peek.
fn due_reply(due: Due) -> Reply
    ensures { result ≡ Asks.due_reply due }
{
    if due.wait.0 == 0 {
        Reply::Tried(Decision::Acquired(due))
    } else {
        Reply::Tried(Decision::Retry { after: due })
    }
}

// The whole tokens that a key has; none where there is no rate.
pub fn available(settings: Settings, ws: &[u64], at: Nanos, id: Identity) -> Reply
    ensures { outcome result ws.exit.now ≡ Rules.available settings at id ws.now }
{
    match lending::lend_for(settings, ws, id.hash, refusals::check_moment(at)) {
        Err(refusal) => refusal.into(),
        Ok(part) => Reply::Count(tokens_in(settings.limit, ws, part, at, id)),
    }
}

// The tokens of the same bucket as a peek's.
fn tokens_in(limit: Limit, ws: &[u64], part: Part, at: Nanos, id: Identity) -> u64
    requires { Placed part ws.now × Sound (shard_in part ws.now) × (limit_refusal limit ≡ 0) }
    ensures { result ≡ Asks.tokens_in limit at id (shard_in part ws.now) }
{
    match limit {
        Limit::Closed => 0,
        Limit::Open(rate) => {
            let config = rate.config();
            let bucket = store::view(ws, part, config, id, at);
            bucket.available_at(config, at) as u64
        }
    }
}

// How many tries of a key its bucket has turned away; 0 for a key without a slot. It looks at no moment and at no rate.
pub fn turned_away(settings: Settings, ws: &[u64], id: Identity) -> Reply
    ensures { outcome result ws.exit.now ≡ Rules.times_turned_away settings id ws.now }
{
    match lending::lend_for(settings, ws, id.hash, Ok::<(), Refusal>(())) {
        Err(refusal) => refusal.into(),
        Ok(part) => Reply::Count(store::turned_away(ws, part, id)),
    }
}

// Gives tokens back to a key, if it is known. To a refund on a closed limiter every key is unknown.
pub fn refund(settings: Settings, ws: &mut [u64], id: Identity, cost: u32) -> Reply
    ensures { outcome result ws.new ≡ Rules.refund settings id cost ws.old }
{
    match settings.limit {
        Limit::Closed => rules::unless_refused(
            settings.check(),
            settings.shape(),
            ws,
            id.hash,
            Ok(()),
            Reply::Nothing,
        ),
        Limit::Open(rate) => refund_open(settings, rate, ws, id, cost),
    }
}

// A refund on a limiter that has a rate.
fn refund_open(settings: Settings, rate: Rate, ws: &mut [u64], id: Identity, cost: u32) -> Reply
    requires { settings.limit ≡ Open rate }
    ensures { outcome result ws.new ≡ Rules.refund settings id cost ws.old }
{
    match lending::lend_for(settings, ws, id.hash, Ok::<(), Refusal>(())) {
        Err(refusal) => refusal.into(),
        Ok(part) => give_back(rate, ws, part, id, cost),
    }
}

// A refund that is not refused.
fn give_back(rate: Rate, ws: &mut [u64], part: Part, id: Identity, cost: u32) -> Reply
    requires { Placed part ws.old × Sound (shard_in part ws.old) × Accepted (config_of rate) }
    ensures { outcome result ws.new
        ≡ in_part part ws.old (Asks.undone_in (refunds cost) (Open rate) id (shard_in part ws.old)) }
{
    known_reply(store::refund(ws, part, rate.config(), id, cost))
}

// Forgets a key, if it is known.
pub fn remove(settings: Settings, ws: &mut [u64], id: Identity) -> Reply
    ensures { outcome result ws.new ≡ Rules.remove settings id ws.old }
{
    match lending::lend_for(settings, ws, id.hash, Ok::<(), Refusal>(())) {
        Err(refusal) => refusal.into(),
        Ok(part) => known_reply(store::remove(ws, part, id)),
    }
}

// Whether a key was known, as a reply.
fn known_reply(known: bool) -> Reply
    ensures { result ≡ Asks.known_reply known }
{
    if known { Reply::Done } else { Reply::Nothing }
}

// Forgets every key.
pub fn clear(settings: Settings, ws: &mut [u64]) -> Reply
    ensures { outcome result ws.new ≡ Rules.clear settings ws.old }
{
    set_up(settings, ws)
}

// The total: on a grown store, how many keys have a slot. No shard is looked at.
pub fn len(settings: Settings, ws: &[u64]) -> Reply
    ensures { outcome result ws.exit.now ≡ Rules.len settings ws.now }
{
    if let Err(refusal) = refusals::check_len(settings, ws) {
        return refusal.into();
    }
    Reply::Count(store::len(ws))
}
