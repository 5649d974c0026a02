// The calls that look at the class table: set-up and clear with a table, and a try through a class. Settings, table, arguments and lent words are of any
// kind. A call that is refused by number changes no word. The number of classes is taken from the table, whatever the settings say.
#![tactic(auto)]

ghost use Rattle.std.specs.Prelude.{◌≡◌, ◌+◌, ◌*◌, ◌≤◌, length};
ghost use Rattle.rows.specs.Outcome.{outcome};
ghost use Rattle.bucket.specs.Bucket.{Accepted};
ghost use Rattle.settings.specs.Rate.{config_of};
ghost use Rattle.settings.specs.Refusal.{numbered};
ghost use Rattle.settings.specs.Settings.{first_refusal};
ghost use Rattle.classes.specs.Classes.{table_refusal};
ghost use Rattle.classes.specs.Layout.{class_count, classes_in, bucket_width};
ghost use Rattle.shard_map.specs.Model.{Sound};
ghost use Rattle.shard.specs.Model as OneShard;
ghost use Rattle.store.specs.Memory.{Placed, Counted, shard_in, in_part};
ghost use Rattle.store.specs.Refusals.{set_up_refusal};
ghost use Rattle.rules.specs.Asks.{policy_of, further_through, with_table};
ghost use Rattle.rules.specs.Rules as Rules;
ghost use Rattle.class_calls.specs.code.Passing.{Passing, UnderChain, AtRate, Asking};

use bucket::{BucketDecision, Request};
use classes::ChainAnswer;
use rules::Reply;
use settings::decision::Decision;
use settings::rate::Rate;
use settings::refusal::Refusal;
use settings::{Limit, Settings};
use shard::Identity;
use store::{Part, lending, refusals};
use units::Nanos;

// Sets the store up in the lent words, with a class table.
pub fn class_set_up(settings: Settings, table: &[u64], ws: &mut [u64]) -> Reply
    ensures { outcome result ws.new ≡ Rules.class_set_up settings table.now ws.old }
{
    if let Err(refusal) = check_set_up(settings, table, ws) {
        return refusal.into();
    }
    store::clear(ws);
    Reply::Done
}

// The check of set-up with a table: the settings, then the length by the number of classes of the table, then the table.
fn check_set_up(settings: Settings, table: &[u64], ws: &[u64]) -> Result<(), Refusal>
    ensures { numbered result ≡ first_refusal (set_up_refusal (with_table table.now settings) ws.now) (table_refusal (classes_in table.now)) }
{
    refusals::check_set_up(settings, classes::count(table), ws)?;
    classes::check_table(table)
}

// Forgets every key, and fills every class bucket.
pub fn class_clear(settings: Settings, table: &[u64], ws: &mut [u64]) -> Reply
    ensures { outcome result ws.new ≡ Rules.class_clear settings table.now ws.old }
{
    class_set_up(settings, table, ws)
}

// Takes tokens from a key's bucket and from every bucket on the chain of a class, if all have them now.
pub fn class_try(
    settings: Settings,
    table: &[u64],
    ws: &mut [u64],
    at: Nanos,
    id: Identity,
    class: usize,
    cost: u32,
) -> Reply
    ensures { outcome result ws.new ≡ Rules.class_try settings table.now at id class cost ws.old }
{
    if let Err(refusal) = settings.check() {
        return refusal.into();
    }
    let shape = settings.shape().with_classes(classes::count(table));
    match lending::lend(shape, ws, id.hash, check_further(table, at, class)) {
        Err(refusal) => refusal.into(),
        Ok(part) => pass(settings, table, ws, part, at, id, class, cost),
    }
}

// Whether the moment is not too late, the table is sound, and the named class is in it.
fn check_further(table: &[u64], at: Nanos, class: usize) -> Result<(), Refusal>
    ensures { numbered result ≡ further_through (classes_in table.now) class at }
{
    refusals::check_moment(at)?;
    classes::check_table(table)?;
    classes::check_number(table, class)
}

// A try that is not refused. The code reads the waits of the chain first, and 02 decides the space first. Nobody can see the difference: the store neither
// reads nor writes the class buckets, and a refusal for space does not use their wait.
fn pass(
    settings: Settings,
    table: &[u64],
    ws: &mut [u64],
    part: Part,
    at: Nanos,
    id: Identity,
    class: usize,
    cost: u32,
) -> Reply
    requires { Passing settings table.now at id class cost ws.old part }
    ensures { outcome result ws.new ≡ Rules.class_try settings table.now at id class cost ws.old }
{
    let first = classes_at(table, ws);
    let end = ws.len();
    let longest = classes::LONGEST_CHAIN;
    match classes::ask_chain(table, &ws[first..end], class, longest, cost, at) {
        ChainAnswer::Over => Reply::Tried(Decision::Impossible),
        ChainAnswer::Wait(wait) => {
            pass_chain(settings, table, ws, part, at, id, class, cost, wait)
        }
    }
}

// No burst on the chain is less than the cost. `wait` is the largest wait of its classes.
fn pass_chain(
    settings: Settings,
    table: &[u64],
    ws: &mut [u64],
    part: Part,
    at: Nanos,
    id: Identity,
    class: usize,
    cost: u32,
    wait: Nanos,
) -> Reply
    requires { UnderChain wait settings table.now at id class cost ws.old part }
    ensures { outcome result ws.new ≡ Rules.class_try settings table.now at id class cost ws.old }
{
    match settings.limit {
        Limit::Closed => Reply::Tried(rules::closed(at, cost)),
        Limit::Open(rate) => {
            pass_at_rate(settings, rate, table, ws, part, at, id, class, cost, wait)
        }
    }
}

// On a limiter that has a rate: no state is made for a cost that can never be granted, nor for cost 0.
fn pass_at_rate(
    settings: Settings,
    rate: Rate,
    table: &[u64],
    ws: &mut [u64],
    part: Part,
    at: Nanos,
    id: Identity,
    class: usize,
    cost: u32,
    wait: Nanos,
) -> Reply
    requires { AtRate rate wait settings table.now at id class cost ws.old part }
    ensures { outcome result ws.new ≡ Rules.class_try settings table.now at id class cost ws.old }
{
    if rate.capacity() < cost {
        return Reply::Tried(Decision::Impossible);
    }
    if cost == 0 {
        return Reply::Tried(Decision::Acquired(rules::due_now(at)));
    }
    pass_key(settings, rate, table, ws, part, at, id, class, cost, wait)
}

// Asks the key's bucket, with the wait of the chain in hand, and charges the chain if it grants.
fn pass_key(
    settings: Settings,
    rate: Rate,
    table: &[u64],
    ws: &mut [u64],
    part: Part,
    at: Nanos,
    id: Identity,
    class: usize,
    cost: u32,
    wait: Nanos,
) -> Reply
    requires { Asking rate wait settings table.now at id class cost ws.old part }
    ensures { outcome result ws.new ≡ Rules.class_try settings table.now at id class cost ws.old }
{
    match ask(
        settings,
        rate,
        ws,
        part,
        at,
        id,
        Request::Through(wait),
        cost,
    ) {
        BucketDecision::Allowed(due) => {
            let first = classes_at(table, ws);
            let end = ws.len();
            let longest = classes::LONGEST_CHAIN;
            classes::charge(table, &mut ws[first..end], class, longest, cost, at);
            Reply::Tried(Decision::Acquired(due))
        }
        BucketDecision::Denied(after) => Reply::Tried(Decision::Retry { after }),
    }
}

// The word at which the class buckets begin. They are the last words.
fn classes_at(table: &[u64], ws: &[u64]) -> usize
    requires { bucket_width * class_count table.now ≤ length ws.now }
    ensures { result + bucket_width * class_count table.now ≡ length ws.now }
{
    ws.len() - classes::bucket_words(classes::count(table))
}

// Runs a request on the key's bucket, in the part of its shard.
fn ask(
    settings: Settings,
    rate: Rate,
    ws: &mut [u64],
    part: Part,
    at: Nanos,
    id: Identity,
    request: Request,
    cost: u32,
) -> BucketDecision
    requires { Placed part ws.old × Sound (shard_in part ws.old) × Accepted (config_of rate) × (cost ≤ (config_of rate).capacity) × Counted part ws.old }
    ensures { outcome result ws.new
        ≡ in_part part ws.old (OneShard.with_or_insert (policy_of settings rate) id request cost at (shard_in part ws.old)) }
{
    let policy = requests::policy(settings, rate);
    match store::position(ws, part, id) {
        Some(pos) => store::with_existing(ws, part, policy, pos, request, cost, at),
        None => store::admit(ws, part, policy, id, request, cost, at),
    }
}
