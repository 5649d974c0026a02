// The limiter for callers in C and Rust: the ten operations on plain numbers and lent words, the number of words to lend, and a hash for keys.
// Whatever a caller gives, a call ends and answers. What each operation does is the rule of `perkey` that its contract names; its reply is told as numbers.
#![tactic(auto)]

ghost use Rattle.std.specs.Prelude.{◌≡◌};
ghost use Rattle.rows.specs.Outcome.{outcome};
ghost use Rattle.units.specs.Units.{nanos_of};
ghost use Rattle.rules.specs.Replies as Replies;
ghost use Rattle.rules.specs.Rules as Rules;
ghost use Rattle.requests.specs.code.Attempts.{LeftFor, rule_to};
ghost use Rattle.limiter.specs.Exported.{identity_of, words_to_lend, hash_of, version_number};
ghost use Rattle.limiter.specs.Exported.{settings_of, limit_of, rate_of, tokens_of, bounds_of, eviction_of};

use bucket::Request;
use requests::{Attempt, Why};
use rules::Reply;
use rules::codes::Told;
use settings::eviction::{Eviction, WhenFull};
use settings::rate::Rate;
use settings::{Limit, Settings};
use shard::Identity;
use units::Nanos;

// The version of the interface: bindings/c/limiter.h and bindings/rust have the same.
const MAJOR: u32 = 0;

const MINOR: u32 = 9;

const PATCH: u32 = 0;

// The settings as numbers. A flag is off at 0 and on at any other number.
#[repr(C)]
#[derive(Clone, Copy)]
pub struct LimiterSettings {
    // Nanoseconds for `amount` tokens.
    pub period: u64,
    pub max_keys: u64,
    pub shards: u64,
    // Nanoseconds, read if `has_idle`.
    pub idle: u64,
    // No rate: the rate's fields are not read.
    pub closed: u32,
    pub amount: u32,
    // Without it the burst is the amount.
    pub has_burst: u32,
    pub burst: u32,
    // Without it a fresh bucket is full.
    pub has_initial: u32,
    pub initial: u32,
    pub has_idle: u32,
    // When full: off is RefuseNew, on is ForgetDebt.
    pub forget_debt: u32,
    // How many classes the class table has: they count in the words. Set-up and clear without a table take 0, and the calls with a table its own number.
    pub classes: u32,
}

// Makes the words an empty store of these settings. Where it is accepted every word is written; what stood in them does not matter.
pub fn limiter_set_up(settings: LimiterSettings, ws: &mut [u64]) -> Told
    ensures { outcome result ws.new ≡ Replies.told (Rules.set_up (settings_of settings) ws.old) }
{
    perkey::set_up(settings_of(settings), ws).told()
}

// Takes `cost` tokens for a key at the moment `at`, if its bucket has them: granted, to be tried again after a wait, or impossible.
pub fn limiter_try(
    settings: LimiterSettings,
    ws: &mut [u64],
    at: u64,
    hash: u64,
    key: u64,
    cost: u32,
) -> Told
    ensures { outcome result ws.new
        ≡ Replies.told (Rules.try_acquire (settings_of settings) (nanos_of at) (identity_of hash key) cost ws.old) }
{
    match requests::attempt_try(
        settings_of(settings),
        ws,
        Nanos(at),
        Identity { hash, key },
        cost,
    ) {
        Attempt::Answered(reply) => reply.told(),
        Attempt::Left(why) => {
            let request = Request::Acquire;
            let told = finish(ws, at, hash, key, settings, request, cost, why);
            Told {
                code: told.code,
                number: told.number,
                moment: told.moment,
            }
        }
    }
}

// Takes `cost` tokens for a key that become usable after a wait, if that wait is at most `max_wait`. The number is the wait.
pub fn limiter_reserve(
    settings: LimiterSettings,
    ws: &mut [u64],
    at: u64,
    hash: u64,
    key: u64,
    cost: u32,
    max_wait: u64,
) -> Told
    ensures { outcome result ws.new ≡
        Replies.told (Rules.reserve (settings_of settings) (nanos_of at) (identity_of hash key) cost (nanos_of max_wait) ws.old) }
{
    match requests::attempt_reserve(
        settings_of(settings),
        ws,
        Nanos(at),
        Identity { hash, key },
        cost,
        Nanos(max_wait),
    ) {
        Attempt::Answered(reply) => reply.told(),
        Attempt::Left(why) => {
            let request = Request::Reserve(Nanos(max_wait));
            let told = finish(ws, at, hash, key, settings, request, cost, why);
            Told {
                code: told.code,
                number: told.number,
                moment: told.moment,
            }
        }
    }
}

// What the key's bucket would answer to a try at the moment `at`. It takes nothing, and says nothing of room for a new key.
pub fn limiter_peek(
    settings: LimiterSettings,
    ws: &[u64],
    at: u64,
    hash: u64,
    key: u64,
    cost: u32,
) -> Told
    ensures { outcome result ws.exit.now ≡ Replies.told (Rules.peek (settings_of settings) (nanos_of at) (identity_of hash key) cost ws.now) }
{
    perkey::peek(
        settings_of(settings),
        ws,
        Nanos(at),
        Identity { hash, key },
        cost,
    )
    .told()
}

// The tokens that a key has at the moment `at`.
pub fn limiter_available(
    settings: LimiterSettings,
    ws: &[u64],
    at: u64,
    hash: u64,
    key: u64,
) -> Told
    ensures { outcome result ws.exit.now ≡ Replies.told (Rules.available (settings_of settings) (nanos_of at) (identity_of hash key) ws.now) }
{
    perkey::available(settings_of(settings), ws, Nanos(at), Identity { hash, key }).told()
}

// How many tries of a key its own bucket has turned away, from the call on that gave the key its slot. 0 for a key without a slot.
pub fn limiter_turned_away(settings: LimiterSettings, ws: &[u64], hash: u64, key: u64) -> Told
    ensures { outcome result ws.exit.now ≡ Replies.told (Rules.times_turned_away (settings_of settings) (identity_of hash key) ws.now) }
{
    perkey::turned_away(settings_of(settings), ws, Identity { hash, key }).told()
}

// Gives `cost` tokens back to a key, or to the debt that is remembered for its hash; unknown if there is neither.
pub fn limiter_refund(
    settings: LimiterSettings,
    ws: &mut [u64],
    hash: u64,
    key: u64,
    cost: u32,
) -> Told
    ensures { outcome result ws.new ≡ Replies.told (Rules.refund (settings_of settings) (identity_of hash key) cost ws.old) }
{
    perkey::refund(settings_of(settings), ws, Identity { hash, key }, cost).told()
}

// Forgets a key, and the debt that is remembered for its hash; unknown if there is neither.
pub fn limiter_remove(settings: LimiterSettings, ws: &mut [u64], hash: u64, key: u64) -> Told
    ensures { outcome result ws.new ≡ Replies.told (Rules.remove (settings_of settings) (identity_of hash key) ws.old) }
{
    perkey::remove(settings_of(settings), ws, Identity { hash, key }).told()
}

// Forgets all keys and debts.
pub fn limiter_clear(settings: LimiterSettings, ws: &mut [u64]) -> Told
    ensures { outcome result ws.new ≡ Replies.told (Rules.clear (settings_of settings) ws.old) }
{
    perkey::clear(settings_of(settings), ws).told()
}

// The number of keys that have a slot.
pub fn limiter_length(settings: LimiterSettings, ws: &[u64]) -> Told
    ensures { outcome result ws.exit.now ≡ Replies.told (Rules.len (settings_of settings) ws.now) }
{
    perkey::len(settings_of(settings), ws).told()
}

// The words to lend for these settings: the length that every operation asks of `ws`. It follows from the sizes alone, so where only the rate is
// refused it is the same as with a rate that is accepted. 0 where the sizes are refused, and for more classes than a table may have: no store has 0 words.
pub fn limiter_words(settings: LimiterSettings) -> u64
    ensures { result ≡ words_to_lend (settings_of settings) }
{
    let settings = settings_of(settings);
    if settings.check_sizes().is_err() {
        return 0;
    }
    if classes::MOST_CLASSES < settings.classes as usize {
        return 0;
    }
    store::words::memory_words(settings) as u64
}

// A hash for a key, for callers who have no hash of their own: FNV-1a over its eight bytes, lowest first. It has no secret: where strangers choose
// the keys, they can choose keys that share a shard or a hash.
pub fn limiter_key_hash(key: u64) -> u64
    ensures { result ≡ hash_of key }
{
    hash::key_hash(key)
}

// The version of this interface. The name holds the numbers that have to be equal in a caller's header and in the library: a caller's objects refer to it, so a
// library of another version does not link.
pub fn limiter_version_0_9() -> u32
    ensures { result ≡ version_number }
{
    65_536 * MAJOR + 256 * MINOR + PATCH
}

// The rest of a request that an attempt left. It takes the settings as numbers, so that a known key's call need not keep the converted settings in registers.
// The arguments that an export gets in registers come first, in the same order, so that they need not be moved. It tells the numbers of the reply: a reply is
// put into bytes and taken out of them. An export copies them one by one, so that a known key's numbers stay in registers (docs/DECISIONS.md).
fn finish(
    ws: &mut [u64],
    at: u64,
    hash: u64,
    key: u64,
    settings: LimiterSettings,
    request: Request,
    cost: u32,
    why: Why,
) -> Told
    requires { LeftFor why request (settings_of settings) (nanos_of at) (identity_of hash key) cost ws.old }
    ensures { outcome result ws.new
        ≡ Replies.told (rule_to request (settings_of settings) (nanos_of at) (identity_of hash key) cost ws.old) }
{
    requests::finish(
        settings_of(settings),
        ws,
        Nanos(at),
        Identity { hash, key },
        request,
        cost,
        why,
    )
    .told()
}

// The settings that the numbers are.
pub fn settings_of(settings: LimiterSettings) -> Settings
    ensures { result ≡ settings_of settings }
{
    Settings {
        limit: limit(settings),
        eviction: eviction(settings),
        shards: settings.shards as usize,
        classes: settings.classes,
    }
}

// The rate, unless the limiter is closed.
fn limit(settings: LimiterSettings) -> Limit
    ensures { result ≡ limit_of settings }
{
    if settings.closed == 0 {
        Limit::Open(rate(settings))
    } else {
        Limit::Closed
    }
}

// The rate that the numbers are.
fn rate(settings: LimiterSettings) -> Rate
    ensures { result ≡ rate_of settings }
{
    Rate {
        amount: settings.amount,
        period: Nanos(settings.period),
        burst: tokens(settings.has_burst, settings.burst),
        initial: tokens(settings.has_initial, settings.initial),
    }
}

// A number of tokens, if its flag is set.
fn tokens(flag: u32, tokens: u32) -> Option<u32>
    ensures { result ≡ tokens_of flag tokens }
{
    if flag == 0 { None } else { Some(tokens) }
}

// The bounds on the memory, with the rule when full.
fn eviction(settings: LimiterSettings) -> Eviction
    ensures { result ≡ eviction_of settings }
{
    bounds(settings).with_when_full(WhenFull::numbered(settings.forget_debt as u64))
}

// The cap on keys, and the idle time if there is one.
fn bounds(settings: LimiterSettings) -> Eviction
    ensures { result ≡ bounds_of settings }
{
    if settings.has_idle == 0 {
        Eviction::capacity(settings.max_keys as usize)
    } else {
        Eviction::new(settings.max_keys as usize, Nanos(settings.idle))
    }
}
