// The calls by key for C and Rust: the exports of `limiter`, each with the clauses of the function that it calls.
#![tactic(auto)]

ghost use Rattle.std.specs.Prelude.{◌≡◌};
ghost use Rattle.rows.specs.Outcome.{outcome};
ghost use Rattle.units.specs.Units.{nanos_of};
ghost use Rattle.rules.specs.Replies as Replies;
ghost use Rattle.rules.specs.Rules as Rules;
ghost use Rattle.limiter.specs.Exported.{identity_of, words_to_lend, hash_of, version_number};
ghost use Rattle.limiter.specs.Exported.{settings_of};

use limiter::LimiterSettings;
use rules::codes::Told;

// Makes the words an empty store of these settings. Where it is accepted every word is written; what stood in them does not matter.
#[unsafe(no_mangle)]
pub extern "C" fn limiter_set_up(settings: LimiterSettings, ws: &mut [u64]) -> Told
    ensures { outcome result ws.new ≡ Replies.told (Rules.set_up (settings_of settings) ws.old) }
{
    limiter::limiter_set_up(settings, ws)
}

// Takes `cost` tokens for a key at the moment `at`, if its bucket has them: granted, to be tried again after a wait, or impossible.
#[unsafe(no_mangle)]
pub extern "C" fn limiter_try(
    settings: LimiterSettings,
    ws: &mut [u64],
    at: u64,
    hash: u64,
    key: u64,
    cost: u32,
) -> Told
    ensures { outcome result ws.new
        ≡ Replies.told (Rules.try_acquire (settings_of settings) (nanos_of at) (identity_of hash key) cost ws.old) }
{
    limiter::limiter_try(settings, ws, at, hash, key, cost)
}

// Takes `cost` tokens for a key that become usable after a wait, if that wait is at most `max_wait`. The number is the wait.
#[unsafe(no_mangle)]
pub extern "C" fn limiter_reserve(
    settings: LimiterSettings,
    ws: &mut [u64],
    at: u64,
    hash: u64,
    key: u64,
    cost: u32,
    max_wait: u64,
) -> Told
    ensures { outcome result ws.new ≡
        Replies.told (Rules.reserve (settings_of settings) (nanos_of at) (identity_of hash key) cost (nanos_of max_wait) ws.old) }
{
    limiter::limiter_reserve(settings, ws, at, hash, key, cost, max_wait)
}

// What the key's bucket would answer to a try at the moment `at`. It takes nothing, and says nothing of room for a new key.
#[unsafe(no_mangle)]
pub extern "C" fn limiter_peek(
    settings: LimiterSettings,
    ws: &[u64],
    at: u64,
    hash: u64,
    key: u64,
    cost: u32,
) -> Told
    ensures { outcome result ws.exit.now ≡ Replies.told (Rules.peek (settings_of settings) (nanos_of at) (identity_of hash key) cost ws.now) }
{
    limiter::limiter_peek(settings, ws, at, hash, key, cost)
}

// The tokens that a key has at the moment `at`.
#[unsafe(no_mangle)]
pub extern "C" fn limiter_available(
    settings: LimiterSettings,
    ws: &[u64],
    at: u64,
    hash: u64,
    key: u64,
) -> Told
    ensures { outcome result ws.exit.now ≡ Replies.told (Rules.available (settings_of settings) (nanos_of at) (identity_of hash key) ws.now) }
{
    limiter::limiter_available(settings, ws, at, hash, key)
}

// How many tries of a key its own bucket has turned away, from the call on that gave the key its slot. 0 for a key without a slot.
#[unsafe(no_mangle)]
pub extern "C" fn limiter_turned_away(
    settings: LimiterSettings,
    ws: &[u64],
    hash: u64,
    key: u64,
) -> Told
    ensures { outcome result ws.exit.now ≡ Replies.told (Rules.times_turned_away (settings_of settings) (identity_of hash key) ws.now) }
{
    limiter::limiter_turned_away(settings, ws, hash, key)
}

// Gives `cost` tokens back to a key, or to the debt that is remembered for its hash; unknown if there is neither.
#[unsafe(no_mangle)]
pub extern "C" fn limiter_refund(
    settings: LimiterSettings,
    ws: &mut [u64],
    hash: u64,
    key: u64,
    cost: u32,
) -> Told
    ensures { outcome result ws.new ≡ Replies.told (Rules.refund (settings_of settings) (identity_of hash key) cost ws.old) }
{
    limiter::limiter_refund(settings, ws, hash, key, cost)
}

// Forgets a key, and the debt that is remembered for its hash; unknown if there is neither.
#[unsafe(no_mangle)]
pub extern "C" fn limiter_remove(
    settings: LimiterSettings,
    ws: &mut [u64],
    hash: u64,
    key: u64,
) -> Told
    ensures { outcome result ws.new ≡ Replies.told (Rules.remove (settings_of settings) (identity_of hash key) ws.old) }
{
    limiter::limiter_remove(settings, ws, hash, key)
}

// Forgets all keys and debts.
#[unsafe(no_mangle)]
pub extern "C" fn limiter_clear(settings: LimiterSettings, ws: &mut [u64]) -> Told
    ensures { outcome result ws.new ≡ Replies.told (Rules.clear (settings_of settings) ws.old) }
{
    limiter::limiter_clear(settings, ws)
}

// The number of keys that have a slot.
#[unsafe(no_mangle)]
pub extern "C" fn limiter_length(settings: LimiterSettings, ws: &[u64]) -> Told
    ensures { outcome result ws.exit.now ≡ Replies.told (Rules.len (settings_of settings) ws.now) }
{
    limiter::limiter_length(settings, ws)
}

// The words to lend for these settings: the length that every operation asks of `ws`. It follows from the sizes alone, so where only the rate is
// refused it is the same as with a rate that is accepted. 0 where the sizes are refused, and for more classes than a table may have: no store has 0 words.
#[unsafe(no_mangle)]
pub extern "C" fn limiter_words(settings: LimiterSettings) -> u64
    ensures { result ≡ words_to_lend (settings_of settings) }
{
    limiter::limiter_words(settings)
}

// A hash for a key, for callers who have no hash of their own: FNV-1a over its eight bytes, lowest first. It has no secret: where strangers choose
// the keys, they can choose keys that share a shard or a hash.
#[unsafe(no_mangle)]
pub extern "C" fn limiter_key_hash(key: u64) -> u64
    ensures { result ≡ hash_of key }
{
    limiter::limiter_key_hash(key)
}

// The version of this interface. The name holds the numbers that have to be equal in a caller's header and in the library: a caller's objects refer to it, so a
// library of another version does not link.
#[unsafe(no_mangle)]
pub extern "C" fn limiter_version_0_9() -> u32
    ensures { result ≡ version_number }
{
    limiter::limiter_version_0_9()
}
