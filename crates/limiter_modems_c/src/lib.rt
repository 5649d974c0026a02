// The calls by hardware address for C and Rust: the exports of `limiter_modems`, each with the clauses of the function that it calls.
#![tactic(auto)]

ghost use Rattle.std.specs.Prelude.{◌≡◌};
ghost use Rattle.rows.specs.Outcome.{outcome};
ghost use Rattle.units.specs.Units.{nanos_of};
ghost use Rattle.rules.specs.Replies as Replies;
ghost use Rattle.modems.specs.Address as Address;
ghost use Rattle.limiter.specs.Exported.{settings_of};
ghost use Rattle.limiter_modems.specs.IdentityTold.{identity_told};

use limiter::LimiterSettings;
use limiter_modems::LimiterIdentity;
use rules::codes::Told;

// Takes `cost` tokens for a modem at the moment `at`, if its bucket has them: granted, to be tried again after a wait, or impossible.
#[unsafe(no_mangle)]
pub extern "C" fn limiter_modem_try(
    settings: LimiterSettings,
    ws: &mut [u64],
    at: u64,
    address: &[u8],
    cost: u32,
) -> Told
    ensures { outcome result ws.new ≡
        Replies.told (Address.try_acquire (settings_of settings) (nanos_of at) address.now cost ws.old) }
{
    limiter_modems::limiter_modem_try(settings, ws, at, address, cost)
}

// Takes `cost` tokens for a modem that become usable after a wait, if that wait is at most `max_wait`. The number is the wait.
#[unsafe(no_mangle)]
pub extern "C" fn limiter_modem_reserve(
    settings: LimiterSettings,
    ws: &mut [u64],
    at: u64,
    address: &[u8],
    cost: u32,
    max_wait: u64,
) -> Told
    ensures { outcome result ws.new ≡
        Replies.told (Address.reserve (settings_of settings) (nanos_of at) address.now cost (nanos_of max_wait) ws.old) }
{
    limiter_modems::limiter_modem_reserve(settings, ws, at, address, cost, max_wait)
}

// What the modem's bucket would answer to a try at the moment `at`. It takes nothing, and says nothing of room for a new modem.
#[unsafe(no_mangle)]
pub extern "C" fn limiter_modem_peek(
    settings: LimiterSettings,
    ws: &[u64],
    at: u64,
    address: &[u8],
    cost: u32,
) -> Told
    ensures { outcome result ws.exit.now ≡
        Replies.told (Address.peek (settings_of settings) (nanos_of at) address.now cost ws.now) }
{
    limiter_modems::limiter_modem_peek(settings, ws, at, address, cost)
}

// Gives `cost` tokens back to a modem, or to the debt that is remembered for its hash; unknown if there is neither.
#[unsafe(no_mangle)]
pub extern "C" fn limiter_modem_refund(
    settings: LimiterSettings,
    ws: &mut [u64],
    address: &[u8],
    cost: u32,
) -> Told
    ensures { outcome result ws.new ≡ Replies.told (Address.refund (settings_of settings) address.now cost ws.old) }
{
    limiter_modems::limiter_modem_refund(settings, ws, address, cost)
}

// Forgets a modem, and the debt that is remembered for its hash; unknown if there is neither.
#[unsafe(no_mangle)]
pub extern "C" fn limiter_modem_remove(
    settings: LimiterSettings,
    ws: &mut [u64],
    address: &[u8],
) -> Told
    ensures { outcome result ws.new ≡ Replies.told (Address.remove (settings_of settings) address.now ws.old) }
{
    limiter_modems::limiter_modem_remove(settings, ws, address)
}

// The hash and the key that the calls above give a modem of this address, for the calls that take a hash and a key.
#[unsafe(no_mangle)]
pub extern "C" fn limiter_modem_identity(address: &[u8]) -> LimiterIdentity
    ensures { result ≡ identity_told address.now }
{
    limiter_modems::limiter_modem_identity(address)
}
