// The limiter for modems that are known by hardware address, for callers in C and Rust: the address is a lent slice of bytes, in C a pointer and a length.
// What each operation does is the rule of `modems` that its contract names; its reply is told as numbers. It is a separate crate so that it
// becomes a separate object: in one object with the exports of `limiter` the calls by key were slower (docs/DECISIONS.md).
#![tactic(auto)]

ghost use Rattle.std.specs.Prelude.{◌≡◌};
ghost use Rattle.rows.specs.Outcome.{outcome};
ghost use Rattle.units.specs.Units.{nanos_of};
ghost use Rattle.rules.specs.Replies as Replies;
ghost use Rattle.modems.specs.Address as Address;
ghost use Rattle.limiter.specs.Exported.{settings_of};
ghost use Rattle.limiter_modems.specs.IdentityTold.{identity_told};

use limiter::{LimiterSettings, settings_of};
use rules::codes::Told;
use units::Nanos;

// The identity of a modem as numbers: the code 0, and the hash and the key of its address; or the code of a refusal, 0 and 0.
#[repr(C)]
#[derive(Clone, Copy)]
pub struct LimiterIdentity {
    pub code: u64,
    pub hash: u64,
    pub key: u64,
}

// Takes `cost` tokens for a modem at the moment `at`, if its bucket has them: granted, to be tried again after a wait, or impossible.
pub fn limiter_modem_try(
    settings: LimiterSettings,
    ws: &mut [u64],
    at: u64,
    address: &[u8],
    cost: u32,
) -> Told
    ensures { outcome result ws.new ≡
        Replies.told (Address.try_acquire (settings_of settings) (nanos_of at) address.now cost ws.old) }
{
    modems::try_acquire_with_cost(settings_of(settings), ws, Nanos(at), address, cost).told()
}

// Takes `cost` tokens for a modem that become usable after a wait, if that wait is at most `max_wait`. The number is the wait.
pub fn limiter_modem_reserve(
    settings: LimiterSettings,
    ws: &mut [u64],
    at: u64,
    address: &[u8],
    cost: u32,
    max_wait: u64,
) -> Told
    ensures { outcome result ws.new ≡
        Replies.told (Address.reserve (settings_of settings) (nanos_of at) address.now cost (nanos_of max_wait) ws.old) }
{
    modems::reserve(
        settings_of(settings),
        ws,
        Nanos(at),
        address,
        cost,
        Nanos(max_wait),
    )
    .told()
}

// What the modem's bucket would answer to a try at the moment `at`. It takes nothing, and says nothing of room for a new modem.
pub fn limiter_modem_peek(
    settings: LimiterSettings,
    ws: &[u64],
    at: u64,
    address: &[u8],
    cost: u32,
) -> Told
    ensures { outcome result ws.exit.now ≡
        Replies.told (Address.peek (settings_of settings) (nanos_of at) address.now cost ws.now) }
{
    modems::peek(settings_of(settings), ws, Nanos(at), address, cost).told()
}

// Gives `cost` tokens back to a modem, or to the debt that is remembered for its hash; unknown if there is neither.
pub fn limiter_modem_refund(
    settings: LimiterSettings,
    ws: &mut [u64],
    address: &[u8],
    cost: u32,
) -> Told
    ensures { outcome result ws.new ≡ Replies.told (Address.refund (settings_of settings) address.now cost ws.old) }
{
    modems::refund(settings_of(settings), ws, address, cost).told()
}

// Forgets a modem, and the debt that is remembered for its hash; unknown if there is neither.
pub fn limiter_modem_remove(settings: LimiterSettings, ws: &mut [u64], address: &[u8]) -> Told
    ensures { outcome result ws.new ≡ Replies.told (Address.remove (settings_of settings) address.now ws.old) }
{
    modems::remove(settings_of(settings), ws, address).told()
}

// The hash and the key that the calls above give a modem of this address, for the calls that take a hash and a key.
pub fn limiter_modem_identity(address: &[u8]) -> LimiterIdentity
    ensures { result ≡ identity_told address.now }
{
    match modems::identify(address) {
        Err(refusal) => LimiterIdentity {
            code: 10 + (u32::from(refusal) as u64),
            hash: 0,
            key: 0,
        },
        Ok(identity) => LimiterIdentity {
            code: 0,
            hash: identity.hash,
            key: identity.key,
        },
    }
}
