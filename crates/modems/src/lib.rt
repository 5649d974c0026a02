// The limiter for modems that are known by hardware address: five of its operations, on the six bytes of an address as a lent slice, and on settings,
// arguments and lent words of any kind. A call that is refused by number changes no word. `identify` gives an address's hash and key.
#![tactic(auto)]

ghost use Rattle.std.specs.Prelude.{◌≡◌, length};
ghost use Rattle.rows.specs.Outcome.{outcome};
ghost use Rattle.modems.specs.Address as Address;

use rules::Reply;
use settings::Settings;
use settings::refusal::Refusal;
use shard::Identity;
use units::Nanos;

// The bytes of an address.
const ADDRESS_BYTES: usize = 6;

// Takes tokens for a modem without waiting: granted, to be tried again after a wait, or impossible.
pub fn try_acquire_with_cost(
    settings: Settings,
    ws: &mut [u64],
    at: Nanos,
    address: &[u8],
    cost: u32,
) -> Reply
    ensures { outcome result ws.new ≡ Address.try_acquire settings at address.now cost ws.old }
{
    if let Err(refusal) = check_address(address) {
        return refusal.into();
    }
    perkey::try_acquire_with_cost(settings, ws, at, identity(address), cost)
}

// Takes tokens for a modem that become usable after a wait, if the wait is at most `max_wait`.
pub fn reserve(
    settings: Settings,
    ws: &mut [u64],
    at: Nanos,
    address: &[u8],
    cost: u32,
    max_wait: Nanos,
) -> Reply
    ensures { outcome result ws.new ≡ Address.reserve settings at address.now cost max_wait ws.old }
{
    if let Err(refusal) = check_address(address) {
        return refusal.into();
    }
    perkey::reserve(settings, ws, at, identity(address), cost, max_wait)
}

// What the modem's own bucket would answer to a try, taking nothing. It says nothing of space.
pub fn peek(settings: Settings, ws: &[u64], at: Nanos, address: &[u8], cost: u32) -> Reply
    ensures { outcome result ws.exit.now ≡ Address.peek settings at address.now cost ws.now }
{
    if let Err(refusal) = check_address(address) {
        return refusal.into();
    }
    perkey::peek(settings, ws, at, identity(address), cost)
}

// Gives tokens back to a modem, if it is known.
pub fn refund(settings: Settings, ws: &mut [u64], address: &[u8], cost: u32) -> Reply
    ensures { outcome result ws.new ≡ Address.refund settings address.now cost ws.old }
{
    if let Err(refusal) = check_address(address) {
        return refusal.into();
    }
    perkey::refund(settings, ws, identity(address), cost)
}

// Forgets a modem, if it is known.
pub fn remove(settings: Settings, ws: &mut [u64], address: &[u8]) -> Reply
    ensures { outcome result ws.new ≡ Address.remove settings address.now ws.old }
{
    if let Err(refusal) = check_address(address) {
        return refusal.into();
    }
    perkey::remove(settings, ws, identity(address))
}

// The identity that the five operations give a modem. A caller needs it for what is asked by hash and key alone, and to choose among several stores.
pub fn identify(address: &[u8]) -> Result<Identity, Refusal>
    ensures { result ≡ Address.identified address.now }
{
    check_address(address)?;
    Ok(identity(address))
}

// Whether a slice is the address of a modem: six bytes, with the group bit not set.
fn check_address(address: &[u8]) -> Result<(), Refusal>
    ensures { result ≡ Address.checked address.now }
{
    if address.len() != ADDRESS_BYTES {
        return Err(Refusal::AddressLength);
    }
    if address[0] % 2 != 0 {
        return Err(Refusal::GroupAddress);
    }
    Ok(())
}

// The identity in the limiter of an address that is not refused: its hash and its key.
fn identity(address: &[u8]) -> Identity
    requires { Address.address_refusal address.now ≡ 0 }
    ensures { result ≡ Address.identity_of address.now }
{
    Identity {
        hash: hash::fnv1a(address),
        key: key_of(address),
    }
}

// The number with the first byte highest.
fn key_of(address: &[u8]) -> u64
    requires { length address.now ≡ Address.address_bytes }
    ensures { result ≡ Address.key_of address.now }
{
    let mut key: u64 = 0;
    for i in 0..address.len() {
        key = 256 * key + (address[i] as u64);
    }
    key
}
