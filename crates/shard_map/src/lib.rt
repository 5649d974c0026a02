// One shard over lent words: the slots of its keys place by place, the hand and the sweep that go round them, and the ledger.
#![tactic(auto)]

ghost use Rattle.std.specs.Prelude.{◌≡◌, ◌<◌, length};
ghost use Rattle.bucket.specs.Bucket.{Accepted};
ghost use Rattle.held.specs.Held.{with_added, without_item};
ghost use Rattle.shard_map.specs.Model as Model;
ghost use Rattle.shard_map.specs.Layout.{shard, shard_words, Intact};

use bucket::{BucketConfig, BucketCore};
use slot::Slot;
use units::{Millis, Nanos};

pub mod debts;
pub mod words;

// The place of the first slot on the hash's walk that has the hash and the key.
pub fn position(ws: &[u64], cap: usize, hash: u64, key: u64) -> Option<usize>
    requires { Intact cap ws.now }
    ensures { result ≡ Model.place_of (shard cap ws.now) hash key }
{
    let count = words::count(ws, cap);
    index::find(ws, words::index(cap), count, hash, key)
}

// The index gets the slot of this hash that the caller will put at the place.
fn add_to_index(ws: &mut [u64], cap: usize, hash: u64, pos: usize)
    requires { Intact cap ws.old × (pos < cap) }
    ensures { shard cap ws.new
        ≡ Model.with_finding (shard cap ws.old) (with_added (shard cap ws.old).slots.finding hash pos) }
{
    index::add(ws, words::index(cap), hash, pos);
}

// The slot at a place leaves the index, and the last slot gets its number.
fn remove_from_index(ws: &mut [u64], cap: usize, pos: usize)
    requires { Intact cap ws.old × (pos < (shard cap ws.old).slots.count) }
    ensures { shard cap ws.new
        ≡ Model.with_finding (shard cap ws.old) (without_item Model.slot_items (shard cap ws.old).slots pos) }
{
    let count = words::count(ws, cap);
    index::remove(ws, words::index(cap), count, pos);
}

// The slot at a place.
pub fn get(ws: &[u64], cap: usize, pos: usize) -> Slot
    requires { Intact cap ws.now × (pos < cap) }
    ensures { result ≡ Model.slot_at (shard cap ws.now) pos }
{
    words::load(ws, cap, pos)
}

// Puts a slot at a place.
pub fn set(ws: &mut [u64], cap: usize, pos: usize, slot: Slot)
    requires { Intact cap ws.old × (pos < cap) }
    ensures { shard cap ws.new ≡ Model.with_slot (shard cap ws.old) pos slot }
{
    words::put(ws, cap, pos, slot);
}

// How many slots are held. It requires the length alone, so that it can tell a count that is too large.
pub fn len(ws: &[u64], cap: usize) -> usize
    requires { length ws.now ≡ shard_words cap }
    ensures { result ≡ (shard cap ws.now).slots.count }
{
    words::count(ws, cap)
}

// Appends a slot. The caller has made room.
pub fn insert(ws: &mut [u64], cap: usize, slot: Slot)
    requires { Intact cap ws.old × ((shard cap ws.old).slots.count < cap) }
    ensures { shard cap ws.new ≡ Model.insert (shard cap ws.old) slot }
{
    let count = words::count(ws, cap);
    add_to_index(ws, cap, slot.hash, count);
    words::put(ws, cap, count, slot);
    words::set_count(ws, cap, count + 1);
}

// Removes the slot at a place: the last slot moves into the gap.
pub fn remove_at(ws: &mut [u64], cap: usize, pos: usize)
    requires { Intact cap ws.old × (pos < (shard cap ws.old).slots.count) }
    ensures { shard cap ws.new ≡ Model.remove_at (shard cap ws.old) pos }
{
    remove_from_index(ws, cap, pos);
    let last = words::count(ws, cap) - 1;
    let moved = words::load(ws, cap, last);
    words::put(ws, cap, pos, moved);
    words::put(ws, cap, last, free_slot());
    words::set_count(ws, cap, last);
}

// What stands in a place that holds no slot.
fn free_slot() -> Slot
    ensures { result ≡ Model.no_slot }
{
    Slot {
        hash: 0,
        key: 0,
        bucket: BucketCore {
            shortfall: 0,
            stamp: Nanos(0),
        },
        mark: 0,
        seen: Millis(0),
        turned_away: 0,
    }
}

// Whether the slot has been idle for the limit and its bucket is full.
fn is_reclaimable(slot: Slot, config: BucketConfig, at: Nanos, ttl_ms: Millis) -> bool
    requires { Accepted config }
    ensures { result ≡ Model.reclaimable config at ttl_ms slot }
{
    slot.is_expired(at.millis(), ttl_ms) && slot.is_lossless(config, at)
}

// One look of the idle sweep, at a shard that holds a slot.
fn idle_look(ws: &mut [u64], cap: usize, config: BucketConfig, at: Nanos, ttl_ms: Millis)
    requires { Intact cap ws.old × Accepted config × (0 < (shard cap ws.old).slots.count) }
    ensures { shard cap ws.new ≡ Model.idle_look config at ttl_ms (shard cap ws.old) }
{
    let sweep = words::sweep(ws, cap);
    if is_reclaimable(words::load(ws, cap, sweep), config, at, ttl_ms) {
        words::set_sweep(ws, cap, sweep);
        remove_at(ws, cap, sweep);
    } else {
        words::set_sweep(ws, cap, sweep + 1);
    }
}

// Reclaims idle slots with full buckets among the next `budget` looks.
pub fn sweep_idle(
    ws: &mut [u64],
    cap: usize,
    config: BucketConfig,
    at: Nanos,
    ttl_ms: Millis,
    budget: usize,
)
    requires { Intact cap ws.old × Accepted config }
    ensures { shard cap ws.new ≡ Model.sweep_idle config at ttl_ms budget (shard cap ws.old) }
{
    for _ in 0..budget {
        if words::count(ws, cap) == 0 {
            break;
        }
        idle_look(ws, cap, config, at, ttl_ms);
    }
}
