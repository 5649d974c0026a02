// The shards of a store, side by side in the lent words, behind the total of their slots. An operation on a key is lent the part of its key's shard alone.
#![tactic(auto)]

ghost use Rattle.std.specs.Prelude.{◌≡◌, ◌+◌, ◌-◌, ◌≤◌, ◌<◌, ◌^◌, length, replicate, set};
ghost use Rattle.rows.specs.Outcome.{outcome};
ghost use Rattle.bucket.specs.Bucket.{Accepted};
ghost use Rattle.settings.specs.Settings.{ShapeOfAccepted};
ghost use Rattle.ledger.specs.Model as Ledger;
ghost use Rattle.shard_map.specs.Model.{Sound, slot_at, place_of};
ghost use Rattle.shard.specs.Model as OneShard;
ghost use Rattle.store.specs.Memory.{total_at, total_of, Placed, Counted, shard_in, part_at, part_in, in_part};

use bucket::{BucketConfig, BucketCore, BucketDecision, Request};
use settings::Shape;
use shard::{Identity, Policy};
use units::Nanos;

pub mod debts;
pub mod lending;
pub mod numbered;
pub mod refusals;
pub mod words;

// Where the shard of a key lies in the lent words, and how many places it has.
#[derive(Clone, Copy)]
pub struct Part {
    pub start: usize,
    pub end: usize,
    pub cap: usize,
}

// The part of a shard, by its number.
pub fn part_at(shape: Shape, shard: usize) -> Part
    requires { ShapeOfAccepted shape × (shard < shape.shards) }
    ensures { result ≡ part_at shape shard }
{
    let start = words::shard_start(shape.cap, shard);
    Part {
        start,
        end: start + shard_map::words::shard_words(shape.cap),
        cap: shape.cap,
    }
}

// The part of the shard of a hash.
pub fn part_of(shape: Shape, hash: u64) -> Part
    requires { ShapeOfAccepted shape }
    ensures { result ≡ part_in shape hash }
{
    part_at(shape, shape.shard_index(hash))
}

// The place of a key's slot.
pub fn position(ws: &[u64], part: Part, id: Identity) -> Option<usize>
    requires { Placed part ws.now × Sound (shard_in part ws.now) }
    ensures { result ≡ place_of (shard_in part ws.now) id.hash id.key }
{
    shard_map::position(&ws[part.start..part.end], part.cap, id.hash, id.key)
}

// Runs a request on the bucket of a known key, by its place.
pub fn with_existing(
    ws: &mut [u64],
    part: Part,
    policy: Policy,
    pos: usize,
    request: Request,
    cost: u32,
    at: Nanos,
) -> BucketDecision
    requires { Placed part ws.old × Sound (shard_in part ws.old) × Accepted policy.config × (cost ≤ policy.config.capacity) × (pos < part.cap) }
    ensures { outcome result ws.new
        ≡ in_part part ws.old (OneShard.with_existing policy request cost at (shard_in part ws.old) pos) }
{
    shard::with_existing(
        &mut ws[part.start..part.end],
        part.cap,
        policy,
        pos,
        request,
        cost,
        at,
    )
}

// Runs a request on the bucket that a new key gets. The total moves with the slots.
pub fn admit(
    ws: &mut [u64],
    part: Part,
    policy: Policy,
    id: Identity,
    request: Request,
    cost: u32,
    at: Nanos,
) -> BucketDecision
    requires { Placed part ws.old × Sound (shard_in part ws.old) × Accepted policy.config × (cost ≤ policy.config.capacity)
        × Counted part ws.old }
    ensures { outcome result ws.new ≡ in_part part ws.old (OneShard.admit policy id request cost at (shard_in part ws.old)) }
{
    let others = other_slots(ws, part);
    let decision = shard::admit(
        &mut ws[part.start..part.end],
        part.cap,
        policy,
        id,
        request,
        cost,
        at,
    );
    move_total(ws, part, others);
    decision
}

// How many slots the other shards have, by the total.
fn other_slots(ws: &[u64], part: Part) -> u64
    requires { Placed part ws.now × Counted part ws.now }
    ensures { result ≡ total_of ws.now - (shard_in part ws.now).slots.count }
{
    ws[words::TOTAL_AT] - (shard_map::len(&ws[part.start..part.end], part.cap) as u64)
}

// Stores the total: the slots of the other shards, and those of the shard in the part.
fn move_total(ws: &mut [u64], part: Part, others: u64)
    requires { Placed part ws.old × (others + (shard_in part ws.old).slots.count < 2 ^ 64) }
    ensures { ws.new ≡ set ws.old total_at (others + (shard_in part ws.old).slots.count) }
{
    let own = shard_map::len(&ws[part.start..part.end], part.cap) as u64;
    ws[words::TOTAL_AT] = others + own;
}

// The bucket that a key has, or would have if it came in now.
pub fn view(ws: &[u64], part: Part, config: BucketConfig, id: Identity, at: Nanos) -> BucketCore
    requires { Placed part ws.now × Sound (shard_in part ws.now) × Accepted config }
    ensures { result ≡ OneShard.viewed config id at (shard_in part ws.now) }
{
    shard::view(&ws[part.start..part.end], part.cap, config, id, at)
}

// How many tries of a key its bucket has turned away.
pub fn turned_away(ws: &[u64], part: Part, id: Identity) -> u64
    requires { Placed part ws.now × Sound (shard_in part ws.now) }
    ensures { result ≡ OneShard.turn_aways id (shard_in part ws.now) }
{
    shard::turned_away(&ws[part.start..part.end], part.cap, id)
}

// The bucket of the slot at a place.
pub fn bucket_at(ws: &[u64], part: Part, pos: usize) -> BucketCore
    requires { Placed part ws.now × Sound (shard_in part ws.now) × (pos < part.cap) }
    ensures { result ≡ (slot_at (shard_in part ws.now) pos).bucket }
{
    shard::bucket_at(&ws[part.start..part.end], part.cap, pos)
}

// The bucket that a key without a slot would have if it came in now.
pub fn returning_bucket(
    ws: &[u64],
    part: Part,
    config: BucketConfig,
    hash: u64,
    at: Nanos,
) -> BucketCore
    requires { Placed part ws.now × Sound (shard_in part ws.now) × Accepted config }
    ensures { result ≡ OneShard.returning config at (Ledger.owed_by (shard_in part ws.now).ledger hash) }
{
    shard::returning_bucket(&ws[part.start..part.end], part.cap, config, hash, at)
}

// Gives tokens back to a key. Tells whether it had a slot or a debt.
pub fn refund(ws: &mut [u64], part: Part, config: BucketConfig, id: Identity, cost: u32) -> bool
    requires { Placed part ws.old × Sound (shard_in part ws.old) × Accepted config }
    ensures { outcome result ws.new ≡ in_part part ws.old (OneShard.refunded config id cost (shard_in part ws.old)) }
{
    shard::refund(&mut ws[part.start..part.end], part.cap, config, id, cost)
}

// Forgets a key. Tells whether it had a slot or a debt. The total moves with the slots.
pub fn remove(ws: &mut [u64], part: Part, id: Identity) -> bool
    requires { Placed part ws.old × Sound (shard_in part ws.old) × Counted part ws.old }
    ensures { outcome result ws.new ≡ in_part part ws.old (OneShard.removed id (shard_in part ws.old)) }
{
    let others = other_slots(ws, part);
    let known = shard::remove(&mut ws[part.start..part.end], part.cap, id);
    move_total(ws, part, others);
    known
}

// The total: on a grown store, how many slots all shards have.
pub fn len(ws: &[u64]) -> u64
    requires { total_at < length ws.now }
    ensures { result ≡ total_of ws.now }
{
    ws[words::TOTAL_AT]
}

// Forgets every key: all words become 0.
pub fn clear(ws: &mut [u64])
    ensures { ws.new ≡ replicate (length ws.old) 0 }
{
    ws.fill(0);
}
