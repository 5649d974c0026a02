// The operations on the one shard that a key belongs to.
#![tactic(auto)]

ghost use Rattle.std.specs.Prelude.{◌≡◌, ◌≤◌, ◌<◌};
ghost use Rattle.rows.specs.Outcome.{outcome};
ghost use Rattle.bucket.specs.Bucket.{Accepted};
ghost use Rattle.ledger.specs.Model as Ledger;
ghost use Rattle.shard_map.specs.Model.{slot_at};
ghost use Rattle.shard_map.specs.Layout.{shard, Intact};
ghost use Rattle.shard.specs.Model as Model;

use bucket::{BucketConfig, BucketCore, BucketDecision, Due, Request};
use settings::eviction::Eviction;
use shard_map::debts;
use slot::Slot;
use units::Nanos;

// A key: its hash and the key itself, together.
#[derive(Clone, Copy)]
pub struct Identity {
    pub hash: u64,
    pub key: u64,
}

// The settings that a shard needs.
#[derive(Clone, Copy)]
pub struct Policy {
    pub config: BucketConfig,
    pub idle_ttl: Option<Nanos>,
    pub forget_debt: bool,
}

impl Policy {
    // Whether last-seen is kept up to date.
    pub fn tracks_idle(self) -> bool
        ensures { result ≡ Model.tracks self.idle_ttl }
    {
        self.idle_ttl.is_some()
    }
}

// A request of a known key, by its place: its slot is touched, and its bucket is asked. The slot is read once and stored once.
pub fn with_existing(
    ws: &mut [u64],
    cap: usize,
    policy: Policy,
    pos: usize,
    request: Request,
    cost: u32,
    at: Nanos,
) -> BucketDecision
    requires { Intact cap ws.old × Accepted policy.config × (cost ≤ policy.config.capacity) × (pos < cap) }
    ensures { outcome result (shard cap ws.new) ≡ Model.with_existing policy request cost at (shard cap ws.old) pos }
{
    let stored = shard_map::get(ws, cap, pos);
    let slot = slot::touch_value(stored, at, policy.tracks_idle());
    let asked = slot.bucket.ask_at(policy.config, request, cost, at);
    shard_map::set(ws, cap, pos, slot.asked(asked));
    asked.decision
}

// A request of a new key. The key's own debt is taken out first: its place in the ledger is then free for the debt of a slot that has to go. So a key that
// left a debt is never refused for space, and no debt has to be put back. A key that is refused for space is denied until room is due.
pub fn admit(
    ws: &mut [u64],
    cap: usize,
    policy: Policy,
    id: Identity,
    request: Request,
    cost: u32,
    at: Nanos,
) -> BucketDecision
    requires { Intact cap ws.old × Accepted policy.config × (cost ≤ policy.config.capacity) }
    ensures { outcome result (shard cap ws.new) ≡ Model.admit policy id request cost at (shard cap ws.old) }
{
    let owed = debts::take(ws, cap, id.hash);
    match make_room(ws, cap, policy, at) {
        Ok(()) => join(ws, cap, policy, id, request, cost, at, owed),
        Err(due) => BucketDecision::Denied(due),
    }
}

// Room is there: the key's bucket is asked, and its slot comes last, whatever the bucket answered.
fn join(
    ws: &mut [u64],
    cap: usize,
    policy: Policy,
    id: Identity,
    request: Request,
    cost: u32,
    at: Nanos,
    owed: Option<Nanos>,
) -> BucketDecision
    requires { Intact cap ws.old × Accepted policy.config × (cost ≤ policy.config.capacity) × ((shard cap ws.old).slots.count < cap) }
    ensures { outcome result (shard cap ws.new) ≡ Model.joined policy id request cost at owed (shard cap ws.old) }
{
    let config = policy.config;
    let returned = returning(config, at, owed);
    let asked = returned.ask_at(config, request, cost, at);
    let slot = Slot::new(id.hash, id.key, returned, at.millis());
    shard_map::insert(ws, cap, slot.asked(asked));
    asked.decision
}

// The bucket of a key without a slot: a fresh one, in its debt if it left one.
fn returning(config: BucketConfig, at: Nanos, owed: Option<Nanos>) -> BucketCore
    requires { Accepted config }
    ensures { result ≡ Model.returning config at owed }
{
    let fresh = BucketCore::new(config, at);
    match owed {
        None => fresh,
        Some(settles) => bucket::restore_debt(fresh, config, at, settles),
    }
}

// Makes room in a shard that is about to receive a new key: the idle sweep, the ledger's sweep, and one eviction if the shard is full all the same.
fn make_room(ws: &mut [u64], cap: usize, policy: Policy, at: Nanos) -> Result<(), Due>
    requires { Intact cap ws.old × Accepted policy.config }
    ensures { outcome result (shard cap ws.new) ≡ Model.make_room policy at (shard cap ws.old) }
{
    sweep(ws, cap, policy, at);
    if shard_map::len(ws, cap) < cap {
        return Ok(());
    }
    evict::evict_one(ws, cap, policy.config, at, policy.forget_debt)
}

// The two sweeps.
fn sweep(ws: &mut [u64], cap: usize, policy: Policy, at: Nanos)
    requires { Intact cap ws.old × Accepted policy.config }
    ensures { shard cap ws.new ≡ Model.swept policy at (shard cap ws.old) }
{
    sweep_idle(ws, cap, policy, at);
    debts::sweep(ws, cap, at, Eviction::ledger_looks());
}

// The idle sweep, where an idle time is set. The limit is worked out here, since only a new key needs it.
fn sweep_idle(ws: &mut [u64], cap: usize, policy: Policy, at: Nanos)
    requires { Intact cap ws.old × Accepted policy.config }
    ensures { shard cap ws.new ≡ Model.swept_idle policy at (shard cap ws.old) (Model.idle_limit_in policy) }
{
    if let Some(ttl) = policy.idle_ttl {
        let config = policy.config;
        let limit = settings::idle_limit(ttl, config);
        shard_map::sweep_idle(ws, cap, config, at, limit, Eviction::idle_looks());
    }
}

// The bucket that a key has, or would have if it came in now. Creates nothing and touches nothing.
pub fn view(ws: &[u64], cap: usize, config: BucketConfig, id: Identity, at: Nanos) -> BucketCore
    requires { Intact cap ws.now × Accepted config }
    ensures { result ≡ Model.viewed config id at (shard cap ws.now) }
{
    match shard_map::position(ws, cap, id.hash, id.key) {
        Some(pos) => bucket_at(ws, cap, pos),
        None => returning_bucket(ws, cap, config, id.hash, at),
    }
}

// The bucket of the slot at a place.
pub fn bucket_at(ws: &[u64], cap: usize, pos: usize) -> BucketCore
    requires { Intact cap ws.now × (pos < cap) }
    ensures { result ≡ (slot_at (shard cap ws.now) pos).bucket }
{
    shard_map::get(ws, cap, pos).bucket
}

// The bucket that a key without a slot would have if it came in now.
pub fn returning_bucket(
    ws: &[u64],
    cap: usize,
    config: BucketConfig,
    hash: u64,
    at: Nanos,
) -> BucketCore
    requires { Intact cap ws.now × Accepted config }
    ensures { result ≡ Model.returning config at (Ledger.owed_by (shard cap ws.now).ledger hash) }
{
    returning(config, at, debts::owed_by(ws, cap, hash))
}

// How many tries of a key its bucket has turned away. A key without a slot has none.
pub fn turned_away(ws: &[u64], cap: usize, id: Identity) -> u64
    requires { Intact cap ws.now }
    ensures { result ≡ Model.turn_aways id (shard cap ws.now) }
{
    match shard_map::position(ws, cap, id.hash, id.key) {
        Some(pos) => shard_map::get(ws, cap, pos).times_turned_away(),
        None => 0,
    }
}

// Gives tokens back to a key: to its slot, or off the debt that it left. Tells whether it had either.
pub fn refund(ws: &mut [u64], cap: usize, config: BucketConfig, id: Identity, cost: u32) -> bool
    requires { Intact cap ws.old × Accepted config }
    ensures { outcome result (shard cap ws.new) ≡ Model.refunded config id cost (shard cap ws.old) }
{
    match shard_map::position(ws, cap, id.hash, id.key) {
        Some(pos) => {
            let slot = shard_map::get(ws, cap, pos);
            let bucket = slot.bucket.refund(config, cost);
            shard_map::set(ws, cap, pos, Slot { bucket, ..slot });
            true
        }
        None => debts::pay_down(ws, cap, id.hash, cost, config),
    }
}

// Forgets a key: its slot, and the debt of its hash. Tells whether it had either.
pub fn remove(ws: &mut [u64], cap: usize, id: Identity) -> bool
    requires { Intact cap ws.old }
    ensures { outcome result (shard cap ws.new) ≡ Model.removed id (shard cap ws.old) }
{
    let place = shard_map::position(ws, cap, id.hash, id.key);
    let debt = debts::take(ws, cap, id.hash);
    match place {
        Some(pos) => {
            shard_map::remove_at(ws, cap, pos);
            true
        }
        None => debt.is_some(),
    }
}
