// Eviction of one slot from a full shard.
#![tactic(auto)]

ghost use Rattle.std.specs.Prelude.{◌≡◌, ◌≤◌, ◌<◌};
ghost use Rattle.rows.specs.Outcome.{outcome};
ghost use Rattle.bucket.specs.Bucket.{Accepted, shortfall_at};
ghost use Rattle.shard_map.specs.Model as Model;
ghost use Rattle.shard_map.specs.Layout.{shard, Intact};
ghost use Rattle.evict.specs.declared.Victim.TheVariants.{Owing};
ghost use Rattle.evict.specs.Evict as Evict;
ghost use Rattle.evict.specs.code.Awaited.{awaiting, soonest_in, new_walk, walk_noted};
ghost use Rattle.evict.specs.code.Row.{with_least, plainly_owed, along, Passed};

use bucket::{BucketConfig, BucketCore, Due};
use ledger::{Debt, NoRoom};
use settings::eviction::Eviction;
use shard_map::{debts, words};
use slot::Slot;
use units::Nanos;

// The shortest wait that a key refused for space is told, in nanoseconds, so that it does not ask again at once.
const MIN_REFUSAL_WAIT: u64 = 1000000;

// Who goes in an eviction, by its place: a free slot is full and goes without loss; one that owes goes once its debt is recorded.
#[derive(Clone, Copy)]
pub enum Victim {
    Free(usize),
    Owing(usize),
}

// How soon the slots recover that are not full. Of those whose stamp is not after the moment `least` is the least shortfall: the slot that has it recovers the
// soonest of them. To work out how soon takes a division, and for these slots only a refusal makes it. Of the others, which a clock set back leaves, `later` is
// the soonest recovery. Each is the largest number of 64 bits while there is no such slot.
#[derive(Clone, Copy)]
pub struct Awaited {
    pub least: u64,
    pub later: u64,
}

// What the walk of the hand has noted: the first full slot, the first slot neither full nor marked, and how soon those not full recover.
#[derive(Clone, Copy)]
pub struct Walk {
    pub full: Option<usize>,
    pub unmarked: Option<usize>,
    pub awaited: Awaited,
}

// A row of looks at slots side by side: how many are left, and the least shortfall so far.
#[derive(Clone, Copy)]
pub struct Row {
    pub left: usize,
    pub least: u64,
}

impl Awaited {
    // With the bucket of one more slot that is not full.
    fn with(self, bucket: BucketCore, shortfall: u64, config: BucketConfig, at: Nanos) -> Awaited
        requires { Accepted config × (shortfall ≡ shortfall_at config bucket at) }
        ensures { result ≡ awaiting config at self bucket }
    {
        if bucket.stamp.0 <= at.0 {
            return Awaited {
                least: self.least.min(shortfall),
                ..self
            };
        }
        let recovers_in = bucket.recovers_in(config, at);
        Awaited {
            later: self.later.min(recovers_in.0),
            ..self
        }
    }

    // How long until the first of the slots has recovered.
    fn soonest(self, config: BucketConfig) -> Nanos
        requires { Accepted config }
        ensures { result.0 ≡ soonest_in config self }
    {
        if self.least == u64::MAX {
            return Nanos(self.later);
        }
        let recovery = config.recovery_of(self.least);
        Nanos(recovery.0.min(self.later))
    }
}

impl Walk {
    // Before the first look.
    pub fn new() -> Walk
        ensures { result ≡ new_walk }
    {
        Walk {
            full: None,
            unmarked: None,
            awaited: Awaited {
                least: u64::MAX,
                later: u64::MAX,
            },
        }
    }

    // After a look at a slot that does not go at once.
    pub fn noted(self, pos: usize, slot: Slot, config: BucketConfig, at: Nanos) -> Walk
        requires { Accepted config }
        ensures { result ≡ walk_noted config at self pos slot }
    {
        let shortfall = slot.bucket.shortfall_at(config, at);
        if shortfall == 0 {
            return Walk {
                full: self.full.or(Some(pos)),
                ..self
            };
        }
        let awaited = self.awaited.with(slot.bucket, shortfall, config, at);
        if slot.mark == 0 {
            return Walk {
                unmarked: self.unmarked.or(Some(pos)),
                awaited,
                ..self
            };
        }
        Walk { awaited, ..self }
    }

    // With another least shortfall.
    fn with_least(self, least: u64) -> Walk
        ensures { result ≡ with_least self least }
    {
        Walk {
            awaited: Awaited {
                least,
                ..self.awaited
            },
            ..self
        }
    }

    // Who goes: the slot at which the walk ended; else the first full one; else the first unmarked one, or the first looked at, which owes.
    fn choose(self, ended: Option<usize>, first: usize) -> Victim
        ensures { result ≡ Evict.victim_of ended self.full self.unmarked first }
    {
        match ended.or(self.full) {
            Some(pos) => Victim::Free(pos),
            None => Victim::Owing(self.unmarked.unwrap_or(first)),
        }
    }
}

// Whether a slot is full and has no mark.
fn goes_at_once(slot: Slot, config: BucketConfig, at: Nanos) -> bool
    requires { Accepted config }
    ensures { result ≡ Evict.goes_at_once config at slot }
{
    slot.is_lossless(config, at) && slot.mark == 0
}

// A look of the hand. It gives the slot as it is; then it clears the slot's mark and steps the hand on.
fn hand_look(ws: &mut [u64], cap: usize, pos: usize) -> Slot
    requires { Intact cap ws.old × (pos < cap) }
    ensures { outcome result (shard cap ws.new)
        ≡ outcome (Model.slot_at (shard cap ws.old) pos) (Evict.looked (shard cap ws.old) pos) }
{
    let slot = shard_map::get(ws, cap, pos);
    words::clear_mark(ws, cap, pos);
    words::set_hand(ws, cap, pos + 1);
    slot
}

// What a slot lacks of which the walk notes the shortfall alone, once it has noted an unmarked slot: it has no mark, and its stamp is not after the moment.
// Of any other slot it is 0.
fn plainly_owed(slot: Slot, config: BucketConfig, at: Nanos) -> u64
    requires { Accepted config }
    ensures { result ≡ plainly_owed config at slot }
{
    if slot.mark != 0 {
        return 0;
    }
    if at.0 < slot.bucket.stamp.0 {
        return 0;
    }
    slot.bucket.shortfall_at(config, at)
}

// The looks at the last `left` slots before the place `end`, up to the first that does not plainly owe. It stores nothing, so a look takes few instructions.
fn look_along(ws: &[u64], cap: usize, config: BucketConfig, at: Nanos, end: usize, row: Row) -> Row
    requires { Intact cap ws.now × Accepted config × (row.left ≤ end) × (end ≤ cap) }
    ensures { result ≡ along config at (shard cap ws.now) end row.left row.least }
{
    let mut least = row.least;
    for pos in end - row.left..end {
        let slot = shard_map::get(ws, cap, pos);
        let owed = plainly_owed(slot, config, at);
        if owed == 0 {
            return Row {
                left: end - pos,
                least,
            };
        }
        least = least.min(owed);
    }
    Row { left: 0, least }
}

// The looks from the hand on at slots that plainly owe, up to the last slot. It is made once an unmarked slot is noted and while looks are left.
fn pass_owing(
    ws: &mut [u64],
    cap: usize,
    config: BucketConfig,
    at: Nanos,
    walk: Walk,
    left: usize,
) -> Row
    requires { Intact cap ws.old × Accepted config × (0 < (shard cap ws.old).slots.count) }
    ensures { Passed config at walk left (shard cap ws.old) result (shard cap ws.new) }
{
    let least = walk.awaited.least;
    if left == 0 || walk.unmarked.is_none() {
        return Row { left, least };
    }
    let pos = words::hand(ws, cap);
    let run = left.min(shard_map::len(ws, cap) - pos);
    let end = pos + run;
    let row = look_along(ws, cap, config, at, end, Row { left: run, least });
    words::set_hand(ws, cap, end - row.left);
    Row {
        left: left - run + row.left,
        ..row
    }
}

// Evicts one slot of a full shard; where none can go, it tells when room is due. The walk ends at once at the first full slot without the mark; else one that
// it noted goes.
pub fn evict_one(
    ws: &mut [u64],
    cap: usize,
    config: BucketConfig,
    at: Nanos,
    forget: bool,
) -> Result<(), Due>
    requires { Intact cap ws.old × Accepted config × (0 < (shard cap ws.old).slots.count) }
    ensures { outcome result (shard cap ws.new) ≡ Evict.evicted config at forget (shard cap ws.old) }
{
    let first = words::hand(ws, cap);
    let mut left = Eviction::hand_looks().min(shard_map::len(ws, cap));
    let mut walk = Walk::new();
    let ended = loop {
        if left == 0 {
            break None;
        }
        let pos = words::hand(ws, cap);
        let slot = hand_look(ws, cap, pos);
        if goes_at_once(slot, config, at) {
            break Some(pos);
        }
        walk = walk.noted(pos, slot, config, at);
        left -= 1;
        let row = pass_owing(ws, cap, config, at, walk, left);
        walk = walk.with_least(row.least);
        left = row.left;
    };
    let victim = walk.choose(ended, first);
    evict_victim(ws, cap, config, at, forget, victim, walk.awaited)
}

// What happens to the victim: a free slot goes; one that owes goes once its debt is recorded.
fn evict_victim(
    ws: &mut [u64],
    cap: usize,
    config: BucketConfig,
    at: Nanos,
    forget: bool,
    victim: Victim,
    awaited: Awaited,
) -> Result<(), Due>
    requires { Intact cap ws.old × Accepted config × (Evict.place_of_victim victim < (shard cap ws.old).slots.count) }
    ensures { outcome result (shard cap ws.new) ≡
        Evict.evict_victim config at forget (shard cap ws.old) (soonest_in config awaited) victim }
{
    match victim {
        Victim::Free(pos) => {
            evict_at(ws, cap, pos);
            Ok(())
        }
        Victim::Owing(pos) => evict_owing(ws, cap, config, at, forget, pos, awaited),
    }
}

// The slot at a place goes, and the hand steps past what moved into its place.
fn evict_at(ws: &mut [u64], cap: usize, pos: usize)
    requires { Intact cap ws.old × (pos < (shard cap ws.old).slots.count) }
    ensures { shard cap ws.new ≡ Evict.evict_at (shard cap ws.old) pos }
{
    shard_map::remove_at(ws, cap, pos);
    words::set_hand(ws, cap, pos + 1);
}

// The slot at a place goes once its debt is recorded. If there is no room for the debt, it is told when room is expected. When the debt settles is worked out
// only where it is written, since that takes a division.
fn evict_owing(
    ws: &mut [u64],
    cap: usize,
    config: BucketConfig,
    at: Nanos,
    forget: bool,
    pos: usize,
    awaited: Awaited,
) -> Result<(), Due>
    requires { Intact cap ws.old × Accepted config × (pos < (shard cap ws.old).slots.count) }
    ensures { outcome result (shard cap ws.new) ≡
        Evict.evict_victim config at forget (shard cap ws.old) (soonest_in config awaited) (Owing pos) }
{
    let slot = shard_map::get(ws, cap, pos);
    match debts::prepare(ws, cap, slot.hash, at, forget) {
        Ok(place) => {
            let full = Due::after(at, slot.recovers_in(config, at));
            let debt = Debt {
                hash: slot.hash,
                settles: full.moment,
            };
            debts::write(ws, cap, place, debt);
            evict_at(ws, cap, pos);
            Ok(())
        }
        Err(NoRoom { wait }) => {
            let soonest = awaited.soonest(config);
            let sooner = soonest.0.min(wait.0);
            Err(Due::after(at, Nanos(sooner.max(MIN_REFUSAL_WAIT))))
        }
    }
}
