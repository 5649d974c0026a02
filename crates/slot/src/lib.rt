// One key's slot: what the store keeps of a key while it has a place. Rust's `Slot` and `Entry` in one record.
#![tactic(auto)]

ghost use Rattle.std.specs.Prelude.{◌≡◌};
ghost use Rattle.bucket.specs.Bucket.{Accepted};
ghost use Rattle.slot.specs.Slot as Model;

use bucket::{BucketConfig, BucketCore, BucketOutcome};
use units::{Millis, Nanos};

// The largest count of tries turned away. A larger word, which only damaged memory holds, reads as this.
const MOST_TURNED_AWAY: u64 = 0xFFFF_FFFF;

// The identity (hash and key), the bucket, the mark that an access sets and the CLOCK hand clears, last-seen (the idle stamp
// of the first access, raised by later ones where an idle time is set), and how many tries the bucket has turned away.
#[derive(Clone, Copy)]
pub struct Slot {
    pub hash: u64,
    pub key: u64,
    pub bucket: BucketCore,
    pub mark: u64,
    pub seen: Millis,
    pub turned_away: u64,
}

impl Slot {
    // A new key starts unmarked, so that a key seen once is the first to go, and no try on it has been turned away.
    pub fn new(hash: u64, key: u64, bucket: BucketCore, now_ms: Millis) -> Slot
        ensures { result ≡ Model.new_slot hash key bucket now_ms }
    {
        Slot {
            hash,
            key,
            bucket,
            mark: 0,
            seen: now_ms,
            turned_away: 0,
        }
    }

    // The slot after an access.
    pub fn touched(self, at: Nanos, track_idle: bool) -> Slot
        ensures { result ≡ Model.touched self at track_idle }
    {
        Slot {
            mark: 1,
            seen: self.seen_after(at, track_idle),
            ..self
        }
    }

    // The slot after its bucket was asked: the bucket as it is then, and one more try turned away if it was.
    pub fn asked(self, outcome: BucketOutcome) -> Slot
        ensures { result ≡ Model.with_asked self outcome }
    {
        Slot {
            bucket: outcome.bucket,
            turned_away: self.count_after(outcome.turns_away),
            ..self
        }
    }

    // The count after an answer. A count at its largest stays there; a larger word is brought down to it by the next try that is turned away.
    fn count_after(self, turns_away: bool) -> u64
        ensures { result ≡ Model.count_after turns_away self.turned_away }
    {
        let count = self.turned_away;
        if turns_away {
            return count.min(MOST_TURNED_AWAY - 1) + 1;
        }
        count
    }

    // How many tries the bucket has turned away, as it is read.
    pub fn times_turned_away(self) -> u64
        ensures { result ≡ Model.read_turned_away self }
    {
        self.turned_away.min(MOST_TURNED_AWAY)
    }

    // Last-seen after an access: raised to the idle stamp of the moment where idle times are tracked. Only then is the stamp worked out.
    fn seen_after(self, at: Nanos, track_idle: bool) -> Millis
        ensures { result ≡ (Model.touched self at track_idle).seen }
    {
        if track_idle {
            let stamp = at.millis();
            return Millis(self.seen.0.max(stamp.0));
        }
        self.seen
    }

    // Whether the key has been idle for at least `ttl_ms`.
    pub fn is_expired(self, now_ms: Millis, ttl_ms: Millis) -> bool
        ensures { result ≡ Model.expired self now_ms ttl_ms }
    {
        ttl_ms.0 <= now_ms.0.saturating_sub(self.seen.0)
    }

    // Whether the slot can go without loss: its bucket is full.
    pub fn is_lossless(self, config: BucketConfig, at: Nanos) -> bool
        requires { Accepted config }
        ensures { result ≡ Model.lossless config self at }
    {
        self.bucket.is_full_at(config, at)
    }

    // How long until the bucket is full again.
    pub fn recovers_in(self, config: BucketConfig, at: Nanos) -> Nanos
        requires { Accepted config }
        ensures { result.0 ≡ Model.recovery config self at }
    {
        self.bucket.recovers_in(config, at)
    }
}

// Marks the one slot that is lent as used.
pub fn touch(slot: &mut Slot, at: Nanos, track_idle: bool)
    ensures { slot.new ≡ Model.touched slot.old at track_idle }
{
    *slot = slot.touched(at, track_idle);
}

// As `touch`, by value: a copy of the slot is lent to `touch`, and returned.
pub fn touch_value(slot: Slot, at: Nanos, track_idle: bool) -> Slot
    ensures { result ≡ Model.touched slot at track_idle }
{
    let mut lent = slot;
    touch(&mut lent, at, track_idle);
    lent
}
