// The words of a shard, read and stored. No other function of the crate knows where a word lies, except those of `debts`, which lend the ledger's segment.
// What is `pub` here is for `evict` and `converter_shards`, which do not know where a word lies either.
ghost use Rattle.std.specs.Prelude.{◌≡◌, ◌<◌, ◌^◌, length};
ghost use Rattle.slot.specs.Slot.{with_mark};
ghost use Rattle.shard_map.specs.Model as Model;
ghost use Rattle.shard_map.specs.Layout.{shard, ledger_start, shard_words, slot_index};

use bucket::BucketCore;
use index::Index;
use slot::Slot;
use units::{Millis, Nanos};

// Where a shard's words lie, counted from its first: the slot count, the hand, the sweep, then the slots; after the slots come the words of the ledger. Among
// these, past the debts, lies the index of the slots.
const COUNT: usize = 0;

const HAND: usize = 1;

const SWEEP: usize = 2;

pub const SLOTS: usize = 3;

pub const SLOT_WIDTH: usize = 7;

// Where a slot's words lie, counted from its first, which is its hash.
const KEY: usize = 1;

const SHORTFALL: usize = 2;

const STAMP: usize = 3;

const MARK: usize = 4;

const SEEN: usize = 5;

const TURNED_AWAY: usize = 6;

// The words of a shard that its places do not add to, and those that each place adds, with the ledger's.
pub const HEAD_WORDS: usize = SLOTS + ledger::words::DEBTS;

pub const PLACE_WORDS: usize = SLOT_WIDTH + ledger::words::PLACE_WORDS;

// The words that each place adds before the index of the slots.
const BEFORE_INDEX: usize = SLOT_WIDTH + ledger::words::DEBT_WIDTH;

// The words of a shard of so many places.
pub fn shard_words(cap: usize) -> usize
    requires { shard_words cap < 2 ^ 64 }
    ensures { result ≡ shard_words cap }
{
    HEAD_WORDS + PLACE_WORDS * cap
}

// The word at which the ledger begins.
pub(crate) fn ledger_start(cap: usize) -> usize
    requires { shard_words cap < 2 ^ 64 }
    ensures { result ≡ ledger_start cap }
{
    SLOTS + SLOT_WIDTH * cap
}

// Where the index of the slots lies, and the slots that it names.
pub fn index(cap: usize) -> Index
    requires { shard_words cap < 2 ^ 64 }
    ensures { result ≡ slot_index cap }
{
    Index {
        base: HEAD_WORDS + BEFORE_INDEX * cap,
        size: index::PLACES_PER_ITEM * cap,
        first: SLOTS,
        width: SLOT_WIDTH,
        key: KEY,
    }
}

// How many slots are held.
pub(crate) fn count(ws: &[u64], cap: usize) -> usize
    requires { length ws.now ≡ shard_words cap }
    ensures { result ≡ (shard cap ws.now).slots.count }
{
    ws[COUNT] as usize
}

// The hand, read as 0 where it stands at or past the count.
pub fn hand(ws: &[u64], cap: usize) -> usize
    requires { length ws.now ≡ shard_words cap }
    ensures { result ≡ Model.hand_of (shard cap ws.now) }
{
    let hand = ws[HAND];
    if hand < ws[COUNT] { hand as usize } else { 0 }
}

// The sweep, read as 0 where it stands at or past the count.
pub(crate) fn sweep(ws: &[u64], cap: usize) -> usize
    requires { length ws.now ≡ shard_words cap }
    ensures { result ≡ Model.sweep_of (shard cap ws.now) }
{
    let sweep = ws[SWEEP];
    if sweep < ws[COUNT] { sweep as usize } else { 0 }
}

// The slot at a place.
pub(crate) fn load(ws: &[u64], cap: usize, i: usize) -> Slot
    requires { (length ws.now ≡ shard_words cap) × (i < cap) }
    ensures { result ≡ Model.slot_at (shard cap ws.now) i }
{
    let first = SLOTS + SLOT_WIDTH * i;
    Slot {
        hash: ws[first],
        key: ws[first + KEY],
        bucket: BucketCore {
            shortfall: ws[first + SHORTFALL],
            stamp: Nanos(ws[first + STAMP]),
        },
        mark: ws[first + MARK],
        seen: Millis(ws[first + SEEN]),
        turned_away: ws[first + TURNED_AWAY],
    }
}

// From now on so many slots are held.
pub(crate) fn set_count(ws: &mut [u64], cap: usize, count: usize)
    requires { length ws.old ≡ shard_words cap }
    ensures { shard cap ws.new ≡ Model.with_count (shard cap ws.old) count }
{
    ws[COUNT] = count as u64;
}

// The next look of the hand begins at this place.
pub fn set_hand(ws: &mut [u64], cap: usize, hand: usize)
    requires { length ws.old ≡ shard_words cap }
    ensures { shard cap ws.new ≡ Model.with_hand (shard cap ws.old) hand }
{
    ws[HAND] = hand as u64;
}

// The next look of the idle sweep begins at this place.
pub(crate) fn set_sweep(ws: &mut [u64], cap: usize, sweep: usize)
    requires { length ws.old ≡ shard_words cap }
    ensures { shard cap ws.new ≡ Model.with_sweep (shard cap ws.old) sweep }
{
    ws[SWEEP] = sweep as u64;
}

// A slot comes to stand at a place.
pub(crate) fn put(ws: &mut [u64], cap: usize, i: usize, slot: Slot)
    requires { (length ws.old ≡ shard_words cap) × (i < cap) }
    ensures { shard cap ws.new ≡ Model.with_slot (shard cap ws.old) i slot }
{
    let first = SLOTS + SLOT_WIDTH * i;
    ws[first] = slot.hash;
    ws[first + KEY] = slot.key;
    ws[first + SHORTFALL] = slot.bucket.shortfall;
    ws[first + STAMP] = slot.bucket.stamp.0;
    ws[first + MARK] = slot.mark;
    ws[first + SEEN] = slot.seen.0;
    ws[first + TURNED_AWAY] = slot.turned_away;
}

// The slot at a place loses its mark, and keeps the rest.
pub fn clear_mark(ws: &mut [u64], cap: usize, i: usize)
    requires { (length ws.old ≡ shard_words cap) × (i < cap) }
    ensures { shard cap ws.new ≡ Model.with_slot (shard cap ws.old) i (with_mark (Model.slot_at (shard cap ws.old) i) 0) }
{
    ws[SLOTS + SLOT_WIDTH * i + MARK] = 0;
}
