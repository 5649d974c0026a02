// Where the words of a shard lie by document 01, and where the indexes lie in a present shard. No other function of the crate knows where a word lies.
ghost use Rattle.std.specs.Prelude.{◌≡◌, ◌^◌, ◌<◌, length};
ghost use Rattle.shard_map.specs.Layout.{shard_words};
ghost use Rattle.converter_shards.specs.Layout01.{shard01, shard_words01};
ghost use Rattle.converter_shards.specs.code.RowChecks.{slot_rows01, debt_rows01};
ghost use Rattle.converter_shards.specs.code.Carried.{debt_index_in_shard};

use crate::Rows;
use index::Index;

// The words before the slots: document 01 and the present layout have as many. The words of a slot by document 01, and at present.
pub(crate) const SLOTS: usize = shard_map::words::SLOTS;

pub(crate) const SLOT_WIDTH_01: usize = 6;

pub(crate) const SLOT_WIDTH: usize = shard_map::words::SLOT_WIDTH;

// The words before the debts and the words of a debt, by document 01.
const DEBTS_01: usize = 2;

const DEBT_WIDTH_01: usize = 2;

// The word of a debt that is compared besides its hash: a debt has no key, so it is the hash again.
const DEBT_KEY_01: usize = 0;

// The words that each place of a present shard adds before the index of its debts.
const BEFORE_DEBT_INDEX: usize = SLOT_WIDTH + ledger::words::DEBT_WIDTH + index::PLACES_PER_ITEM;

// Where the slots lie, and where the debts lie.
pub(crate) fn slot_rows() -> Rows
    ensures { result ≡ slot_rows01 }
{
    Rows {
        first: SLOTS,
        width: SLOT_WIDTH_01,
        key: 1,
    }
}

pub(crate) fn debt_rows(cap: usize) -> Rows
    requires { shard_words01 cap < 2 ^ 64 }
    ensures { result ≡ debt_rows01 cap }
{
    Rows {
        first: SLOTS + DEBTS_01 + SLOT_WIDTH_01 * cap,
        width: DEBT_WIDTH_01,
        key: DEBT_KEY_01,
    }
}

// How many slots are held, and how many debts.
pub fn slot_count(ws: &[u64], cap: usize) -> usize
    requires { length ws.now ≡ shard_words01 cap }
    ensures { result ≡ (shard01 cap ws.now).slots.count }
{
    ws[0] as usize
}

pub(crate) fn debt_count(ws: &[u64], cap: usize) -> usize
    requires { length ws.now ≡ shard_words01 cap }
    ensures { result ≡ (shard01 cap ws.now).ledger.debts.count }
{
    ws[SLOTS + SLOT_WIDTH_01 * cap] as usize
}

// Where the index of the debts lies in a present shard.
pub(crate) fn debt_index(cap: usize) -> Index
    requires { shard_words cap < 2 ^ 64 }
    ensures { result ≡ debt_index_in_shard cap }
{
    Index {
        base: shard_map::words::HEAD_WORDS + BEFORE_DEBT_INDEX * cap,
        size: index::PLACES_PER_ITEM * cap,
        first: shard_map::words::HEAD_WORDS + SLOT_WIDTH * cap,
        width: ledger::words::DEBT_WIDTH,
        key: 0,
    }
}

// The words of a shard by document 01.
pub fn shard_words_01(cap: usize) -> usize
    requires { shard_words01 cap < 2 ^ 64 }
    ensures { result ≡ shard_words01 cap }
{
    SLOTS + DEBTS_01 + (SLOT_WIDTH_01 + DEBT_WIDTH_01) * cap
}
