// The checks before an operation: each says yes only where what the functions of a shard require holds.
ghost use Rattle.std.specs.Prelude.{◌≡◌, true};
ghost use Rattle.bucket.specs.Bucket.{Accepted};
ghost use Rattle.shard_map.specs.Layout.{Intact};

use bucket::BucketConfig;
use shard_map::{debts, words};

// Whether the words are those of a shard of so many places, and hold no more slots and no more debts than that.
pub(crate) fn is_intact(ws: &[u64], cap: usize) -> bool
    ensures { result ≡ true → Intact cap ws.now }
{
    if cap == 0 {
        return false;
    }
    if crate::MOST_PLACES < cap {
        return false;
    }
    if ws.len() != words::shard_words(cap) {
        return false;
    }
    if cap < shard_map::len(ws, cap) {
        return false;
    }
    debts::len(ws, cap) <= cap
}

// Whether the configuration is in the ranges that the settings accept.
pub(crate) fn is_accepted(config: BucketConfig) -> bool
    ensures { result ≡ true → Accepted config }
{
    if config.amount < 1 {
        return false;
    }
    if 65535 < config.amount {
        return false;
    }
    if config.period.0 < 1 {
        return false;
    }
    if 0x4000_0000_0000 < config.period.0 {
        return false;
    }
    if config.capacity < 1 {
        return false;
    }
    if 65535 < config.capacity {
        return false;
    }
    config.initial <= config.capacity
}
