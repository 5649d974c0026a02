// Where the total and the shards of a store lie in its words, and how many words it has.
ghost use Rattle.std.specs.Prelude.{◌≡◌, ◌<◌, ◌^◌};
ghost use Rattle.settings.specs.Settings.{ShapeOfAccepted, size_refusal};
ghost use Rattle.store.specs.Memory.{shard_start, shard_end, room_in, words_in, memory_words};

use settings::{Settings, Shape};
use shard_map::words;

// The word of the total, and the word at which the first shard begins.
pub const TOTAL_AT: usize = 0;

pub const SHARDS_AT: usize = TOTAL_AT + 1;

// The words that a store of these settings is lent.
pub fn memory_words(settings: Settings) -> usize
    requires { size_refusal settings ≡ 0 }
    ensures { result ≡ memory_words settings }
{
    words_in(settings.shape())
}

// The words of a memory of a shape: the total, its shards and its class buckets.
pub(crate) fn words_in(shape: Shape) -> usize
    requires { ShapeOfAccepted shape }
    ensures { result ≡ words_in shape }
{
    shard_start(shape.cap, shape.shards) + classes::bucket_words(shape.classes)
}

// How many slots all shards have room for.
pub(crate) fn room_in(shape: Shape) -> usize
    requires { ShapeOfAccepted shape }
    ensures { result ≡ room_in shape }
{
    shape.shards * shape.cap
}

// The word at which a shard begins, by its number.
pub(crate) fn shard_start(cap: usize, shard: usize) -> usize
    requires { shard_end cap shard < 2 ^ 64 }
    ensures { result ≡ shard_start cap shard }
{
    SHARDS_AT + shard * words::shard_words(cap)
}
