// How many modems a store has room for in so many words: what the desk tells where line 1 asks for more.
#![tactic(auto)]

ghost use Rattle.std.specs.Prelude.{◌≡◌};
ghost use Rattle.desk_room.specs.Room as Room;

use settings::eviction::Eviction;
use settings::{Limit, Settings};

// The most modems that any store has room for.
const MOST_KEYS: usize = 65536;

// The modems that a store in so many shards has room for. They are tried one after the other, up to the first that is one too many.
pub fn room_for(words: usize, shards: usize) -> usize
    ensures { result ≡ Room.room_for words shards }
{
    for keys in 0..MOST_KEYS {
        if !fits(keys + 1, words, shards) {
            return keys;
        }
    }
    MOST_KEYS
}

// Whether a store for so many modems in so many shards is accepted, and needs no more words.
fn fits(keys: usize, words: usize, shards: usize) -> bool
    ensures { result ≡ Room.fits keys words shards }
{
    let settings = sized(keys, shards);
    if settings.check_sizes().is_err() {
        return false;
    }
    store::words::memory_words(settings) <= words
}

// Settings for so many modems in so many shards. How many words they need depends on nothing else in them.
fn sized(keys: usize, shards: usize) -> Settings
    ensures { result ≡ Room.sized keys shards }
{
    Settings {
        limit: Limit::Closed,
        eviction: Eviction::capacity(keys),
        shards,
        classes: 0,
    }
}
