// What a limiter is set to: the rate, the bounds on its memory, and what follows from them for the store: how many shards it has, how many keys
// each holds, and after how long an idle key may go. A settings record may hold anything; `check` says whether it is accepted.
#![tactic(auto)]

ghost use Rattle.std.specs.Prelude.{◌≡◌, ◌≤◌, ◌^◌};
ghost use Rattle.bucket.specs.Bucket.{Accepted};
ghost use Rattle.settings.specs.Powers.{exponent_for};
ghost use Rattle.settings.specs.Rate.{time_to_full};
ghost use Rattle.settings.specs.Refusal.{numbered};
ghost use Rattle.settings.specs.Settings.{limit_refusal, size_refusal, settings_refusal, share, shard_exponent, shape_of, shape_with, ShapeOfAccepted};
ghost use Rattle.settings.specs.Settings.{index_in};
ghost use Rattle.settings.specs.Settings.{idle_limit_for, idle_limit_millis};

use crate::eviction::Eviction;
use crate::rate::Rate;
use crate::refusal::Refusal;
use bucket::BucketConfig;
use units::{Millis, Nanos};

pub mod decision;
pub mod eviction;
pub mod rate;
pub mod refusal;

// The most keys and shards that settings may ask for.
const MOST_KEYS: usize = 65536;

const MOST_SHARDS: usize = 64;

// The rate, if there is one. A closed limiter has none: it grants tries of cost 0, and nothing else.
#[derive(Clone, Copy)]
pub enum Limit {
    Closed,
    Open(Rate),
}

// The settings that every call is given. `classes` is how many classes the table has that belongs to the settings.
#[derive(Clone, Copy)]
pub struct Settings {
    pub limit: Limit,
    pub eviction: Eviction,
    pub shards: usize,
    pub classes: u32,
}

// How the lent words are divided: the number of shards, the keys that each has places for, and the number of classes.
#[derive(Clone, Copy)]
pub struct Shape {
    pub shards: usize,
    pub cap: usize,
    pub classes: usize,
}

impl Limit {
    // What is wrong with the rate, if there is one.
    pub fn check(self) -> Result<(), Refusal>
        ensures { numbered result ≡ limit_refusal self }
    {
        match self {
            Limit::Closed => Ok(()),
            Limit::Open(rate) => rate.check(),
        }
    }
}

impl Settings {
    // What is wrong with the settings: the rate comes first.
    pub fn check(self) -> Result<(), Refusal>
        ensures { numbered result ≡ settings_refusal self }
    {
        self.limit.check()?;
        self.check_sizes()
    }

    // Whether more keys or shards are asked for than there may be. The shards are not yet raised.
    pub fn check_sizes(self) -> Result<(), Refusal>
        ensures { numbered result ≡ size_refusal self }
    {
        if MOST_KEYS < self.eviction.max_keys {
            return Err(Refusal::Sizes);
        }
        if MOST_SHARDS < self.shards {
            return Err(Refusal::Sizes);
        }
        Ok(())
    }

    // The exponent of the number of shards, which is a power of two. The number asked for is first raised, so that a shard need not hold more than
    // 2^14 = 16,384 keys. More than 64 shards count as 64.
    fn shard_exponent(self) -> u32
        ensures { result ≡ shard_exponent self }
    {
        let least = share(self.eviction.max_keys as u64, 14);
        exponent_for((self.shards as u64).max(least).min(64))
    }

    // The shards, and an equal share of the keys for each.
    pub fn shape(self) -> Shape
        ensures { result ≡ shape_of self }
    {
        let exponent = self.shard_exponent();
        let cap = share(self.eviction.max_keys as u64, exponent) as usize;
        Shape {
            shards: 1 << exponent,
            cap,
            classes: self.classes as usize,
        }
    }
}

impl Shape {
    // The same shards, with another number of classes.
    pub fn with_classes(self, classes: usize) -> Shape
        ensures { result ≡ shape_with classes self }
    {
        Shape {
            shards: self.shards,
            cap: self.cap,
            classes,
        }
    }

    // The shard that a hash belongs to.
    pub fn shard_index(self, hash: u64) -> usize
        requires { ShapeOfAccepted self }
        ensures { result ≡ index_in self hash }
    {
        ((hash >> 40) & ((self.shards - 1) as u64)) as usize
    }
}

// Keys divided by a power of two, rounded up, and at least 1. The division is a shift: the quotient of one key less, rounded down, and 1 more.
fn share(keys: u64, exponent: u32) -> u64
    requires { exponent ≤ 14 }
    ensures { result ≡ share keys (2 ^ exponent) }
{
    (keys.saturating_sub(1) >> exponent) + 1
}

// The least exponent whose power of two is not below n: the length of n - 1 in bits, with 0 for n - 1 where n is 0. It is the place, counted from 0, of the
// highest 1 bit of 2 (n - 1) + 1. That number is never 0, so the compiler makes one bit scan of it and no test for 0; no loop and no table is needed.
fn exponent_for(n: u64) -> u32
    requires { n ≤ 64 }
    ensures { result ≡ exponent_for n }
{
    63 - u64::leading_zeros(2 * n.saturating_sub(1) + 1)
}

// The idle limit for an idle time: that time or the time to be full, whichever is longer, rounded up to milliseconds, and 1 more.
pub fn idle_limit(ttl: Nanos, config: BucketConfig) -> Millis
    requires { Accepted config }
    ensures { result ≡ idle_limit_for ttl (time_to_full config) }
{
    let least = rate::time_to_full(config);
    idle_limit_millis(Nanos(ttl.0.max(least.0)))
}

// A span as an idle limit: the milliseconds that it takes, rounded up, and 1 more.
fn idle_limit_millis(span: Nanos) -> Millis
    ensures { result.0 ≡ idle_limit_millis span.0 }
{
    if span.0 == 0 {
        return Millis(1);
    }
    let whole = Nanos(span.0 - 1).millis();
    Millis(whole.0 + 2)
}
