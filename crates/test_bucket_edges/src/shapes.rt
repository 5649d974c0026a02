// Settings: shards, cap and words; refusals.
use settings::eviction::{Eviction, WhenFull};
use settings::rate::Rate;
use settings::refusal::Refusal;
use settings::{Limit, Settings};
use std::io;
use units::Nanos;

// Two tokens a second, up to four.
fn two_per_second() -> Rate {
    Rate {
        amount: 2,
        period: Nanos(1000000000),
        burst: Some(4),
        initial: None,
    }
}

fn open(max_keys: usize, shards: usize) -> Settings {
    Settings {
        limit: Limit::Open(two_per_second()),
        eviction: Eviction::capacity(max_keys),
        shards,
        classes: 0,
    }
}

// A line with a name and a number.
pub(crate) fn line(out: &impl Print, name: &str, number: u64) -> io::Result<()> {
    println!(out; "{name} {number}")
}

// The number of a refusal, or 0.
fn number(checked: Result<(), Refusal>) -> u64 {
    match checked {
        Ok(()) => 0,
        Err(refusal) => u32::from(refusal) as u64,
    }
}

// Shards, places per shard and words.
pub(crate) fn sizes(out: &impl Print) -> io::Result<()> {
    size(out, 0, 0)?;
    size(out, 5, 3)?;
    size(out, 4096, 1)?;
    size(out, 4096, 64)?;
    size(out, 4097, 1)?;
    size(out, 16384, 1)?;
    size(out, 16385, 0)?;
    size(out, 16385, 3)?;
    size(out, 32769, 0)?;
    size(out, 65536, 1)?;
    size(out, 65536, 64)
}

fn size(out: &impl Print, max_keys: usize, shards: usize) -> io::Result<()> {
    let settings = open(max_keys, shards);
    let shape = settings.shape();
    line(out, "shards", shape.shards as u64)?;
    line(out, "cap", shape.cap as u64)?;
    if settings.check_sizes().is_ok() {
        line(out, "words", store::words::memory_words(settings) as u64)?;
    }
    Ok(())
}

// The range of each number of the rate, at both ends, and the order of the refusals.
pub(crate) fn refused_rates(out: &impl Print) -> io::Result<()> {
    rate(out, 1, 1, 1)?;
    rate(out, 65535, 0x4000_0000_0000, 65535)?;
    rate(out, 0, 0, 0)?;
    rate(out, 65536, 0, 0)?;
    rate(out, 1, 0, 0)?;
    rate(out, 1, 0x4000_0000_0001, 0)?;
    rate(out, 1, 1, 0)?;
    rate(out, 1, 1, 65536)?;
    line(out, "closed", number(Limit::Closed.check()))
}

fn rate(out: &impl Print, amount: u32, period: u64, burst: u32) -> io::Result<()> {
    let rate = Rate {
        amount,
        period: Nanos(period),
        burst: Some(burst),
        initial: None,
    };
    line(out, "rate", number(rate.check()))
}

pub(crate) fn refused_sizes(out: &impl Print) -> io::Result<()> {
    line(out, "keys 65536", number(open(65536, 1).check()))?;
    line(out, "keys 65537", number(open(65537, 1).check()))?;
    line(out, "shards 64", number(open(1, 64).check()))?;
    line(out, "shards 65", number(open(1, 65).check()))?;
    line(
        out,
        "keys 65536, shards 65",
        number(open(65536, 65).check()),
    )?;
    let idle = Settings {
        limit: Limit::Closed,
        eviction: Eviction::idle(Nanos(1)),
        shards: 1,
        classes: 0,
    };
    line(out, "idle alone", number(idle.check()))
}

// The look counts.
pub(crate) fn looks(out: &impl Print) -> io::Result<()> {
    line(out, "idle sweep", Eviction::TTL_SWEEP as u64)?;
    line(out, "ledger", Eviction::LEDGER_SCAN as u64)?;
    line(out, "hand", Eviction::CLOCK_SCAN as u64)
}

// Burst and initial: unset, set, and an initial above the burst.
pub(crate) fn configs(out: &impl Print) -> io::Result<()> {
    config(out, None, None)?;
    config(out, Some(4), None)?;
    config(out, Some(4), Some(3))?;
    config(out, Some(4), Some(u32::MAX))?;
    let built = Eviction::capacity(9)
        .with_capacity(7)
        .with_idle(Nanos(5))
        .with_when_full(WhenFull::ForgetDebt);
    line(out, "built keys", built.max_keys as u64)
}

fn config(out: &impl Print, burst: Option<u32>, initial: Option<u32>) -> io::Result<()> {
    let rate = Rate {
        amount: 2,
        period: Nanos(1),
        burst,
        initial,
    };
    let config = rate.config();
    line(out, "capacity", wide(config.capacity))?;
    line(out, "initial", wide(config.initial))
}

fn wide(tokens: u32) -> u64 {
    tokens as u64
}
