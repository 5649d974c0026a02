// Runs recorded cases on the functions of one shard. Standard input has lines of five numbers: an operation and its four arguments, 0 for
// those that it has not; after a load line come the words of the shard. Each operation prints a line: its code and number, or for a dump the
// words. The gate compares the lines with the file `stdout`. Its answers and words are those of the Rust oracle (oracle/record-shard-cases),
// but for `position`, which the oracle has not, and an eviction from an empty shard, which the program skips.
#![tactic(auto)]

use bucket::BucketConfig;
use line::Line;
use shard_map::words;
use std::io;
use units::Nanos;

mod line;
mod operations;
mod print;
mod sound;

// The most places of a shard that the cases have, and how many words it takes.
const MOST_PLACES: usize = 9;

const MOST_WORDS: usize = words::HEAD_WORDS + words::PLACE_WORDS * MOST_PLACES;

// The most bytes of the cases.
const TEXT_BYTES: usize = 65536;

// Where the reading stands, the places of the shard, and the configuration of its buckets.
#[derive(Clone, Copy)]
pub struct State {
    pub at: usize,
    pub cap: usize,
    pub config: BucketConfig,
}

fn main(rt: HostRuntime) -> io::Result<()> {
    let mut text: [u8; TEXT_BYTES] = [0; TEXT_BYTES];
    let n = test_scan::read_full(&mut rt.stdin(), &mut text)?;
    let mut words: [u64; MOST_WORDS] = [0; MOST_WORDS];
    run(&rt, &text[..n], &mut words)
}

// Runs the cases, a line a turn. A line has a byte at least, so no more turns are needed than there are bytes.
fn run(out: &impl Print, text: &[u8], words: &mut [u64]) -> io::Result<()> {
    let mut state = State {
        at: test_scan::skip_to_digit(text, 0),
        cap: 1,
        config: configured(1, 1, 1, 1),
    };
    for _ in 0..text.len() {
        if text.len() <= state.at {
            break;
        }
        state = step(out, text, words, state)?;
    }
    Ok(())
}

// Runs one line.
fn step(out: &impl Print, text: &[u8], words: &mut [u64], state: State) -> io::Result<State> {
    let line = line::read_line(text, state.at);
    let next = State {
        at: line.at,
        ..state
    };
    if line.operation == operations::CONFIG {
        return configure(out, next, line);
    }
    if line.operation == operations::LOAD {
        return load(out, text, words, next, line);
    }
    on_shard(out, words, next, line)?;
    Ok(next)
}

// From now on the buckets have this configuration.
fn configure(out: &impl Print, state: State, line: Line) -> io::Result<State> {
    print::answer(out, 0, 0)?;
    Ok(State {
        config: configured(line.a, line.b, line.c, line.d),
        ..state
    })
}

// The configuration of an amount, a period, a burst and an initial number of tokens.
fn configured(amount: u64, period: u64, burst: u64, initial: u64) -> BucketConfig {
    BucketConfig {
        capacity: test_scan::narrow(burst),
        amount: test_scan::narrow(amount),
        period: Nanos(period),
        initial: test_scan::narrow(initial),
    }
}

// From now on the shard has so many places, and the words that follow.
fn load(
    out: &impl Print,
    text: &[u8],
    words: &mut [u64],
    state: State,
    line: Line,
) -> io::Result<State> {
    let cap = line.a as usize;
    let at = read_shard(text, state.at, words, cap);
    print::answer(out, 0, 0)?;
    Ok(State { at, cap, ..state })
}

// Reads the words of a shard of so many places, and tells where the reading stands then.
fn read_shard(text: &[u8], from: usize, words: &mut [u64], cap: usize) -> usize {
    if cap <= MOST_PLACES {
        let size = words::shard_words(cap);
        if size <= words.len() {
            return fill(text, from, &mut words[0..size]);
        }
    }
    from
}

// Reads numbers into all words, and tells where the reading stands then.
fn fill(text: &[u8], from: usize, ws: &mut [u64]) -> usize {
    let mut at = from;
    for word in ws {
        let number = test_scan::read_number(text, at);
        *word = number.value;
        at = number.at;
    }
    at
}

// Runs an operation on the words of the shard.
fn on_shard(out: &impl Print, words: &mut [u64], state: State, line: Line) -> io::Result<()> {
    let cap = state.cap;
    if cap <= MOST_PLACES {
        let size = words::shard_words(cap);
        if size <= words.len() {
            return checked(out, &mut words[0..size], cap, state.config, line);
        }
    }
    print::skipped(out)
}

// Runs an operation where the words and the configuration are such as the functions of a shard are lent.
fn checked(
    out: &impl Print,
    ws: &mut [u64],
    cap: usize,
    config: BucketConfig,
    line: Line,
) -> io::Result<()> {
    if sound::is_intact(ws, cap) {
        if sound::is_accepted(config) {
            return operations::run(out, ws, cap, config, line);
        }
    }
    print::skipped(out)
}
