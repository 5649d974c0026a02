// Runs recorded traces on the operations, a line of standard input after the other:
// - 0, how many words are lent, and the twelve numbers of some settings: the calls that follow are on this store;
// - an operation and its arguments, 0 for those that it has not, left out at the end: a call, which prints the code and the number of its reply, and a hash of
// all words after it;
// - anything that begins with no digit, as the name of an edge of document 01 with a call in words: printed ahead of the next reply.
// The gate compares what is printed with the file `stdout`, whose replies and words are those of the Rust oracle (oracle/record-store-traces).
#![tactic(auto)]

use line::{Call, Store};
use rules::codes::Told;
use shard_map::words;
use std::io;

mod digest;
mod line;
mod operations;

// The most words that a store can have here, those of 4,096 keys in 64 shards. A call that is lent more is not run, and prints nothing.
const MOST_WORDS: usize = 1 + 64 * (words::HEAD_WORDS + words::PLACE_WORDS * 64);

// The most bytes of the traces.
const TEXT_BYTES: usize = 65536;

fn main(rt: HostRuntime) -> io::Result<()> {
    let mut text: [u8; TEXT_BYTES] = [0; TEXT_BYTES];
    let n = test_scan::read_full(&mut rt.stdin(), &mut text)?;
    let mut words: [u64; MOST_WORDS] = [0; MOST_WORDS];
    run(&rt, &text[..n], &mut words)
}

// Runs the traces, a line a turn.
fn run(out: &impl Print, text: &[u8], words: &mut [u64]) -> io::Result<()> {
    // Past the end of the text every number is 0: a store that is lent no words.
    let mut store = line::read_store(text, text.len());
    let mut at: usize = 0;
    while at < text.len() {
        let end = line::end(text, at);
        store = step(out, &text[at..end], words, store)?;
        at = end + 1;
    }
    Ok(())
}

// Runs one line. Tells the store of the next one.
fn step(out: &impl Print, line: &[u8], words: &mut [u64], store: Store) -> io::Result<Store> {
    if 0 < test_scan::skip_to_digit(line, 0) {
        out.write_all(line)?;
        out.write_all(b": ")?;
        return Ok(store);
    }
    let operation = test_scan::read_number(line, 0);
    if operation.value == operations::STORE {
        return Ok(line::read_store(line, operation.at));
    }
    let call = line::read_call(line, operation.at);
    lend(out, operation.value, words, store, call)?;
    Ok(store)
}

// Lends a call the words that it is to have, and prints what comes of it.
fn lend(
    out: &impl Print,
    operation: u64,
    words: &mut [u64],
    store: Store,
    call: Call,
) -> io::Result<()> {
    let size = store.size;
    let settings = store.settings;
    if size <= words.len() {
        print(
            out,
            operations::run(operation, &mut words[0..size], settings, call),
        )?;
        digest::print(out, &words[0..size])?;
    }
    Ok(())
}

// The code and the number of a reply.
fn print(out: &impl Print, reply: Told) -> io::Result<()> {
    let code = reply.code;
    let number = reply.number;
    print!(out; "{code} {number} ")
}
