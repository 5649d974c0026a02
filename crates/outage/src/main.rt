// The power comes back: a settings line and tries, each made again at the moment that it is told until it is up, as document 02 gives them.
#![tactic(auto)]

use desk_feed::MEMORY_WORDS;
use std::io::IsTerminal;

// The bytes that are read at once, with those pending of a line that has not ended. What as many lines and all rows print has room in the output.
const INPUT_BYTES: usize = 512;

// The bytes that are written at once.
const OUTPUT_BYTES: usize = 65536;

// The words of 200 rows.
const ROW_WORDS: usize = 1200;

fn main(rt: HostRuntime) {
    if streams::has_argument(&rt) {
        outage_words::help(&rt.stderr());
        return;
    }
    if rt.stdin().is_terminal() {
        outage_words::greet(&rt.stderr());
    }
    let mut streams = streams::open(rt.stdin(), rt.stdout(), rt.stderr());
    let mut input: [u8; INPUT_BYTES] = [0; INPUT_BYTES];
    let mut output: [u8; OUTPUT_BYTES] = [0; OUTPUT_BYTES];
    let mut rows: [u64; ROW_WORDS] = [0; ROW_WORDS];
    let mut memory: [u64; MEMORY_WORDS] = [0; MEMORY_WORDS];
    let ran = outage_feed::run(
        &mut streams,
        &mut input,
        &mut output,
        &mut rows,
        &mut memory,
    );
    outage_words::tell(
        &streams.err,
        ran,
        streams.source.failure,
        streams.sink.failure,
    );
}
