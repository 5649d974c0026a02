// The desk: a line of standard input is a call of the limiter, and a line of standard output its answer, as document 01 gives them.
#![tactic(auto)]

use desk_feed::MEMORY_WORDS;
use std::io::IsTerminal;

// The bytes that are read at once, with those pending of a line that has not ended. The answers to so many lines have room in the output.
const INPUT_BYTES: usize = 1024;

// The bytes that are written at once.
const OUTPUT_BYTES: usize = 65536;

fn main(rt: HostRuntime) {
    if streams::has_argument(&rt) {
        desk_words::help(&rt.stderr());
        return;
    }
    if rt.stdin().is_terminal() {
        desk_words::greet(&rt.stderr());
    }
    let mut streams = streams::open(rt.stdin(), rt.stdout(), rt.stderr());
    let mut input: [u8; INPUT_BYTES] = [0; INPUT_BYTES];
    let mut output: [u8; OUTPUT_BYTES] = [0; OUTPUT_BYTES];
    let mut memory: [u64; MEMORY_WORDS] = [0; MEMORY_WORDS];
    let ran = desk_feed::run(&mut streams, &mut input, &mut output, &mut memory);
    desk_words::tell(
        &streams.err,
        ran,
        streams.source.failure,
        streams.sink.failure,
    );
}
