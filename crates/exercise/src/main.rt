// Exercises for the desk: a line that the desk reads is copied, and a line `v COUNT SPACING CALL` is written as COUNT lines of that call, for one modem after
// another and at moments SPACING apart. What is wrong with another line is told on standard error, with its number, and nothing is written for it.
#![tactic(auto)]

ghost use Rattle.std.specs.Prelude.{◌≡◌, ◌-◌, true, length, IfErr};
ghost use Rattle.exercise_lines.specs.Repeats.{within64};
ghost use Rattle.described.specs.Described.{Inside};

use described::Unread;
use desk_lines::Line;
use desk_writer::{DeskCall, LONGEST_WRITTEN};
use exercise_lines::Repeat;
use std::io::Write;
use streams::{Streams, say, say_number};

// A description has fewer bytes than these.
const TEXT_BYTES: usize = 65536;

// The description is read whole before a line is written. For one that is cut nothing is written.
fn main(rt: HostRuntime) {
    if streams::has_argument(&rt) {
        help(&rt.stderr());
        return;
    }
    let mut streams = streams::open(rt.stdin(), rt.stdout(), rt.stderr());
    let mut text: [u8; TEXT_BYTES] = [0; TEXT_BYTES];
    let described = described::read_all(&mut streams.source, &mut text);
    finish(&mut streams, &text, described);
}

// Writes the lines of a description that was read whole. Of any other it tells what is wrong, and writes nothing.
fn finish<R, W: Write, E: Print>(
    streams: &mut Streams<R, W, E>,
    text: &[u8],
    described: Result<usize, Unread>,
)
    requires { Inside (length text.now) described }
    ensures { IfErr described (λ why. streams.new.sink ≡ streams.old.sink) }
{
    match described {
        Ok(size) => all_lines(streams, &text[0..size]),
        Err(Unread::TooLong) => {
            say(
                &streams.err,
                b"exercise: the description has more than 65535 bytes, and nothing is written\n",
            );
        }
        Err(Unread::Failed) => streams::fail(
            &streams.err,
            b"exercise: a read failed, and nothing is written",
            streams.source.failure,
        ),
    }
}

// Goes through the lines up to a write that fails.
fn all_lines<R, W: Write, E: Print>(streams: &mut Streams<R, W, E>, text: &[u8]) {
    if !lines(streams, text) {
        streams::fail(
            &streams.err,
            b"exercise: a write failed, and the run ends",
            streams.sink.failure,
        );
    }
}

// Writes what each line stands for. Whether all of it was written. The end of the input ends a line that has begun.
fn lines<R, W: Write, E: Print>(streams: &mut Streams<R, W, E>, text: &[u8]) -> bool {
    let mut at: usize = 0;
    let mut number: u64 = 0;
    while at < text.len() {
        let stop = scan::find(text, at, text.len(), b'\n');
        number = number.wrapping_add(1);
        if !one_line(streams, &text[at..stop], number) {
            return false;
        }
        at = stop + 1;
    }
    true
}

// Copies a line of the desk. Another may be a `v` line.
fn one_line<R, W: Write, E: Print>(
    streams: &mut Streams<R, W, E>,
    line: &[u8],
    number: u64,
) -> bool {
    match desk_lines::read(line) {
        Line::Malformed => other_line(streams, line, number),
        _ => copied(streams, line),
    }
}

fn copied<R, W: Write, E: Print>(streams: &mut Streams<R, W, E>, line: &[u8]) -> bool {
    streams::write_all(&mut streams.sink, line) && streams::write_all(&mut streams.sink, b"\n")
}

// Writes the lines of a `v` line. Of any other line it tells what is wrong.
fn other_line<R, W: Write, E: Print>(
    streams: &mut Streams<R, W, E>,
    line: &[u8],
    number: u64,
) -> bool {
    match exercise_lines::read(line) {
        Repeat::Calls(call, count, spacing) => repeated(streams, call, count, spacing),
        Repeat::Other => {
            wrong(
                &streams.err,
                number,
                b" is neither a line of the desk nor a v line\n",
            );
            true
        }
        Repeat::TooFar => {
            wrong(
                &streams.err,
                number,
                b" goes past 64 bits in a moment or a modem's number, and nothing is written for it\n",
            );
            true
        }
    }
}

// Writes the lines of a call, for one modem after another.
fn repeated<R, W: Write, E: Print>(
    streams: &mut Streams<R, W, E>,
    call: DeskCall,
    count: u64,
    spacing: u64,
) -> bool
    requires { within64 spacing (count - 1) call ≡ true }
{
    for place in 0..count {
        if !write_line(streams, exercise_lines::call_on(call, spacing, place)) {
            return false;
        }
    }
    true
}

// Writes a call's line. It has room, since no line has more bytes.
fn write_line<R, W: Write, E: Print>(streams: &mut Streams<R, W, E>, call: DeskCall) -> bool {
    let mut out: [u8; LONGEST_WRITTEN] = [0; LONGEST_WRITTEN];
    let written = desk_writer::write(call, &mut out);
    streams::write_all(&mut streams.sink, &out[0..written.size])
}

// Tells what is wrong with a line.
fn wrong(err: &impl Print, number: u64, words: &[u8]) {
    say(err, b"exercise: line ");
    say_number(err, number);
    say(err, words);
}

// How to use the program.
fn help(err: &impl Print) {
    say(
        err,
        b"exercise reads lines from standard input, and writes lines for the desk.\n\n",
    );
    say(
        err,
        b"  a line of the desk          is copied; desk --help tells these lines\n",
    );
    say(
        err,
        b"  v count spacing call        is written as count lines of the call, for one modem after another,\n",
    );
    say(
        err,
        b"                              at moments spacing nanoseconds apart; the call is a line of the desk, but not s\n\n",
    );
    say(
        err,
        b"For example v 3 1000000000 a 0 7 1 is written as a 0 7 1, a 1000000000 8 1 and a 2000000000 9 1.\n",
    );
    say(
        err,
        b"The count is at most 65536. The input has at most 65535 bytes. What is wrong with a line is told here,\n",
    );
    say(
        err,
        b"with its number, and nothing is written for it. A read or a write that fails ends the run.\n",
    );
}
