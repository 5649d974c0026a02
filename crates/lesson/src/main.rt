// Exercises for the desk, from lessons as people write them: what `lesson_lines` reads is written as lines of the desk, and what is wrong with a line is told
// on standard error, with its number, the place and its text. In the end it is told how many lines were written and how many were left out.
#![tactic(auto)]

ghost use Rattle.std.specs.Prelude.{◌≡◌, ◌≤◌, true, length, IfErr};
ghost use Rattle.lesson_run.specs.Run.{Stands, Stepped, Counted};
ghost use Rattle.described.specs.Described.{Inside};
ghost use Rattle.lesson.specs.Described.{Finished};

use described::Unread;
use lesson_run::Progress;
use lesson_writer::LIMITS_BYTES;
use std::io::Write;
use streams::{Streams, say};

mod notes;

// A description has fewer bytes than these.
const TEXT_BYTES: usize = 65536;

// The description is read whole before a line is written. For one that is cut nothing is written.
fn main(rt: HostRuntime) {
    if streams::has_argument(&rt) {
        help(&rt.stderr());
        return;
    }
    let mut streams = streams::open(rt.stdin(), rt.stdout(), rt.stderr());
    let mut text: [u8; TEXT_BYTES] = [0; TEXT_BYTES];
    let described = described::read_all(&mut streams.source, &mut text);
    finish(&mut streams, &text, described);
}

// Writes the lines of a description that was read whole. Of any other it tells what is wrong, and writes nothing.
fn finish<R, W: Write, E: Print>(
    streams: &mut Streams<R, W, E>,
    text: &[u8],
    described: Result<usize, Unread>,
)
    requires { Inside (length text.now) described }
    ensures { IfErr described (λ why. streams.new.sink ≡ streams.old.sink) }
{
    match described {
        Ok(size) => all_lines(streams, &text[0..size]),
        Err(Unread::TooLong) => {
            say(
                &streams.err,
                b"lesson: the description has more than 65535 bytes, and nothing is written\n",
            );
        }
        Err(Unread::Failed) => streams::fail(
            &streams.err,
            b"lesson: a read failed, and nothing is written",
            streams.source.failure,
        ),
    }
}

// Writes all lines, and tells how many they are, up to a write that fails.
fn all_lines<R, W: Write, E: Print>(streams: &mut Streams<R, W, E>, text: &[u8]) {
    let mut out: [u8; LIMITS_BYTES] = [0; LIMITS_BYTES];
    match lines(streams, text, &mut out) {
        Some(counts) => notes::summary(&streams.err, counts.written, counts.wrong),
        None => streams::fail(
            &streams.err,
            b"lesson: a write failed, and the run ends",
            streams.sink.failure,
        ),
    }
}

// How many lines were written, and how many were left out.
#[derive(Clone, Copy)]
struct Counts {
    written: u64,
    wrong: u64,
}

// Hands out one step of the lesson after the other, unless a write fails. The loop counts its turns since a proved loop has to end, up to a number that no run
// reaches.
fn lines<R, W: Write, E: Print>(
    streams: &mut Streams<R, W, E>,
    text: &[u8],
    out: &mut [u8],
) -> Option<Counts>
    requires { 170 ≤ length out.old }
    ensures { Finished text.now result }
{
    let mut progress = lesson_run::start(text);
    let mut written: u64 = 0;
    let mut wrong: u64 = 0;
    for _turn in 0..u64::MAX {
        let Some(step) = lesson_run::next(text, out, progress) else {
            return Some(Counts { written, wrong });
        };
        if !hand_out(streams, text, out, progress, step, written, wrong) {
            return None;
        }
        written += lesson_run::lines_in(step.size);
        wrong += lesson_run::wrong_in(step.note);
        progress = step.progress;
    }
    None
}

// Writes the line of a step, and tells its note. Whether the line was written. What is handed out is what comes next in the output of the lesson.
fn hand_out<R, W: Write, E: Print>(
    streams: &mut Streams<R, W, E>,
    text: &[u8],
    out: &[u8],
    before: Progress,
    step: lesson_run::Step,
    written: u64,
    wrong: u64,
) -> bool
    requires { Stands text.now before written wrong × Stepped text.now before step out.now }
{
    notes::tell(&streams.err, step.note, text, before.at, step.progress.at);
    streams::write_all(&mut streams.sink, &out[0..step.size])
}

// How to use the program.
fn help(err: &impl Print) {
    say(
        err,
        b"lesson reads a lesson from standard input, and writes lines for the desk.\n\n",
    );
    say(
        err,
        b"  s amount period burst initial modems shards idle when-full\n",
    );
    say(
        err,
        b"                              the settings, as the desk has them\n",
    );
    say(
        err,
        b"  a moment modem cost         a try; p a peek; r moment modem cost max-wait a reservation\n",
    );
    say(
        err,
        b"  f modem cost                a refund; d modem a removal\n",
    );
    say(
        err,
        b"  v count spacing call        count calls, for one modem after another, spacing apart\n\n",
    );
    say(
        err,
        b"A time is 1500 (nanoseconds), 1.5us, 20ms, 0.5s, 2min or 1h. A moment may be +0.5s: that much after the last one written.\n",
    );
    say(
        err,
        b"A modem is a number or an address as 00:1a:2b:3c:4d:5e. A comment begins with #. Spaces, tabs, empty lines and capitals are free.\n",
    );
    say(
        err,
        b"For example v 3 1s a 0 7 1 is written as a 0 7 1, a 1000000000 8 1 and a 2000000000 9 1.\n",
    );
    say(
        err,
        b"The count is at most 65536. The input has at most 65535 bytes. What is wrong with a line is told here, and nothing is\n",
    );
    say(
        err,
        b"written for it. In the end it is told how many lines were written. A read or a write that fails ends the run.\n",
    );
}
