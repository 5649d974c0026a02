// The streams of a program: what it reads, what it writes, and where it tells a person something. The error of a call that fails is kept, to be told at the
// end.
#![tactic(auto)]

ghost use Rattle.std.specs.Prelude.{◌≡◌, true, false, IsNone, IsSome};
ghost use Rattle.std.specs.Io.KnownBytes.{Appends};

use std::env::FillError;
use std::io;
use std::io::Write;
use std::rt::Env;
use text::Text;

mod text;

// A reader or a writer, and the error of its call that failed last.
#[derive(Drop)]
pub struct Stream<S> {
    pub inner: S,
    pub failure: Option<io::Error>,
}

// The three streams of a program. Its answers go to the sink, and all that it tells a person to `err`.
#[derive(Drop)]
pub struct Streams<R, W, E> {
    pub source: Stream<R>,
    pub sink: Stream<W>,
    pub err: E,
}

// No call has failed yet.
pub fn open<R, W, E>(source: R, sink: W, err: E) -> Streams<R, W, E>
    ensures source { (result.source.inner ≡ source) × IsNone result.source.failure }
    ensures sink { (result.sink.inner ≡ sink) × IsNone result.sink.failure }
    ensures err { result.err ≡ err }
{
    Streams {
        source: Stream {
            inner: source,
            failure: None,
        },
        sink: Stream {
            inner: sink,
            failure: None,
        },
        err,
    }
}

// Writes all bytes. Tells whether all of them were written.
pub fn write_all<W: Write>(sink: &mut Stream<W>, bytes: &[u8]) -> bool
    ensures all { result ≡ true → Appends (W.contents sink.old.inner) (W.contents sink.new.inner) bytes.now }
    ensures failure { result ≡ false → IsSome sink.new.failure }
{
    match sink.inner.write_all(bytes) {
        Ok(()) => true,
        Err(error) => {
            sink.failure = Some(error);
            false
        }
    }
}

// Tells words. A write that fails here has nobody to be told.
pub fn say(err: &impl Print, words: &[u8]) {
    let _ = err.write_all(words);
}

// Tells a number in decimal.
pub fn say_number(err: &impl Print, n: u64) {
    let _ = err.print(n);
}

// Tells what failed and why, on a line of its own.
pub fn fail(err: &impl Print, what: &[u8], failure: Option<io::Error>) {
    say(err, what);
    say(err, b": ");
    if let Some(error) = failure {
        say_why(err, error);
    }
    say(err, b"\n");
}

// An error in the words of the system alone, without its number.
fn say_why(err: &impl Print, error: io::Error) {
    say(err, Text::of(error).words());
}

// Whether the program was given a word when it was started.
pub fn has_argument(env: &impl Env) -> bool {
    let mut first: [u8; 1] = [0; 1];
    match env.arg(1, &mut first) {
        Err(FillError::NotPresent) => false,
        _ => true,
    }
}
