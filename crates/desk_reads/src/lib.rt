// Reads of the input: what a read brought.
#![tactic(auto)]

ghost use Rattle.std.specs.Prelude.{◌≡◌, ◌+◌, ◌^◌, ◌<◌, length, take, IfOk, IsSome};
ghost use Rattle.desk_reads.specs.Reads.{Grows, brought_by, answer_of, number_of, error_of, count_of};

use std::io;
use std::io::Read;
use streams::Stream;

// What a read brought.
#[derive(Clone, Copy)]
pub enum Got {
    // Bytes: with them, so many are pending. A read that a signal interrupts brings none, so that the next turn makes it again.
    More(usize),
    // The end of the input.
    End,
    // Nothing, since it failed.
    Failed,
}

// The number of the error of a call that a signal interrupts.
const EINTR: i32 = 4;

// Reads into the input after the bytes that are pending, which stay. It makes one read, and the stream keeps the error of one that failed.
pub fn read_more<R: Read>(source: &mut Stream<R>, input: &mut [u8], pending: usize) -> Got
    requires { pending < length input.old }
    ensures brings { Grows pending (length input.old) result × (take pending input.new ≡ take pending input.old) }
    ensures failure { result ≡ Got.Failed → IsSome source.new.failure }
{
    let read = source.inner.read(&mut input[pending..]);
    if let Err(error) = read {
        source.failure = Some(error);
    }
    brought(read, pending)
}

// What a read brought, by its answer, and by the number of the error where it failed. There was room, so that a read of nothing is the end of the input.
#[tactic(auto, unfolding(crate::specs::Reads::brought_by))]
fn brought(read: io::Result<usize>, pending: usize) -> Got
    requires { IfOk read (λ count. pending + count < 2 ^ 64) }
    ensures { result ≡ brought_by (answer_of read) (error_of read) pending (count_of read) }
{
    match read {
        Ok(count) => {
            if count == 0 {
                return Got::End;
            }
            Got::More(pending + count)
        }
        Err(error) => {
            if number(error) == EINTR {
                return Got::More(pending);
            }
            return Got::Failed;
        }
    }
}

// The number of an error, or 0 where the system gave none.
fn number(error: io::Error) -> i32
    ensures { result ≡ number_of error }
{
    match error.raw_os_error() {
        Some(number) => number,
        None => 0,
    }
}
