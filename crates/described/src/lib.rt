// A description that a program reads whole before it does anything with it: the reading of all of the input into a buffer, as long as it fits.
#![tactic(auto)]

ghost use Rattle.std.specs.Prelude.{◌≡◌, ◌<◌, length};
ghost use Rattle.described.specs.Described.{Inside, step_after};

use desk_reads::Got;
use std::io::Read;
use streams::Stream;

// Why a description is not known whole.
#[derive(Clone, Copy)]
pub enum Unread {
    // It fills the buffer, so it may be cut.
    TooLong,
    // A read failed.
    Failed,
}

// Where the reading stands after a read.
#[derive(Clone, Copy)]
enum Step {
    // The bytes that are read so far. There may be more.
    More(usize),
    // All bytes are read, and these are so many.
    Whole(usize),
}

// Reads to the end of the input, and tells how many bytes the description has. The loop counts its turns since a proved loop has to end, up to a number that no
// run reaches.
pub fn read_all<R: Read>(source: &mut Stream<R>, text: &mut [u8]) -> Result<usize, Unread>
    requires { 0 < length text.old }
    ensures { Inside (length text.old) result }
{
    let mut size: usize = 0;
    for _turn in 0..u64::MAX {
        let got = desk_reads::read_more(source, text, size);
        match after(got, size, text.len())? {
            Step::More(end) => size = end,
            Step::Whole(end) => return Ok(end),
        }
    }
    Err(Unread::Failed)
}

// Where the reading stands after a read, with the bytes that were read before it and those that there is room for.
#[tactic(auto, unfolding(crate::specs::Described::step_after))]
fn after(got: Got, size: usize, room: usize) -> Result<Step, Unread>
    ensures { result ≡ step_after got size room }
{
    match got {
        Got::More(end) => {
            if end < room {
                return Ok(Step::More(end));
            }
            Err(Unread::TooLong)
        }
        Got::End => Ok(Step::Whole(size)),
        Got::Failed => Err(Unread::Failed),
    }
}
