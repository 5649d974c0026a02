// A reply as numbers: document 01's code, the number beside it, and the moment.
ghost use Rattle.std.specs.Prelude.{◌≡◌};
ghost use Rattle.rules.specs.Replies as Replies;

use crate::Reply;
use settings::decision::Decision;

// A reply as C, Rust and the desk are told it. The number is a wait in nanoseconds, tokens, or keys. The moment is that at which a grant is usable, or at
// which to try again: the call's moment plus the wait, and 0 for all other replies.
#[repr(C)]
#[derive(Clone, Copy)]
pub struct Told {
    pub code: u64,
    pub number: u64,
    pub moment: u64,
}

impl Reply {
    // The numbers of a reply.
    pub fn told(self) -> Told
        ensures { result ≡ Replies.told_of self }
    {
        Told {
            code: self.code(),
            number: self.number(),
            moment: self.moment(),
        }
    }

    // The code: 0 granted, accepted, known or counted, 1 to be tried again, 2 impossible, 3 none or unknown, 10 + n refused as n.
    pub fn code(self) -> u64
        ensures { result ≡ Replies.code_of self }
    {
        match self {
            Reply::Tried(decision) => match decision {
                Decision::Acquired(_) => 0,
                Decision::Retry { after: _ } => 1,
                Decision::Impossible => 2,
            },
            Reply::Reserved(_) => 0,
            Reply::Nothing => 3,
            Reply::Done => 0,
            Reply::Count(_) => 0,
            Reply::Refused(refusal) => 10 + (refusal as u64),
        }
    }

    // The number beside the code: a wait in nanoseconds, tokens or keys; else 0.
    pub fn number(self) -> u64
        ensures { result ≡ Replies.number_of self }
    {
        match self {
            Reply::Tried(decision) => match decision {
                Decision::Acquired(_) => 0,
                Decision::Retry { after } => after.wait.0,
                Decision::Impossible => 0,
            },
            Reply::Reserved(due) => due.wait.0,
            Reply::Nothing => 0,
            Reply::Done => 0,
            Reply::Count(number) => number,
            Reply::Refused(_) => 0,
        }
    }

    // The moment at which a grant is usable, or at which to try again; else 0.
    pub fn moment(self) -> u64
        ensures { result ≡ Replies.moment_of self }
    {
        match self {
            Reply::Tried(decision) => match decision {
                Decision::Acquired(due) => due.moment.0,
                Decision::Retry { after } => after.moment.0,
                Decision::Impossible => 0,
            },
            Reply::Reserved(due) => due.moment.0,
            Reply::Nothing => 0,
            Reply::Done => 0,
            Reply::Count(_) => 0,
            Reply::Refused(_) => 0,
        }
    }
}
