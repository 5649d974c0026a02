// What the program tells a person, all of it on standard error: standard output has the answers and nothing else.
#![tactic(auto)]

use desk_answers::Stage;
use desk_feed::Ending;
use desk_words::say;
use outage_feed::Ran;
use std::io;

// How to begin, for who types at a terminal.
pub fn greet(err: &impl Print) {
    say(err, b"outage: line 1 is ");
    desk_words::settings_line(err);
    say(
        err,
        b"; outage --help tells more; Ctrl-D brings the power back\n",
    );
}

// Why the run is over. Nothing is told where the input has ended and all is written.
pub fn tell(err: &impl Print, ran: Ran, read: Option<io::Error>, written: Option<io::Error>) {
    let why = ran.ending;
    let feed = ran.feed;
    let stage = feed.stage;
    match why {
        Ending::Input => {}
        Ending::Refused => refused(err, stage),
        Ending::Read => streams::fail(err, b"outage: a read failed, and the run ends", read),
        Ending::Write => streams::fail(err, b"outage: a write failed, and the run ends", written),
        Ending::LastWrite => streams::fail(
            err,
            b"outage: a write failed, and the run ends",
            written,
        ),
        Ending::Turns => say(err, b"outage: 2^64 - 1 reads are made, and the run ends\n"),
    }
}

// Why line 1 was not accepted.
fn refused(err: &impl Print, stage: Stage) {
    if let Stage::Ended(code) = stage {
        say(err, b"outage: line 1 was not accepted, and the run ends: ");
        desk_words::meaning(err, code);
        if code == 9 {
            say(err, b"outage: line 1 has to be ");
            desk_words::settings_line(err);
            say(err, b"\n");
        }
        if code == 15 {
            say(err, b"outage: ");
            desk_words::room(err);
        }
    }
}

// The lines and the codes.
pub fn help(err: &impl Print) {
    say(
        err,
        b"outage reads a village from standard input and tries every line until it is up. Times are in nanoseconds.\n",
    );
    lines(err);
    say(
        err,
        b"Line 1 is answered as by the desk. Then every line gets its number, a code, the moment of its last try and its tries:\n\n",
    );
    codes(err);
    say(
        err,
        b"\nA line 1 that is not told 0 ends the run. So does a read or a write that fails.\n",
    );
}

fn lines(err: &impl Print) {
    say(err, b"\n  ");
    desk_words::settings_line(err);
    say(
        err,
        b"\n                       line 1, and no other: set the store up\n",
    );
    say(
        err,
        b"                       idle: - for none; when-full: 0 turns new modems away, 1 forgets a debt\n",
    );
    say(
        err,
        b"  a now modem cost     lines 2 to 201: a modem that tries, first at now, and again at each moment that it is told\n\n",
    );
    say(
        err,
        b"The earliest moment goes first, of equal ones the lower line. All tries are made once the input has ended, or at line 202.\n",
    );
    say(
        err,
        b"Numbers are decimal, of 1 to 20 digits. One space parts two fields, an LF ends the line. A line has at most 100 bytes.\n\n",
    );
}

fn codes(err: &impl Print) {
    say(err, b"   0  up: granted at that moment\n");
    say(err, b"   1  not up: denied 1000 times\n");
    say(err, b"   2  ");
    desk_words::meaning(err, 2);
    say(
        err,
        b"   9  malformed, another kind of line, or after line 201: not tried\n",
    );
    desk_words::refusals(err);
}
