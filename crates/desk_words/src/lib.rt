// What the desk tells a person, all of it on standard error: standard output has the answers and nothing else.
#![tactic(auto)]

use desk_answers::Stage;
use desk_feed::{Ending, MEMORY_WORDS, Ran};
use std::io;

// Writes words. A write that fails here has nobody to be told.
pub fn say(err: &impl Print, words: &[u8]) {
    streams::say(err, words);
}

// Writes a number.
fn say_number(err: &impl Print, n: usize) {
    streams::say_number(err, n as u64);
}

// The line that sets the store up.
pub fn settings_line(err: &impl Print) {
    say(
        err,
        b"s amount period burst initial modems shards idle when-full",
    );
}

// How to begin, for who types at a terminal.
pub fn greet(err: &impl Print) {
    say(err, b"desk: line 1 is ");
    settings_line(err);
    say(err, b"; desk --help tells more; Ctrl-D ends\n");
}

// Why the run is over. Nothing is told where the input has ended and all is written.
pub fn tell(err: &impl Print, ran: Ran, read: Option<io::Error>, written: Option<io::Error>) {
    let why = ran.ending;
    let feed = ran.feed;
    let stage = feed.stage;
    match why {
        Ending::Input => {}
        Ending::Refused => refused(err, stage),
        Ending::Read => streams::fail(err, b"desk: a read failed, and the run ends", read),
        Ending::Write => streams::fail(err, b"desk: a write failed, and the run ends", written),
        Ending::LastWrite => streams::fail(err, b"desk: a write failed, and the run ends", written),
        Ending::Turns => say(err, b"desk: 2^64 - 1 reads are made, and the run ends\n"),
    }
}

// Why line 1 was not accepted.
fn refused(err: &impl Print, stage: Stage) {
    if let Stage::Ended(code) = stage {
        say(err, b"desk: line 1 was not accepted, and the run ends: ");
        meaning(err, code);
        if code == 9 {
            say(err, b"desk: line 1 has to be ");
            settings_line(err);
            say(err, b"\n");
        }
        if code == 15 {
            say(err, b"desk: ");
            room(err);
        }
    }
}

// How many modems the program's memory has room for.
pub fn room(err: &impl Print) {
    say(err, b"room for ");
    say_number(err, desk_room::room_for(MEMORY_WORDS, 1));
    say(err, b" modems in one shard, ");
    say_number(err, desk_room::room_for(MEMORY_WORDS, 64));
    say(err, b" in 64\n");
}

// What a code tells.
pub fn meaning(err: &impl Print, code: u64) {
    match code {
        0 => say(err, b"granted; of s accepted, of f and d known\n"),
        1 => say(err, b"not now: ask again after the wait\n"),
        2 => say(err, b"never: the cost is more than the burst\n"),
        3 => say(err, b"no reservation, or a modem that is not known\n"),
        9 => say(err, b"malformed\n"),
        11 => say(err, b"refused as 1: the amount is 0 or more than 65535\n"),
        12 => say(err, b"refused as 2: the period is 0 or longer than 2^46\n"),
        13 => say(err, b"refused as 3: the burst is 0 or more than 65535\n"),
        14 => say(err, b"refused as 4: more than 65536 modems or 64 shards\n"),
        15 => say(
            err,
            b"refused as 5: the store would need more than the program's 8192 words\n",
        ),
        16 => say(err, b"refused as 6: now is after 2^62\n"),
        17 => say(err, b"refused as 7: max-wait is longer than 2^46\n"),
        _ => say(err, b"no code of the desk\n"),
    }
}

// The lines and the codes.
pub fn help(err: &impl Print) {
    say(
        err,
        b"desk reads lines from standard input, and for each prints its number, a code and a wait. Times are in nanoseconds.\n",
    );
    lines(err);
    codes(err);
    say(err, b"Standard error says why a line is answered with 9.\n");
    say(
        err,
        b"A line 1 that is not told 0 ends the run. So does a read or a write that fails.\n",
    );
}

fn lines(err: &impl Print) {
    say(err, b"\n  ");
    settings_line(err);
    say(
        err,
        b"\n                              line 1, and no other: set the store up\n",
    );
    say(
        err,
        b"                              idle: - for none; when-full: 0 turns new modems away, 1 forgets a debt\n",
    );
    say(
        err,
        b"  a now modem cost            a try: may the modem have so many requests now?\n",
    );
    say(
        err,
        b"  p now modem cost            a peek: would the modem's own bucket grant it? Changes nothing\n",
    );
    say(
        err,
        b"  r now modem cost max-wait   a reservation: granted if due within max-wait; the wait is when\n",
    );
    say(
        err,
        b"  f modem cost                a refund: so many requests were not used\n",
    );
    say(
        err,
        b"  d modem                     forget the modem, and what it owes\n\n",
    );
    say(
        err,
        b"Numbers are decimal, of 1 to 20 digits. One space parts two fields, an LF ends the line. A line has at most 100 bytes.\n\n",
    );
}

fn codes(err: &impl Print) {
    say(err, b"   0  ");
    meaning(err, 0);
    say(err, b"   1  ");
    meaning(err, 1);
    say(err, b"   2  ");
    meaning(err, 2);
    say(err, b"   3  ");
    meaning(err, 3);
    say(err, b"   9  ");
    meaning(err, 9);
    refusals(err);
}

// The codes of refusals.
pub fn refusals(err: &impl Print) {
    say(err, b"  11  ");
    meaning(err, 11);
    say(err, b"  12  ");
    meaning(err, 12);
    say(err, b"  13  ");
    meaning(err, 13);
    say(err, b"  14  ");
    meaning(err, 14);
    say(err, b"  15  ");
    meaning(err, 15);
    say(err, b"  16  ");
    meaning(err, 16);
    say(err, b"  17  ");
    meaning(err, 17);
}
