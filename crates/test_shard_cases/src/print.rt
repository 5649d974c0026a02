// What the program prints.
use std::io;

// A code and a number, as the oracle prints them.
pub(crate) fn answer(out: &impl Print, code: u64, number: u64) -> io::Result<()> {
    println!(out; "{code} {number}")
}

// An operation that was not run.
pub(crate) fn skipped(out: &impl Print) -> io::Result<()> {
    println!(out; "skipped")
}

// All words, on one line.
pub(crate) fn words(out: &impl Print, ws: &[u64]) -> io::Result<()> {
    for (i, w) in ws.iter().enumerate() {
        word(out, i, *w)?;
    }
    println!(out; "")
}

// A word, parted from the one before it.
fn word(out: &impl Print, i: usize, word: u64) -> io::Result<()> {
    if 0 < i {
        print!(out; " ")?;
    }
    print!(out; "{word}")
}
