// A hash of all words, so that a line depends on every word.
use std::io;

// Prints FNV-1a over the words, each taken in whole, and ends the line.
pub(crate) fn print(out: &impl Print, ws: &[u64]) -> io::Result<()> {
    let mut digest: u64 = 14695981039346656037;
    for w in ws {
        digest = hash::wrapping_mul(digest ^ *w, 1099511628211);
    }
    println!(out; "{digest}")
}
