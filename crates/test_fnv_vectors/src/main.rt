// Prints the hash of each published FNV-1a vector, in hexadecimal, and of a few keys, in decimal, and addresses, in hexadecimal.
// The gate compares the lines with the file `stdout`. Its values for strings are those published with FNV-1a, written down from memory and confirmed by
// another program; those for keys and addresses were computed by such a program.
#![tactic(auto)]

use std::io;

fn main(rt: HostRuntime) -> io::Result<()> {
    draft_vectors(&rt)?;
    letter_vectors(&rt)?;
    prefix_vectors(&rt)?;
    vectors_ending_in_nul(&rt)?;
    key_hashes(&rt)?;
    address_hashes(&rt)
}

// The vectors of draft-eastlake-fnv.
fn draft_vectors(out: &impl Print) -> io::Result<()> {
    vector(out, "")?;
    vector(out, "a")?;
    vector(out, "foobar")
}

// From the FNV authors' own test suite, as the next two: the other letters from b to f.
fn letter_vectors(out: &impl Print) -> io::Result<()> {
    vector(out, "b")?;
    vector(out, "c")?;
    vector(out, "d")?;
    vector(out, "e")?;
    vector(out, "f")
}

// How "foobar" starts.
fn prefix_vectors(out: &impl Print) -> io::Result<()> {
    vector(out, "fo")?;
    vector(out, "foo")?;
    vector(out, "foob")?;
    vector(out, "fooba")
}

// A last byte of value 0 counts as any other.
fn vectors_ending_in_nul(out: &impl Print) -> io::Result<()> {
    named_vector(out, "\\0", b"\0")?;
    named_vector(out, "a\\0", b"a\0")?;
    named_vector(out, "foobar\\0", b"foobar\0")
}

// The two smallest keys, the keys 7, 8 and 9, and the largest key.
fn key_hashes(out: &impl Print) -> io::Result<()> {
    key(out, 0)?;
    key(out, 1)?;
    key(out, 7)?;
    key(out, 8)?;
    key(out, 9)?;
    key(out, u64::MAX)
}

// Six bytes, as a modem's hardware address has: those of the lowest and the highest number, two that differ in the last bit, one and the same bytes backwards.
fn address_hashes(out: &impl Print) -> io::Result<()> {
    named_vector(out, "00:00:00:00:00:00", b"\0\0\0\0\0\0")?;
    named_vector(out, "00:00:00:00:00:01", b"\0\0\0\0\0\x01")?;
    named_vector(out, "fe:ff:ff:ff:ff:ff", b"\xfe\xff\xff\xff\xff\xff")?;
    named_vector(out, "00:1a:2b:3c:4d:5e", b"\0\x1a\x2b\x3c\x4d\x5e")?;
    named_vector(out, "00:1a:2b:3c:4d:5f", b"\0\x1a\x2b\x3c\x4d\x5f")?;
    named_vector(out, "5e:4d:3c:2b:1a:00", b"\x5e\x4d\x3c\x2b\x1a\0")
}

// A line with a string that can be printed, and its hash.
fn vector(out: &impl Print, text: &str) -> io::Result<()> {
    named_vector(out, text, text.as_bytes())
}

// A line with the name of a string of bytes, and the hash of the string.
fn named_vector(out: &impl Print, name: &str, bytes: &[u8]) -> io::Result<()> {
    let hash = hash::fnv1a(bytes);
    println!(out; "'{name}' {hash:016x}")
}

// A line with a key, and its hash.
fn key(out: &impl Print, key: u64) -> io::Result<()> {
    let hash = hash::key_hash(key);
    println!(out; "{key} {hash}")
}
