// FNV-1a for 64 bits (draft-eastlake-fnv), over a string of bytes and over a key.
#![tactic(auto)]

ghost use Rattle.std.specs.Prelude.{◌≡◌, ◌+◌, ◌*◌, ◌%◌, ◌^◌};
ghost use Rattle.hash.specs.Fnv as Fnv;

// The hash before any byte.
pub const OFFSET_BASIS: u64 = 14695981039346656037;

// The factor by which each byte multiplies the hash.
pub const PRIME: u64 = 1099511628211;

// a * b, modulo 2^64, by wrapping adds alone: a is doubled once for each bit of b, and added at each bit that is set. It stays a loop, and is not std's
// product: a multiply that is built of adds and proved here is a rule of the project (docs/CLAIMS.md, "The hash").
pub fn wrapping_mul(a: u64, b: u64) -> u64
    ensures { result ≡ (a * b) % 2 ^ 64 }
{
    let mut product: u64 = 0;
    let mut doubled = a;
    let mut bits = b;
    while bits != 0 {
        product = add_if_odd(product, doubled, bits);
        doubled = doubled.wrapping_add(doubled);
        bits /= 2;
    }
    product
}

// The product after the lowest bit of bits: with doubled added if that bit is set.
fn add_if_odd(product: u64, doubled: u64, bits: u64) -> u64
    ensures { result ≡ (product + doubled * (bits % 2)) % 2 ^ 64 }
{
    if bits % 2 == 1 {
        product.wrapping_add(doubled)
    } else {
        product
    }
}

// One byte into the hash: XOR first, then the product with the prime.
pub fn mix(hash: u64, byte: u8) -> u64
    ensures { result ≡ Fnv.mixed hash byte }
{
    let byte = byte as u64;
    wrapping_mul(byte ^ hash, PRIME)
}

// The hash of a string of bytes.
pub fn fnv1a(bytes: &[u8]) -> u64
    ensures { result ≡ Fnv.fnv1a bytes.now }
{
    let mut hash = OFFSET_BASIS;
    for &byte in bytes {
        hash = mix(hash, byte);
    }
    hash
}

// The hash of a key: that of its eight bytes, lowest first.
pub fn key_hash(key: u64) -> u64
    ensures { result ≡ Fnv.key_hash key }
{
    fnv1a(&key.to_le_bytes())
}
