// Hardware addresses, as 00:1a:2b:3c:4d:5e.
ghost use Rattle.std.specs.Prelude.{◌≡◌, ◌+◌, ◌≤◌, ◌<◌, length};
ghost use Rattle.lesson_words.specs.Addresses as Addresses;

// The bytes of an address.
const ADDRESS_BYTES: usize = 17;

// The number of an address: its first byte is highest.
pub fn address(word: &[u8]) -> Option<u64>
    ensures { result ≡ Addresses.address_of word.now }
{
    if word.len() != ADDRESS_BYTES {
        return None;
    }
    if all_fit(word) {
        return Some(six_bytes(word));
    }
    None
}

// Whether every byte fits at its place.
fn all_fit(word: &[u8]) -> bool
    ensures { result ≡ Addresses.all_fit 0 word.now }
{
    for i in 0..word.len() {
        if !fits_at(i, word[i]) {
            return false;
        }
    }
    true
}

// Whether a byte fits at a place: every third byte is a colon, the others are hexadecimal digits.
fn fits_at(i: usize, byte: u8) -> bool
    ensures { result ≡ Addresses.fits_at i byte }
{
    if i % 3 == 2 {
        return byte == b':';
    }
    is_hex(byte)
}

// The number of six bytes.
fn six_bytes(word: &[u8]) -> u64
    requires { length word.now ≡ 17 }
    ensures { result ≡ Addresses.six_bytes word.now }
{
    0x100_0000_0000 * pair(word, 0)
        + 0x1_0000_0000 * pair(word, 3)
        + 0x100_0000 * pair(word, 6)
        + 0x1_0000 * pair(word, 9)
        + 0x100 * pair(word, 12)
        + pair(word, 15)
}

// The byte whose two digits begin at a place.
fn pair(word: &[u8], i: usize) -> u64
    requires { i + 1 < length word.now }
    ensures { (result ≡ Addresses.pair_at word.now i) × (result < 256) }
{
    16 * hex(word[i]) + hex(word[i + 1])
}

// The number of a hexadecimal digit, and 0 of any other byte.
fn hex(byte: u8) -> u64
    ensures { (result ≡ Addresses.hex_of byte) × (result < 16) }
{
    (byte as char).to_digit(16).unwrap_or(0) as u64
}

#[tactic(auto, unfolding(crate::specs::Addresses::is_hex))]
fn is_hex(byte: u8) -> bool
    ensures { result ≡ Addresses.is_hex byte }
{
    byte.is_ascii_hexdigit()
}
