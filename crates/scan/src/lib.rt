// The search for a byte among bytes.
#![tactic(auto)]

ghost use Rattle.std.specs.Prelude.{◌≡◌, ◌+◌, ◌≤◌, length};
ghost use Rattle.scan.specs.Bytes.{index_of, slice};

// The first place of a byte from `from` on and before `to`, or `to` where it is not there.
pub fn find(bytes: &[u8], from: usize, to: usize, byte: u8) -> usize
    requires order { from ≤ to }
    requires within { to ≤ length bytes.now }
    ensures first { result ≡ from + index_of byte (slice from to bytes.now) }
    ensures range { result ≤ to }
{
    for at in from..to {
        if bytes[at] == byte {
            return at;
        }
    }
    to
}
