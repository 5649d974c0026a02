// The one method of 64-bit integers that does not stand as std has it: a product held to 64 bits, on the hot path.
#![tactic(auto)]

ghost use Rattle.std.specs.Prelude.{◌≡◌, ◌*◌};
ghost use Rattle.arith.specs.Arith.{saturated};

// The product, held to 64 bits. Below 2^32 it takes one multiplication. Else the two halves of a are multiplied separately, so that neither product wraps.
// The only division is by a power of two: std's `saturating_mul` divides by its argument, which takes longer.
pub fn saturating_mul(a: u64, b: u32) -> u64
    ensures { result ≡ saturated (a * b) }
{
    let wide = b as u64;
    if a < 0x1_0000_0000 {
        return a * wide;
    }
    let high = (a / 0x1_0000_0000) * wide;
    let low = (a % 0x1_0000_0000) * wide;
    if 0x1_0000_0000 <= high {
        return u64::MAX;
    }
    (high * 0x1_0000_0000).saturating_add(low)
}
