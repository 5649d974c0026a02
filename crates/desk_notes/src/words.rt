// Words and numbers, put into a buffer one after the other. What has no room is left out.
ghost use Rattle.std.specs.Prelude.{◌≤◌, length};

// Puts words from a place on. Tells the place after them. The bytes are copied by a loop, since the kit's clang makes of `copy_from_slice` a module for wasm32
// that no browser takes.
pub(crate) fn add(out: &mut [u8], at: usize, words: &[u8]) -> usize
    requires { at ≤ length out.old }
    ensures { result ≤ length out.new }
{
    let size = words.len().min(out.len() - at);
    for i in 0..size {
        out[at + i] = words[i];
    }
    at + size
}

// Puts a number in decimal from a place on, where 20 digits have room. Tells the place after them.
pub(crate) fn add_number(out: &mut [u8], at: usize, n: u64) -> usize
    requires { at ≤ length out.old }
    ensures { result ≤ length out.new }
{
    if out.len() - at < 20 {
        return at;
    }
    decimal::put(out, at, n)
}
