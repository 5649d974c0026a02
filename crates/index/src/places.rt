// The places of an index, lent without the items: the next place, the home of a hash, the walk to a word, an item added, an item renumbered.
ghost use Rattle.std.specs.Prelude.{◌≡◌, ◌+◌, ◌%◌, ◌^◌, ◌<◌, length};
ghost use Rattle.index.specs.Walk as Walk;
ghost use Rattle.index.specs.code.Trail as Trail;

// The place one step on: after the last place comes the first.
pub(crate) fn onward(size: usize, q: usize) -> usize
    requires { q < size }
    ensures { result ≡ Walk.onward size q }
{
    if q + 1 < size {
        return q + 1;
    }
    0
}

// How many steps a walk takes from one place to another.
pub(crate) fn steps(size: usize, from: usize, to: usize) -> usize
    requires { (from < size) × (to < size) }
    ensures { result ≡ Trail.steps size from to }
{
    if from <= to {
        return to - from;
    }
    size - from + to
}

// The place at which the walk of a hash starts. Where the number of places is a power of two a mask gives the remainder, and no division is made.
pub(crate) fn home(size: usize, hash: u64) -> usize
    requires { 0 < size }
    ensures { result ≡ hash % size }
{
    let mask = size as u64 - 1;
    if (size as u64) & mask == 0 {
        return (hash & mask) as usize;
    }
    (hash % (size as u64)) as usize
}

// The first place on the hash's walk that holds the word. If there is none, it is the place at which the walk stops, or the number of places.
pub(crate) fn seek(ix: &[u64], hash: u64, word: u64) -> usize
    requires { 0 < length ix.now }
    ensures { result ≡ Walk.seek ix.now hash word }
{
    let size = ix.len();
    let mut q = home(size, hash);
    for _ in 0..size {
        let v = ix[q];
        if v == 0 || v == word {
            return q;
        }
        q = onward(size, q);
    }
    size
}

// The item fills the empty place at which its walk stops, if there is one.
pub(crate) fn add(ix: &mut [u64], hash: u64, item: usize)
    requires { (0 < length ix.old) × (item + 1 < 2 ^ 64) }
    ensures { ix.new ≡ Walk.add ix.old hash item }
{
    let z = seek(ix, hash, 0);
    if z < ix.len() {
        ix[z] = item as u64 + 1;
    }
}

// Item m gets the number r, if a place on its walk names it.
pub(crate) fn renumber(ix: &mut [u64], hash: u64, m: usize, r: usize)
    requires { (0 < length ix.old) × (m + 1 < 2 ^ 64) × (r + 1 < 2 ^ 64) }
    ensures { ix.new ≡ Walk.renumber ix.old hash m r }
{
    let z = seek(ix, hash, m as u64 + 1);
    if z < ix.len() && ix[z] != 0 {
        ix[z] = r as u64 + 1;
    }
}
