// An index by hash over lent words. A place holds 0, or the number of an item plus 1. A hash has a home place, and its walk goes from there, round, up to the
// first empty place. Removal empties the item's place. Then it empties each place after it, up to the first empty one, and adds its item again. Last, the last
// item gets the number that came free.
#![tactic(auto)]

ghost use Rattle.std.specs.Prelude.{◌≡◌, ◌+◌, ◌-◌, ◌*◌, ◌^◌, ◌<◌, ◌≤◌, length, if◌then◌else◌, nat_le, slice_set};
ghost use Rattle.index.specs.Walk as Walk;
ghost use Rattle.index.specs.code.Trail.{Trail, from_home, known_after};
ghost use Rattle.index.specs.Layout.{Fits, places_of, with_places, item_word, hash_of, keyed};

mod places;

// Where an index and its items lie in one slice: the index has `size` places from word `base` on. The items lie before it, from word `first` on, each in a row
// of `width` words. The first word of a row is the item's hash, and word `key` of it is the item's key. Items without a key have the hash for a key, in word 0.
#[derive(Clone, Copy)]
pub struct Index {
    pub base: usize,
    pub size: usize,
    pub first: usize,
    pub width: usize,
    pub key: usize,
}

// An index has so many places for each item that there is room for.
pub const PLACES_PER_ITEM: usize = 2;

// The word of a row that has the hash.
const HASH: usize = 0;

// What lookup makes of one place: an item that it looks for, an empty place, or a reason to go on.
#[derive(Clone, Copy)]
enum Probed {
    Hit(usize),
    Empty,
    Other,
}

// What the pass over the places after an emptied one knows when it looks at a place: the last place that it left empty, how many places lie between that one
// and this one, and of how many places before this one it knows that all are in use but that one.
#[derive(Clone, Copy)]
struct Pass {
    gap: usize,
    run: usize,
    known: usize,
}

// The word at a place.
pub fn word_at(ws: &[u64], index: Index, q: usize) -> u64
    requires { (index.base + index.size ≤ length ws.now) × (q < index.size) }
    ensures { result ≡ Walk.at (places_of index ws.now) q }
{
    let k = index.base + q;
    ws[k]
}

// Word `f` of an item's row.
pub fn item_word(ws: &[u64], index: Index, n: usize, i: usize, f: usize) -> u64
    requires { Fits index n ws.now × (i < n) × (f < index.width) }
    ensures { result ≡ item_word index f ws.now i }
{
    let k = index.first + index.width * i + f;
    ws[k]
}

// Does the item have the hash and the key?
fn has_key(ws: &[u64], index: Index, n: usize, i: usize, hash: u64, key: u64) -> bool
    requires { Fits index n ws.now × (i < n) }
    ensures { result ≡ keyed index ws.now hash key i }
{
    item_word(ws, index, n, i, HASH) == hash && item_word(ws, index, n, i, index.key) == key
}

// One look of a lookup. A word less 1, with 0 wrapped round, is below the count exactly where the word names an item: one comparison for the common case.
fn probe(ws: &[u64], index: Index, n: usize, hash: u64, key: u64, q: usize) -> Probed
    requires { Fits index n ws.now × (q < index.size) }
    ensures { result ≡ Walk.probed n (keyed index ws.now hash key) (Walk.at (places_of index ws.now) q) }
{
    let word = word_at(ws, index, q);
    let item = word.wrapping_sub(1);
    if item < n as u64 {
        let i = item as usize;
        if has_key(ws, index, n, i, hash, key) {
            return Probed::Hit(i);
        }
        return Probed::Other;
    }
    if word == 0 {
        return Probed::Empty;
    }
    Probed::Other
}

// The rest of a lookup, after a look at place `home` that found no reason to stop.
fn find_on(ws: &[u64], index: Index, n: usize, hash: u64, key: u64, home: usize) -> Option<usize>
    requires { Fits index n ws.now × (home < index.size) }
    ensures { result
        ≡ Walk.find_from n (keyed index ws.now hash key) (places_of index ws.now) (Walk.onward index.size home) (index.size - 1) }
{
    let size = index.size;
    let mut q = places::onward(size, home);
    for _ in 0..size - 1 {
        match probe(ws, index, n, hash, key, q) {
            Probed::Hit(i) => return Some(i),
            Probed::Empty => return None,
            Probed::Other => q = places::onward(size, q),
        }
    }
    None
}

// The first item on the hash's walk that has the hash and the key. For items without a key the caller gives the hash for it. This function makes the first look
// itself, so that the compiler can inline it.
pub fn find(ws: &[u64], index: Index, n: usize, hash: u64, key: u64) -> Option<usize>
    requires { Fits index n ws.now }
    ensures { result ≡ Walk.find n (keyed index ws.now hash key) (places_of index ws.now) hash }
{
    let home = places::home(index.size, hash);
    match probe(ws, index, n, hash, key, home) {
        Probed::Hit(i) => Some(i),
        Probed::Empty => None,
        Probed::Other => find_on(ws, index, n, hash, key, home),
    }
}

// The item fills the empty place at which the walk of its hash stops, if there is one.
pub fn add(ws: &mut [u64], index: Index, hash: u64, item: usize)
    requires { (0 < index.size) × (index.base + index.size ≤ length ws.old) × (item + 1 < 2 ^ 64) }
    ensures { ws.new ≡ with_places index ws.old (Walk.add (places_of index ws.old) hash item) }
{
    let start = index.base;
    let end = index.base + index.size;
    places::add(&mut ws[start..end], hash, item);
}

// The item that a word names, if any, is added again.
fn add_again(ws: &mut [u64], index: Index, n: usize, word: u64)
    requires { Fits index n ws.old × (0 < word) }
    ensures { ws.new
        ≡ with_places index ws.old (Walk.add_again (hash_of index ws.old) n (places_of index ws.old) word) }
{
    if word <= n as u64 {
        let i = (word - 1) as usize;
        let hash = item_word(ws, index, n, i, HASH);
        add(ws, index, hash, i);
    }
}

// A place is emptied.
fn empty(ws: &mut [u64], index: Index, q: usize)
    requires { (index.base + index.size ≤ length ws.old) × (q < index.size) }
    ensures { ws.new ≡ with_places index ws.old (slice_set (places_of index ws.old) q 0) }
{
    let k = index.base + q;
    ws[k] = 0;
}

// A place that holds a word is emptied, and the item that the word names, if any, is added again by its walk.
fn rehome_one(ws: &mut [u64], index: Index, n: usize, q: usize, word: u64)
    requires { Fits index n ws.old × (q < index.size) × (0 < word) }
    ensures { ws.new
        ≡ with_places index ws.old (Walk.add_again (hash_of index ws.old) n (slice_set (places_of index ws.old) q 0) word) }
{
    empty(ws, index, q);
    add_again(ws, index, n, word);
}

// How many steps a walk takes to place q from the home of the item that a word names. For a word that names no item, more than there can be.
fn from_home(ws: &[u64], index: Index, n: usize, q: usize, word: u64) -> usize
    requires { Fits index n ws.now × (q < index.size) × (0 < word) }
    ensures { result ≡ from_home (hash_of index ws.now) n index.size q word }
{
    if word <= n as u64 {
        let i = (word - 1) as usize;
        let home = places::home(index.size, item_word(ws, index, n, i, HASH));
        return places::steps(index.size, home, q);
    }
    index.size + 1
}

// A place is emptied, and its word put into another place.
fn move_word(ws: &mut [u64], index: Index, q: usize, to: usize, word: u64)
    requires { (index.base + index.size ≤ length ws.old) × (q < index.size) × (to < index.size) }
    ensures { ws.new ≡ with_places index ws.old (slice_set (slice_set (places_of index ws.old) q 0) to word) }
{
    let from = index.base + q;
    let k = index.base + to;
    ws[from] = 0;
    ws[k] = word;
}

// Where an item was added again by a walk: if it filled the gap, all places from its home on are in use, else those after the gap.
fn known_after(ws: &[u64], index: Index, gap: usize, back: usize, run: usize) -> usize
    requires { (index.base + index.size ≤ length ws.now) × (gap < index.size) }
    ensures { result ≡ known_after (Walk.at (places_of index ws.now) gap) back run }
{
    if word_at(ws, index, gap) == 0 {
        return run;
    }
    back
}

// One of two numbers, by whether an item's home lies after the gap, so that it stays. The compiler makes no jump of it, which the processor would have to
// guess.
fn by_home(back: usize, run: usize, after: usize, before: usize) -> usize
    ensures { result ≡ (if nat_le back run then after else before) }
{
    if back <= run { after } else { before }
}

// A place in use is emptied and its item, if any, added again. If all places from the item's home on are known, no walk is needed: it comes back to its place
// if its home lies after the gap, and else it fills the gap.
fn pass_one(ws: &mut [u64], index: Index, n: usize, q: usize, word: u64, pass: Pass) -> Pass
    requires { Fits index n ws.old × (q < index.size) × (word ≡ Walk.at (places_of index ws.old) q) × (0 < word)
        × Trail index.size (places_of index ws.old) q pass }
    ensures { (ws.new ≡ with_places index ws.old (Walk.add_again (hash_of index ws.old) n
        (slice_set (places_of index ws.old) q 0) word)) × Trail index.size (places_of index ws.new) (Walk.onward index.size q) result }
{
    let gap = pass.gap;
    let run = pass.run;
    let back = from_home(ws, index, n, q, word);
    if back <= pass.known {
        move_word(ws, index, q, by_home(back, run, q, gap), word);
        return Pass {
            gap: by_home(back, run, gap, q),
            run: by_home(back, run, run + 1, 0),
            known: (pass.known + 1).min(index.size),
        };
    }
    rehome_one(ws, index, n, q, word);
    Pass {
        gap: q,
        run: 0,
        known: known_after(ws, index, gap, back, run) + 1,
    }
}

// The places after an emptied place z, up to the first one that is met empty, are emptied one by one and their items added again. The pass looks at one
// place fewer than there are, so that it never comes back to z.
fn rehome(ws: &mut [u64], index: Index, n: usize, z: usize)
    requires { Fits index n ws.old × (z < index.size) × (Walk.at (places_of index ws.old) z ≡ 0) }
    ensures { ws.new ≡ with_places index ws.old
        (Walk.rehome (hash_of index ws.old) n (places_of index ws.old) (Walk.onward index.size z) (index.size - 1)) }
{
    let size = index.size;
    let mut pass = Pass {
        gap: z,
        run: 0,
        known: 1,
    };
    let mut q = places::onward(size, z);
    for _ in 1..size {
        let held = word_at(ws, index, q);
        if held == 0 {
            return;
        }
        pass = pass_one(ws, index, n, q, held, pass);
        q = places::onward(size, q);
    }
}

// A place in use is emptied, and the items after it are added again. If the place is empty, or there is no such place, nothing changes.
fn vacate(ws: &mut [u64], index: Index, n: usize, z: usize)
    requires { Fits index n ws.old }
    ensures { ws.new
        ≡ with_places index ws.old (Walk.vacate (hash_of index ws.old) n (places_of index ws.old) z) }
{
    if z < index.size && word_at(ws, index, z) != 0 {
        empty(ws, index, z);
        rehome(ws, index, n, z);
    }
}

// The first place on an item's walk that names it. If there is none, it is the place at which the walk stops, or the number of places.
pub fn place_of(ws: &[u64], index: Index, n: usize, i: usize) -> usize
    requires { Fits index n ws.now × (i < n) }
    ensures { result ≡ Walk.seek (places_of index ws.now) (hash_of index ws.now i) (i + 1) }
{
    let hash = item_word(ws, index, n, i, HASH);
    let start = index.base;
    let end = index.base + index.size;
    places::seek(&ws[start..end], hash, i as u64 + 1)
}

// The last item gets the number r.
fn renumber_last(ws: &mut [u64], index: Index, n: usize, r: usize)
    requires { Fits index n ws.old × (r < n) }
    ensures { ws.new
        ≡ with_places index ws.old (Walk.renumber (places_of index ws.old) (hash_of index ws.old (n - 1)) (n - 1) r) }
{
    let last = n - 1;
    let hash = item_word(ws, index, n, last, HASH);
    let start = index.base;
    let end = index.base + index.size;
    places::renumber(&mut ws[start..end], hash, last, r);
}

// Item r leaves the index, and the last item gets its number. The caller moves the last item afterwards.
pub fn remove(ws: &mut [u64], index: Index, n: usize, r: usize)
    requires { Fits index n ws.old × (r < n) }
    ensures { ws.new
        ≡ with_places index ws.old (Walk.remove (hash_of index ws.old) n (places_of index ws.old) r) }
{
    let z = place_of(ws, index, n, r);
    vacate(ws, index, n, z);
    renumber_last(ws, index, n, r);
}
