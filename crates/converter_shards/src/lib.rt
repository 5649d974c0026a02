// Moves one shard from document 01's layout to the present one, and back: the checks of its words, and the copies.
#![tactic(auto)]

ghost use Rattle.std.specs.Prelude.{◌≡◌, ◌+◌, ◌*◌, ◌≤◌, ◌<◌, true, false, cond, eqb, length, get_or};
ghost use Rattle.index.specs.Exact.{copies};
ghost use Rattle.index.specs.Layout.{Fits, places_of, with_places, hash_of, key_of};
ghost use Rattle.shard_map.specs.Layout.{slots_at, shard, shard_words, words_of, Intact};
ghost use Rattle.converter_shards.specs.Layout01.{shard01, shard_words01, words01};
ghost use Rattle.converter_shards.specs.Checks as Checks;
ghost use Rattle.converter_shards.specs.code.RowChecks.{RowsFit, Counted};
ghost use Rattle.converter_shards.specs.Forth as Forth;
ghost use Rattle.converter_shards.specs.code.RowChecks as RowChecks;
ghost use Rattle.converter_shards.specs.code.Carried as Carried;

use index::Index;

pub mod words;

// Where items lie in words: from word `first` on, each in a row of `width` words. The first word of a row is the item's hash, and word `key` of it is its key.
#[derive(Clone, Copy)]
pub struct Rows {
    pub first: usize,
    pub width: usize,
    pub key: usize,
}

// The word of a row that has the hash.
const HASH: usize = 0;

// Word `f` of an item's row.
fn row_word(ws: &[u64], rows: Rows, n: usize, i: usize, f: usize) -> u64
    requires { RowsFit rows n ws.now × (i < n) × (f < rows.width) }
    ensures { result ≡ RowChecks.row_word rows f ws.now i }
{
    let k = rows.first + rows.width * i + f;
    ws[k]
}

// Have two items one hash and key?
fn alike(ws: &[u64], rows: Rows, n: usize, i: usize, j: usize) -> bool
    requires { RowsFit rows n ws.now × (i < n) × (j < n) }
    ensures { result ≡ RowChecks.alike_rows rows ws.now i j }
{
    row_word(ws, rows, n, i, HASH) == row_word(ws, rows, n, j, HASH)
        && row_word(ws, rows, n, i, rows.key) == row_word(ws, rows, n, j, rows.key)
}

// Is an item before item i like it?
fn has_twin(ws: &[u64], rows: Rows, n: usize, i: usize) -> bool
    requires { RowsFit rows n ws.now × (i < n) }
    ensures { result ≡ Checks.any_below i (RowChecks.alike_rows rows ws.now i) }
{
    for j in 0..i {
        if alike(ws, rows, n, i, j) {
            return true;
        }
    }
    false
}

// Are two of the first n items alike? Each is compared with those before it.
pub fn has_twins(ws: &[u64], rows: Rows, n: usize) -> bool
    requires { RowsFit rows n ws.now }
    ensures { result ≡ Checks.twinned (RowChecks.alike_rows rows ws.now) n }
{
    for i in 0..n {
        if has_twin(ws, rows, n, i) {
            return true;
        }
    }
    false
}

// Is any of these words not 0?
pub fn any_used(ws: &[u64]) -> bool
    ensures { result ≡ Checks.any_used ws.now }
{
    for word in ws {
        if *word != 0 {
            return true;
        }
    }
    false
}

// Is any word past the first n of cap rows not 0?
fn rows_past_used(ws: &[u64], first: usize, width: usize, cap: usize, n: usize) -> bool
    requires { (first + width * cap ≤ length ws.now) × (n ≤ cap) }
    ensures { result ≡ Checks.any_used (RowChecks.rows_past first width cap n ws.now) }
{
    let from = first + width * n;
    let to = first + width * cap;
    any_used(&ws[from..to])
}

// 1 for an empty place, 0 for one in use.
fn one_if_empty(word: u64) -> usize
    ensures { result ≡ cond (eqb word 0) 1 0 }
{
    if word == 0 { 1 } else { 0 }
}

// How many places of an index are empty.
fn empty_places(ws: &[u64], index: Index) -> usize
    requires { index.base + index.size ≤ length ws.now }
    ensures { result ≡ copies 0 (places_of index ws.now) }
{
    let mut empty = 0;
    for q in 0..index.size {
        empty += one_if_empty(index::word_at(ws, index, q));
    }
    empty
}

// Does the walk of an item miss its number?
fn unplaced(ws: &[u64], index: Index, n: usize, i: usize) -> bool
    requires { Fits index n ws.now × (i < n) }
    ensures { result ≡ Checks.unplaced (hash_of index ws.now) (places_of index ws.now) i }
{
    let q = index::place_of(ws, index, n, i);
    index.size <= q || index::word_at(ws, index, q) != i as u64 + 1
}

// Does the walk of any of n items miss its number?
fn any_unplaced(ws: &[u64], index: Index, n: usize) -> bool
    requires { Fits index n ws.now }
    ensures { result ≡ Checks.any_below n (Checks.unplaced (hash_of index ws.now) (places_of index ws.now)) }
{
    for i in 0..n {
        if unplaced(ws, index, n, i) {
            return true;
        }
    }
    false
}

// Is the index exact for n items?
pub fn is_exact(ws: &[u64], index: Index, n: usize) -> bool
    requires { Fits index n ws.now }
    ensures { result ≡ Checks.exactly (hash_of index ws.now) n (places_of index ws.now) }
{
    if index.size <= n {
        return false;
    }
    empty_places(ws, index) == index.size - n && !any_unplaced(ws, index, n)
}

// Does the lookup of an item's own hash and key give another place than the item's, or none?
fn strays(ws: &[u64], index: Index, n: usize, i: usize) -> bool
    requires { Fits index n ws.now × (i < n) }
    ensures { result ≡ RowChecks.strays (hash_of index ws.now) (key_of index ws.now) n (places_of index ws.now) i }
{
    let hash = index::item_word(ws, index, n, i, HASH);
    let key = index::item_word(ws, index, n, i, index.key);
    match index::find(ws, index, n, hash, key) {
        Some(j) => j != i,
        None => true,
    }
}

// Does any of n items stray?
fn any_strays(ws: &[u64], index: Index, n: usize) -> bool
    requires { Fits index n ws.now }
    ensures { result
        ≡ Checks.any_below n (RowChecks.strays (hash_of index ws.now) (key_of index ws.now) n (places_of index ws.now)) }
{
    for i in 0..n {
        if strays(ws, index, n, i) {
            return true;
        }
    }
    false
}

// The word at a place, or 0 past the last.
fn word_or_zero(ws: &[u64], k: usize) -> u64
    ensures { result ≡ get_or ws.now k 0 }
{
    if k < ws.len() {
        return ws[k];
    }
    0
}

// The words of the target become the first ones of the source, and zeros where the source has none.
fn carry(source: &[u64], target: &mut [u64])
    ensures { target.new ≡ Carried.carried (length target.old) source.now }
{
    for (k, word) in target.iter_mut().enumerate() {
        *word = word_or_zero(source, k);
    }
}

// The first n rows of a width become rows of another width: words are cut off, or zeros added.
fn carry_rows(source: &[u64], target: &mut [u64], from: usize, to: usize, n: usize)
    requires { (length source.now ≡ from * n) × (length target.old ≡ to * n) }
    ensures { target.new ≡ Carried.carried_rows from to n source.now }
{
    for i in 0..n {
        let at = from * i;
        let at_end = at + from;
        let onto = to * i;
        let onto_end = onto + to;
        carry(&source[at..at_end], &mut target[onto..onto_end]);
    }
}

// The words of a shard with slots of `from` words become words with slots of `to` words.
fn carry_shard(source: &[u64], target: &mut [u64], cap: usize, from: usize, to: usize)
    requires { (slots_at + from * cap ≤ length source.now) × (slots_at + to * cap ≤ length target.old) }
    ensures { target.new ≡ Carried.carried_shard from to cap (length target.old) source.now }
{
    let slots = words::SLOTS;
    let at = slots + from * cap;
    let at_end = source.len();
    let onto = slots + to * cap;
    let onto_end = target.len();
    carry(&source[0..slots], &mut target[0..slots]);
    carry_rows(&source[slots..at], &mut target[slots..onto], from, to, cap);
    carry(&source[at..at_end], &mut target[onto..onto_end]);
}

// The first n items are added to the index, in order.
fn add_items(ws: &mut [u64], index: Index, n: usize)
    requires { Fits index n ws.old }
    ensures { ws.new
        ≡ with_places index ws.old (Forth.added_up_to (hash_of index ws.old) n (places_of index ws.old)) }
{
    for i in 0..n {
        let hash = index::item_word(ws, index, n, i, HASH);
        index::add(ws, index, hash, i);
    }
}

// Is a count of document 01's words over the cap?
pub fn count_over(ws: &[u64], cap: usize) -> bool
    requires { length ws.now ≡ shard_words01 cap }
    ensures { result ≡ Checks.count_over cap (shard01 cap ws.now) }
{
    cap < words::slot_count(ws, cap) || cap < words::debt_count(ws, cap)
}

// Has the shard two slots of one hash and key, or two debts of one hash?
pub fn twins(ws: &[u64], cap: usize) -> bool
    requires { Counted cap ws.now }
    ensures { result ≡ Checks.shard_twins (shard01 cap ws.now) }
{
    let slots = words::slot_count(ws, cap);
    has_twins(ws, words::slot_rows(), slots)
        || has_twins(ws, words::debt_rows(cap), words::debt_count(ws, cap))
}

// Is a word past a count not 0?
pub fn used_past(ws: &[u64], cap: usize) -> bool
    requires { Counted cap ws.now }
    ensures { result ≡ Checks.shard_used_past01 (shard01 cap ws.now) }
{
    let slots = words::slot_rows();
    let debts = words::debt_rows(cap);
    rows_past_used(
        ws,
        slots.first,
        slots.width,
        cap,
        words::slot_count(ws, cap),
    ) || rows_past_used(
        ws,
        debts.first,
        debts.width,
        cap,
        words::debt_count(ws, cap),
    )
}

// Forth: the target becomes the present words of the shard.
pub fn forth(source: &[u64], target: &mut [u64], cap: usize)
    requires { Counted cap source.now × (length target.old ≡ shard_words cap) × (0 < cap) }
    ensures { target.new ≡ words_of (Forth.forth cap (shard01 cap source.now)) }
{
    carry_shard(source, target, cap, words::SLOT_WIDTH_01, words::SLOT_WIDTH);
    add_items(
        target,
        shard_map::words::index(cap),
        words::slot_count(source, cap),
    );
    add_items(
        target,
        words::debt_index(cap),
        words::debt_count(source, cap),
    );
}

// Is a count of a present shard over the cap?
pub fn count_over_now(ws: &[u64], cap: usize) -> bool
    requires { length ws.now ≡ shard_words cap }
    ensures { result ≡ Checks.count_over cap (shard cap ws.now) }
{
    cap < shard_map::len(ws, cap) || cap < shard_map::debts::len(ws, cap)
}

// Are both indexes of a present shard exact?
pub fn indexes_exact(ws: &[u64], cap: usize) -> bool
    requires { Intact cap ws.now }
    ensures { result ≡ Checks.indexes_exact (shard cap ws.now) }
{
    let slots = shard_map::len(ws, cap);
    is_exact(ws, shard_map::words::index(cap), slots)
        && is_exact(ws, words::debt_index(cap), shard_map::debts::len(ws, cap))
}

// Has a present shard with exact indexes two slots of one hash and key, or two debts of one hash? Each item is looked up, so that no pairs are compared.
pub fn twins_by_lookup(ws: &[u64], cap: usize) -> bool
    requires { Intact cap ws.now × (Checks.indexes_exact (shard cap ws.now) ≡ true) }
    ensures { result ≡ Checks.shard_twins (shard cap ws.now) }
{
    let slots = shard_map::len(ws, cap);
    any_strays(ws, shard_map::words::index(cap), slots)
        || any_strays(ws, words::debt_index(cap), shard_map::debts::len(ws, cap))
}

// Is a word past a count of a present shard not 0?
pub fn used_past_now(ws: &[u64], cap: usize) -> bool
    requires { Intact cap ws.now }
    ensures { result ≡ Checks.shard_used_past (shard cap ws.now) }
{
    let slots = shard_map::words::index(cap);
    let debts = words::debt_index(cap);
    rows_past_used(ws, slots.first, slots.width, cap, shard_map::len(ws, cap))
        || rows_past_used(
            ws,
            debts.first,
            debts.width,
            cap,
            shard_map::debts::len(ws, cap),
        )
}

// Back: the target becomes document 01's words of the shard.
pub fn back(source: &[u64], target: &mut [u64], cap: usize)
    requires { (length source.now ≡ shard_words cap) × (length target.old ≡ shard_words01 cap) }
    ensures { target.new ≡ words01 (Forth.back (shard cap source.now)) }
{
    carry_shard(source, target, cap, words::SLOT_WIDTH, words::SLOT_WIDTH_01);
}
