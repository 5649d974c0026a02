// The debts of keys that were evicted before their buckets were full, by the hash of the key. A key that comes back starts with its
// debt, if the ledger still has it. The debts lie in lent words: the count, the cursor, then two words for each of `cap` debts; their index comes last.
#![tactic(auto)]

ghost use Rattle.std.specs.Prelude.{◌≡◌, ◌-◌, ◌≤◌, ◌<◌, length};
ghost use Rattle.std.specs.Prelude.{None};
ghost use Rattle.rows.specs.Outcome.{outcome};
ghost use Rattle.held.specs.Held.{with_added, without_item};
ghost use Rattle.bucket.specs.Bucket.{Accepted};
ghost use Rattle.ledger.specs.Model as Model;
ghost use Rattle.ledger.specs.Layout.{ledger, ledger_words, Intact};
ghost use Rattle.ledger.specs.code.Prepared.{prepared_at, prepared, writable, written};
ghost use Rattle.ledger.specs.code.Row.{unsettled_before, meets_unsettled, soonest_before};

use bucket::BucketConfig;
use settings::eviction::Eviction;
use units::Nanos;

pub mod words;

// A forgotten key's debt: when its bucket would be full again. C has the same two words.
#[repr(C)]
#[derive(Clone, Copy)]
pub struct Debt {
    pub hash: u64,
    pub settles: Nanos,
}

// What the looks at a full ledger come to: a settled debt, or else the one that settles soonest.
#[derive(Clone, Copy)]
pub enum Choice {
    Settled(usize),
    Soonest(usize),
}

// There is no room for a debt: how long until the soonest of the debts looked at settles.
#[derive(Clone, Copy)]
pub struct NoRoom {
    pub wait: Nanos,
}

// How many debts are held. It requires the length alone, so that it can tell a count that is too large.
pub fn len(ws: &[u64], cap: usize) -> usize
    requires { length ws.now ≡ ledger_words cap }
    ensures { result ≡ (ledger cap ws.now).debts.count }
{
    words::count(ws, cap)
}

// The place of the first debt on the hash's walk that has the hash.
pub fn position(ws: &[u64], cap: usize, hash: u64) -> Option<usize>
    requires { Intact cap ws.now }
    ensures { result ≡ Model.place_of (ledger cap ws.now) hash }
{
    let count = words::count(ws, cap);
    if count == 0 {
        return None;
    }
    index::find(ws, words::index(cap), count, hash, hash)
}

// The index gets the debt of this hash that the caller will put at the place.
fn add_to_index(ws: &mut [u64], cap: usize, hash: u64, pos: usize)
    requires { Intact cap ws.old × (pos < cap) }
    ensures { ledger cap ws.new
        ≡ Model.with_finding (ledger cap ws.old) (with_added (ledger cap ws.old).debts.finding hash pos) }
{
    index::add(ws, words::index(cap), hash, pos);
}

// The debt at a place leaves the index, and the last debt gets its number.
fn remove_from_index(ws: &mut [u64], cap: usize, pos: usize)
    requires { Intact cap ws.old × (pos < (ledger cap ws.old).debts.count) }
    ensures { ledger cap ws.new
        ≡ Model.with_finding (ledger cap ws.old) (without_item Model.debt_items (ledger cap ws.old).debts pos) }
{
    let count = words::count(ws, cap);
    index::remove(ws, words::index(cap), count, pos);
}

// When the debt of the hash settles, if there is one.
pub fn owed_by(ws: &[u64], cap: usize, hash: u64) -> Option<Nanos>
    requires { Intact cap ws.now }
    ensures { result ≡ Model.owed_by (ledger cap ws.now) hash }
{
    let pos = position(ws, cap, hash)?;
    Some(words::settles_at(ws, cap, pos))
}

// Removes the debt at a place: the last debt moves into the gap.
pub fn remove_at(ws: &mut [u64], cap: usize, pos: usize)
    requires { Intact cap ws.old × (pos < (ledger cap ws.old).debts.count) }
    ensures { ledger cap ws.new ≡ Model.remove_at (ledger cap ws.old) pos }
{
    remove_from_index(ws, cap, pos);
    let last = words::count(ws, cap) - 1;
    let moved = words::load(ws, cap, last);
    words::put(ws, cap, pos, moved);
    let free = Debt {
        hash: 0,
        settles: Nanos(0),
    };
    words::put(ws, cap, last, free);
    words::set_count(ws, cap, last);
}

// Takes out the debt of the hash, if there is one, and tells when it settles.
pub fn take(ws: &mut [u64], cap: usize, hash: u64) -> Option<Nanos>
    requires { Intact cap ws.old }
    ensures { outcome result (ledger cap ws.new) ≡ Model.taken (ledger cap ws.old) hash }
{
    let pos = position(ws, cap, hash)?;
    let settles = words::settles_at(ws, cap, pos);
    remove_at(ws, cap, pos);
    Some(settles)
}

// One look of the sweep, at a ledger that holds a debt.
fn look(ws: &mut [u64], cap: usize, at: Nanos)
    requires { Intact cap ws.old × (0 < (ledger cap ws.old).debts.count) }
    ensures { ledger cap ws.new ≡ Model.look at (ledger cap ws.old) }
{
    let cursor = words::cursor(ws, cap);
    let settles = words::settles_at(ws, cap, cursor);
    if settles.0 <= at.0 {
        words::set_cursor(ws, cap, cursor);
        remove_at(ws, cap, cursor);
    } else {
        words::set_cursor(ws, cap, cursor + 1);
    }
}

// Whether the last `looks` debts before the place `end` are unsettled.
fn are_unsettled(ws: &[u64], cap: usize, at: Nanos, end: usize, looks: usize) -> bool
    requires { Intact cap ws.now × (looks ≤ end) × (end ≤ cap) }
    ensures { result ≡ unsettled_before at (ledger cap ws.now) end looks }
{
    for i in end - looks..end {
        let settles = words::settles_at(ws, cap, i);
        if settles.0 <= at.0 {
            return false;
        }
    }
    true
}

// Whether the next `looks` looks meet unsettled debts alone and do not go round; `first` is the cursor. Then they change nothing but the cursor. The number of
// looks is known to the compiler, so that it makes a row of comparisons of this.
fn meets_unsettled(ws: &[u64], cap: usize, at: Nanos, first: usize, looks: usize) -> bool
    requires { Intact cap ws.now × (first ≡ Model.cursor_of (ledger cap ws.now)) }
    ensures { result ≡ meets_unsettled at (ledger cap ws.now) looks }
{
    if looks == 0 {
        return false;
    }
    if words::count(ws, cap) - first < looks {
        return false;
    }
    are_unsettled(ws, cap, at, first + looks, looks)
}

// Drops settled debts among the next `budget` looks.
pub fn sweep(ws: &mut [u64], cap: usize, at: Nanos, budget: usize)
    requires { Intact cap ws.old }
    ensures { ledger cap ws.new ≡ Model.sweep at budget (ledger cap ws.old) }
{
    let first = words::cursor(ws, cap);
    if meets_unsettled(ws, cap, at, first, budget) {
        words::set_cursor(ws, cap, first + budget);
        return;
    }
    sweep_by_looks(ws, cap, at, budget);
}

// The same look by look.
fn sweep_by_looks(ws: &mut [u64], cap: usize, at: Nanos, budget: usize)
    requires { Intact cap ws.old }
    ensures { ledger cap ws.new ≡ Model.sweep at budget (ledger cap ws.old) }
{
    for _ in 0..budget {
        if words::count(ws, cap) == 0 {
            break;
        }
        look(ws, cap, at);
    }
}

// Of two debts, the place of the one that settles sooner; `best` where both settle at one moment.
fn sooner(ws: &[u64], cap: usize, best: usize, looked: usize) -> usize
    requires { Intact cap ws.now × (best < cap) × (looked < cap) }
    ensures { result ≡ Model.sooner (ledger cap ws.now) best looked }
{
    let looked_settles = words::settles_at(ws, cap, looked);
    let best_settles = words::settles_at(ws, cap, best);
    if looked_settles.0 < best_settles.0 {
        looked
    } else {
        best
    }
}

// Of the last `looks` debts before the place `end`, the place of the first that settles soonest.
fn soonest_before(ws: &[u64], cap: usize, end: usize, looks: usize) -> usize
    requires { Intact cap ws.now × (0 < looks) × (looks ≤ end) × (end ≤ cap) }
    ensures { result ≡ soonest_before (ledger cap ws.now) end looks (end - looks) }
{
    let first = end - looks;
    let mut best = first;
    for i in first..end {
        best = sooner(ws, cap, best, i);
    }
    best
}

// Looks for a debt to drop from a full ledger: the first settled one, failing that the soonest looked at.
fn scan(ws: &mut [u64], cap: usize, at: Nanos) -> Choice
    requires { Intact cap ws.old × (0 < (ledger cap ws.old).debts.count) }
    ensures { outcome result (ledger cap ws.new) ≡ Model.scan at (ledger cap ws.old) }
{
    let first = words::cursor(ws, cap);
    let looks = Eviction::ledger_looks();
    if meets_unsettled(ws, cap, at, first, looks) {
        let end = first + looks;
        let best = soonest_before(ws, cap, end, looks);
        words::set_cursor(ws, cap, end);
        return Choice::Soonest(best);
    }
    scan_by_looks(ws, cap, at)
}

// The same look by look.
fn scan_by_looks(ws: &mut [u64], cap: usize, at: Nanos) -> Choice
    requires { Intact cap ws.old × (0 < (ledger cap ws.old).debts.count) }
    ensures { outcome result (ledger cap ws.new) ≡ Model.scan at (ledger cap ws.old) }
{
    let looks = Eviction::ledger_looks().min(words::count(ws, cap));
    let mut best = words::cursor(ws, cap);
    for _ in 0..looks {
        let cursor = words::cursor(ws, cap);
        let settles = words::settles_at(ws, cap, cursor);
        if settles.0 <= at.0 {
            words::set_cursor(ws, cap, cursor);
            return Choice::Settled(cursor);
        }
        best = sooner(ws, cap, best, cursor);
        words::set_cursor(ws, cap, cursor + 1);
    }
    Choice::Soonest(best)
}

// Drops a debt of a full ledger: a settled one, else under `forget` the soonest looked at. Where it drops none, it tells how long the soonest still takes.
fn make_room(ws: &mut [u64], cap: usize, at: Nanos, forget: bool) -> Result<(), NoRoom>
    requires { Intact cap ws.old × (0 < (ledger cap ws.old).debts.count) }
    ensures { outcome result (ledger cap ws.new) ≡ Model.make_room at forget (ledger cap ws.old) }
{
    match scan(ws, cap, at) {
        Choice::Settled(pos) => {
            remove_at(ws, cap, pos);
            Ok(())
        }
        Choice::Soonest(pos) => {
            if forget {
                remove_at(ws, cap, pos);
                return Ok(());
            }
            let settles = words::settles_at(ws, cap, pos);
            let wait = Nanos(settles.0.saturating_sub(at.0));
            Err(NoRoom { wait })
        }
    }
}

// A new debt comes last.
fn append(ws: &mut [u64], cap: usize, debt: Debt)
    requires { Intact cap ws.old × ((ledger cap ws.old).debts.count < cap) }
    ensures { ledger cap ws.new ≡ Model.append (ledger cap ws.old) debt }
{
    let count = words::count(ws, cap);
    add_to_index(ws, cap, debt.hash, count);
    words::put(ws, cap, count, debt);
    words::set_count(ws, cap, count + 1);
}

// Makes the ledger ready for the debt of a hash that it does not have.
fn prepare_new(ws: &mut [u64], cap: usize, at: Nanos, forget: bool) -> Result<Option<usize>, NoRoom>
    requires { Intact cap ws.old }
    ensures { outcome result (ledger cap ws.new) ≡ prepared_at (ledger cap ws.old) at forget None }
{
    if words::count(ws, cap) < cap {
        return Ok(None);
    }
    make_room(ws, cap, at, forget)?;
    Ok(None)
}

// Makes the ledger ready for the debt of a hash, making room for it where the ledger is full: the debt can be written in the place of the debt of its hash, or,
// where there is none, as one more. When the debt settles need not be known yet.
pub fn prepare(
    ws: &mut [u64],
    cap: usize,
    hash: u64,
    at: Nanos,
    forget: bool,
) -> Result<Option<usize>, NoRoom>
    requires { Intact cap ws.old }
    ensures { outcome result (ledger cap ws.new) ≡ prepared (ledger cap ws.old) hash at forget }
{
    match position(ws, cap, hash) {
        Some(pos) => Ok(Some(pos)),
        None => prepare_new(ws, cap, at, forget),
    }
}

// Writes a debt that the ledger is ready for. A hash that is there keeps the later moment.
pub fn write(ws: &mut [u64], cap: usize, place: Option<usize>, debt: Debt)
    requires { Intact cap ws.old × writable (ledger cap ws.old) place }
    ensures { ledger cap ws.new ≡ written (ledger cap ws.old) place debt }
{
    match place {
        Some(pos) => keep_later(ws, cap, pos, debt.settles),
        None => append(ws, cap, debt),
    }
}

// Records a debt, making room for it where the ledger is full. A hash that is there keeps the later moment.
pub fn record(ws: &mut [u64], cap: usize, debt: Debt, at: Nanos, forget: bool) -> Result<(), NoRoom>
    requires { Intact cap ws.old }
    ensures { outcome result (ledger cap ws.new) ≡ Model.recorded (ledger cap ws.old) debt at forget }
{
    let place = prepare(ws, cap, debt.hash, at, forget)?;
    write(ws, cap, place, debt);
    Ok(())
}

// The debt at a place settles at the later of its moment and another.
fn keep_later(ws: &mut [u64], cap: usize, pos: usize, settles: Nanos)
    requires { Intact cap ws.old × (pos < cap) }
    ensures { ledger cap ws.new
        ≡ Model.with_debt (ledger cap ws.old) pos (Model.later (Model.debt_at (ledger cap ws.old) pos) settles) }
{
    let held = words::load(ws, cap, pos);
    let settles = Nanos(held.settles.0.max(settles.0));
    words::put(ws, cap, pos, Debt { settles, ..held });
}

// Pays tokens off the debt of the hash: for each token it settles sooner by the time that a token takes to come back, rounded down. Tells whether there was
// a debt.
pub fn pay_down(ws: &mut [u64], cap: usize, hash: u64, cost: u32, config: BucketConfig) -> bool
    requires { Intact cap ws.old × Accepted config }
    ensures { outcome result (ledger cap ws.new) ≡ Model.paid_down (ledger cap ws.old) hash cost config }
{
    let Some(pos) = position(ws, cap, hash) else {
        return false;
    };
    let per_token = config.period.0 / (config.amount as u64);
    let credit = arith::saturating_mul(per_token, cost);
    let held = words::load(ws, cap, pos);
    let settles = Nanos(held.settles.0.saturating_sub(credit));
    words::put(ws, cap, pos, Debt { settles, ..held });
    true
}
