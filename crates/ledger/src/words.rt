// The words of a ledger, read and stored. No other function of the crate knows where a word lies.
ghost use Rattle.std.specs.Prelude.{◌≡◌, ◌<◌, ◌^◌, length};
ghost use Rattle.ledger.specs.Model as Model;
ghost use Rattle.ledger.specs.Layout.{ledger, ledger_words, debt_index};

use crate::Debt;
use index::Index;
use units::Nanos;

// Where a ledger's words lie, counted from its first: the count, the cursor, then the debts, each of its hash and the moment at which it settles. Past the
// debts lie the words that are not the ledger's own, and past these the index of the debts.
const COUNT: usize = 0;

const CURSOR: usize = 1;

pub const DEBTS: usize = 2;

pub const DEBT_WIDTH: usize = 2;

const HASH: usize = 0;

const SETTLES: usize = 1;

// The words that each debt adds before the index: its own, and the words that are not the ledger's, which are as many as the index has.
const BEFORE_INDEX: usize = DEBT_WIDTH + index::PLACES_PER_ITEM;

// The words that each debt adds to the ledger.
pub const PLACE_WORDS: usize = BEFORE_INDEX + index::PLACES_PER_ITEM;

// Where the index of the debts lies, and the debts that it names.
pub(crate) fn index(cap: usize) -> Index
    requires { ledger_words cap < 2 ^ 64 }
    ensures { result ≡ debt_index cap }
{
    Index {
        base: DEBTS + BEFORE_INDEX * cap,
        size: index::PLACES_PER_ITEM * cap,
        first: DEBTS,
        width: DEBT_WIDTH,
        key: HASH,
    }
}

// How many debts are held.
pub(crate) fn count(ws: &[u64], cap: usize) -> usize
    requires { length ws.now ≡ ledger_words cap }
    ensures { result ≡ (ledger cap ws.now).debts.count }
{
    ws[COUNT] as usize
}

// The cursor, read as 0 where it stands at or past the count.
pub(crate) fn cursor(ws: &[u64], cap: usize) -> usize
    requires { length ws.now ≡ ledger_words cap }
    ensures { result ≡ Model.cursor_of (ledger cap ws.now) }
{
    let cursor = ws[CURSOR];
    if cursor < ws[COUNT] {
        cursor as usize
    } else {
        0
    }
}

// The moment at which the debt at a place settles.
pub(crate) fn settles_at(ws: &[u64], cap: usize, i: usize) -> Nanos
    requires { (length ws.now ≡ ledger_words cap) × (i < cap) }
    ensures { result ≡ Model.settling_at (ledger cap ws.now) i }
{
    Nanos(ws[DEBTS + DEBT_WIDTH * i + SETTLES])
}

// The debt at a place.
pub fn load(ws: &[u64], cap: usize, i: usize) -> Debt
    requires { (length ws.now ≡ ledger_words cap) × (i < cap) }
    ensures { result ≡ Model.debt_at (ledger cap ws.now) i }
{
    let first = DEBTS + DEBT_WIDTH * i;
    Debt {
        hash: ws[first],
        settles: Nanos(ws[first + SETTLES]),
    }
}

// From now on so many debts are held.
pub(crate) fn set_count(ws: &mut [u64], cap: usize, count: usize)
    requires { length ws.old ≡ ledger_words cap }
    ensures { ledger cap ws.new ≡ Model.with_count (ledger cap ws.old) count }
{
    ws[COUNT] = count as u64;
}

// The next look begins at this place.
pub(crate) fn set_cursor(ws: &mut [u64], cap: usize, cursor: usize)
    requires { length ws.old ≡ ledger_words cap }
    ensures { ledger cap ws.new ≡ Model.with_cursor (ledger cap ws.old) cursor }
{
    ws[CURSOR] = cursor as u64;
}

// A debt comes to stand at a place.
pub(crate) fn put(ws: &mut [u64], cap: usize, i: usize, debt: Debt)
    requires { (length ws.old ≡ ledger_words cap) × (i < cap) }
    ensures { ledger cap ws.new ≡ Model.with_debt (ledger cap ws.old) i debt }
{
    let first = DEBTS + DEBT_WIDTH * i;
    ws[first] = debt.hash;
    ws[first + SETTLES] = debt.settles.0;
}
