// The run of a village that comes up: every row is a line's try, made at its moment and made again at the moment that a denial tells, until it ends.
#![tactic(auto)]

ghost use Rattle.std.specs.Prelude.{◌≡◌, ◌++◌, ◌∷◌, [], ◌+◌, ◌*◌, ◌<◌, ◌≤◌, length, drop};
ghost use Rattle.outage_rows.specs.Model as Model;
ghost use Rattle.outage_rows.specs.Layout.{row_width, rows_in, state_in, state_of};
ghost use Rattle.outage_rows.specs.Model.{Below};

use desk_lines::Request;
use rules::codes::Told;
use settings::Settings;
use units::Nanos;

pub mod print;
mod words;

// A row: the moment of its next try, or of its last once it has ended, the key, the cost, the tries made, the desk's code, and whether it is live. It is live
// unless the last word is 0. A cost of more than 32 bits is read as the largest that 32 bits hold.
#[derive(Clone, Copy)]
pub struct Row {
    pub at: Nanos,
    pub key: u64,
    pub cost: u64,
    pub tries: u64,
    pub code: u64,
    pub live: u64,
}

// The words of a row.
pub const ROW_WIDTH: usize = 6;

// A line is tried at most this many times.
pub const MOST_TRIES: u64 = 1000;

// The largest cost of a try.
const LARGEST_COST: u64 = 4294967295;

// Runs the rows to their end, on any words: until no row is live.
pub fn run(settings: Settings, rs: &mut [u64], ws: &mut [u64])
    ensures { state_of rs.new ws.new ≡ Model.outage settings (state_of rs.old ws.old) }
{
    let n = words::count(rs);
    run_rows(settings, rs, n, ws);
}

// Keeps a row behind the first n rows. The words past it stay.
pub fn keep(rs: &mut [u64], n: usize, row: Row)
    requires { row_width * (n + 1) ≤ length rs.old }
    ensures { (rows_in (n + 1) rs.new ≡ rows_in n rs.old ++ (row ∷ []))
        × (drop (row_width * (n + 1)) rs.new ≡ drop (row_width * (n + 1)) rs.old) }
{
    words::put(rs, n + 1, n, row);
}

// Runs the first n rows.
fn run_rows(settings: Settings, rs: &mut [u64], n: usize, ws: &mut [u64])
    requires { row_width * n ≤ length rs.old }
    ensures { state_in n rs.new ws.new ≡ Model.outage settings (state_in n rs.old ws.old) }
{
    while let Some(p) = next(rs, n) {
        try_at(settings, rs, n, p, ws);
    }
}

// Tries the row at a place.
fn try_at(settings: Settings, rs: &mut [u64], n: usize, p: usize, ws: &mut [u64])
    requires { (row_width * n ≤ length rs.old) × (p < n) }
    ensures { state_in n rs.new ws.new ≡ Model.tried_at settings (state_in n rs.old ws.old) p }
{
    let row = words::load(rs, n, p);
    let told = desk_answers::tried(settings, request(row), ws);
    words::put(rs, n, p, after_try(row, told));
}

// The try of a row.
fn request(row: Row) -> Request
    ensures { result ≡ Model.request_of row }
{
    Request {
        at: row.at,
        key: row.key,
        cost: cost_of(row.cost),
    }
}

// A cost as it is read from its word.
fn cost_of(word: u64) -> u32
    ensures { result ≡ Model.cost_of word }
{
    if word <= LARGEST_COST {
        word as u32
    } else {
        LARGEST_COST as u32
    }
}

// What becomes of a row by what its try is told: it waits for the told moment, or it ends.
fn after_try(row: Row, told: Told) -> Row
    ensures { result ≡ Model.after_try row told }
{
    let tries = one_more(row.tries);
    if again(tries, told) {
        return Row {
            at: Nanos(told.moment),
            tries,
            code: told.code,
            live: 1,
            ..row
        };
    }
    Row {
        tries,
        code: told.code,
        live: 0,
        ..row
    }
}

// Whether a row that has made so many tries is tried again, by what the last one was told.
fn again(tries: u64, told: Told) -> bool
    ensures { result ≡ Model.again tries told }
{
    if told.code != 1 {
        return false;
    }
    tries < MOST_TRIES
}

// The tries made, with one more, up to the most.
fn one_more(tries: u64) -> u64
    ensures { result ≡ Model.one_more tries }
{
    if tries < MOST_TRIES {
        tries + 1
    } else {
        MOST_TRIES
    }
}

// The place of the row that is tried next: the live row of the least moment, the lowest of equals.
fn next(rs: &[u64], n: usize) -> Option<usize>
    requires { row_width * n ≤ length rs.now }
    ensures { result ≡ Model.next (rows_in n rs.now) }
{
    let mut best = None;
    for i in 0..n {
        best = sooner(rs, n, best, i);
    }
    best
}

// The earliest live row so far, once the row at place i is looked at too.
fn sooner(rs: &[u64], n: usize, best: Option<usize>, i: usize) -> Option<usize>
    requires { (row_width * n ≤ length rs.now) × (i < n) × Below n best }
    ensures { result ≡ Model.sooner (rows_in n rs.now) best i }
{
    let row = words::load(rs, n, i);
    if row.live == 0 {
        return best;
    }
    match best {
        None => Some(i),
        Some(b) => {
            let first = words::load(rs, n, b);
            if row.at.0 < first.at.0 {
                Some(i)
            } else {
                Some(b)
            }
        }
    }
}
