// The lines of the traces. A number that a line lacks at its end is 0.
ghost use Rattle.std.specs.Prelude.{◌≤◌, length};

use limiter::LimiterSettings;

// A store: how many words each call is lent, and its settings.
#[derive(Clone, Copy)]
pub struct Store {
    pub size: usize,
    pub settings: LimiterSettings,
}

// The arguments of a call.
#[derive(Clone, Copy)]
pub struct Call {
    pub at: u64,
    pub hash: u64,
    pub key: u64,
    pub cost: u32,
    pub max_wait: u64,
}

// The rate's numbers of some settings, and where the reading stands after them.
#[derive(Clone, Copy)]
pub struct RateRead {
    pub closed: u32,
    pub amount: u32,
    pub period: u64,
    pub has_burst: u32,
    pub burst: u32,
    pub has_initial: u32,
    pub initial: u32,
    pub next: usize,
}

// The first line feed from here on, or the end of the text.
pub(crate) fn end(text: &[u8], from: usize) -> usize
    requires { from ≤ length text.now }
    ensures { (from ≤ result) × (result ≤ length text.now) }
{
    scan::find(text, from, text.len(), b'\n')
}

// The next five numbers.
pub(crate) fn read_call(line: &[u8], from: usize) -> Call {
    let at = test_scan::read_number(line, from);
    let hash = test_scan::read_number(line, at.at);
    let key = test_scan::read_number(line, hash.at);
    let cost = test_scan::read_number(line, key.at);
    let max_wait = test_scan::read_number(line, cost.at);
    Call {
        at: at.value,
        hash: hash.value,
        key: key.value,
        cost: test_scan::narrow(cost.value),
        max_wait: max_wait.value,
    }
}

// The next thirteen numbers.
pub(crate) fn read_store(line: &[u8], from: usize) -> Store {
    let size = test_scan::read_number(line, from);
    let rate = read_rate(line, size.at);
    let max_keys = test_scan::read_number(line, rate.next);
    let shards = test_scan::read_number(line, max_keys.at);
    let has_idle = test_scan::read_number(line, shards.at);
    let idle = test_scan::read_number(line, has_idle.at);
    let forget_debt = test_scan::read_number(line, idle.at);
    Store {
        size: size.value as usize,
        settings: LimiterSettings {
            period: rate.period,
            max_keys: max_keys.value,
            shards: shards.value,
            idle: idle.value,
            closed: rate.closed,
            amount: rate.amount,
            has_burst: rate.has_burst,
            burst: rate.burst,
            has_initial: rate.has_initial,
            initial: rate.initial,
            has_idle: test_scan::narrow(has_idle.value),
            forget_debt: test_scan::narrow(forget_debt.value),
            classes: 0,
        },
    }
}

// The next seven numbers.
fn read_rate(line: &[u8], from: usize) -> RateRead {
    let closed = test_scan::read_number(line, from);
    let amount = test_scan::read_number(line, closed.at);
    let period = test_scan::read_number(line, amount.at);
    let has_burst = test_scan::read_number(line, period.at);
    let burst = test_scan::read_number(line, has_burst.at);
    let has_initial = test_scan::read_number(line, burst.at);
    let initial = test_scan::read_number(line, has_initial.at);
    RateRead {
        closed: test_scan::narrow(closed.value),
        amount: test_scan::narrow(amount.value),
        period: period.value,
        has_burst: test_scan::narrow(has_burst.value),
        burst: test_scan::narrow(burst.value),
        has_initial: test_scan::narrow(has_initial.value),
        initial: test_scan::narrow(initial.value),
        next: initial.at,
    }
}
