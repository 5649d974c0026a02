// The operations, by their numbers in the traces.
use crate::line::Call;
use limiter::LimiterSettings;
use rules::codes::Told;

// No operation: the line has the store that the next calls are on.
pub(crate) const STORE: u64 = 0;

const SET_UP: u64 = 1;

const TRY: u64 = 2;

const RESERVE: u64 = 3;

const PEEK: u64 = 4;

const AVAILABLE: u64 = 5;

const REFUND: u64 = 6;

const REMOVE: u64 = 7;

const CLEAR: u64 = 8;

const TURNED_AWAY: u64 = 10;

// 9, and any other number, is a look at the length.

// Runs a call that changes words; the others are passed on.
pub(crate) fn run(operation: u64, ws: &mut [u64], s: LimiterSettings, c: Call) -> Told {
    if operation == SET_UP {
        return limiter::limiter_set_up(s, ws);
    }
    if operation == TRY {
        return limiter::limiter_try(s, ws, c.at, c.hash, c.key, c.cost);
    }
    if operation == RESERVE {
        return limiter::limiter_reserve(s, ws, c.at, c.hash, c.key, c.cost, c.max_wait);
    }
    if operation == REFUND {
        return limiter::limiter_refund(s, ws, c.hash, c.key, c.cost);
    }
    if operation == REMOVE {
        return limiter::limiter_remove(s, ws, c.hash, c.key);
    }
    if operation == CLEAR {
        return limiter::limiter_clear(s, ws);
    }
    look(operation, ws, s, c)
}

// Runs a look.
fn look(operation: u64, ws: &[u64], s: LimiterSettings, c: Call) -> Told {
    if operation == PEEK {
        return limiter::limiter_peek(s, ws, c.at, c.hash, c.key, c.cost);
    }
    if operation == AVAILABLE {
        return limiter::limiter_available(s, ws, c.at, c.hash, c.key);
    }
    if operation == TURNED_AWAY {
        return limiter::limiter_turned_away(s, ws, c.hash, c.key);
    }
    limiter::limiter_length(s, ws)
}
