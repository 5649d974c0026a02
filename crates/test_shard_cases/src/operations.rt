// The operations on a shard, one function each. Each prints the code and the number of its answer.
ghost use Rattle.bucket.specs.Bucket.{Accepted};
ghost use Rattle.shard_map.specs.Layout.{Intact};

use crate::line::Line;
use crate::print;
use bucket::BucketConfig;
use ledger::{Debt, NoRoom};
use settings::eviction::Eviction;
use shard_map::debts;
use std::io;
use units::{Millis, Nanos};

// The numbers of the operations.
pub(crate) const CONFIG: u64 = 0;

pub(crate) const LOAD: u64 = 1;

const TAKE: u64 = 2;

const RECORD: u64 = 3;

const SWEEP: u64 = 4;

const PAY: u64 = 5;

const IDLE: u64 = 6;

const EVICT: u64 = 7;

const POSITION: u64 = 8;

const DUMP: u64 = 9;

// Runs an operation that concerns the ledger; the others are passed on.
pub(crate) fn run(
    out: &impl Print,
    ws: &mut [u64],
    cap: usize,
    config: BucketConfig,
    line: Line,
) -> io::Result<()>
    requires { Intact cap ws.old × Accepted config }
{
    if line.operation == TAKE {
        return take(out, ws, cap, line.a);
    }
    if line.operation == RECORD {
        return record(out, ws, cap, line);
    }
    if line.operation == SWEEP {
        debts::sweep(ws, cap, Nanos(line.a), Eviction::LEDGER_SCAN);
        return print::answer(out, 0, 0);
    }
    if line.operation == PAY {
        return pay(out, ws, cap, config, line);
    }
    run_on_slots(out, ws, cap, config, line)
}

// Runs an operation that concerns the slots, or a dump.
fn run_on_slots(
    out: &impl Print,
    ws: &mut [u64],
    cap: usize,
    config: BucketConfig,
    line: Line,
) -> io::Result<()>
    requires { Intact cap ws.old × Accepted config }
{
    if line.operation == IDLE {
        return idle(out, ws, cap, config, line);
    }
    if line.operation == EVICT {
        return evict_one(out, ws, cap, config, line);
    }
    if line.operation == POSITION {
        return position(out, ws, cap, line);
    }
    if line.operation == DUMP {
        return print::words(out, ws);
    }
    print::skipped(out)
}

// take HASH: code 3 where there is no debt, else the moment at which it settles.
fn take(out: &impl Print, ws: &mut [u64], cap: usize, hash: u64) -> io::Result<()>
    requires { Intact cap ws.old }
{
    match debts::take(ws, cap, hash) {
        Some(settles) => print::answer(out, 0, settles.0),
        None => print::answer(out, 3, 0),
    }
}

// record NOW HASH SETTLES FORGET: code 1 and the wait where there is no room.
fn record(out: &impl Print, ws: &mut [u64], cap: usize, line: Line) -> io::Result<()>
    requires { Intact cap ws.old }
{
    let debt = Debt {
        hash: line.b,
        settles: Nanos(line.c),
    };
    match debts::record(ws, cap, debt, Nanos(line.a), line.d != 0) {
        Ok(()) => print::answer(out, 0, 0),
        Err(NoRoom { wait }) => print::answer(out, 1, wait.0),
    }
}

// pay HASH COST: code 3 where there is no debt.
fn pay(
    out: &impl Print,
    ws: &mut [u64],
    cap: usize,
    config: BucketConfig,
    line: Line,
) -> io::Result<()>
    requires { Intact cap ws.old × Accepted config }
{
    if debts::pay_down(ws, cap, line.a, test_scan::narrow(line.b), config) {
        print::answer(out, 0, 0)
    } else {
        print::answer(out, 3, 0)
    }
}

// idle NOW LIMIT: the number is how many slots went.
fn idle(
    out: &impl Print,
    ws: &mut [u64],
    cap: usize,
    config: BucketConfig,
    line: Line,
) -> io::Result<()>
    requires { Intact cap ws.old × Accepted config }
{
    let before = ws[0];
    shard_map::sweep_idle(
        ws,
        cap,
        config,
        Nanos(line.a),
        Millis(line.b),
        Eviction::TTL_SWEEP,
    );
    print::answer(out, 0, before.saturating_sub(ws[0]))
}

// evict NOW FORGET: code 1 and the wait where no slot can go. The function asks for a slot, and for a moment of at most 2^62.
fn evict_one(
    out: &impl Print,
    ws: &mut [u64],
    cap: usize,
    config: BucketConfig,
    line: Line,
) -> io::Result<()>
    requires { Intact cap ws.old × Accepted config }
{
    if shard_map::len(ws, cap) == 0 {
        return print::skipped(out);
    }
    if 0x4000_0000_0000_0000 < line.a {
        return print::skipped(out);
    }
    match evict::evict_one(ws, cap, config, Nanos(line.a), line.b != 0) {
        Ok(()) => print::answer(out, 0, 0),
        Err(due) => print::answer(out, 1, due.wait.0),
    }
}

// position HASH KEY: code 3 where there is no such slot, else its place, counted from 1.
fn position(out: &impl Print, ws: &[u64], cap: usize, line: Line) -> io::Result<()>
    requires { Intact cap ws.now }
{
    match shard_map::position(ws, cap, line.a, line.b) {
        Some(place) => print::answer(out, 0, (place as u64).saturating_add(1)),
        None => print::answer(out, 3, 0),
    }
}
