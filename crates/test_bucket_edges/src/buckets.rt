// Buckets: tries, reservations, refunds, restored debts, and the largest words.
use crate::shapes;
use bucket::{BucketConfig, BucketCore, BucketDecision, Request};
use std::io;
use units::Nanos;

// Two tokens a second, up to four: a fresh bucket, and a request of it, whose answer is printed.
fn fresh_at(at: u64) -> BucketCore {
    let config = BucketConfig {
        capacity: 4,
        amount: 2,
        period: Nanos(1000000000),
        initial: 4,
    };
    BucketCore::new(config, Nanos(at))
}

fn ask(
    out: &impl Print,
    bucket: BucketCore,
    request: Request,
    cost: u32,
    at: u64,
) -> io::Result<BucketCore> {
    let config = BucketConfig {
        capacity: 4,
        amount: 2,
        period: Nanos(1000000000),
        initial: 4,
    };
    if 4 < cost {
        return Ok(bucket);
    }
    let outcome = bucket.ask_at(config, request, cost, Nanos(at));
    let decision = outcome.decision;
    told(out, decision)?;
    Ok(outcome.bucket)
}

fn told(out: &impl Print, decision: BucketDecision) -> io::Result<()> {
    match decision {
        BucketDecision::Allowed(due) => shapes::line(out, "allowed", due.wait.0),
        BucketDecision::Denied(due) => shapes::line(out, "denied", due.wait.0),
    }
}

// All four tokens are spent at 0; half a second later one is back.
pub(crate) fn tries(out: &impl Print) -> io::Result<()> {
    let spent = ask(out, fresh_at(0), Request::Acquire, 4, 0)?;
    let denied = ask(out, spent, Request::Acquire, 1, 0)?;
    let denied_again = ask(out, denied, Request::Acquire, 3, 500000000)?;
    let granted = ask(out, denied_again, Request::Acquire, 1, 500000000)?;
    let early = ask(out, granted, Request::Acquire, 1, 0)?;
    shapes::line(out, "shortfall", early.shortfall)?;
    shapes::line(out, "stamp", early.stamp.0)
}

// All four tokens are spent at 10 s, and the clock is set back to 8 s: the next takes 2 s until the stamp and half a second. A reservation for that, and
// for a nanosecond less. Then one token is spent at 10 s, and the other three can be had at 8 s.
pub(crate) fn set_back(out: &impl Print) -> io::Result<()> {
    let spent = ask(out, fresh_at(10000000000), Request::Acquire, 4, 10000000000)?;
    let denied = ask(out, spent, Request::Acquire, 1, 8000000000)?;
    let refused = ask(
        out,
        denied,
        Request::Reserve(Nanos(2499999999)),
        1,
        8000000000,
    )?;
    let reserved = ask(
        out,
        refused,
        Request::Reserve(Nanos(2500000000)),
        1,
        8000000000,
    )?;
    shapes::line(out, "shortfall", reserved.shortfall)?;
    shapes::line(out, "stamp", reserved.stamp.0)?;
    let one = ask(out, fresh_at(10000000000), Request::Acquire, 1, 10000000000)?;
    let rest = ask(out, one, Request::Acquire, 3, 8000000000)?;
    shapes::line(out, "stamp", rest.stamp.0)
}

// A reservation up to its longest wait, and a nanosecond less.
pub(crate) fn reservations(out: &impl Print) -> io::Result<()> {
    let spent = ask(out, fresh_at(0), Request::Acquire, 4, 0)?;
    let refused = ask(out, spent, Request::Reserve(Nanos(1499999999)), 3, 0)?;
    let reserved = ask(out, refused, Request::Reserve(Nanos(1500000000)), 3, 0)?;
    shapes::line(out, "shortfall", reserved.shortfall)
}

// Three tokens every 10 ns, up to four: one spent, forgotten, and back at once.
pub(crate) fn restored(out: &impl Print) -> io::Result<()> {
    let config = BucketConfig {
        capacity: 4,
        amount: 3,
        period: Nanos(10),
        initial: 4,
    };
    let at = Nanos(0);
    let spent = BucketCore::new(config, at).spent_at(config, 1, at);
    let recovers_in = spent.recovers_in(config, at);
    shapes::line(out, "settles", recovers_in.0)?;
    let back = bucket::restore_debt(BucketCore::new(config, at), config, at, recovers_in);
    shapes::line(out, "left", back.available_at(config, at))?;
    let refunded = spent.refund(config, 1);
    shapes::line(out, "refunded", refunded.shortfall)
}

// The largest words and the fastest rate.
pub(crate) fn extremes(out: &impl Print) -> io::Result<()> {
    let config = BucketConfig {
        capacity: 65535,
        amount: 65535,
        period: Nanos(0x4000_0000_0000),
        initial: 0,
    };
    let worst = BucketCore {
        shortfall: u64::MAX,
        stamp: Nanos(0),
    };
    let start = Nanos(0);
    let latest = Nanos(0x4000_0000_0000_0000);
    shapes::line(out, "most", worst.shortfall_at(config, start))?;
    shapes::line(
        out,
        "longest wait",
        worst.time_until_at(config, 65535, start).0,
    )?;
    let ahead = BucketCore {
        shortfall: u64::MAX,
        stamp: Nanos(u64::MAX),
    };
    let due = ahead.due_at(config, 65535, start);
    shapes::line(out, "held wait", due.wait.0)?;
    let late = ahead.due_at(config, 65535, latest);
    shapes::line(out, "wait", late.wait.0)?;
    shapes::line(out, "held moment", late.moment.0)?;
    shapes::line(out, "available", worst.available_at(config, latest))?;
    let debt = bucket::restore_debt(
        BucketCore::new(config, start),
        config,
        start,
        Nanos(u64::MAX),
    );
    shapes::line(out, "restored", debt.shortfall)
}
