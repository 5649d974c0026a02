// The call that lists the debts of one shard: it fills a list of records that the caller lends. Settings, arguments, words and records are of any kind. A call
// that is refused by number writes no record, and no call writes a word of the store. What is to be written is decided first, as a plan.
#![tactic(auto)]

ghost use Rattle.std.specs.Prelude.{◌≡◌, ◌<◌, ◌≤◌, ◌∷◌, length, take};
ghost use Rattle.rows.specs.Outcome.{outcome};
ghost use Rattle.settings.specs.Refusal.{numbered, GivenUnless};
ghost use Rattle.settings.specs.Settings.{shape_of};
ghost use Rattle.store.specs.Memory.{Placed};
ghost use Rattle.rules.specs.Debts as Debts;
ghost use Rattle.debt_calls.specs.code.Listing.{ledger_in, listed_from, Readable, Fillable, call_refusal, plan_in, plan_of};

use ledger::Debt;
use rules::Reply;
use settings::refusal::Refusal;
use settings::{Settings, Shape};
use store::{Part, debts, refusals};
use units::Nanos;

// A debt that has not settled, and the place after it.
#[derive(Clone, Copy)]
pub struct Unsettled {
    pub debt: Debt,
    pub next: usize,
}

// What is to be written: so many debts of a part.
#[derive(Clone, Copy)]
pub struct Plan {
    pub part: Part,
    pub count: usize,
}

// How many debts of the part settle after the moment.
fn count_unsettled(ws: &[u64], part: Part, at: Nanos) -> usize
    requires { Readable part ws.now }
    ensures { result ≡ length (Debts.listed at (ledger_in part ws.now)) }
{
    let held = debts::len(ws, part);
    let mut count = 0;
    for i in 0..held {
        let settles = debts::load(ws, part, i).settles;
        if at.0 < settles.0 {
            count += 1;
        }
    }
    count
}

// The first debt at a place or after it that settles after the moment; there is one.
fn next_unsettled(ws: &[u64], part: Part, at: Nanos, from: usize) -> Unsettled
    requires { Readable part ws.now × (0 < length (listed_from at (ledger_in part ws.now) from)) }
    ensures { listed_from at (ledger_in part ws.now) from
        ≡ result.debt ∷ (listed_from at (ledger_in part ws.now) result.next) }
{
    let mut i = from;
    loop {
        let debt = debts::load(ws, part, i);
        i += 1;
        if at.0 < debt.settles.0 {
            return Unsettled { debt, next: i };
        }
    }
}

// Writes `n` of the debts that settle after the moment, the first ones of the ledger, over the first records. The records past them stay.
fn fill(records: &mut [Debt], ws: &[u64], part: Part, at: Nanos, n: usize)
    requires { Fillable part ws.now at n × (n ≤ length records.old) }
    ensures { records.new ≡ Debts.written (take n (Debts.listed at (ledger_in part ws.now))) records.old }
{
    let mut from = 0;
    for record in &mut records[..n] {
        let unsettled = next_unsettled(ws, part, at, from);
        *record = unsettled.debt;
        from = unsettled.next;
    }
}

// Whether a shard has the number. It is a number of 64 bits: nothing is multiplied by it before this test.
fn check_shard(shape: Shape, shard: u64) -> Result<(), Refusal>
    ensures { numbered result ≡ Debts.shard_refusal shape shard }
{
    if shard < shape.shards as u64 {
        Ok(())
    } else {
        Err(Refusal::Shard)
    }
}

// Whether the ledger has room for the debts that it counts.
fn check_debt_count(ws: &[u64], part: Part) -> Result<(), Refusal>
    requires { Placed part ws.now }
    ensures { numbered result ≡ Debts.debt_count_refusal part.cap (ledger_in part ws.now) }
{
    if part.cap < debts::len(ws, part) {
        Err(Refusal::Memory)
    } else {
        Ok(())
    }
}

// Whether as many records are lent as are to be written.
fn check_records(room: usize, needed: usize) -> Result<(), Refusal>
    ensures { numbered result ≡ Debts.records_refusal room needed }
{
    if room < needed {
        Err(Refusal::Records)
    } else {
        Ok(())
    }
}

// What is checked before the ledger is looked at: the settings, the length, the moment, then the shard's number.
fn check_call(settings: Settings, ws: &[u64], at: Nanos, shard: u64) -> Result<(), Refusal>
    ensures { numbered result ≡ call_refusal settings at shard ws.now }
{
    refusals::check_set_up(settings, settings.classes as usize, ws)?;
    refusals::check_moment(at)?;
    check_shard(settings.shape(), shard)
}

// The plan for the ledger of a part, where `room` records are lent.
fn ledger_plan(ws: &[u64], part: Part, at: Nanos, room: usize) -> Result<Plan, Refusal>
    requires { Placed part ws.now }
    ensures { GivenUnless (Debts.ledger_refusal part.cap at room (ledger_in part ws.now)) (plan_in part at ws.now) result }
{
    check_debt_count(ws, part)?;
    let count = count_unsettled(ws, part, at);
    check_records(room, count)?;
    Ok(Plan { part, count })
}

// All that the call decides, where `room` records are lent.
fn planned(
    settings: Settings,
    ws: &[u64],
    at: Nanos,
    shard: u64,
    room: usize,
) -> Result<Plan, Refusal>
    ensures { GivenUnless (Debts.debts_refusal_in (shape_of settings) settings at shard room ws.now) (plan_of settings at shard ws.now) result }
{
    check_call(settings, ws, at, shard)?;
    let part = store::part_at(settings.shape(), shard as usize);
    ledger_plan(ws, part, at, room)
}

// Writes the debts of a shard that settle after the moment over the first records, and tells how many they are.
pub fn list_debts(
    settings: Settings,
    ws: &[u64],
    at: Nanos,
    shard: u64,
    records: &mut [Debt],
) -> Reply
    ensures { outcome result (Debts.lent ws.exit.now records.new)
        ≡ Debts.list_debts settings at shard (Debts.lent ws.now records.old) }
{
    match planned(settings, ws, at, shard, records.len()) {
        Err(refusal) => refusal.into(),
        Ok(plan) => {
            fill(records, ws, plan.part, at, plan.count);
            Reply::Count(plan.count as u64)
        }
    }
}
