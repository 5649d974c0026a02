// The ledger of a shard: the ledger's functions, lent the shard's words from the ledger's first one on. Among them is the index of the slots, which they leave
// as it is.
ghost use Rattle.std.specs.Prelude.{◌≡◌, ◌<◌, length};
ghost use Rattle.rows.specs.Outcome.{outcome};
ghost use Rattle.bucket.specs.Bucket.{Accepted};
ghost use Rattle.ledger.specs.Model as Ledger;
ghost use Rattle.ledger.specs.code.Prepared.{prepared, writable, written};
ghost use Rattle.shard_map.specs.Model as Model;
ghost use Rattle.shard_map.specs.Layout.{shard, shard_words, Intact};

use crate::words;
use bucket::BucketConfig;
use ledger::{Debt, NoRoom};
use units::Nanos;

// How many debts are held. Like `shard_map::len`, it requires the length alone.
pub fn len(ws: &[u64], cap: usize) -> usize
    requires { length ws.now ≡ shard_words cap }
    ensures { result ≡ (shard cap ws.now).ledger.debts.count }
{
    let start = words::ledger_start(cap);
    ledger::len(&ws[start..], cap)
}

// The debt at a place.
pub fn load(ws: &[u64], cap: usize, i: usize) -> Debt
    requires { (length ws.now ≡ shard_words cap) × (i < cap) }
    ensures { result ≡ Ledger.debt_at (shard cap ws.now).ledger i }
{
    let start = words::ledger_start(cap);
    ledger::words::load(&ws[start..], cap, i)
}

// When the debt of the hash settles, if there is one.
pub fn owed_by(ws: &[u64], cap: usize, hash: u64) -> Option<Nanos>
    requires { Intact cap ws.now }
    ensures { result ≡ Ledger.owed_by (shard cap ws.now).ledger hash }
{
    let start = words::ledger_start(cap);
    ledger::owed_by(&ws[start..], cap, hash)
}

// Takes out the debt of the hash, if there is one.
pub fn take(ws: &mut [u64], cap: usize, hash: u64) -> Option<Nanos>
    requires { Intact cap ws.old }
    ensures { outcome result (shard cap ws.new)
        ≡ Model.in_ledger (shard cap ws.old) (Ledger.taken (shard cap ws.old).ledger hash) }
{
    let start = words::ledger_start(cap);
    ledger::take(&mut ws[start..], cap, hash)
}

// Makes the ledger ready for the debt of a hash.
pub fn prepare(
    ws: &mut [u64],
    cap: usize,
    hash: u64,
    at: Nanos,
    forget: bool,
) -> Result<Option<usize>, NoRoom>
    requires { Intact cap ws.old }
    ensures { outcome result (shard cap ws.new)
        ≡ Model.in_ledger (shard cap ws.old) (prepared (shard cap ws.old).ledger hash at forget) }
{
    let start = words::ledger_start(cap);
    ledger::prepare(&mut ws[start..], cap, hash, at, forget)
}

// Writes a debt that the ledger is ready for.
pub fn write(ws: &mut [u64], cap: usize, place: Option<usize>, debt: Debt)
    requires { Intact cap ws.old × writable (shard cap ws.old).ledger place }
    ensures { shard cap ws.new
        ≡ Model.with_ledger (shard cap ws.old) (written (shard cap ws.old).ledger place debt) }
{
    let start = words::ledger_start(cap);
    ledger::write(&mut ws[start..], cap, place, debt);
}

// Records a debt.
pub fn record(ws: &mut [u64], cap: usize, debt: Debt, at: Nanos, forget: bool) -> Result<(), NoRoom>
    requires { Intact cap ws.old }
    ensures { outcome result (shard cap ws.new)
        ≡ Model.in_ledger (shard cap ws.old) (Ledger.recorded (shard cap ws.old).ledger debt at forget) }
{
    let start = words::ledger_start(cap);
    ledger::record(&mut ws[start..], cap, debt, at, forget)
}

// Drops settled debts among the next `budget` looks.
pub fn sweep(ws: &mut [u64], cap: usize, at: Nanos, budget: usize)
    requires { Intact cap ws.old }
    ensures { shard cap ws.new
        ≡ Model.with_ledger (shard cap ws.old) (Ledger.sweep at budget (shard cap ws.old).ledger) }
{
    let start = words::ledger_start(cap);
    ledger::sweep(&mut ws[start..], cap, at, budget);
}

// Pays tokens off the debt of the hash, if there is one.
pub fn pay_down(ws: &mut [u64], cap: usize, hash: u64, cost: u32, config: BucketConfig) -> bool
    requires { Intact cap ws.old × Accepted config }
    ensures { outcome result (shard cap ws.new)
        ≡ Model.in_ledger (shard cap ws.old) (Ledger.paid_down (shard cap ws.old).ledger hash cost config) }
{
    let start = words::ledger_start(cap);
    ledger::pay_down(&mut ws[start..], cap, hash, cost, config)
}
