// The debts of the shard in a part, to read only.
ghost use Rattle.std.specs.Prelude.{◌≡◌, ◌<◌};
ghost use Rattle.ledger.specs.Model as Ledger;
ghost use Rattle.store.specs.Memory.{Placed, shard_in};

use crate::Part;
use ledger::Debt;
use shard_map::debts;

// How many debts are held.
pub fn len(ws: &[u64], part: Part) -> usize
    requires { Placed part ws.now }
    ensures { result ≡ (shard_in part ws.now).ledger.debts.count }
{
    debts::len(&ws[part.start..part.end], part.cap)
}

// The debt at a place.
pub fn load(ws: &[u64], part: Part, i: usize) -> Debt
    requires { Placed part ws.now × (i < part.cap) }
    ensures { result ≡ Ledger.debt_at (shard_in part ws.now).ledger i }
{
    debts::load(&ws[part.start..part.end], part.cap, i)
}
