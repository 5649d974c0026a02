// The list of debts for C and Rust: the export of `limiter_debts`, with the clauses of the function that it calls.
#![tactic(auto)]

ghost use Rattle.std.specs.Prelude.{◌≡◌};
ghost use Rattle.rows.specs.Outcome.{outcome};
ghost use Rattle.units.specs.Units.{nanos_of};
ghost use Rattle.rules.specs.Debts as Debts;
ghost use Rattle.rules.specs.Replies as Replies;
ghost use Rattle.limiter.specs.Exported.{settings_of};

use ledger::Debt;
use limiter::LimiterSettings;
use rules::codes::Told;

// Writes the debts of the shard of a number that settle after the moment `at` over the first records, in the order of their places. The number told is how many
// they are.
#[unsafe(no_mangle)]
pub extern "C" fn limiter_debts(
    settings: LimiterSettings,
    ws: &[u64],
    at: u64,
    shard: u64,
    records: &mut [Debt],
) -> Told
    ensures { outcome result (Debts.lent ws.exit.now records.new)
        ≡ Replies.told (Debts.list_debts (settings_of settings) (nanos_of at) shard (Debts.lent ws.now records.old)) }
{
    limiter_debts::limiter_debts(settings, ws, at, shard, records)
}
