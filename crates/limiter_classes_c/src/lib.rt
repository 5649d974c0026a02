// The calls with a class table for C and Rust: the exports of `limiter_classes`, each with the clauses of the function that it calls.
#![tactic(auto)]

ghost use Rattle.std.specs.Prelude.{◌≡◌};
ghost use Rattle.rows.specs.Outcome.{outcome};
ghost use Rattle.units.specs.Units.{nanos_of};
ghost use Rattle.rules.specs.Replies as Replies;
ghost use Rattle.rules.specs.Rules as Rules;
ghost use Rattle.limiter.specs.Exported.{settings_of, identity_of};

use limiter::LimiterSettings;
use rules::codes::Told;

// Makes the words an empty store of these settings with the classes of a table. The number of classes is the table's, whatever the settings say.
#[unsafe(no_mangle)]
pub extern "C" fn limiter_table_set_up(
    settings: LimiterSettings,
    table: &[u64],
    ws: &mut [u64],
) -> Told
    ensures { outcome result ws.new
        ≡ Replies.told (Rules.class_set_up (settings_of settings) table.now ws.old) }
{
    limiter_classes::limiter_table_set_up(settings, table, ws)
}

// Forgets every key, and fills every class bucket.
#[unsafe(no_mangle)]
pub extern "C" fn limiter_table_clear(
    settings: LimiterSettings,
    table: &[u64],
    ws: &mut [u64],
) -> Told
    ensures { outcome result ws.new
        ≡ Replies.told (Rules.class_clear (settings_of settings) table.now ws.old) }
{
    limiter_classes::limiter_table_clear(settings, table, ws)
}

// Takes `cost` tokens from a key's bucket and from every bucket on the chain of `class`, if all have them at the moment `at`. Else it takes none, and tells the
// largest of their waits, or the wait for room, or that the cost is impossible.
#[unsafe(no_mangle)]
pub extern "C" fn limiter_table_try(
    settings: LimiterSettings,
    table: &[u64],
    ws: &mut [u64],
    at: u64,
    hash: u64,
    key: u64,
    class: u64,
    cost: u32,
) -> Told
    ensures { outcome result ws.new
        ≡ Replies.told (Rules.class_try (settings_of settings) table.now (nanos_of at) (identity_of hash key) class cost ws.old) }
{
    limiter_classes::limiter_table_try(settings, table, ws, at, hash, key, class, cost)
}
