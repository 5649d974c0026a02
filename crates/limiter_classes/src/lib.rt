// The calls with a class table, for callers in C and Rust: the table is a lent slice of words, six a class, in C a pointer and a number of words. What each
// call does is the rule that its contract names; its reply is told as numbers. It is a separate crate so that it becomes a separate object, as
// `limiter_modems` is (docs/DECISIONS.md).
#![tactic(auto)]

ghost use Rattle.std.specs.Prelude.{◌≡◌};
ghost use Rattle.rows.specs.Outcome.{outcome};
ghost use Rattle.units.specs.Units.{nanos_of};
ghost use Rattle.rules.specs.Replies as Replies;
ghost use Rattle.rules.specs.Rules as Rules;
ghost use Rattle.limiter.specs.Exported.{settings_of, identity_of};

use limiter::{LimiterSettings, settings_of};
use rules::codes::Told;
use shard::Identity;
use units::Nanos;

// Makes the words an empty store of these settings with the classes of a table. The number of classes is the table's, whatever the settings say.
pub fn limiter_table_set_up(settings: LimiterSettings, table: &[u64], ws: &mut [u64]) -> Told
    ensures { outcome result ws.new
        ≡ Replies.told (Rules.class_set_up (settings_of settings) table.now ws.old) }
{
    class_calls::class_set_up(settings_of(settings), table, ws).told()
}

// Forgets every key, and fills every class bucket.
pub fn limiter_table_clear(settings: LimiterSettings, table: &[u64], ws: &mut [u64]) -> Told
    ensures { outcome result ws.new
        ≡ Replies.told (Rules.class_clear (settings_of settings) table.now ws.old) }
{
    class_calls::class_clear(settings_of(settings), table, ws).told()
}

// Takes `cost` tokens from a key's bucket and from every bucket on the chain of `class`, if all have them at the moment `at`. Else it takes none, and tells the
// largest of their waits, or the wait for room, or that the cost is impossible.
pub fn limiter_table_try(
    settings: LimiterSettings,
    table: &[u64],
    ws: &mut [u64],
    at: u64,
    hash: u64,
    key: u64,
    class: u64,
    cost: u32,
) -> Told
    ensures { outcome result ws.new
        ≡ Replies.told (Rules.class_try (settings_of settings) table.now (nanos_of at) (identity_of hash key) class cost ws.old) }
{
    class_calls::class_try(
        settings_of(settings),
        table,
        ws,
        Nanos(at),
        Identity { hash, key },
        class as usize,
        cost,
    )
    .told()
}
