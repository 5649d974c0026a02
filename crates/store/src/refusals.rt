// The checks of a call. Each has a function, and so has the whole check of the operations that name no key: set-up, clear and length. Of several checks the
// first that fails gives the refusal.
ghost use Rattle.std.specs.Prelude.{◌≡◌, ◌≤◌, length};
ghost use Rattle.settings.specs.Refusal.{numbered};
ghost use Rattle.settings.specs.Settings.{with_classes, most_counted};
ghost use Rattle.shard_map.specs.Layout.{shard, shard_words};
ghost use Rattle.store.specs.Refusals.{memory_refusal, set_up_refusal, count_refusal, moment_refusal, wait_refusal, total_refusal, len_refusal};

use crate::words;
use settings::Settings;
use settings::refusal::Refusal;
use shard_map::debts;
use units::Nanos;

// The latest moment that a call may name, in nanoseconds: 2^62.
const LATEST_MOMENT: u64 = 0x4000_0000_0000_0000;

// The longest wait that a reservation may ask for, in nanoseconds: 2^46.
const LONGEST_MAX_WAIT: u64 = 0x4000_0000_0000;

// Whether the memory has the length that is asked for.
pub(crate) fn check_memory(words: usize, ws: &[u64]) -> Result<(), Refusal>
    ensures { numbered result ≡ memory_refusal words ws.now }
{
    if ws.len() == words {
        Ok(())
    } else {
        Err(Refusal::Memory)
    }
}

// Whether there is room for the total of the slots.
fn check_total(room: usize, total: u64) -> Result<(), Refusal>
    ensures { numbered result ≡ total_refusal room total }
{
    if (room as u64) < total {
        Err(Refusal::Memory)
    } else {
        Ok(())
    }
}

// Whether both counts of a shard are within the cap, and the total is not under its slot count nor over the slots that all shards have room for. The order of
// the tests does not matter for the refusal. This one keeps the total and the room in registers, which nothing after the tests needs (docs/DECISIONS.md).
pub(crate) fn check_counts(ws: &[u64], cap: usize, room: usize, total: u64) -> Result<(), Refusal>
    requires { length ws.now ≡ shard_words cap }
    ensures { numbered result ≡ count_refusal cap room total (shard cap ws.now) }
{
    let slots = shard_map::len(ws, cap);
    if total < slots as u64 {
        return Err(Refusal::Memory);
    }
    if cap < slots {
        return Err(Refusal::Memory);
    }
    check_total(room, total)?;
    if cap < debts::len(ws, cap) {
        return Err(Refusal::Memory);
    }
    Ok(())
}

// Whether a moment is not too late.
pub fn check_moment(at: Nanos) -> Result<(), Refusal>
    ensures { numbered result ≡ moment_refusal at }
{
    if LATEST_MOMENT < at.0 {
        Err(Refusal::Moment)
    } else {
        Ok(())
    }
}

// Whether a longest wait is not too long.
pub fn check_wait(max_wait: Nanos) -> Result<(), Refusal>
    ensures { numbered result ≡ wait_refusal max_wait }
{
    if LONGEST_MAX_WAIT < max_wait.0 {
        Err(Refusal::MaxWait)
    } else {
        Ok(())
    }
}

// The check of set-up and of clear, for a number of classes: the settings, then the length.
pub fn check_set_up(settings: Settings, classes: usize, ws: &[u64]) -> Result<(), Refusal>
    requires { classes ≤ most_counted }
    ensures { numbered result ≡ set_up_refusal (with_classes classes settings) ws.now }
{
    settings.check()?;
    check_memory(words::words_in(settings.shape().with_classes(classes)), ws)
}

// The check of length: the settings, then the size by the classes of its settings, then the total.
pub fn check_len(settings: Settings, ws: &[u64]) -> Result<(), Refusal>
    ensures { numbered result ≡ len_refusal settings ws.now }
{
    check_set_up(settings, settings.classes as usize, ws)?;
    check_total(words::room_in(settings.shape()), ws[words::TOTAL_AT])
}
