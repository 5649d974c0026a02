// What a call on a key is lent. The shape of its store serves the checks, and the part that is found in it serves the operation.
ghost use Rattle.std.specs.Prelude.{◌≡◌};
ghost use Rattle.settings.specs.Settings.{ShapeOfAccepted, first_refusal};
ghost use Rattle.store.specs.Lending.{number_in, LentUnless};
ghost use Rattle.store.specs.Memory.{part_in, part_of};
ghost use Rattle.store.specs.Refusals.{shape_refusal, keyed_refusal};

use crate::numbered::Numbered;
use crate::{Part, refusals, words};
use settings::{Settings, Shape};

// Finds the part of a hash's shard in memory of a shape, unless the call is refused. It is refused for the memory's length, else for a count of the shard or
// the total, else by `further`, the check of its other arguments. The settings were checked before: they gave the shape.
pub fn lend<E: Numbered>(
    shape: Shape,
    ws: &[u64],
    hash: u64,
    further: Result<(), E>,
) -> Result<Part, E>
    requires { ShapeOfAccepted shape }
    ensures { LentUnless E.number (first_refusal (shape_refusal shape hash ws.now) (number_in E.number further)) (part_in shape hash) result }
{
    refusals::check_memory(words::words_in(shape), ws)?;
    let part = crate::part_of(shape, hash);
    refusals::check_counts(
        &ws[part.start..part.end],
        part.cap,
        words::room_in(shape),
        ws[words::TOTAL_AT],
    )?;
    further?;
    Ok(part)
}

// The same from the settings, which are checked first.
pub fn lend_for<E: Numbered>(
    settings: Settings,
    ws: &[u64],
    hash: u64,
    further: Result<(), E>,
) -> Result<Part, E>
    ensures { LentUnless E.number (first_refusal (keyed_refusal settings hash ws.now) (number_in E.number further)) (part_of settings hash) result }
{
    settings.check()?;
    lend(settings.shape(), ws, hash, further)
}
