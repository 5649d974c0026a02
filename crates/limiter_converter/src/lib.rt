// The conversions between document 01's layout and the present one, for callers in C and Rust. Both memories are lent slices of words; the source is read only.
// What each call does is the definition that its contract names; its reply is told as numbers. It is a separate crate so that it becomes a separate object, as
// `limiter_modems` is (docs/DECISIONS.md).
#![tactic(auto)]

ghost use Rattle.std.specs.Prelude.{◌≡◌};
ghost use Rattle.rows.specs.Outcome.{outcome};
ghost use Rattle.rules.specs.Replies as Replies;
ghost use Rattle.limiter.specs.Exported.{settings_of};
ghost use Rattle.converter.specs.Conversion as Conversion;

use limiter::{LimiterSettings, settings_of};
use rules::codes::Told;

// Moves the store of the source, in document 01's layout, to the target, in the present layout without classes.
pub fn limiter_convert_forth(settings: LimiterSettings, source: &[u64], target: &mut [u64]) -> Told
    ensures { outcome result target.new
        ≡ Replies.told (Conversion.forth (settings_of settings) source.now target.old) }
{
    converter::convert_forth(settings_of(settings), source, target).told()
}

// Moves the store of the source, in the present layout without classes, to the target, in document 01's layout.
pub fn limiter_convert_back(settings: LimiterSettings, source: &[u64], target: &mut [u64]) -> Told
    ensures { outcome result target.new
        ≡ Replies.told (Conversion.back (settings_of settings) source.now target.old) }
{
    converter::convert_back(settings_of(settings), source, target).told()
}

// How many words document 01's layout has for these settings, 0 where it has no store of this size: where the sizes are refused, and for more than 4,096 keys.
pub fn limiter_words_01(settings: LimiterSettings) -> u64
    ensures { result ≡ Conversion.old_words (settings_of settings) }
{
    converter::old_words(settings_of(settings)) as u64
}
