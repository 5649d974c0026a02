// The conversions for C and Rust: the exports of `limiter_converter`, each with the clauses of the function that it calls.
#![tactic(auto)]

ghost use Rattle.std.specs.Prelude.{◌≡◌};
ghost use Rattle.rows.specs.Outcome.{outcome};
ghost use Rattle.rules.specs.Replies as Replies;
ghost use Rattle.limiter.specs.Exported.{settings_of};
ghost use Rattle.converter.specs.Conversion as Conversion;

use limiter::LimiterSettings;
use rules::codes::Told;

// Moves the store of the source, in document 01's layout, to the target, in the present layout without classes.
#[unsafe(no_mangle)]
pub extern "C" fn limiter_convert_forth(
    settings: LimiterSettings,
    source: &[u64],
    target: &mut [u64],
) -> Told
    ensures { outcome result target.new
        ≡ Replies.told (Conversion.forth (settings_of settings) source.now target.old) }
{
    limiter_converter::limiter_convert_forth(settings, source, target)
}

// Moves the store of the source, in the present layout without classes, to the target, in document 01's layout.
#[unsafe(no_mangle)]
pub extern "C" fn limiter_convert_back(
    settings: LimiterSettings,
    source: &[u64],
    target: &mut [u64],
) -> Told
    ensures { outcome result target.new
        ≡ Replies.told (Conversion.back (settings_of settings) source.now target.old) }
{
    limiter_converter::limiter_convert_back(settings, source, target)
}

// How many words document 01's layout has for these settings, 0 where it has no store of this size: where the sizes are refused, and for more than 4,096 keys.
#[unsafe(no_mangle)]
pub extern "C" fn limiter_words_01(settings: LimiterSettings) -> u64
    ensures { result ≡ Conversion.old_words (settings_of settings) }
{
    limiter_converter::limiter_words_01(settings)
}
