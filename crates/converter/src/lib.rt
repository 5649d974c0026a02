// Moves a store between document 01's layout and the present one without classes, from one lent memory to another. No operation asks anything of its settings
// and words. A refusal by number changes neither memory, and the source is read only.
#![tactic(auto)]

ghost use Rattle.std.specs.Prelude.{◌≡◌, ◌+◌, ◌*◌, ◌≤◌, ◌<◌, ◌^◌, true, false, cond, not, ◌++◌, length, take, set};
ghost use Rattle.rows.specs.Outcome.{outcome};
ghost use Rattle.settings.specs.Refusal.{number_of, numbered};
ghost use Rattle.settings.specs.Settings.{settings_refusal, first_refusal, size_refusal};
ghost use Rattle.shard_map.specs.Layout.{shard, shard_words};
ghost use Rattle.store.specs.Memory.{total_at};
ghost use Rattle.converter_shards.specs.Layout01.{shard01, shard_words01};
ghost use Rattle.converter.specs.Layouts as Layouts;
ghost use Rattle.converter.specs.Layouts.{start_of, end_of, shard_size, shard_of, shard_at};
ghost use Rattle.converter.specs.declared.Layout.TheVariants.{Old, Present};
ghost use Rattle.converter.specs.Conversion as Conversion;
ghost use Rattle.converter.specs.code.Moving as Moving;
ghost use Rattle.converter.specs.Conversion.{refused_by, any_refused_by};
ghost use Rattle.converter.specs.code.Moving.{InShards, Undamaged};

use rules::Reply;
use settings::Settings;
use settings::refusal::Refusal;

// Document 01's layout, and the present one.
#[derive(Clone, Copy)]
pub enum Layout {
    Old,
    Present,
}

// The most keys that a store of document 01's layout can have.
const MOST_KEYS: usize = 4096;

// The layout that a store is moved to.
fn other(layout: Layout) -> Layout
    ensures { result ≡ Layouts.other layout }
{
    match layout {
        Layout::Old => Layout::Present,
        Layout::Present => Layout::Old,
    }
}

// The words before the first shard.
fn first_word(layout: Layout) -> usize
    ensures { result ≡ Layouts.first_word layout }
{
    match layout {
        Layout::Old => 0,
        Layout::Present => store::words::SHARDS_AT,
    }
}

// The words of a shard.
fn shard_size(layout: Layout, cap: usize) -> usize
    requires { shard_size layout cap < 2 ^ 64 }
    ensures { result ≡ shard_size layout cap }
{
    match layout {
        Layout::Old => converter_shards::words::shard_words_01(cap),
        Layout::Present => shard_map::words::shard_words(cap),
    }
}

// The word at which a shard begins, by its number.
fn start_of(layout: Layout, cap: usize, i: usize) -> usize
    requires { end_of layout cap i < 2 ^ 64 }
    ensures { result ≡ start_of layout cap i }
{
    first_word(layout) + i * shard_size(layout, cap)
}

// Is a shard of the present layout damaged: is a count over the cap, or an index not exact?
fn damaged_now(ws: &[u64], cap: usize) -> bool
    requires { (length ws.now ≡ shard_words cap) × (0 < cap) }
    ensures { result ≡ Layouts.damaged Present cap (shard cap ws.now) }
{
    converter_shards::count_over_now(ws, cap) || !converter_shards::indexes_exact(ws, cap)
}

// Is a shard of document 01's layout refused as `refusal`: as Memory, as Twins or, for any other, as UsedPast?
fn refused_old(ws: &[u64], cap: usize, refusal: Refusal) -> bool
    requires { (length ws.now ≡ shard_words01 cap) × ((number_of refusal ≡ 5 → ⊥) → refused_by Old 5 cap (shard01 cap ws.now) ≡ false) }
    ensures { result ≡ refused_by Old (number_of refusal) cap (shard01 cap ws.now) }
{
    match refusal {
        Refusal::Memory => converter_shards::count_over(ws, cap),
        Refusal::Twins => converter_shards::twins(ws, cap),
        _ => converter_shards::used_past(ws, cap),
    }
}

// The same of a shard of the present layout.
fn refused_now(ws: &[u64], cap: usize, refusal: Refusal) -> bool
    requires { (length ws.now ≡ shard_words cap) × (0 < cap) × ((number_of refusal ≡ 5 → ⊥) → refused_by Present 5 cap (shard cap ws.now) ≡ false) }
    ensures { result ≡ refused_by Present (number_of refusal) cap (shard cap ws.now) }
{
    match refusal {
        Refusal::Memory => damaged_now(ws, cap),
        Refusal::Twins => converter_shards::twins_by_lookup(ws, cap),
        _ => converter_shards::used_past_now(ws, cap),
    }
}

// Is a shard of either layout refused as `refusal`?
fn shard_refused(ws: &[u64], layout: Layout, cap: usize, refusal: Refusal) -> bool
    requires { (length ws.now ≡ shard_size layout cap) × (0 < cap)
        × ((number_of refusal ≡ 5 → ⊥) → refused_by layout 5 cap (shard_of layout cap ws.now) ≡ false) }
    ensures { result ≡ refused_by layout (number_of refusal) cap (shard_of layout cap ws.now) }
{
    match layout {
        Layout::Old => refused_old(ws, cap, refusal),
        Layout::Present => refused_now(ws, cap, refusal),
    }
}

// Is the shard of number i refused as `refusal`?
fn numbered_refused(ws: &[u64], layout: Layout, cap: usize, i: usize, refusal: Refusal) -> bool
    requires { (end_of layout cap i ≤ length ws.now) × (0 < cap)
        × ((number_of refusal ≡ 5 → ⊥) → refused_by layout 5 cap (shard_at layout cap i ws.now) ≡ false) }
    ensures { result ≡ refused_by layout (number_of refusal) cap (shard_at layout cap i ws.now) }
{
    let start = start_of(layout, cap, i);
    let end = start + shard_size(layout, cap);
    shard_refused(&ws[start..end], layout, cap, refusal)
}

// Is any shard refused as `refusal`?
fn any_refused(ws: &[u64], layout: Layout, shards: usize, cap: usize, refusal: Refusal) -> bool
    requires { InShards layout shards cap ws.now × ((number_of refusal ≡ 5 → ⊥) → any_refused_by layout 5 shards cap ws.now ≡ false) }
    ensures { result ≡ any_refused_by layout (number_of refusal) shards cap ws.now }
{
    for i in 0..shards {
        if numbered_refused(ws, layout, cap, i, refusal) {
            return true;
        }
    }
    false
}

// How many slots a shard has.
fn slot_count(ws: &[u64], layout: Layout, cap: usize) -> usize
    requires { length ws.now ≡ shard_size layout cap }
    ensures { result ≡ (shard_of layout cap ws.now).slots.count }
{
    match layout {
        Layout::Old => converter_shards::words::slot_count(ws, cap),
        Layout::Present => shard_map::len(ws, cap),
    }
}

// How many slots the shard of a number has.
fn slots_numbered(ws: &[u64], layout: Layout, cap: usize, i: usize) -> usize
    requires { end_of layout cap i ≤ length ws.now }
    ensures { result ≡ (shard_at layout cap i ws.now).slots.count }
{
    let start = start_of(layout, cap, i);
    let end = start + shard_size(layout, cap);
    slot_count(&ws[start..end], layout, cap)
}

// How many slots all shards have.
fn all_slots(ws: &[u64], layout: Layout, shards: usize, cap: usize) -> usize
    requires { Undamaged layout shards cap ws.now }
    ensures { result ≡ Layouts.slots_of layout shards cap ws.now }
{
    let mut slots = 0;
    for i in 0..shards {
        slots += slots_numbered(ws, layout, cap, i);
    }
    slots
}

// Is the total not that of all slots? Document 01's layout has no total.
fn total_wrong(ws: &[u64], layout: Layout, shards: usize, cap: usize) -> bool
    requires { Undamaged layout shards cap ws.now }
    ensures { result ≡ Layouts.total_wrong layout shards cap ws.now }
{
    match layout {
        Layout::Old => false,
        Layout::Present => store::len(ws) != all_slots(ws, Layout::Present, shards, cap) as u64,
    }
}

// What is wrong with the words of the source.
fn check_source(ws: &[u64], layout: Layout, shards: usize, cap: usize) -> Result<(), Refusal>
    requires { InShards layout shards cap ws.now }
    ensures { numbered result ≡ Conversion.source_refusal layout shards cap ws.now }
{
    if any_refused(ws, layout, shards, cap, Refusal::Memory) {
        return Err(Refusal::Memory);
    }
    if total_wrong(ws, layout, shards, cap) {
        return Err(Refusal::Memory);
    }
    if any_refused(ws, layout, shards, cap, Refusal::Twins) {
        return Err(Refusal::Twins);
    }
    if any_refused(ws, layout, shards, cap, Refusal::UsedPast) {
        return Err(Refusal::UsedPast);
    }
    Ok(())
}

// What is wrong with the settings: what every call checks, and then whether there are too many keys.
fn check_settings(settings: Settings) -> Result<(), Refusal>
    ensures { numbered result ≡ first_refusal (settings_refusal settings) (Conversion.keys_refusal settings) }
{
    settings.check()?;
    if MOST_KEYS < settings.eviction.max_keys {
        return Err(Refusal::Sizes);
    }
    Ok(())
}

// How many words to lend for document 01's layout, 0 where it has no store of this size.
pub fn old_words(settings: Settings) -> usize
    ensures { result ≡ Conversion.old_words settings }
{
    if settings.check_sizes().is_err() {
        return 0;
    }
    if MOST_KEYS < settings.eviction.max_keys {
        return 0;
    }
    words_for(Layout::Old, settings)
}

// The words of a store of these settings in a layout.
fn words_for(layout: Layout, settings: Settings) -> usize
    requires { size_refusal settings ≡ 0 }
    ensures { result ≡ Conversion.words_for layout settings }
{
    let shape = settings.shape();
    start_of(layout, shape.cap, shape.shards)
}

// What is wrong with a conversion. Of the target only the length is looked at.
fn check(settings: Settings, from: Layout, source: &[u64], target: &[u64]) -> Result<(), Refusal>
    ensures { numbered result ≡ Conversion.refusal_of from settings source.now target.now }
{
    check_settings(settings)?;
    if source.len() != words_for(from, settings) {
        return Err(Refusal::Memory);
    }
    if target.len() != words_for(other(from), settings) {
        return Err(Refusal::Memory);
    }
    let shape = settings.shape();
    check_source(source, from, shape.shards, shape.cap)
}

// The words of a shard in the other layout.
fn move_shard(source: &[u64], target: &mut [u64], from: Layout, cap: usize)
    requires { (length source.now ≡ shard_size from cap) × (length target.old ≡ shard_size (Layouts.other from) cap) × (0 < cap)
        × (Layouts.damaged from cap (shard_of from cap source.now) ≡ false) }
    ensures { target.new ≡ Layouts.moved from cap (shard_of from cap source.now) }
{
    match from {
        Layout::Old => {
            converter_shards::forth(source, target, cap);
        }
        Layout::Present => {
            converter_shards::back(source, target, cap);
        }
    }
}

// The shard of a number: its part of the target becomes its words in the other layout.
fn move_numbered(source: &[u64], target: &mut [u64], from: Layout, cap: usize, i: usize)
    requires { (end_of from cap i ≤ length source.now) × (end_of (Layouts.other from) cap i ≤ length target.old) × (0 < cap)
        × (Layouts.damaged from cap (shard_at from cap i source.now) ≡ false) }
    ensures { target.new ≡ Moving.with_moved from cap i source.now target.old }
{
    let to = other(from);
    let start = start_of(from, cap, i);
    let end = start + shard_size(from, cap);
    let onto = start_of(to, cap, i);
    let onto_end = onto + shard_size(to, cap);
    move_shard(&source[start..end], &mut target[onto..onto_end], from, cap);
}

// All shards, behind the words that come before the first.
fn move_all(source: &[u64], target: &mut [u64], from: Layout, shards: usize, cap: usize)
    requires { Undamaged from shards cap source.now × InShards (Layouts.other from) shards cap target.old }
    ensures { target.new
        ≡ take (Layouts.first_word (Layouts.other from)) target.old ++ Conversion.moved_up_to from shards cap source.now }
{
    for i in 0..shards {
        move_numbered(source, target, from, cap, i);
    }
}

// Going forth the total is stored. Document 01's layout has none.
fn store_total(source: &[u64], target: &mut [u64], from: Layout, shards: usize, cap: usize)
    requires { Undamaged from shards cap source.now × InShards (Layouts.other from) shards cap target.old }
    ensures { target.new ≡ Moving.with_total from (Layouts.slots_of from shards cap source.now) target.old }
{
    match from {
        Layout::Old => {
            let slots = all_slots(source, Layout::Old, shards, cap);
            target[store::words::TOTAL_AT] = slots as u64;
        }
        Layout::Present => {}
    }
}

// A conversion from a layout to the other one.
fn convert(settings: Settings, from: Layout, source: &[u64], target: &mut [u64]) -> Reply
    ensures { outcome result target.new ≡ Conversion.converted from settings source.now target.old }
{
    if let Err(refusal) = check(settings, from, source, target) {
        return refusal.into();
    }
    let shape = settings.shape();
    store_total(source, target, from, shape.shards, shape.cap);
    move_all(source, target, from, shape.shards, shape.cap);
    Reply::Done
}

// From document 01's layout to the present one. The target's words may be of any kind before.
pub fn convert_forth(settings: Settings, source: &[u64], target: &mut [u64]) -> Reply
    ensures { outcome result target.new ≡ Conversion.forth settings source.now target.old }
{
    convert(settings, Layout::Old, source, target)
}

// From the present layout to document 01's.
pub fn convert_back(settings: Settings, source: &[u64], target: &mut [u64]) -> Reply
    ensures { outcome result target.new ≡ Conversion.back settings source.now target.old }
{
    convert(settings, Layout::Present, source, target)
}
