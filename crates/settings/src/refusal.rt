// Why a call is refused.
ghost use Rattle.std.specs.Prelude.{◌≡◌};
ghost use Rattle.settings.specs.Refusal.{number_of};

use std::num::NonZeroU32;

// The first thing that is wrong with a call.
#[derive(Clone, Copy, PartialEq, Eq)]
pub enum Refusal {
    // The amount is not 1 to 65,535; of the settings, or of a class.
    Amount,
    // The period is not 1 to 2^46 ns; of the settings, or of a class.
    Period,
    // The burst is not 1 to 65,535; of the settings, or of a class.
    Burst,
    // More keys or shards than there may be.
    Sizes,
    // Another number of words than the settings ask for, or words that cannot be: a count over what a shard holds, or a total that does not fit the slots. Of a
    // conversion also an index that is not exact.
    Memory,
    // The moment is after 2^62 ns.
    Moment,
    // The longest wait is over 2^46 ns.
    MaxWait,
    // The address is not six bytes.
    AddressLength,
    // The address is that of a group, and not of a modem.
    GroupAddress,
    // The buffer is shorter than the desk line.
    Buffer,
    // More than 64 classes, or a class or parent that is not in the table.
    Class,
    // A chain of parents does not end within 8 classes, the first included.
    Chain,
    // The store has no shard of this number.
    Shard,
    // Fewer records are lent than there are debts to write.
    Records,
    // Of a conversion: the source has two slots of one hash and key, or two debts of one hash, in one shard.
    Twins,
    // Of a conversion: among the slots or the debts of the source a word past a count is not 0.
    UsedPast,
}

impl From<Refusal> for u32 {
    ghost from_gives = { λ refusal number. number ≡ number_of refusal };

    // The number that C, Rust and the desk are told.
    fn from(refusal: Refusal) -> u32 {
        match refusal {
            Refusal::Amount => 1,
            Refusal::Period => 2,
            Refusal::Burst => 3,
            Refusal::Sizes => 4,
            Refusal::Memory => 5,
            Refusal::Moment => 6,
            Refusal::MaxWait => 7,
            Refusal::AddressLength => 11,
            Refusal::GroupAddress => 12,
            Refusal::Buffer => 13,
            Refusal::Class => 14,
            Refusal::Chain => 15,
            Refusal::Shard => 16,
            Refusal::Records => 17,
            Refusal::Twins => 18,
            Refusal::UsedPast => 19,
        }
    }
}

impl From<Refusal> for NonZeroU32 {
    ghost use Rattle.std.specs.Prelude.{◌≡◌};
    ghost use Rattle.std.specs.Int.NonZero.{non_zero_u32_get};
    ghost use Rattle.settings.specs.Refusal.{number_of};

    ghost from_gives = { λ refusal told. non_zero_u32_get told ≡ number_of refusal };

    // The same number, which is not 0.
    fn from(refusal: Refusal) -> NonZeroU32 {
        match NonZeroU32::new(refusal.into()) {
            Some(told) => told,
            None => unreachable!(),
        }
    }
}
