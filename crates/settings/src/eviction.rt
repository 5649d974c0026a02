// How the store bounds its memory.
ghost use Rattle.std.specs.Prelude.{◌≡◌};
ghost use Rattle.settings.specs.Eviction.{ttl_sweep, ledger_scan, clock_scan};
ghost use Rattle.settings.specs.Eviction.{capacity_of, idle_of, bounded_by, with_capacity, with_idle, with_when_full, when_full_of};

use units::Nanos;

// The cap on keys where none is named. It is more than this store accepts.
pub const DEFAULT_MAX_KEYS: usize = 1048576;

// What to do when a new key that has no debt finds its shard full, and the ledger has no room for the debt of the slot that would go: turn the key away, or
// forget the debt, of those looked at, that settles soonest.
#[derive(Clone, Copy)]
pub enum WhenFull {
    RefuseNew,
    ForgetDebt,
}

impl WhenFull {
    // The rule that a number stands for.
    pub fn numbered(number: u64) -> WhenFull
        ensures { result ≡ when_full_of number }
    {
        if number == 0 {
            WhenFull::RefuseNew
        } else {
            WhenFull::ForgetDebt
        }
    }
}

// The cap on keys, the idle time after which a full bucket may be forgotten, and the rule when full.
#[derive(Clone, Copy)]
pub struct Eviction {
    pub max_keys: usize,
    pub idle_ttl: Option<Nanos>,
    pub when_full: WhenFull,
}

impl Eviction {
    // How many slots the idle sweep looks at for each new key.
    pub const TTL_SWEEP: usize = 8;

    // How many debts the ledger looks at for each new key, and again to find room for a debt.
    pub const LEDGER_SCAN: usize = 8;

    // How many slots the CLOCK hand looks at, at most, to evict one.
    pub const CLOCK_SCAN: usize = 32;

    // `TTL_SWEEP`. The store takes its looks from this function and the next two: their contracts tie each constant to its definition.
    pub fn idle_looks() -> usize
        ensures { result ≡ ttl_sweep }
    {
        Eviction::TTL_SWEEP
    }

    // `LEDGER_SCAN`.
    pub fn ledger_looks() -> usize
        ensures { result ≡ ledger_scan }
    {
        Eviction::LEDGER_SCAN
    }

    // `CLOCK_SCAN`.
    pub fn hand_looks() -> usize
        ensures { result ≡ clock_scan }
    {
        Eviction::CLOCK_SCAN
    }

    // A cap on keys, with no idle time.
    pub fn capacity(max_keys: usize) -> Eviction
        ensures { result ≡ capacity_of max_keys }
    {
        Eviction {
            max_keys,
            idle_ttl: None,
            when_full: WhenFull::RefuseNew,
        }
    }

    // An idle time, with the default cap.
    pub fn idle(ttl: Nanos) -> Eviction
        ensures { result ≡ idle_of ttl }
    {
        Eviction::new(DEFAULT_MAX_KEYS, ttl)
    }

    // A cap on keys and an idle time.
    pub fn new(max_keys: usize, ttl: Nanos) -> Eviction
        ensures { result ≡ bounded_by max_keys ttl }
    {
        Eviction {
            max_keys,
            idle_ttl: Some(ttl),
            when_full: WhenFull::RefuseNew,
        }
    }

    // The same bounds with another cap on keys.
    pub fn with_capacity(self, max_keys: usize) -> Eviction
        ensures { result ≡ with_capacity self max_keys }
    {
        let idle_ttl = self.idle_ttl;
        let when_full = self.when_full;
        Eviction {
            max_keys,
            idle_ttl,
            when_full,
        }
    }

    // The same bounds with another idle time.
    pub fn with_idle(self, ttl: Nanos) -> Eviction
        ensures { result ≡ with_idle self ttl }
    {
        let when_full = self.when_full;
        Eviction {
            max_keys: self.max_keys,
            idle_ttl: Some(ttl),
            when_full,
        }
    }

    // The same bounds with another rule when full.
    pub fn with_when_full(self, when_full: WhenFull) -> Eviction
        ensures { result ≡ with_when_full self when_full }
    {
        let idle_ttl = self.idle_ttl;
        Eviction {
            max_keys: self.max_keys,
            idle_ttl,
            when_full,
        }
    }
}
