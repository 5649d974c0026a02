// The rate of a limiter, and the bucket configuration that it comes to.
ghost use Rattle.std.specs.Prelude.{◌≡◌};
ghost use Rattle.bucket.specs.Bucket.{Accepted};
ghost use Rattle.settings.specs.Rate.{given, burst_of, initial_of, config_of, rate_refusal, unless_within, time_to_full};
ghost use Rattle.settings.specs.Refusal.{number_of, numbered};

use crate::refusal::Refusal;
use bucket::BucketConfig;
use units::Nanos;

// The largest amount and burst, and the longest period in nanoseconds.
const MOST_TOKENS: u64 = 65535;

const LONGEST_PERIOD: u64 = 0x4000_0000_0000;

// `amount` tokens come back every `period`. `burst` is the most that gather; unset, it is the amount. A fresh bucket holds `initial`; unset, the burst.
#[derive(Clone, Copy)]
pub struct Rate {
    pub amount: u32,
    pub period: Nanos,
    pub burst: Option<u32>,
    pub initial: Option<u32>,
}

impl Rate {
    // The burst that is in force.
    pub fn capacity(self) -> u32
        ensures { result ≡ burst_of self }
    {
        self.burst.unwrap_or(self.amount)
    }

    // The tokens of a fresh bucket: as set, cut to the burst.
    pub fn initial_tokens(self) -> u32
        ensures { result ≡ initial_of self }
    {
        let capacity = self.capacity();
        let tokens = self.initial.unwrap_or(capacity);
        if tokens <= capacity { tokens } else { capacity }
    }

    // The configuration of every key's bucket.
    pub fn config(self) -> BucketConfig
        ensures { result ≡ config_of self }
    {
        BucketConfig {
            capacity: self.capacity(),
            amount: self.amount,
            period: self.period,
            initial: self.initial_tokens(),
        }
    }

    // What is wrong with the rate: first its amount, then its period, then its burst.
    pub fn check(self) -> Result<(), Refusal>
        ensures { numbered result ≡ rate_refusal self }
    {
        check_range(self.amount as u64, MOST_TOKENS, Refusal::Amount)?;
        check_range(self.period.0, LONGEST_PERIOD, Refusal::Period)?;
        check_range(self.capacity() as u64, MOST_TOKENS, Refusal::Burst)
    }
}

// Whether a value lies from 1 to the most; else the refusal.
fn check_range(value: u64, most: u64, refusal: Refusal) -> Result<(), Refusal>
    ensures { numbered result ≡ unless_within value most (number_of refusal) 0 }
{
    if value < 1 {
        return Err(refusal);
    }
    if most < value {
        return Err(refusal);
    }
    Ok(())
}

// How long an empty bucket takes to be full.
pub fn time_to_full(config: BucketConfig) -> Nanos
    requires { Accepted config }
    ensures { result.0 ≡ time_to_full config }
{
    config.recovery_of(config.full_parts())
}
