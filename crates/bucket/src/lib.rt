// The token bucket, by value: its shortfall in parts, and the moment at which that was the shortfall. Every function is exact for any stored words.
#![tactic(auto)]

ghost use Rattle.std.specs.Prelude.{◌≡◌, ◌≤◌, max};
ghost use Rattle.arith.specs.Arith.{saturated};
ghost use Rattle.bucket.specs.Bucket.{Accepted, full_parts, most_shortfall, read_shortfall, shortfall_at, available_at, full_at, fresh, grown, wait_at};
ghost use Rattle.bucket.specs.Bucket.{due_after, due_at, recovery_of, recovery_at, spent, longest_wait, wait_to, is_try, does_turn_away, asked, refunded};
ghost use Rattle.bucket.specs.Debt.{missing_tokens, charged, taken_out, restored};

use units::Nanos;

// The rate of a bucket: `amount` tokens come back every `period`, up to `capacity`; a fresh bucket holds `initial`.
#[derive(Clone, Copy)]
pub struct BucketConfig {
    pub capacity: u32,
    pub amount: u32,
    pub period: Nanos,
    pub initial: u32,
}

// A bucket: how many parts it lacked to be full at the moment of the stamp. A token is `period` parts.
#[derive(Clone, Copy)]
pub struct BucketCore {
    pub shortfall: u64,
    pub stamp: Nanos,
}

// What is asked of a bucket: tokens now; tokens after a wait of at most so long; or tokens now of this bucket and of others, whose largest wait is given.
#[derive(Clone, Copy)]
pub enum Request {
    Acquire,
    Reserve(Nanos),
    Through(Nanos),
}

// When tokens or room are due: after the wait, at the moment. Both are held to 64 bits. Where a call comes before a bucket's stamp, as after a clock was set
// back, a wait above 0 includes the time until the stamp.
#[derive(Clone, Copy)]
pub struct Due {
    pub wait: Nanos,
    pub moment: Nanos,
}

// What a bucket answers: the tokens are charged and usable when they are due, or nothing is charged and a try of the cost is granted then, if nothing happens
// meanwhile.
#[derive(Clone, Copy)]
pub enum BucketDecision {
    Allowed(Due),
    Denied(Due),
}

// An answer, the bucket after it, and whether the answer turned a try away: the bucket made it wait.
#[derive(Clone, Copy)]
pub struct BucketOutcome {
    pub decision: BucketDecision,
    pub bucket: BucketCore,
    pub turns_away: bool,
}

impl Due {
    // Due so long after a moment.
    pub fn after(at: Nanos, wait: Nanos) -> Due
        ensures { result ≡ due_after at wait }
    {
        Due {
            wait,
            moment: Nanos(at.0.saturating_add(wait.0)),
        }
    }
}

impl BucketConfig {
    // The parts of a full bucket.
    pub fn full_parts(self) -> u64
        requires { Accepted self }
        ensures { result ≡ full_parts self }
    {
        (self.capacity as u64) * self.period.0
    }

    // No shortfall is read as more than this.
    pub fn most_shortfall(self) -> u64
        requires { Accepted self }
        ensures { result ≡ most_shortfall self }
    {
        self.full_parts() + 0x4000_0000_0000_0000
    }

    // How long the bucket takes to regain so many parts, rounded up, counted from when parts come back.
    pub fn recovery_of(self, shortfall: u64) -> Nanos
        requires { Accepted self }
        ensures { result.0 ≡ recovery_of self shortfall }
    {
        Nanos(shortfall.div_ceil(self.amount as u64))
    }

    // The tokens that come back in a span, rounded up and held to 64 bits. Whole periods and the rest are counted separately, so that nothing wraps.
    pub fn missing_tokens(self, remaining: Nanos) -> u64
        requires { Accepted self }
        ensures { result ≡ saturated (missing_tokens self remaining.0) }
    {
        let period = self.period.0;
        let whole = arith::saturating_mul(remaining.0 / period, self.amount);
        let rest = ((remaining.0 % period) * (self.amount as u64)).div_ceil(period);
        whole.saturating_add(rest)
    }
}

impl BucketCore {
    // A fresh bucket, with the initial tokens.
    pub fn new(config: BucketConfig, at: Nanos) -> BucketCore
        requires { Accepted config }
        ensures { result ≡ fresh config at }
    {
        let missing = (config.capacity - config.initial) as u64;
        BucketCore {
            shortfall: missing * config.period.0,
            stamp: at,
        }
    }

    // The stored shortfall as it is read: a word that is larger than the most shortfall reads as the most shortfall.
    fn read_shortfall(self, config: BucketConfig) -> u64
        requires { Accepted config }
        ensures { result ≡ read_shortfall config self }
    {
        self.shortfall.min(config.most_shortfall())
    }

    // The shortfall at a moment.
    pub fn shortfall_at(self, config: BucketConfig, at: Nanos) -> u64
        requires { Accepted config }
        ensures { result ≡ shortfall_at config self at }
    {
        let shortfall = self.read_shortfall(config);
        let elapsed = at.0.saturating_sub(self.stamp.0);
        shortfall.saturating_sub(arith::saturating_mul(elapsed, config.amount))
    }

    // The whole tokens that are there at a moment.
    pub fn available_at(self, config: BucketConfig, at: Nanos) -> u64
        requires { Accepted config }
        ensures { result ≡ available_at config self at }
    {
        let period = config.period.0;
        let full = config.full_parts();
        full.saturating_sub(self.shortfall_at(config, at)) / period
    }

    // Whether nothing is missing.
    pub fn is_full_at(self, config: BucketConfig, at: Nanos) -> bool
        requires { Accepted config }
        ensures { result ≡ full_at config self at }
    {
        self.shortfall_at(config, at) == 0
    }

    // How long until `cost` tokens are there.
    pub fn time_until_at(self, config: BucketConfig, cost: u32, at: Nanos) -> Nanos
        requires { Accepted config × (cost ≤ config.capacity) }
        ensures { result.0 ≡ wait_at config self cost at }
    {
        self.wait_for(config, self.wanted_at(config, cost, at), cost, at)
    }

    // When `cost` tokens are due.
    pub fn due_at(self, config: BucketConfig, cost: u32, at: Nanos) -> Due
        requires { Accepted config × (cost ≤ config.capacity) }
        ensures { result ≡ due_at config self cost at }
    {
        Due::after(at, self.time_until_at(config, cost, at))
    }

    // The wait, from what a grant would store: that is worked out once for the wait and for the grant.
    fn wait_for(self, config: BucketConfig, wanted: u64, cost: u32, at: Nanos) -> Nanos
        requires { Accepted config × (wanted ≡ (spent config self cost at).shortfall) }
        ensures { result.0 ≡ wait_at config self cost at }
    {
        if cost == 0 {
            return Nanos(0);
        }
        let full = config.full_parts();
        if wanted <= full {
            return Nanos(0);
        }
        self.grown_at(config.recovery_of(wanted - full).0, at)
    }

    // A wait with the time until the stamp: before the stamp nothing comes back. A wait of 0 stays 0.
    fn grown_at(self, wait: u64, at: Nanos) -> Nanos
        ensures { result.0 ≡ grown self at wait }
    {
        if wait == 0 {
            return Nanos(0);
        }
        Nanos(wait.saturating_add(self.stamp.0.saturating_sub(at.0)))
    }

    // How long until the bucket is full again.
    pub fn recovers_in(self, config: BucketConfig, at: Nanos) -> Nanos
        requires { Accepted config }
        ensures { result.0 ≡ recovery_at config self at }
    {
        let recovery = config.recovery_of(self.shortfall_at(config, at));
        self.grown_at(recovery.0, at)
    }

    // The shortfall that a grant of `cost` tokens stores.
    fn wanted_at(self, config: BucketConfig, cost: u32, at: Nanos) -> u64
        requires { Accepted config × (cost ≤ config.capacity) }
        ensures { result ≡ (spent config self cost at).shortfall }
    {
        self.shortfall_at(config, at) + (cost as u64) * config.period.0
    }

    // The bucket after a grant of `cost` tokens.
    pub fn spent_at(self, config: BucketConfig, cost: u32, at: Nanos) -> BucketCore
        requires { Accepted config × (cost ≤ config.capacity) }
        ensures { result ≡ spent config self cost at }
    {
        self.granted(self.wanted_at(config, cost, at), at)
    }

    // The bucket after a grant, by the shortfall that the grant stores. A denial does not work the later moment out.
    fn granted(self, wanted: u64, at: Nanos) -> BucketCore
        ensures { result ≡ record { shortfall = wanted; stamp = record { 0 = max self.stamp.0 at.0 } } }
    {
        BucketCore {
            shortfall: wanted,
            stamp: Nanos(self.stamp.0.max(at.0)),
        }
    }

    // A request for `cost` tokens: the answer, and the bucket after it.
    pub fn ask_at(
        self,
        config: BucketConfig,
        request: Request,
        cost: u32,
        at: Nanos,
    ) -> BucketOutcome
        requires { Accepted config × (cost ≤ config.capacity) }
        ensures { result ≡ asked config request self cost at }
    {
        let wanted = self.wanted_at(config, cost, at);
        let own = self.wait_for(config, wanted, cost, at);
        let wait = request.wait_to(own);
        let due = Due::after(at, wait);
        if wait.0 <= request.longest().0 {
            let bucket = self.granted(wanted, at);
            return BucketOutcome {
                decision: BucketDecision::Allowed(due),
                bucket,
                turns_away: false,
            };
        }
        BucketOutcome {
            decision: BucketDecision::Denied(due),
            bucket: self,
            turns_away: request.turns_away(own),
        }
    }

    // The bucket with `cost` tokens given back.
    pub fn refund(self, config: BucketConfig, cost: u32) -> BucketCore
        requires { Accepted config }
        ensures { result ≡ refunded config self cost }
    {
        let shortfall = self.read_shortfall(config);
        let returned = arith::saturating_mul(config.period.0, cost);
        let stamp = self.stamp;
        BucketCore {
            shortfall: shortfall.saturating_sub(returned),
            stamp,
        }
    }

    // The bucket after so many tokens are taken out. A bucket that has fewer goes into debt.
    pub fn charge_at(self, config: BucketConfig, tokens: u64, at: Nanos) -> BucketCore
        requires { Accepted config }
        ensures { result ≡ charged config self tokens at }
    {
        let stamp = Nanos(self.stamp.0.max(at.0));
        let most = config.most_shortfall();
        let period = config.period.0;
        if most / period < tokens {
            return BucketCore {
                shortfall: most,
                stamp,
            };
        }
        let shortfall = self.shortfall_at(config, at) + tokens * period;
        BucketCore {
            shortfall: shortfall.min(most),
            stamp,
        }
    }

    // As `charge_at`, but 0 tokens leave the bucket untouched.
    pub fn take_out(self, config: BucketConfig, tokens: u64, at: Nanos) -> BucketCore
        requires { Accepted config }
        ensures { result ≡ taken_out config self tokens at }
    {
        if tokens == 0 {
            return self;
        }
        self.charge_at(config, tokens, at)
    }
}

// Puts a bucket into the debt that settles at a moment. The missing tokens are rounded up, so a restored key is never fuller than it
// was, unless the shortfall is cut at its largest.
pub fn restore_debt(
    bucket: BucketCore,
    config: BucketConfig,
    at: Nanos,
    settles_at: Nanos,
) -> BucketCore
    requires { Accepted config }
    ensures { result ≡ restored config bucket at settles_at }
{
    let remaining = settles_at.0.saturating_sub(at.0);
    if remaining == 0 {
        return bucket;
    }
    let missing = config.missing_tokens(Nanos(remaining));
    let capacity = config.capacity as u64;
    let keep = capacity.saturating_sub(missing);
    let available = bucket.available_at(config, at);
    let cut = bucket.take_out(config, available.saturating_sub(keep), at);
    cut.take_out(config, missing.saturating_sub(capacity), at)
}

impl Request {
    // The longest wait that the request takes.
    fn longest(self) -> Nanos
        ensures { result.0 ≡ longest_wait self }
    {
        match self {
            Request::Acquire => Nanos(0),
            Request::Reserve(longest) => longest,
            Request::Through(_) => Nanos(0),
        }
    }

    // The wait of the request, given the wait for this bucket.
    fn wait_to(self, own: Nanos) -> Nanos
        ensures { result.0 ≡ wait_to self own.0 }
    {
        match self {
            Request::Acquire => own,
            Request::Reserve(_) => own,
            Request::Through(others) => Nanos(own.0.max(others.0)),
        }
    }

    // Whether a denial turns a try away: this bucket makes it wait.
    fn turns_away(self, own: Nanos) -> bool
        ensures { result ≡ does_turn_away self own.0 }
    {
        self.is_try() && own.0 != 0
    }

    // Whether the request wants its tokens now.
    fn is_try(self) -> bool
        ensures { result ≡ is_try self }
    {
        match self {
            Request::Acquire => true,
            Request::Reserve(_) => false,
            Request::Through(_) => true,
        }
    }
}
