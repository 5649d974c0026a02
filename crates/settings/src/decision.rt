// The outcome of asking for tokens without waiting.
ghost use Rattle.std.specs.Prelude.{◌≡◌};
ghost use Rattle.settings.specs.Decision.{acquired, retry_after};

use bucket::Due;
use units::Nanos;

// Granted, due at once; to be asked for again when it is due; or never to be granted, since the cost is more than a full bucket or the limiter is closed.
#[derive(Clone, Copy)]
pub enum Decision {
    Acquired(Due),
    Retry { after: Due },
    Impossible,
}

impl Decision {
    // Whether the tokens were granted.
    pub fn is_acquired(self) -> bool
        ensures { result ≡ acquired self }
    {
        match self {
            Decision::Acquired(_) => true,
            Decision::Retry { after: _ } => false,
            Decision::Impossible => false,
        }
    }

    // The wait after which to ask again, if there is one.
    pub fn retry_after(self) -> Option<Nanos>
        ensures { result ≡ retry_after self }
    {
        match self {
            Decision::Acquired(_) => None,
            Decision::Retry { after } => {
                let wait = after.wait;
                Some(wait)
            }
            Decision::Impossible => None,
        }
    }
}
