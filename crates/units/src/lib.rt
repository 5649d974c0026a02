// The two units of time, as types of their own, so that a count of nanoseconds is never taken for one of milliseconds.
// Rust's `Duration` becomes these.
#![tactic(auto)]

ghost use Rattle.std.specs.Prelude.{◌≡◌};
ghost use Rattle.units.specs.Units.{millis_of};

// A moment or a span in nanoseconds.
#[repr(C)]
#[derive(Clone, Copy)]
pub struct Nanos(pub u64);

// A moment or a span in whole milliseconds: what the idle stamps count.
#[derive(Clone, Copy)]
pub struct Millis(pub u64);

impl Nanos {
    // The whole milliseconds in a count of nanoseconds. Every way from the one unit to the other goes through this function.
    pub fn millis(self) -> Millis
        ensures { result ≡ millis_of self }
    {
        Millis(self.0 / 1000000)
    }
}
