// Prints what the settings and the bucket come to at the edges that document 01 names. The gate compares the lines with the file `stdout`,
// which was worked out by hand.
#![tactic(auto)]

use std::io;

mod buckets;
mod shapes;

fn main(rt: HostRuntime) -> io::Result<()> {
    shapes::sizes(&rt)?;
    shapes::refused_rates(&rt)?;
    shapes::refused_sizes(&rt)?;
    shapes::looks(&rt)?;
    shapes::configs(&rt)?;
    buckets::tries(&rt)?;
    buckets::set_back(&rt)?;
    buckets::reservations(&rt)?;
    buckets::restored(&rt)?;
    buckets::extremes(&rt)
}
