//! The kit with the published word list, run on the cards of the published vectors.
//! It is a program of its own, since a run of a program has one set of arguments and one input.
#![tactic(auto)]

use commands::serving::run;
use std::io;

fn main(rt: HostRuntime) -> io::Result<()> {
    run(&rt)
}
