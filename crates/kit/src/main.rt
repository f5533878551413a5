//! The kit at a terminal: commands in, one a line, and an answer to each.
#![tactic(auto)]

use commands::serving::run;
use std::io;

fn main(rt: HostRuntime) -> io::Result<()> {
    run(&rt)
}
