//! Digests of what the lines of the standard input give, to be compared with another program's.
#![tactic(auto)]

mod command;
mod data;
mod reply;

use command::answer;
use std::io;
use std::io::{BufRead, BufReader};

fn main(rt: HostRuntime) -> io::Result<()> {
    let heap = rt.alloc();
    for line in BufReader::new(heap, rt.stdin())?.lines(heap) {
        rt.println(answer(heap, line?.as_str())?)?;
    }
    Ok(())
}
