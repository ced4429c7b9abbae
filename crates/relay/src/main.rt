// Reads a script of carriers and frames, and shows what each carrier does with the frames.
#![tactic(auto)]

mod bench;
mod command;
mod mistake;
mod relay;
mod seen;
mod tally;
mod text;
mod verb;

use bench::Bench;
use std::io::{BufRead, BufReader};

// The input is read as octets, since a line that is no text is a bad line too, and not the end.
fn run(rt: &HostRuntime) -> anyhow::Result<()> {
    let mut bench = Bench::new();
    for line in BufReader::new(rt.alloc(), rt.stdin())?.split(rt.alloc(), b'\n') {
        let line = line?;
        bench.line(rt, &line)?;
    }
    bench.end(rt)?;
    Ok(())
}

fn main(rt: HostRuntime) -> anyhow::Result<()> {
    run(&rt)
}
