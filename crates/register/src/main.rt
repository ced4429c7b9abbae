// Reads a script, and runs one voice register over a gate on a queue: what each call answers, and each frame
// that it puts.
#![tactic(auto)]

mod bench;
mod census;
mod command;
mod mistake;
mod site;
mod spoken;
mod tally;
mod went;
mod words_in;

use bench::Bench;
use std::io::{BufRead, BufReader};

// The input is read as octets, since a line that is no text is a bad line too, and not the end.
fn run(rt: &HostRuntime) -> anyhow::Result<()> {
    let mut bench = Bench::new();
    for line in BufReader::new(rt.alloc(), rt.stdin())?.split(rt.alloc(), b'\n') {
        let line = line?;
        bench.line(rt, &line)?;
    }
    bench.end(rt)?;
    Ok(())
}

fn main(rt: HostRuntime) -> anyhow::Result<()> {
    run(&rt)
}
