// Reads a shift at a site, call by call: one SGSN, its voice registers, and a net that goes wrong as the
// shift says. Shows what each call answers, each frame on its way, and at the end the SGSN's table.
#![tactic(auto)]

mod bench;
mod command;
mod deed;
mod heading;
mod ladder;
mod mistake;
mod place;
mod showing;
mod table;
mod tally;
mod words_in;

use bench::Bench;
use std::io::{BufRead, BufReader};

// The input is read as octets, since a line that is no text is a bad line too, and not the end.
fn run(rt: &HostRuntime) -> anyhow::Result<()> {
    let mut bench = Bench::new(rt.alloc());
    for line in BufReader::new(rt.alloc(), rt.stdin())?.split(rt.alloc(), b'\n') {
        let line = line?;
        bench.line(rt, &line)?;
    }
    bench.end(rt)?;
    Ok(())
}

fn main(rt: HostRuntime) -> anyhow::Result<()> {
    run(&rt)
}
