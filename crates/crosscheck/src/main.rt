// Two readers of the same octets: the library, and a second one that is written apart from it. Whatever
// they are given, they must answer the same.
#![tactic(auto)]

mod answer;
mod compare;
mod counts;
mod generator;
mod reader;
mod rule;
mod sample;
mod table;
mod tally;
mod trials;

use generator::Source;
use tally::Tally;
use trials::Trials;

// Every run makes the same octets.
const SEED: u64 = 7_919_104_729;

fn run(rt: &HostRuntime) -> anyhow::Result<()> {
    let mut trials = Trials {
        rt,
        source: Source::new(SEED),
        tally: Tally::new(),
    };
    trials.all()?;
    trials.tally.print(rt)?;
    trials.tally.verdict(rt)
}

fn main(rt: HostRuntime) -> anyhow::Result<()> {
    run(&rt)
}
