// Reads lines of hexadecimal octets, one frame each, and says each frame in words, or its fault.
#![tactic(auto)]

mod outcome;
mod tally;

use outcome::outcome_of;
use std::io;
use std::io::{BufRead, BufReader};
use tally::Tally;
use words::counting::count;
use words::in_words::InWords;

// The input is read as octets, since a line that is no text is a bad line too, and not the end.
fn main(rt: HostRuntime) -> io::Result<()> {
    let mut tally = Tally::new();
    // By `count`, which stays at the largest number: `enumerate` would ask for a
    // proof that the lines end before it.
    let mut number: u64 = 0;
    for line in BufReader::new(rt.alloc(), rt.stdin())?.split(rt.alloc(), b'\n') {
        let line = line?;
        count(&mut number);
        let Some(outcome) = outcome_of(&line) else {
            continue;
        };
        tally.note(outcome);
        match outcome {
            Ok(frame) => println!(rt; "line {number}: {}", InWords(frame))?,
            Err(refusal) => println!(rt; "line {number}: {refusal}")?,
        }
    }
    println!(rt; "{tally}")
}
