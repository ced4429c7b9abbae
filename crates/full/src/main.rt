// Fills every place of a voice register, is refused one mobile more, and enrols a held one again.
#![tactic(auto)]

use elements::node::{NodeNumber, SgsnNumber, VlrNumber};
use imsi::Imsi;
use std::io;
use vlr::vlr::{PLACES, Vlr};

// One mobile more than there are places.
const MOBILES: u64 = 1025;

// The mobiles as they come, which is not in the order of their numbers: 7 and 1,025 have no common factor, so
// that none comes twice.
fn mobile(place: u64) -> Imsi {
    Imsi {
        digits: 15,
        value: 262_010_000_000_000 + place % MOBILES * 7 % MOBILES,
    }
}

fn numbered(number: u8) -> NodeNumber {
    NodeNumber { number }
}

// Enrols a mobile, and shows what is answered.
fn enrol(rt: &HostRuntime, vlr: &mut Vlr, imsi: Imsi, home_cause: u8) -> io::Result<()> {
    match vlr.enrol(imsi, home_cause) {
        Ok(()) => println!(rt; "enrol {imsi}, home cause {home_cause}: accepted"),
        Err(denial) => println!(rt; "enrol {imsi}, home cause {home_cause}: {denial}"),
    }
}

// What the register holds.
fn show(rt: &HostRuntime, vlr: &Vlr) -> io::Result<()> {
    let records = &vlr.places[0..vlr.held];
    let let_in = records
        .iter()
        .filter(|record| record.home_cause == 0)
        .count();
    let rising = records.windows(2).all(|pair| pair[0].imsi < pair[1].imsi);
    println!(rt;
        "mobiles: {} of {PLACES}, with home cause 0: {let_in}, in rising order: {rising}",
        vlr.held
    )
}

fn fill(rt: &HostRuntime, vlr: &mut Vlr) -> io::Result<()> {
    let mut accepted = 0_usize;
    for place in 0..MOBILES - 1 {
        if vlr.enrol(mobile(place), 0).is_ok() {
            accepted = accepted.saturating_add(1);
        }
    }
    println!(rt; "enrolled: {accepted}")?;
    show(rt, vlr)?;
    enrol(rt, vlr, mobile(MOBILES - 1), 0)?;
    enrol(rt, vlr, mobile(500), 3)?;
    show(rt, vlr)
}

fn run(rt: &HostRuntime) -> io::Result<()> {
    let own = VlrNumber { node: numbered(11) };
    let sgsn = SgsnNumber { node: numbered(1) };
    match Vlr::new(own, sgsn) {
        Ok(mut vlr) => fill(rt, &mut vlr),
        Err(denial) => println!(rt; "{denial}"),
    }
}

fn main(rt: HostRuntime) -> io::Result<()> {
    run(&rt)
}
