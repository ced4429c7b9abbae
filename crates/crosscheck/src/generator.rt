// Numbers that look random and are the same in every run, and lawful octets made of them.
ghost use Rattle.std.specs.Prelude.{◌≡◌, ◌+◌, ◌*◌, ◌%◌, ◌^◌, ◌<◌, ◌≤◌};

use crate::table::{Kind, MessageType, Row};
use std::alloc::{AllocError, Global};

// A factor and a step with which every state is passed before one comes again.
const FACTOR: u64 = 6364136223846793005;

const STEP: u64 = 1442695040888963407;

// Where its values come from: each state is the last one times a factor and a step more.
#[derive(Drop)]
pub(crate) struct Source {
    state: u64,
}

impl Source {
    pub(crate) fn new(seed: u64) -> Source
        ensures { result.state ≡ seed }
    {
        Source { state: seed }
    }

    // The next number. The low bits of a state repeat soon, so only its high half is given out.
    fn next(&mut self) -> u64
        ensures state { self.new.state
            ≡ (self.old.state * 6364136223846793005 + 1442695040888963407) % 2 ^ 64 }
        ensures bound { result < 2 ^ 32 }
    {
        self.state = self.state.wrapping_mul(FACTOR).wrapping_add(STEP);
        self.state / 0x1_0000_0000
    }

    // A number from `low` to `high`.
    pub(crate) fn within(&mut self, low: u8, high: u8) -> u8
        ensures least { low ≤ result }
        ensures most { low ≤ high → result ≤ high }
    {
        if low >= high {
            return low;
        }
        let span = u64::from(high - low) + 1;
        low + (self.next() % span) as u8
    }

    pub(crate) fn octet(&mut self) -> u8 {
        self.within(0, 255)
    }

    // A place among `count` octets.
    pub(crate) fn place(&mut self, count: usize) -> usize
        ensures { 0 < count → result < count }
    {
        if count == 0 {
            return 0;
        }
        self.next() as usize % count
    }
}

// Which of its values an element or a header takes.
#[derive(Clone, Copy)]
pub(crate) enum Choice {
    Lowest,
    Highest,
    Any,
}

impl Choice {
    // The source stays a parameter, here and below: `Trials` owns it, and draws from it between these calls.
    fn pick(self, source: &mut Source, low: u8, high: u8) -> u8
        ensures { low ≤ high → result ≤ high }
    {
        match self {
            Choice::Lowest => low,
            Choice::Highest => high,
            Choice::Any => source.within(low, high),
        }
    }
}

// A lawful message to be made: with how many digits in its IMSI, and which optional elements.
#[derive(Clone, Copy)]
pub(crate) struct Plan {
    pub(crate) message: &'static MessageType,
    pub(crate) digits: u8,
    pub(crate) tmsi: bool,
    pub(crate) channel: bool,
    pub(crate) choice: Choice,
}

// The octets of an IMSI of `digits` digits, behind its identifier.
fn add_imsi(
    octets: &mut Vec<u8>,
    digits: u8,
    choice: Choice,
    source: &mut Source,
) -> Result<(), AllocError> {
    let odd = digits % 2 == 1;
    let mark = if odd { 9 } else { 1 };
    octets.push((digits / 2).saturating_add(1))?;
    octets.push(choice.pick(source, 0, 9) * 16 + mark)?;
    // The octets both of whose halves are digits.
    for _ in 0..digits.saturating_sub(1) / 2 {
        let low = choice.pick(source, 0, 9);
        let high = choice.pick(source, 0, 9);
        octets.push(high * 16 + low)?;
    }
    if !odd {
        let low = choice.pick(source, 0, 9);
        octets.push(15 * 16 + low)?;
    }
    Ok(())
}

// An element of this row, with any lawful contents.
pub(crate) fn add_element(
    octets: &mut Vec<u8>,
    row: &Row,
    plan: Plan,
    source: &mut Source,
) -> Result<(), AllocError> {
    octets.push(row.identifier)?;
    match row.kind {
        Kind::Digits => add_imsi(octets, plan.digits, plan.choice, source)?,
        Kind::Octet { low, high } => {
            octets.push(1)?;
            octets.push(plan.choice.pick(source, low, high))?;
        }
        Kind::Number { size } => {
            octets.push(size)?;
            for _ in 0..size {
                octets.push(plan.choice.pick(source, 0, 255))?;
            }
        }
    }
    Ok(())
}

pub(crate) fn lawful_message(
    heap: Global,
    plan: Plan,
    source: &mut Source,
) -> Result<Vec<u8>, AllocError> {
    let mut octets = Vec::new(heap);
    octets.push(plan.message.octet)?;
    for row in plan.message.rows() {
        // Of the optional elements the TMSI is a number and the channel is not.
        let wanted = match row.kind {
            Kind::Number { .. } => plan.tmsi,
            _ => plan.channel,
        };
        if !row.optional || wanted {
            add_element(&mut octets, row, plan, source)?;
        }
    }
    Ok(octets)
}

// A lawful frame around a message.
pub(crate) fn lawful_frame(
    heap: Global,
    message: &[u8],
    choice: Choice,
    source: &mut Source,
) -> Result<Vec<u8>, AllocError> {
    let mut octets = Vec::new(heap);
    let from = choice.pick(source, 1, 254);
    // The nodes differ: where both would be one node, the other is its neighbour.
    let to = choice.pick(source, 2, 253);
    let to = if from != to { to } else { to ^ 1 };
    octets.push(from)?;
    octets.push(to)?;
    for _ in 0..3 {
        octets.push(choice.pick(source, 0, 255))?;
    }
    octets.push(choice.pick(source, 1, 255))?;
    for _ in 0..4 {
        octets.push(choice.pick(source, 0, 255))?;
    }
    octets.extend_from_slice(message)?;
    Ok(octets)
}
