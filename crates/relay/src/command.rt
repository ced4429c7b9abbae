// What a line of the script asks for.
use crate::mistake::{LineError, Mistake};
use crate::text::{first_word, number_in};
use crate::verb::{Name, Verb};
use elements::node::NodeNumber;
use std::alloc::Global;
use std::{fmt, str};
use words::hexadecimal::octets_in_line;
use words::line::LineOctets;

// A carrier that a gate may stand over, with the script if it slips.
#[derive(Drop)]
pub(crate) enum Base {
    Queue,
    Slip(Vec<u8>),
}

// A carrier to be made.
#[derive(Drop)]
pub(crate) enum Make {
    Base(Base),
    Gate(Base),
    Mailbox,
    Nowhere,
}

#[derive(Drop)]
pub(crate) enum Command {
    Carrier(Make),
    Put(LineOctets),
    Take(NodeNumber),
}

// What the line asks for: nothing, if it is empty or a comment. Only what a script holds needs memory.
pub(crate) fn command_in(heap: Global, line: &[u8]) -> Result<Option<Command>, LineError> {
    let text = line.trim_ascii();
    if matches!(text, [] | [b'#', ..]) {
        return Ok(None);
    }
    let (word, rest) = first_word(text);
    let command = match Verb::try_from(word)? {
        Verb::Carrier => Command::Carrier(carrier_in(heap, rest.trim_ascii())?),
        Verb::Put => Command::Put(put_in(rest)?),
        Verb::Take => Command::Take(take_in(rest.trim_ascii())?),
    };
    Ok(Some(command))
}

fn put_in(text: &[u8]) -> Result<LineOctets, Mistake> {
    let octets = octets_in_line(text)?;
    if octets.as_slice().is_empty() {
        return Err(Mistake::NoOctets);
    }
    Ok(octets)
}

fn take_in(text: &[u8]) -> Result<NodeNumber, Mistake> {
    let number = number_in(text).ok_or(Mistake::Node)?;
    Ok(NodeNumber { number })
}

fn carrier_in(heap: Global, text: &[u8]) -> Result<Make, LineError> {
    let (word, rest) = first_word(text);
    let rest = rest.trim_ascii();
    match Name::try_from(word)? {
        Name::Gate => Ok(Make::Gate(base_in(heap, rest)?)),
        Name::Queue | Name::Slip => Ok(Make::Base(base_in(heap, text)?)),
        Name::Mailbox => alone(Make::Mailbox, rest),
        Name::Nowhere => alone(Make::Nowhere, rest),
    }
}

fn base_in(heap: Global, text: &[u8]) -> Result<Base, LineError> {
    let (word, rest) = first_word(text);
    let rest = rest.trim_ascii();
    match Name::try_from(word)? {
        Name::Queue => alone(Base::Queue, rest),
        Name::Slip => Ok(Base::Slip(script_in(heap, rest)?)),
        _ => Err(Mistake::Carrier.into()),
    }
}

// What is made of a name, if nothing is behind it.
fn alone<T: Drop>(made: T, rest: &[u8]) -> Result<T, LineError> {
    if !rest.is_empty() {
        return Err(Mistake::Behind.into());
    }
    Ok(made)
}

// The octets of a script, however many.
fn script_in(heap: Global, text: &[u8]) -> Result<Vec<u8>, LineError> {
    let text = str::from_utf8(text).map_err(|_| Mistake::Script)?;
    text.split_whitespace()
        .map(|word| number_in(word.as_bytes()).ok_or(LineError::Mistake(Mistake::Script)))
        .try_collect(heap)
}

impl fmt::Display for Base {
    fn fmt<W: fmt::Write>(&self, f: &mut fmt::Formatter<W>) -> fmt::Result {
        match self {
            Base::Queue => f.write_str("queue"),
            Base::Slip(script) => {
                f.write_str("slip")?;
                for octet in script {
                    write!(f, " {octet}")?;
                }
                Ok(())
            }
        }
    }
}

impl fmt::Display for Make {
    fn fmt<W: fmt::Write>(&self, f: &mut fmt::Formatter<W>) -> fmt::Result {
        match self {
            Make::Base(base) => write!(f, "{base}"),
            Make::Gate(base) => write!(f, "gate {base}"),
            Make::Mailbox => f.write_str("mailbox"),
            Make::Nowhere => f.write_str("nowhere"),
        }
    }
}
