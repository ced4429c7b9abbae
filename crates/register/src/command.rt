// What a line of the script asks for.
use crate::mistake::{LineError, Mistake};
use crate::spoken::{Spoken, spoken_in};
use crate::words_in::{imsi_in, node_in, number_in, tmsi_in};
use elements::node::{SgsnNumber, VlrNumber};
use std::alloc::Global;
use std::str;
use vlr::call::VlrCall;
use words::hexadecimal::octets_in_line;
use words::line::LineOctets;

// The register's own number, and its SGSN's.
#[derive(Clone, Copy)]
pub(crate) struct Numbers {
    pub(crate) own: VlrNumber,
    pub(crate) sgsn: SgsnNumber,
}

#[derive(Drop)]
pub(crate) enum Command {
    Register(Numbers),
    // a call, so many times
    Call { call: VlrCall, times: u8 },
    // octets that arrive
    Octets(LineOctets),
    // a frame that arrives, in words
    Frame(Spoken),
}

// What the line asks for: nothing, if it is empty or a comment.
pub(crate) fn command_in(heap: Global, line: &[u8]) -> Result<Option<Command>, LineError> {
    let text = str::from_utf8(line).map_err(|_| Mistake::Text)?.trim();
    if text.is_empty() || text.starts_with('#') {
        return Ok(None);
    }
    // The octets need no blanks between them, so they are no words of the line.
    if let ("frame", octets) = text.split_once(char::is_whitespace).unwrap_or((text, "")) {
        return Ok(Some(Command::Octets(frame_in(octets)?)));
    }
    let words: Vec<&str> = text.split_whitespace().collect(heap)?;
    Ok(Some(asked(&words)?))
}

fn frame_in(text: &str) -> Result<LineOctets, Mistake> {
    let octets = octets_in_line(text.as_bytes())?;
    if octets.as_slice().is_empty() {
        return Err(Mistake::NoOctets);
    }
    Ok(octets)
}

// The first word says which call, and the others what it is given.
fn asked(words: &[&str]) -> Result<Command, Mistake> {
    match *words {
        ["register", ref rest @ ..] => numbers_in(rest).ok_or(Mistake::Numbers),
        ["enrol", ref rest @ ..] => enrol_in(rest).ok_or(Mistake::Enrol),
        ["page", imsi, ref rest @ ..] => page_in(imsi, rest).ok_or(Mistake::Page),
        ["page"] => Err(Mistake::Page),
        ["lose"] => Ok(once(VlrCall::Lose)),
        ["lose", ..] => Err(Mistake::Lose),
        ["tick"] => Ok(once(VlrCall::Tick)),
        ["tick", count] => {
            let times = number_in(count).ok_or(Mistake::Tick)?;
            Ok(Command::Call {
                call: VlrCall::Tick,
                times,
            })
        }
        ["tick", ..] => Err(Mistake::Tick),
        ["from", ref rest @ ..] => Ok(Command::Frame(spoken_in(rest)?)),
        _ => Err(Mistake::Verb),
    }
}

fn once(call: VlrCall) -> Command {
    Command::Call { call, times: 1 }
}

fn numbers_in(words: &[&str]) -> Option<Command> {
    let [own, sgsn] = *words else {
        return None;
    };
    Some(Command::Register(Numbers {
        own: VlrNumber {
            node: node_in(own)?,
        },
        sgsn: SgsnNumber {
            node: node_in(sgsn)?,
        },
    }))
}

fn enrol_in(words: &[&str]) -> Option<Command> {
    let [imsi, home_cause] = *words else {
        return None;
    };
    Some(once(VlrCall::Enrol {
        imsi: imsi_in(imsi)?,
        home_cause: number_in(home_cause)?,
    }))
}

fn page_in(imsi: &str, words: &[&str]) -> Option<Command> {
    let (tmsi, channel) = match *words {
        [] => (None, None),
        ["tmsi", tmsi] => (Some(tmsi_in(tmsi)?), None),
        ["channel", channel] => (None, Some(number_in(channel)?)),
        ["tmsi", tmsi, "channel", channel] => (Some(tmsi_in(tmsi)?), Some(number_in(channel)?)),
        _ => return None,
    };
    Some(once(VlrCall::Page {
        imsi: imsi_in(imsi)?,
        tmsi,
        channel,
    }))
}

// The call, as the script says it; a delivery is what a frame that arrives brings about.
pub(crate) fn name_of(call: VlrCall) -> &'static str {
    match call {
        VlrCall::Enrol { .. } => "enrol",
        VlrCall::Page { .. } => "page",
        VlrCall::Lose => "lose",
        VlrCall::Deliver => "deliver",
        VlrCall::Tick => "tick",
    }
}
