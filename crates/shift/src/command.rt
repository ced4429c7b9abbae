// What a line of the shift asks for.
use crate::deed::{Deed, deed_in};
use crate::mistake::{LineError, Mistake};
use crate::words_in::{node_in, number_in};
use elements::node::{NodeNumber, SgsnNumber, VlrNumber};
use std::alloc::Global;
use std::str;

// The SGSN's number, and its VLRs'.
#[derive(Drop)]
pub(crate) struct Numbers {
    pub(crate) sgsn: SgsnNumber,
    pub(crate) vlrs: Vec<VlrNumber>,
}

#[derive(Drop)]
pub(crate) enum Command {
    // octets for the net's script
    Script(Vec<u8>),
    Site(Numbers),
    At { node: NodeNumber, deed: Deed },
}

pub(crate) fn text_in(line: &[u8]) -> Result<&str, Mistake> {
    let text = str::from_utf8(line).map_err(|_| Mistake::Text)?;
    Ok(text.trim())
}

// What the line asks for: nothing, if it is empty or a comment.
pub(crate) fn command_in(heap: Global, text: &str) -> Result<Option<Command>, LineError> {
    if text.is_empty() || text.starts_with('#') {
        return Ok(None);
    }
    let words: Vec<&str> = text.split_whitespace().collect(heap)?;
    Ok(Some(asked(heap, &words)?))
}

fn asked(heap: Global, words: &[&str]) -> Result<Command, LineError> {
    match *words {
        ["script", ref octets @ ..] => Ok(Command::Script(script_in(heap, octets)?)),
        ["site", sgsn, ref vlrs @ ..] => Ok(Command::Site(numbers_in(heap, sgsn, vlrs)?)),
        ["site"] => Err(Mistake::Site.into()),
        [node, ref deed @ ..] => {
            let node = node_in(node).ok_or(Mistake::Start)?;
            let deed = deed_in(deed)?;
            Ok(Command::At { node, deed })
        }
        [] => Err(Mistake::Start.into()),
    }
}

fn numbers_in(heap: Global, sgsn: &str, words: &[&str]) -> Result<Numbers, LineError> {
    let sgsn = SgsnNumber {
        node: node_in(sgsn).ok_or(Mistake::Site)?,
    };
    let mut vlrs = Vec::new(heap);
    for word in words {
        let node = node_in(word).ok_or(Mistake::Site)?;
        vlrs.push(VlrNumber { node })?;
    }
    Ok(Numbers { sgsn, vlrs })
}

// A word is an octet, or says how often an octet stands: 12x0.
fn script_in(heap: Global, words: &[&str]) -> Result<Vec<u8>, LineError> {
    let mut octets = Vec::new(heap);
    for word in words {
        let (count, octet) = word.split_once('x').unwrap_or(("1", word));
        let count: u8 = number_in(count).ok_or(Mistake::Script)?;
        let octet = number_in(octet).ok_or(Mistake::Script)?;
        for _ in 0..count {
            octets.push(octet)?;
        }
    }
    Ok(octets)
}
