// What single words of a line write.
use context::class::ServiceClass;
use context::kind::{DetachKind, RequestKind};
use elements::area::LocationArea;
use elements::node::NodeNumber;
use imsi::Imsi;
use std::str::FromStr;
use words::hexadecimal::octets_in_line;

// The number that a word of decimal digits writes. A sign is no digit.
pub(crate) fn number_in<N: FromStr + Drop>(word: &str) -> Option<N>
where
    N::Err: Drop,
{
    if !word.bytes().all(|character| character.is_ascii_digit()) {
        return None;
    }
    word.parse().ok()
}

pub(crate) fn node_in(word: &str) -> Option<NodeNumber> {
    let number = number_in(word)?;
    Some(NodeNumber { number })
}

// The count of the digits is part of an IMSI, so that 01 and 1 are two. Any count of digits is read whose
// number can be held: the ends say what they think of that.
pub(crate) fn imsi_in(word: &str) -> Option<Imsi> {
    let value = number_in(word)?;
    let digits = u8::try_from(word.len()).ok()?;
    Some(Imsi { digits, value })
}

// So many octets in hexadecimal.
fn octets_in<const N: usize>(word: &str) -> Option<[u8; N]> {
    let octets = octets_in_line(word.as_bytes()).ok()?;
    <[u8; N]>::try_from(octets.as_slice()).ok()
}

// As the programs show it: four octets.
pub(crate) fn tmsi_in(word: &str) -> Option<u32> {
    octets_in(word).map(u32::from_be_bytes)
}

pub(crate) fn area_in(word: &str) -> Option<LocationArea> {
    let octets = octets_in(word)?;
    Some(LocationArea { octets })
}

// The codes below have words, and can be given as numbers too: so a code can be given that is not listed.

pub(crate) fn class_in(word: &str) -> Option<u8> {
    match word {
        "A" => Some(ServiceClass::A as u8),
        "B" => Some(ServiceClass::B as u8),
        "C" => Some(ServiceClass::C as u8),
        number => number_in(number),
    }
}

pub(crate) fn request_kind_in(word: &str) -> Option<u8> {
    match word {
        "combined-attach" => Some(RequestKind::CombinedAttach as u8),
        "imsi-attach" => Some(RequestKind::ImsiAttach as u8),
        "area-change" => Some(RequestKind::AreaChange as u8),
        number => number_in(number),
    }
}

pub(crate) fn detach_kind_in(word: &str) -> Option<u8> {
    match word {
        "by-mobile" => Some(DetachKind::ByMobile as u8),
        "by-network" => Some(DetachKind::ByNetwork as u8),
        "imsi" => Some(DetachKind::Imsi as u8),
        "imsi-and-gprs" => Some(DetachKind::ImsiAndGprs as u8),
        "switched-off" => Some(DetachKind::SwitchedOff as u8),
        number => number_in(number),
    }
}
