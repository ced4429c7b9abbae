// What single words of a line write.
use crate::mistake::Mistake;
use elements::area::LocationArea;
use elements::code::{Class, UpdateType};
use elements::node::NodeNumber;
use imsi::Imsi;
use std::str::FromStr;
use words::hexadecimal::octets_in_line;

// The number that a word of decimal digits writes. A sign is no digit.
pub(crate) fn number_in<N: FromStr + Drop>(word: &str) -> Option<N>
where
    N::Err: Drop,
{
    if !word.bytes().all(|character| character.is_ascii_digit()) {
        return None;
    }
    word.parse().ok()
}

pub(crate) fn node_in(word: &str) -> Option<NodeNumber> {
    let number = number_in(word)?;
    Some(NodeNumber { number })
}

// The count of the digits is part of an IMSI, so that 01 and 1 are two. Any count of digits is read whose
// number can be held: the register says what it thinks of that.
pub(crate) fn imsi_in(word: &str) -> Option<Imsi> {
    let value = number_in(word)?;
    let digits = u8::try_from(word.len()).ok()?;
    Some(Imsi { digits, value })
}

// So many octets in hexadecimal.
fn octets_in<const N: usize>(word: &str) -> Option<[u8; N]> {
    let octets = octets_in_line(word.as_bytes()).ok()?;
    <[u8; N]>::try_from(octets.as_slice()).ok()
}

// As the programs show it: four octets.
pub(crate) fn tmsi_in(word: &str) -> Option<u32> {
    octets_in(word).map(u32::from_be_bytes)
}

pub(crate) fn area_in(word: &str) -> Option<LocationArea> {
    let octets = octets_in(word)?;
    Some(LocationArea { octets })
}

pub(crate) fn update_in(word: &str) -> Option<UpdateType> {
    match word {
        "imsi-attach" => Some(UpdateType::ImsiAttach),
        "normal" => Some(UpdateType::Normal),
        _ => None,
    }
}

pub(crate) fn class_in(word: &str) -> Option<Class> {
    match word {
        "A" => Some(Class::A),
        "B" => Some(Class::B),
        _ => None,
    }
}
