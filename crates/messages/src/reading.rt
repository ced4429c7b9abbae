// Octets to messages.
ghost use Rattle.std.specs.Prelude.{◌≡◌, ◌+◌, drop, IfOk, OnOk};
ghost use Rattle.messages.specs.Reading.{after_imsi, mobile_at, last_at, mobile_and_at, paging_at, lu_request_at};
ghost use Rattle.messages.specs.Reading.{lu_accept_at, kind_at, message_at, ReadsExactly};

use crate::kind::MessageType;
use crate::message::Message;
use elements::area::Area;
use elements::code::Coded;
use elements::element::Element;
use elements::fault::{Fault, FaultKind};
use elements::reader::Reader;
use imsi::Imsi;

// A frame's message begins here: the octets before it are the frame's own.
pub const IN_FRAME: usize = 10;

// The IMSI whose element is next.
fn mobile(from: &mut Reader) -> Result<Imsi, Fault>
    ensures value { result ≡ mobile_at from.old.octets.now from.old.at }
    ensures after { IfOk result (λ i. from.new ≡ record from.old { at = after_imsi from.old.at i }) }
{
    let (digits, value) = from.imsi()?;
    Ok(Imsi { digits, value })
}

// The value of an element of one octet, which must be the last.
fn last<T: Coded + Drop>(mut from: Reader, element: Element) -> Result<T, Fault>
    ensures { result ≡ last_at T.Coded.value_in element from.entry.octets.now from.entry.at }
{
    let value = from.coded(element)?;
    from.end()?;
    Ok(value)
}

// An IMSI, and the value of an element of one octet, which must be the last.
fn mobile_and<T: Coded + Drop>(mut from: Reader, element: Element) -> Result<(Imsi, T), Fault>
    ensures { result ≡ mobile_and_at T.Coded.value_in element from.entry.octets.now from.entry.at }
{
    let imsi = mobile(&mut from)?;
    let value = last(from, element)?;
    Ok((imsi, value))
}

fn paging(mut from: Reader) -> Result<Message, Fault>
    ensures { result ≡ paging_at from.entry.octets.now from.entry.at }
{
    let imsi = mobile(&mut from)?;
    let tmsi = from.tmsi()?;
    let channel = from.channel()?;
    from.end()?;
    Ok(Message::Paging {
        imsi,
        tmsi,
        channel,
    })
}

fn lu_request(mut from: Reader) -> Result<Message, Fault>
    ensures { result ≡ lu_request_at from.entry.octets.now from.entry.at }
{
    let imsi = mobile(&mut from)?;
    let update = from.coded(Element::UpdateType)?;
    let old_area = from.area(Area::Old)?;
    let new_area = from.area(Area::New)?;
    let class = from.coded(Element::Class)?;
    from.end()?;
    Ok(Message::LuRequest {
        imsi,
        update,
        old_area,
        new_area,
        class,
    })
}

fn lu_accept(mut from: Reader) -> Result<Message, Fault>
    ensures { result ≡ lu_accept_at from.entry.octets.now from.entry.at }
{
    let imsi = mobile(&mut from)?;
    let new_area = from.area(Area::New)?;
    from.end()?;
    Ok(Message::LuAccept { imsi, new_area })
}

// The type that a message begins with.
fn message_type(from: &mut Reader) -> Result<MessageType, Fault>
    ensures value { result ≡ kind_at from.old.octets.now from.old.at }
    ensures after { OnOk result (from.new ≡ record from.old { at = from.old.at + 1 }) }
{
    let unknown = FaultKind::MessageType.at(from.at);
    let octet = from.octet().ok_or(unknown)?;
    MessageType::try_from(octet).map_err(|_| unknown)
}

// The message from the reader's place to the end.
fn message(mut from: Reader) -> Result<Message, Fault>
    ensures { result ≡ message_at from.entry.octets.now from.entry.at }
{
    match message_type(&mut from)? {
        MessageType::Paging => paging(from),
        MessageType::PagingFailure => {
            let (imsi, cause) = mobile_and(from, Element::Cause)?;
            Ok(Message::PagingFailure { imsi, cause })
        }
        MessageType::MobileStatus => {
            let (imsi, cause) = mobile_and(from, Element::Cause)?;
            Ok(Message::MobileStatus { imsi, cause })
        }
        MessageType::LuRequest => lu_request(from),
        MessageType::LuAccept => lu_accept(from),
        MessageType::LuReject => {
            let (imsi, cause) = mobile_and(from, Element::RejectCause)?;
            Ok(Message::LuReject { imsi, cause })
        }
        MessageType::Reset => Ok(Message::Reset {
            entity: last(from, Element::Entity)?,
        }),
        MessageType::ResetAcknowledge => Ok(Message::ResetAcknowledge {
            entity: last(from, Element::Entity)?,
        }),
        MessageType::GprsDetachIndication => {
            let (imsi, detach) = mobile_and(from, Element::GprsDetachType)?;
            Ok(Message::GprsDetachIndication { imsi, detach })
        }
        MessageType::GprsDetachAcknowledge => {
            let (imsi, detach) = mobile_and(from, Element::GprsDetachType)?;
            Ok(Message::GprsDetachAcknowledge { imsi, detach })
        }
        MessageType::ImsiDetachIndication => {
            let (imsi, detach) = mobile_and(from, Element::ImsiDetachType)?;
            Ok(Message::ImsiDetachIndication { imsi, detach })
        }
        MessageType::ImsiDetachAcknowledge => {
            let (imsi, detach) = mobile_and(from, Element::ImsiDetachType)?;
            Ok(Message::ImsiDetachAcknowledge { imsi, detach })
        }
    }
}

// Does nothing: what is so read is exactly what the octets from `at` on spell.
fn spelt_exactly(octets: &[u8], at: usize, read: Result<Message, Fault>)
    requires { read ≡ message_at octets.now at }
    ensures { ReadsExactly (drop at octets.now) read }
{
    // that octets are below 256 is known of a slice that is looked at
    let _empty = octets.is_empty();
}

// The message that the octets are from the reader's place to the end, or the first fault.
pub fn read_message(from: Reader) -> Result<Message, Fault>
    ensures value { result ≡ message_at from.entry.octets.now from.entry.at }
    ensures exactly { ReadsExactly (drop from.entry.at from.entry.octets.now) result }
{
    let read = message(from);
    spelt_exactly(from.octets, from.at, read);
    read
}
