// Messages to octets.
ghost use Rattle.std.specs.Prelude.{◌≡◌, ◌≤◌, true};
ghost use Rattle.messages.specs.Lawful.{lawful_message};
ghost use Rattle.messages.specs.Places.{start_of};
ghost use Rattle.messages.specs.Spelling.{elements_of, octets_of};
ghost use Rattle.messages.specs.Writing.{HasRoom, Puts, written_at, left_at, ReadBack};

use crate::message::Message;
use crate::put::Writer;
use crate::reading::IN_FRAME;
use elements::area::Area;
use elements::element::Element;
use elements::fault::{Fault, FaultKind};

// The buffer must hold the longest frame, whatever is written into it.
pub const BUFFER_SIZE: usize = 64;

// Where a message is written: at the front of a buffer, or behind the room for a frame's own ten octets.
#[derive(Clone, Copy, Debug, PartialEq, Eq)]
pub enum Place {
    Alone,
    InFrame,
}

impl Place {
    // The place of the message's first octet.
    pub fn start(self) -> usize
        ensures value { result ≡ start_of self }
        ensures low { result ≤ 10 }
    {
        match self {
            Place::Alone => 0,
            Place::InFrame => IN_FRAME,
        }
    }
}

// Puts what follows the type octet of a lawful message.
fn put_elements(to: &mut Writer<'_>, message: Message)
    requires lawful { lawful_message message ≡ true }
    requires room { HasRoom to.old 30 }
    ensures { Puts 30 (elements_of message) to.old to.new }
{
    match message {
        Message::Paging {
            imsi,
            tmsi,
            channel,
        } => {
            to.imsi(imsi);
            to.tmsi(tmsi);
            to.channel(channel);
        }
        Message::PagingFailure { imsi, cause } | Message::MobileStatus { imsi, cause } => {
            to.imsi(imsi);
            to.code(Element::Cause, cause);
        }
        Message::LuRequest {
            imsi,
            update,
            old_area,
            new_area,
            class,
        } => {
            to.imsi(imsi);
            to.code(Element::UpdateType, update);
            to.area(Area::Old, old_area);
            to.area(Area::New, new_area);
            to.code(Element::Class, class);
        }
        Message::LuAccept { imsi, new_area } => {
            to.imsi(imsi);
            to.area(Area::New, new_area);
        }
        Message::LuReject { imsi, cause } => {
            to.imsi(imsi);
            to.code(Element::RejectCause, cause);
        }
        Message::Reset { entity } | Message::ResetAcknowledge { entity } => {
            to.code(Element::Entity, entity);
        }
        Message::GprsDetachIndication { imsi, detach }
        | Message::GprsDetachAcknowledge { imsi, detach } => {
            to.imsi(imsi);
            to.code(Element::GprsDetachType, detach);
        }
        Message::ImsiDetachIndication { imsi, detach }
        | Message::ImsiDetachAcknowledge { imsi, detach } => {
            to.imsi(imsi);
            to.code(Element::ImsiDetachType, detach);
        }
    }
}

// Puts a lawful message.
fn put_message(to: &mut Writer<'_>, message: Message)
    requires lawful { lawful_message message ≡ true }
    requires room { HasRoom to.old 31 }
    ensures { Puts 31 (octets_of message) to.old to.new }
{
    to.put(&[message.type_octet()]);
    put_elements(to, message);
}

// Writes the message from `at` on, or refuses and leaves the buffer as it was.
// Not for callers, who give a `Place`: from 34 on a buffer of 64 octets need not hold the message.
fn write_at(message: Message, buffer: &mut [u8], at: usize) -> Result<usize, Fault>
    requires { at ≤ 10 }
    ensures value { result ≡ written_at at message buffer.old }
    ensures octets { buffer.new ≡ left_at at message buffer.old }
    ensures back { ReadBack at message buffer.new result }
{
    if !message.is_lawful() {
        return Err(FaultKind::Contents.at(0));
    }
    if buffer.len() < BUFFER_SIZE {
        return Err(FaultKind::Buffer.at(0));
    }
    let mut to = Writer { buffer, at };
    put_message(&mut to, message);
    Ok(to.at)
}

// Writes the message at its place in the buffer, and answers the place after it.
pub fn write_message(message: Message, buffer: &mut [u8], place: Place) -> Result<usize, Fault>
    ensures value { result ≡ written_at (start_of place) message buffer.old }
    ensures octets { buffer.new ≡ left_at (start_of place) message buffer.old }
    ensures back { ReadBack (start_of place) message buffer.new result }
{
    write_at(message, buffer, place.start())
}
