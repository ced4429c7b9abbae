// The library's answer in plain numbers, and whether it writes what it has read as the same octets. The
// numbers of types and elements, and an area's number, are written again here: whether the library
// numbers rightly is what is checked.
ghost use Rattle.std.specs.Prelude.{◌≡◌, ℕ, ◌<◌, ◌≤◌, true, length, slice_index};

use crate::answer::{Answer, Content, Found, Header, Part, Refusal};
use crate::sample::{Form, Sample};
use elements::area::LocationArea;
use elements::code::{Cause, Class, GprsDetachType, ImsiDetachType, RejectCause, UpdateType};
use elements::fault::{Fault, Layer};
use elements::node::NodeNumber;
use elements::reader::Reader;
use frames::frame::Frame;
use frames::reading::read_frame;
use frames::writing::write_frame;
use imsi::Imsi;
use messages::message::Message;
use messages::reading::read_message;
use messages::writing::{Place, write_message};

// Longer than any frame, so that an octet written behind the end is seen.
const ROOM: usize = 80;
// Stands in the buffer before anything is written.
const UNTOUCHED: u8 = 0xA5;

// What the library made of octets that it accepted, and whether it writes the same octets of it.
#[derive(Drop)]
pub(crate) struct Accepted {
    pub(crate) answer: Answer,
    pub(crate) written_again: bool,
}

impl From<Fault> for Refusal {
    fn from(fault: Fault) -> Refusal {
        Refusal {
            part: match fault.kind.layer() {
                Layer::Frame => Part::Frame,
                Layer::Message => Part::Message,
            },
            number: fault.kind.number(),
            place: fault.place,
        }
    }
}

fn mobile(imsi: Imsi) -> Found {
    Found {
        identifier: 0x01,
        digits: Some(imsi.digits),
        value: imsi.value,
    }
}

fn number(identifier: u8, value: u64) -> Found {
    Found {
        identifier,
        digits: None,
        value,
    }
}

fn area(identifier: u8, area: LocationArea) -> Found {
    let [a, b, c, d, e] = area.octets;
    number(identifier, u64::from_be_bytes([0, 0, 0, a, b, c, d, e]))
}

// One match for each code, so that a case added to it is not passed over.
fn cause(cause: Cause) -> Found {
    let value = match cause {
        Cause::NotAttached => 1,
        Cause::MovedToAnotherVlr => 2,
    };
    number(0x03, value)
}

fn update(update: UpdateType) -> Found {
    let value = match update {
        UpdateType::ImsiAttach => 1,
        UpdateType::Normal => 2,
    };
    number(0x04, value)
}

fn class(class: Class) -> Found {
    let value = match class {
        Class::A => 1,
        Class::B => 2,
    };
    number(0x07, value)
}

fn gprs_detach(detach: GprsDetachType) -> Found {
    let value = match detach {
        GprsDetachType::ByNetwork => 1,
        GprsDetachType::ByMobile => 2,
    };
    number(0x09, value)
}

fn imsi_detach(detach: ImsiDetachType) -> Found {
    let value = match detach {
        ImsiDetachType::Unacknowledged => 1,
        ImsiDetachType::Acknowledged => 2,
    };
    number(0x0A, value)
}

fn reject(cause: RejectCause) -> Found {
    number(0x08, u64::from(cause.number))
}

fn entity(node: NodeNumber) -> Found {
    number(0x0B, u64::from(node.number))
}

fn listed(type_octet: u8, elements: &[Found]) -> Content {
    let mut content = Content::new(type_octet);
    for found in elements {
        content.add(*found);
    }
    content
}

fn of_mobile(type_octet: u8, imsi: Imsi, found: Found) -> Content {
    listed(type_octet, &[mobile(imsi), found])
}

fn paging(imsi: Imsi, tmsi: Option<u32>, channel: Option<u8>) -> Content {
    let mut content = listed(0x00, &[mobile(imsi)]);
    if let Some(tmsi) = tmsi {
        content.add(number(0x02, u64::from(tmsi)));
    }
    if let Some(channel) = channel {
        content.add(number(0x0C, u64::from(channel)));
    }
    content
}

// Every field of a message.
fn flat(message: Message) -> Content {
    match message {
        Message::Paging {
            imsi,
            tmsi,
            channel,
        } => paging(imsi, tmsi, channel),
        Message::PagingFailure { imsi, cause: why } => of_mobile(0x01, imsi, cause(why)),
        Message::MobileStatus { imsi, cause: why } => of_mobile(0x02, imsi, cause(why)),
        Message::LuRequest {
            imsi,
            update: kind,
            old_area,
            new_area,
            class: of,
        } => {
            let (old, new) = (area(0x05, old_area), area(0x06, new_area));
            listed(0x06, &[mobile(imsi), update(kind), old, new, class(of)])
        }
        Message::LuAccept { imsi, new_area } => of_mobile(0x07, imsi, area(0x06, new_area)),
        Message::LuReject { imsi, cause } => of_mobile(0x08, imsi, reject(cause)),
        Message::Reset { entity: node } => listed(0x09, &[entity(node)]),
        Message::ResetAcknowledge { entity: node } => listed(0x0A, &[entity(node)]),
        Message::GprsDetachIndication { imsi, detach } => of_mobile(
            0x0E,
            imsi,
            gprs_detach(detach),
        ),
        Message::GprsDetachAcknowledge { imsi, detach } => of_mobile(
            0x0F,
            imsi,
            gprs_detach(detach),
        ),
        Message::ImsiDetachIndication { imsi, detach } => of_mobile(
            0x11,
            imsi,
            imsi_detach(detach),
        ),
        Message::ImsiDetachAcknowledge { imsi, detach } => of_mobile(
            0x12,
            imsi,
            imsi_detach(detach),
        ),
    }
}

// Does the buffer hold exactly these octets, and nothing new behind them?
fn holds(buffer: &[u8], octets: &[u8]) -> bool
    ensures room { result ≡ true → length octets.now ≤ length buffer.now }
    ensures same { result ≡ true → (k : ℕ) → k < length buffer.now → k < length octets.now
        → slice_index buffer.now k ≡ slice_index octets.now k }
    ensures beyond { result ≡ true → (k : ℕ) → k < length buffer.now → length octets.now ≤ k
        → slice_index buffer.now k ≡ 165 }
{
    let Some(behind) = buffer.strip_prefix(octets) else {
        return false;
    };
    behind.iter().all(|octet| *octet == UNTOUCHED)
}

// Does the writer make these octets, and no others?
fn makes<W: FnOnce(&mut [u8]) -> Result<usize, Fault>>(writer: W, octets: &[u8]) -> bool
    requires { W.IsAlwaysCallable writer }
{
    let mut buffer = [UNTOUCHED; ROOM];
    writer(&mut buffer).is_ok_and(|count| count == octets.len() && holds(&buffer, octets))
}

fn ask_for_message(octets: &[u8]) -> Result<Accepted, Refusal> {
    let message = read_message(Reader::new(octets))?;
    Ok(Accepted {
        answer: Answer {
            header: None,
            content: flat(message),
        },
        written_again: makes(
            |buffer| write_message(message, buffer, Place::Alone),
            octets,
        ),
    })
}

fn ask_for_frame(octets: &[u8]) -> Result<Accepted, Refusal> {
    let frame = read_frame(octets)?;
    let header = Header {
        source: frame.source.number,
        destination: frame.destination.number,
        stamp: frame.stamp,
        answers: frame.answers,
    };
    Ok(Accepted {
        answer: Answer {
            header: Some(header),
            content: flat(frame.message),
        },
        written_again: makes(|buffer| write_frame(frame, buffer), octets),
    })
}

// The library's answer.
pub(crate) fn ask_library(sample: Sample) -> Result<Accepted, Refusal> {
    match sample.form {
        Form::Message => ask_for_message(sample.octets),
        Form::Frame => ask_for_frame(sample.octets),
    }
}
