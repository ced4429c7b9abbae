// A frame as a row of numbers.
ghost use Rattle.std.specs.Prelude.{◌≡◌, Some};
ghost use Rattle.capi.specs.Rows.{present, or_zero, area_number, coded, body_of, fields_of, row_of};

use crate::row::Row;
use elements::area::LocationArea;
use elements::code::Coded;
use frames::frame::Frame;
use imsi::Imsi;
use messages::message::Message;

// Five octets as one number.
fn area_number(area: LocationArea) -> u64
    ensures { result ≡ area_number area }
{
    let [a, b, c, d, e] = area.octets;
    u64::from_be_bytes([0, 0, 0, a, b, c, d, e])
}

// Is the number there, and which is it?
fn flag_and_number(number: Option<u64>) -> (u64, u64)
    ensures { result ≡ (present number, or_zero number) }
{
    match number {
        Some(number) => (1, number),
        None => (0, 0),
    }
}

// A message of an IMSI and one octet.
fn imsi_and(type_octet: u8, imsi: Imsi, octet: u8) -> Row
    ensures { result ≡ coded type_octet octet (Some imsi) }
{
    Row {
        kind: type_octet as u64,
        digits: imsi.digits as u64,
        value: imsi.value,
        code: octet as u64,
        ..Row::default()
    }
}

// The row of a message that no frame carries yet: its first four numbers are 0.
fn body_of(message: Message) -> Row
    ensures { result ≡ body_of message }
{
    let type_octet = message.type_octet();
    match message {
        Message::Paging {
            imsi,
            tmsi,
            channel,
        } => {
            let (has_tmsi, tmsi) = flag_and_number(tmsi.map(u64::from));
            let (has_channel, channel) = flag_and_number(channel.map(u64::from));
            Row {
                has_tmsi,
                tmsi,
                has_channel,
                channel,
                ..imsi_and(type_octet, imsi, 0)
            }
        }
        Message::PagingFailure { imsi, cause } | Message::MobileStatus { imsi, cause } => imsi_and(
            type_octet,
            imsi,
            cause.octet(),
        ),
        Message::LuRequest {
            imsi,
            update,
            old_area,
            new_area,
            class,
        } => Row {
            old_area: area_number(old_area),
            new_area: area_number(new_area),
            class: class.octet() as u64,
            ..imsi_and(type_octet, imsi, update.octet())
        },
        Message::LuAccept { imsi, new_area } => Row {
            new_area: area_number(new_area),
            ..imsi_and(type_octet, imsi, 0)
        },
        Message::LuReject { imsi, cause } => imsi_and(type_octet, imsi, cause.octet()),
        Message::Reset { entity } | Message::ResetAcknowledge { entity } => Row {
            kind: type_octet as u64,
            code: entity.octet() as u64,
            ..Row::default()
        },
        Message::GprsDetachIndication { imsi, detach }
        | Message::GprsDetachAcknowledge { imsi, detach } => imsi_and(
            type_octet,
            imsi,
            detach.octet(),
        ),
        Message::ImsiDetachIndication { imsi, detach }
        | Message::ImsiDetachAcknowledge { imsi, detach } => imsi_and(
            type_octet,
            imsi,
            detach.octet(),
        ),
    }
}

impl From<Frame> for Row {
    ghost from_gives = { λ frame row. fields_of row ≡ row_of frame };

    fn from(frame: Frame) -> Row {
        Row {
            source: frame.source.number as u64,
            destination: frame.destination.number as u64,
            stamp: frame.stamp as u64,
            answers: frame.answers as u64,
            ..body_of(frame.message)
        }
    }
}
