// The frame that a row of numbers says. Every fault is at place 0, since a row has no octets.
ghost use Rattle.std.specs.Prelude.{◌≡◌, Ok};
ghost use Rattle.capi.specs.Rows.{fields_of};
ghost use Rattle.capi.specs.Taken.{Fitted, FittedOption, node_from, code_from, area_from, imsi_from};
ghost use Rattle.capi.specs.Taken.{paging_from, lu_request_from, lu_accept_from, body_from, message_from};
ghost use Rattle.capi.specs.Taken.{frame_from};

use crate::row::Row;
use elements::area::LocationArea;
use elements::code::Coded;
use elements::fault::{Fault, FaultKind};
use elements::node::NodeNumber;
use frames::frame::Frame;
use imsi::Imsi;
use messages::kind::MessageType;
use messages::message::Message;

// The number, if its type can hold it, or this fault.
fn fitted<T: TryFrom<u64>>(number: u64, kind: FaultKind) -> Result<T, Fault>
where
    T::Error: Drop,
    ensures { Fitted T.try_from_gives kind number result }
{
    T::try_from(number).map_err(|_| kind.at(0))
}

// A number that may be absent: the flag says whether it is there.
fn fitted_option<T: TryFrom<u64>>(flag: u64, number: u64) -> Result<Option<T>, Fault>
where
    T::Error: Drop,
    ensures { FittedOption T.try_from_gives flag number result }
{
    match flag {
        0 => Ok(None),
        1 => fitted(number, FaultKind::Contents).map(Some),
        _ => Err(FaultKind::Contents.at(0)),
    }
}

fn node(number: u64) -> Result<NodeNumber, Fault>
    ensures { result ≡ node_from number }
{
    let number = fitted(number, FaultKind::Nodes)?;
    Ok(NodeNumber { number })
}

// The value that a number stands for.
fn code<T: Coded + Drop>(number: u64) -> Result<T, Fault>
    ensures { result ≡ code_from T.Coded.value_in number }
{
    let octet = fitted(number, FaultKind::Contents)?;
    T::from_octet(octet).ok_or(FaultKind::Contents.at(0))
}

// A number of five octets.
fn area(number: u64) -> Result<LocationArea, Fault>
    ensures { result ≡ area_from number }
{
    let [0, 0, 0, a, b, c, d, e] = number.to_be_bytes() else {
        return Err(FaultKind::Contents.at(0));
    };
    Ok(LocationArea {
        octets: [a, b, c, d, e],
    })
}

impl Row {
    fn imsi(&self) -> Result<Imsi, Fault>
        ensures { result ≡ imsi_from (fields_of self.now) }
    {
        let digits = fitted(self.digits, FaultKind::Contents)?;
        Ok(Imsi {
            digits,
            value: self.value,
        })
    }

    fn paging(&self) -> Result<Message, Fault>
        ensures { result ≡ paging_from (fields_of self.now) }
    {
        let imsi = self.imsi()?;
        let tmsi = fitted_option(self.has_tmsi, self.tmsi)?;
        let channel = fitted_option(self.has_channel, self.channel)?;
        Ok(Message::Paging {
            imsi,
            tmsi,
            channel,
        })
    }

    fn lu_request(&self) -> Result<Message, Fault>
        ensures { result ≡ lu_request_from (fields_of self.now) }
    {
        let imsi = self.imsi()?;
        let update = code(self.code)?;
        let old_area = area(self.old_area)?;
        let new_area = area(self.new_area)?;
        let class = code(self.class)?;
        Ok(Message::LuRequest {
            imsi,
            update,
            old_area,
            new_area,
            class,
        })
    }

    fn lu_accept(&self) -> Result<Message, Fault>
        ensures { result ≡ lu_accept_from (fields_of self.now) }
    {
        let imsi = self.imsi()?;
        let new_area = area(self.new_area)?;
        Ok(Message::LuAccept { imsi, new_area })
    }

    // What a message of this type says.
    fn body(&self, kind: MessageType) -> Result<Message, Fault>
        ensures { result ≡ body_from (fields_of self.now) kind }
    {
        match kind {
            MessageType::Paging => self.paging(),
            MessageType::PagingFailure => Ok(Message::PagingFailure {
                imsi: self.imsi()?,
                cause: code(self.code)?,
            }),
            MessageType::MobileStatus => Ok(Message::MobileStatus {
                imsi: self.imsi()?,
                cause: code(self.code)?,
            }),
            MessageType::LuRequest => self.lu_request(),
            MessageType::LuAccept => self.lu_accept(),
            MessageType::LuReject => Ok(Message::LuReject {
                imsi: self.imsi()?,
                cause: code(self.code)?,
            }),
            MessageType::Reset => Ok(Message::Reset {
                entity: code(self.code)?,
            }),
            MessageType::ResetAcknowledge => Ok(Message::ResetAcknowledge {
                entity: code(self.code)?,
            }),
            MessageType::GprsDetachIndication => Ok(Message::GprsDetachIndication {
                imsi: self.imsi()?,
                detach: code(self.code)?,
            }),
            MessageType::GprsDetachAcknowledge => Ok(Message::GprsDetachAcknowledge {
                imsi: self.imsi()?,
                detach: code(self.code)?,
            }),
            MessageType::ImsiDetachIndication => Ok(Message::ImsiDetachIndication {
                imsi: self.imsi()?,
                detach: code(self.code)?,
            }),
            MessageType::ImsiDetachAcknowledge => Ok(Message::ImsiDetachAcknowledge {
                imsi: self.imsi()?,
                detach: code(self.code)?,
            }),
        }
    }

    fn message(&self) -> Result<Message, Fault>
        ensures { result ≡ message_from (fields_of self.now) }
    {
        let octet = fitted::<u8>(self.kind, FaultKind::MessageType)?;
        // Not by `map_err` and `?`, which drop what the error says of the octet: the proof needs that.
        let Ok(kind) = MessageType::try_from(octet) else {
            return Err(FaultKind::MessageType.at(0));
        };
        self.body(kind)
    }
}

impl TryFrom<Row> for Frame {
    type Error = Fault;

    ghost try_from_gives = { λ row r. r ≡ frame_from (fields_of row) };

    fn try_from(row: Row) -> Result<Frame, Fault> {
        let source = node(row.source)?;
        let destination = node(row.destination)?;
        let stamp = fitted(row.stamp, FaultKind::Stamp)?;
        let answers = fitted(row.answers, FaultKind::Stamp)?;
        let message = row.message()?;
        Ok(Frame {
            source,
            destination,
            stamp,
            answers,
            message,
        })
    }
}
