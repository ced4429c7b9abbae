// Frames in words: those that an SGSN sends.
use crate::mistake::Mistake;
use crate::words_in::{area_in, class_in, imsi_in, node_in, number_in, update_in};
use elements::code::{Cause, GprsDetachType, ImsiDetachType};
use elements::node::NodeNumber;
use frames::frame::Frame;
use imsi::Imsi;
use messages::message::Message;

// A frame but for its destination, which is the register.
#[derive(Clone, Copy)]
pub(crate) struct Spoken {
    pub(crate) source: NodeNumber,
    pub(crate) stamp: u32,
    pub(crate) answers: u32,
    pub(crate) message: Message,
}

impl Spoken {
    pub(crate) fn frame_to(self, destination: NodeNumber) -> Frame {
        Frame {
            source: self.source,
            destination,
            stamp: self.stamp,
            answers: self.answers,
            message: self.message,
        }
    }
}

// The words behind `from`.
pub(crate) fn spoken_in(words: &[&str]) -> Result<Spoken, Mistake> {
    let (answers, source, stamp, message) = match *words {
        [source, "stamp", stamp, "answers", answers, ref message @ ..] => {
            (number_in(answers), source, stamp, message)
        }
        [source, "stamp", stamp, ref message @ ..] => (Some(0), source, stamp, message),
        _ => return Err(Mistake::From),
    };
    let source = node_in(source).ok_or(Mistake::From)?;
    Ok(Spoken {
        source,
        stamp: number_in(stamp).ok_or(Mistake::From)?,
        answers: answers.ok_or(Mistake::From)?,
        message: message_in(message, source)?,
    })
}

// A RESET and its acknowledgement name their sender.
fn message_in(words: &[&str], sender: NodeNumber) -> Result<Message, Mistake> {
    match *words {
        ["reset"] => Ok(Message::Reset { entity: sender }),
        ["reset-acknowledge"] => Ok(Message::ResetAcknowledge { entity: sender }),
        ["lu-request", ref rest @ ..] => request_in(rest).ok_or(Mistake::Request),
        [kind, imsi, ref rest @ ..] => {
            let imsi = imsi_in(imsi).ok_or(Mistake::Message)?;
            about(kind, imsi, rest).ok_or(Mistake::Message)
        }
        _ => Err(Mistake::Message),
    }
}

fn request_in(words: &[&str]) -> Option<Message> {
    let [imsi, update, old_area, new_area, class] = *words else {
        return None;
    };
    Some(Message::LuRequest {
        imsi: imsi_in(imsi)?,
        update: update_in(update)?,
        old_area: area_in(old_area)?,
        new_area: area_in(new_area)?,
        class: class_in(class)?,
    })
}

// The other messages about a mobile.
fn about(kind: &str, imsi: Imsi, words: &[&str]) -> Option<Message> {
    match (kind, words) {
        ("paging-failure", []) => Some(Message::PagingFailure {
            imsi,
            cause: Cause::NotAttached,
        }),
        ("mobile-status", []) => Some(Message::MobileStatus {
            imsi,
            cause: Cause::MovedToAnotherVlr,
        }),
        ("gprs-detach", ["by-mobile"]) => Some(Message::GprsDetachIndication {
            imsi,
            detach: GprsDetachType::ByMobile,
        }),
        ("gprs-detach", ["by-network"]) => Some(Message::GprsDetachIndication {
            imsi,
            detach: GprsDetachType::ByNetwork,
        }),
        ("imsi-detach", ["acknowledged"]) => Some(Message::ImsiDetachIndication {
            imsi,
            detach: ImsiDetachType::Acknowledged,
        }),
        ("imsi-detach", ["unacknowledged"]) => Some(Message::ImsiDetachIndication {
            imsi,
            detach: ImsiDetachType::Unacknowledged,
        }),
        _ => None,
    }
}
