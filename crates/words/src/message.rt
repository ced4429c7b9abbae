// Messages in words: the message's name, then each element by its name.
use crate::in_words::InWords;
use elements::absent::{OrAbsent, Tmsi};
use imsi::Imsi;
use messages::kind::MessageType;
use messages::message::Message;
use std::fmt;

// The name alone.
impl fmt::Display for InWords<MessageType> {
    fn fmt<W: fmt::Write>(&self, f: &mut fmt::Formatter<W>) -> fmt::Result {
        f.write_str(match self.0 {
            MessageType::Paging => "PAGING",
            MessageType::PagingFailure => "PAGING_FAILURE",
            MessageType::MobileStatus => "MOBILE_STATUS",
            MessageType::LuRequest => "LU Request",
            MessageType::LuAccept => "LU Accept",
            MessageType::LuReject => "LU Reject",
            MessageType::Reset => "RESET",
            MessageType::ResetAcknowledge => "RESET_ACKNOWLEDGE",
            MessageType::GprsDetachIndication => "GPRS_DETACH Indication",
            MessageType::GprsDetachAcknowledge => "GPRS_DETACH Acknowledge",
            MessageType::ImsiDetachIndication => "IMSI_DETACH Indication",
            MessageType::ImsiDetachAcknowledge => "IMSI_DETACH Acknowledge",
        })
    }
}

impl fmt::Display for InWords<Message> {
    fn fmt<W: fmt::Write>(&self, f: &mut fmt::Formatter<W>) -> fmt::Result {
        write!(f, "{}, ", InWords(self.0.kind()))?;
        match self.0 {
            Message::Paging {
                imsi,
                tmsi,
                channel,
            } => {
                imsi_and(f, imsi, "TMSI", OrAbsent(tmsi.map(Tmsi)))?;
                write!(f, ", channel {}", OrAbsent(channel))
            }
            Message::PagingFailure { imsi, cause } | Message::MobileStatus { imsi, cause } =>
                imsi_and(f, imsi, "cause", InWords(cause)),
            Message::LuRequest {
                imsi,
                update,
                old_area,
                new_area,
                class,
            } => {
                imsi_and(f, imsi, "update type", InWords(update))?;
                write!(f, ", old location area {}", InWords(old_area))?;
                write!(f, ", new location area {}", InWords(new_area))?;
                write!(f, ", class {}", InWords(class))
            }
            Message::LuAccept { imsi, new_area } => {
                imsi_and(f, imsi, "new location area", InWords(new_area))
            }
            Message::LuReject { imsi, cause } => imsi_and(f, imsi, "reject cause", cause),
            Message::Reset { entity } | Message::ResetAcknowledge { entity } => {
                write!(f, "entity {entity}")
            }
            Message::GprsDetachIndication { imsi, detach }
            | Message::GprsDetachAcknowledge { imsi, detach } => {
                imsi_and(f, imsi, "GPRS detach type", InWords(detach))
            }
            Message::ImsiDetachIndication { imsi, detach }
            | Message::ImsiDetachAcknowledge { imsi, detach } => {
                imsi_and(f, imsi, "IMSI detach type", InWords(detach))
            }
        }
    }
}

// An IMSI and one more element, which nearly every message begins with.
fn imsi_and<W: fmt::Write, T: fmt::Display + Drop>(
    f: &mut fmt::Formatter<W>,
    imsi: Imsi,
    element: &str,
    value: T,
) -> fmt::Result {
    write!(f, "IMSI {imsi}, {element} {value}")
}
