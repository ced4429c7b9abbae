// The kinds of message.
ghost use Rattle.std.specs.Prelude.{◌≡◌};
ghost use Rattle.messages.specs.Kinds.{octet_of, TypeOf};

use std::error::Error;
use std::fmt;

// The kinds, with the type octets that messages begin with. LU is a location update.
#[derive(Clone, Copy, Debug, PartialEq, Eq, Hash, PartialOrd, Ord)]
pub enum MessageType {
    Paging = 0x00,
    PagingFailure = 0x01,
    MobileStatus = 0x02,
    LuRequest = 0x06,
    LuAccept = 0x07,
    LuReject = 0x08,
    Reset = 0x09,
    ResetAcknowledge = 0x0A,
    GprsDetachIndication = 0x0E,
    GprsDetachAcknowledge = 0x0F,
    ImsiDetachIndication = 0x11,
    ImsiDetachAcknowledge = 0x12,
}

impl MessageType {
    pub fn octet(self) -> u8
        ensures { result ≡ octet_of self }
    {
        self as u8
    }
}

// An octet that no message begins with.
#[derive(Clone, Copy, Debug, PartialEq, Eq, Hash)]
pub struct UnknownType {
    pub octet: u8,
}

impl fmt::Display for UnknownType {
    fn fmt<W: fmt::Write>(&self, f: &mut fmt::Formatter<W>) -> fmt::Result {
        write!(f, "no message has type {:02X}", self.octet)
    }
}

impl Error for UnknownType {}

impl TryFrom<u8> for MessageType {
    type Error = UnknownType;

    ghost try_from_gives = { TypeOf };

    fn try_from(octet: u8) -> Result<MessageType, UnknownType> {
        match octet {
            0x00 => Ok(MessageType::Paging),
            0x01 => Ok(MessageType::PagingFailure),
            0x02 => Ok(MessageType::MobileStatus),
            0x06 => Ok(MessageType::LuRequest),
            0x07 => Ok(MessageType::LuAccept),
            0x08 => Ok(MessageType::LuReject),
            0x09 => Ok(MessageType::Reset),
            0x0A => Ok(MessageType::ResetAcknowledge),
            0x0E => Ok(MessageType::GprsDetachIndication),
            0x0F => Ok(MessageType::GprsDetachAcknowledge),
            0x11 => Ok(MessageType::ImsiDetachIndication),
            0x12 => Ok(MessageType::ImsiDetachAcknowledge),
            _ => Err(UnknownType { octet }),
        }
    }
}
