// What a message says.
ghost use Rattle.std.specs.Prelude.{◌≡◌};
ghost use Rattle.messages.specs.Lawful.{lawful_message};
ghost use Rattle.messages.specs.Kinds.{kind_of};
ghost use Rattle.messages.specs.Mobiles.{mobile_of};
ghost use Rattle.messages.specs.Spelling.{type_of};

use crate::kind::MessageType;
use elements::area::LocationArea;
use elements::code::{
    Cause, Class, Coded, GprsDetachType, ImsiDetachType, RejectCause, UpdateType,
};
use elements::node::NodeNumber;
use imsi::Imsi;

// A message. An absent TMSI or channel differs from zero. LU is a location update.
#[derive(Clone, Copy, Debug, PartialEq, Eq)]
pub enum Message {
    Paging {
        imsi: Imsi,
        tmsi: Option<u32>,
        channel: Option<u8>,
    },
    PagingFailure {
        imsi: Imsi,
        cause: Cause,
    },
    MobileStatus {
        imsi: Imsi,
        cause: Cause,
    },
    LuRequest {
        imsi: Imsi,
        update: UpdateType,
        old_area: LocationArea,
        new_area: LocationArea,
        class: Class,
    },
    LuAccept {
        imsi: Imsi,
        new_area: LocationArea,
    },
    LuReject {
        imsi: Imsi,
        cause: RejectCause,
    },
    Reset {
        entity: NodeNumber,
    },
    ResetAcknowledge {
        entity: NodeNumber,
    },
    GprsDetachIndication {
        imsi: Imsi,
        detach: GprsDetachType,
    },
    GprsDetachAcknowledge {
        imsi: Imsi,
        detach: GprsDetachType,
    },
    ImsiDetachIndication {
        imsi: Imsi,
        detach: ImsiDetachType,
    },
    ImsiDetachAcknowledge {
        imsi: Imsi,
        detach: ImsiDetachType,
    },
}

impl Message {
    pub fn kind(self) -> MessageType
        ensures { result ≡ kind_of self }
    {
        match self {
            Message::Paging { .. } => MessageType::Paging,
            Message::PagingFailure { .. } => MessageType::PagingFailure,
            Message::MobileStatus { .. } => MessageType::MobileStatus,
            Message::LuRequest { .. } => MessageType::LuRequest,
            Message::LuAccept { .. } => MessageType::LuAccept,
            Message::LuReject { .. } => MessageType::LuReject,
            Message::Reset { .. } => MessageType::Reset,
            Message::ResetAcknowledge { .. } => MessageType::ResetAcknowledge,
            Message::GprsDetachIndication { .. } => MessageType::GprsDetachIndication,
            Message::GprsDetachAcknowledge { .. } => MessageType::GprsDetachAcknowledge,
            Message::ImsiDetachIndication { .. } => MessageType::ImsiDetachIndication,
            Message::ImsiDetachAcknowledge { .. } => MessageType::ImsiDetachAcknowledge,
        }
    }

    pub fn type_octet(self) -> u8
        ensures { result ≡ type_of self }
    {
        self.kind().octet()
    }

    // The mobile that this is about; RESET and its acknowledgement are about none.
    pub fn mobile(self) -> Option<Imsi>
        ensures { result ≡ mobile_of self }
    {
        match self {
            Message::Reset { .. } | Message::ResetAcknowledge { .. } => None,
            Message::Paging { imsi, .. }
            | Message::PagingFailure { imsi, .. }
            | Message::MobileStatus { imsi, .. }
            | Message::LuRequest { imsi, .. }
            | Message::LuAccept { imsi, .. }
            | Message::LuReject { imsi, .. }
            | Message::GprsDetachIndication { imsi, .. }
            | Message::GprsDetachAcknowledge { imsi, .. }
            | Message::ImsiDetachIndication { imsi, .. }
            | Message::ImsiDetachAcknowledge { imsi, .. } => Some(imsi),
        }
    }

    // Can this be written? Its IMSI, channel, reject cause and entity must be lawful; the rest always is.
    pub fn is_lawful(self) -> bool
        ensures { result ≡ lawful_message self }
    {
        match self {
            Message::Paging { imsi, channel, .. } => {
                imsi.is_lawful() && channel.is_none_or(|number| number <= 3)
            }
            Message::LuReject { imsi, cause } => imsi.is_lawful() && cause.number != 0,
            Message::Reset { entity } | Message::ResetAcknowledge { entity } => entity.is_lawful(),
            _ => self.mobile().is_none_or(|imsi| imsi.is_lawful()),
        }
    }
}
