// What a mobile can ask for.
ghost use Rattle.std.specs.Prelude.{◌≡◌};
ghost use Rattle.context.specs.Codes.{request_kind_in, detach_kind_in, attaches, update_type};

use elements::area::LocationArea;
use elements::code::UpdateType;
use elements::node::VlrNumber;

#[derive(Clone, Copy, Debug, PartialEq, Eq)]
pub enum RequestKind {
    // for packet and voice service at once
    CombinedAttach = 1,
    // for voice service, of a mobile that has packet service
    ImsiAttach = 2,
    // it entered another location area
    AreaChange = 3,
}

impl RequestKind {
    // The kind with this code.
    pub fn from_code(code: u8) -> Option<RequestKind>
        ensures { result ≡ request_kind_in code }
    {
        match code {
            1 => Some(RequestKind::CombinedAttach),
            2 => Some(RequestKind::ImsiAttach),
            3 => Some(RequestKind::AreaChange),
            _ => None,
        }
    }

    // Does the mobile get packet service by it, too? The other kinds want that it has it.
    pub fn attaches(self) -> bool
        ensures { result ≡ attaches self }
    {
        self == RequestKind::CombinedAttach
    }

    // The kind of location update that the VLR is asked for.
    pub fn update_type(self) -> UpdateType
        ensures { result ≡ update_type self }
    {
        match self {
            RequestKind::AreaChange => UpdateType::Normal,
            RequestKind::CombinedAttach | RequestKind::ImsiAttach => UpdateType::ImsiAttach,
        }
    }
}

// What comes with a request: the code of its kind, the VLR that is to serve the mobile, and the
// areas that it left and entered.
#[derive(Clone, Copy, Debug, PartialEq, Eq)]
pub struct Request {
    pub kind: u8,
    pub vlr: VlrNumber,
    pub old_area: LocationArea,
    pub new_area: LocationArea,
}

#[derive(Clone, Copy, Debug, PartialEq, Eq)]
pub enum DetachKind {
    // the mobile leaves packet service
    ByMobile = 1,
    // the network ends packet service
    ByNetwork = 2,
    // the mobile leaves voice service, and keeps packet service
    Imsi = 3,
    // it leaves both
    ImsiAndGprs = 4,
    // it leaves both, and does not wait for an answer
    SwitchedOff = 5,
}

impl DetachKind {
    // The kind with this code.
    pub fn from_code(code: u8) -> Option<DetachKind>
        ensures { result ≡ detach_kind_in code }
    {
        match code {
            1 => Some(DetachKind::ByMobile),
            2 => Some(DetachKind::ByNetwork),
            3 => Some(DetachKind::Imsi),
            4 => Some(DetachKind::ImsiAndGprs),
            5 => Some(DetachKind::SwitchedOff),
            _ => None,
        }
    }
}
