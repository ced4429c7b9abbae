// What a message from the SGSN makes of the record of its mobile, and the message that answers it.
ghost use Rattle.std.specs.Prelude.{◌≡◌};
ghost use Rattle.vlr.specs.Moves.{reject, update_move, detach_answer, message_move};

use crate::record::Record;
use elements::area::LocationArea;
use elements::code::{ImsiDetachType, RejectCause};
use elements::node::SgsnNumber;
use imsi::Imsi;
use messages::message::Message;

// The cause with which a location update of an unknown mobile is rejected.
const UNKNOWN: u8 = 2;

fn reject(imsi: Imsi, number: u8) -> Option<Message>
    ensures { result ≡ reject imsi number }
{
    let cause = RejectCause { number };
    Some(Message::LuReject { imsi, cause })
}

// A location update: the mobile's home lets it in, or gives the cause why not.
fn update_move(
    before: Option<Record>,
    sgsn: SgsnNumber,
    imsi: Imsi,
    new_area: LocationArea,
) -> (Option<Record>, Option<Message>)
    ensures { result ≡ update_move sgsn imsi new_area before }
{
    let Some(record) = before else {
        return (None, reject(imsi, UNKNOWN));
    };
    if record.home_cause == 0 {
        let accept = Message::LuAccept { imsi, new_area };
        (Some(record.confirmed(sgsn)), Some(accept))
    } else {
        (Some(record.unmarked()), reject(imsi, record.home_cause))
    }
}

// An IMSI detach is acknowledged where its sender wants that.
fn detach_answer(imsi: Imsi, detach: ImsiDetachType) -> Option<Message>
    ensures { result ≡ detach_answer imsi detach }
{
    match detach {
        ImsiDetachType::Acknowledged => Some(Message::ImsiDetachAcknowledge { imsi, detach }),
        ImsiDetachType::Unacknowledged => None,
    }
}

// The record after a message from this SGSN, and the message that answers it. The record before is that of
// the mobile that the message is about, if one is held.
pub fn message_move(
    before: Option<Record>,
    sgsn: SgsnNumber,
    message: Message,
) -> (Option<Record>, Option<Message>)
    ensures { result ≡ message_move sgsn message before }
{
    match message {
        Message::LuRequest { imsi, new_area, .. } => update_move(before, sgsn, imsi, new_area),
        Message::GprsDetachIndication { imsi, detach } => {
            let acknowledge = Message::GprsDetachAcknowledge { imsi, detach };
            (before.map(|record| record.unmarked()), Some(acknowledge))
        }
        Message::ImsiDetachIndication { imsi, detach } => {
            let after = before.map(|record| record.imsi_detached());
            (after, detach_answer(imsi, detach))
        }
        Message::PagingFailure { .. } | Message::MobileStatus { .. } => {
            (before.map(|record| record.unmarked()), None)
        }
        _ => (before, None),
    }
}
