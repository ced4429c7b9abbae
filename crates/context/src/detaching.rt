// What a detach makes of a mobile's record, and what goes to the VLR.
ghost use Rattle.std.specs.Prelude.{◌≡◌};
ghost use Rattle.context.specs.Detaching.{detach_message, awaited_by, detached};

use crate::context::Context;
use crate::errand::{Awaited, Errand, Open, Verdict};
use crate::kind::DetachKind;
use elements::code::{GprsDetachType, ImsiDetachType};
use imsi::Imsi;
use messages::message::Message;
use station::mark::Mark;
use station::sending::Outgoing;

// So many ticks a VLR has to acknowledge a detach.
pub(crate) const DETACH_TICKS: u8 = 8;

// The end of packet service is told again so many times.
const DETACH_REPEATS: u8 = 3;

impl DetachKind {
    // What the VLR is told.
    fn message(self, imsi: Imsi) -> Message
        ensures { result ≡ detach_message self imsi }
    {
        match self {
            DetachKind::ByMobile => {
                let detach = GprsDetachType::ByMobile;
                Message::GprsDetachIndication { imsi, detach }
            }
            DetachKind::ByNetwork => {
                let detach = GprsDetachType::ByNetwork;
                Message::GprsDetachIndication { imsi, detach }
            }
            DetachKind::Imsi | DetachKind::ImsiAndGprs => {
                let detach = ImsiDetachType::Acknowledged;
                Message::ImsiDetachIndication { imsi, detach }
            }
            DetachKind::SwitchedOff => {
                let detach = ImsiDetachType::Unacknowledged;
                Message::ImsiDetachIndication { imsi, detach }
            }
        }
    }

    // What the VLR is to acknowledge, if anything.
    fn awaited(self) -> Option<Awaited>
        ensures { result ≡ awaited_by self }
    {
        let repeats = DETACH_REPEATS;
        match self {
            DetachKind::ByMobile => {
                let detach = GprsDetachType::ByMobile;
                Some(Awaited::GprsDetach { detach, repeats })
            }
            DetachKind::ByNetwork => {
                let detach = GprsDetachType::ByNetwork;
                Some(Awaited::GprsDetach { detach, repeats })
            }
            DetachKind::Imsi => Some(Awaited::ImsiDetach { stays: true }),
            DetachKind::ImsiAndGprs => Some(Awaited::ImsiDetach { stays: false }),
            DetachKind::SwitchedOff => None,
        }
    }
}

impl Context {
    // The record after the detach, and what goes with this stamp to the VLR that
    // the mark names, if it names one.
    pub fn detached(self, kind: DetachKind, stamp: u32) -> (Context, Option<Outgoing>)
        ensures { result ≡ detached kind stamp self }
    {
        let Some(vlr) = self.mark.node() else {
            return (self.let_go(false, Verdict::Done), None);
        };
        let told = Outgoing {
            to: vlr.node,
            answers: 0,
            message: kind.message(self.imsi),
        };
        let Some(awaited) = kind.awaited() else {
            return (self.let_go(false, Verdict::Done), Some(told));
        };
        let pending = Open {
            vlr,
            stamp,
            ticks: DETACH_TICKS,
            awaited,
        };
        let waiting = Context {
            errand: Errand::Open(pending),
            ..self.with_mark(Mark::Unsure(vlr))
        };
        (waiting, Some(told))
    }
}
