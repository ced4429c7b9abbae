// What a VLR's answer makes of the open request or detach of its mobile.
ghost use Rattle.std.specs.Prelude.{◌≡◌};
ghost use Rattle.context.specs.Answering.{accepted, let_go, matched, answered};

use crate::context::Context;
use crate::errand::{Awaited, Errand, Open, Verdict};
use elements::area::LocationArea;
use elements::node::VlrNumber;
use messages::message::Message;
use station::mark::Mark;

impl Context {
    // The VLR serves the mobile. It is sure unless a RESET, the last of which has the stamp `reset`, went
    // there since the request: after the VLR accepted, that may have made it unsure.
    fn accepted(self, pending: Open, new_area: LocationArea, reset: Option<u32>) -> Context
        ensures { result ≡ accepted pending new_area reset self }
    {
        let mark = if reset.is_none_or(|stamp| stamp < pending.stamp) {
            Mark::Confirmed(pending.vlr)
        } else {
            Mark::Unsure(pending.vlr)
        };
        Context {
            area: Some(new_area),
            errand: Errand::Ended(Verdict::Done),
            ..self.with_mark(mark)
        }
    }

    // No VLR serves the mobile any more, and the request or detach has this
    // verdict; packet service stays or not.
    pub(crate) fn let_go(self, stays: bool, verdict: Verdict) -> Context
        ensures { result ≡ let_go stays verdict self }
    {
        Context {
            attached: stays,
            errand: Errand::Ended(verdict),
            ..self.with_mark(Mark::None)
        }
    }

    // The record after a message that answers its open request or detach. One that is no
    // answer to that changes nothing.
    fn matched(self, pending: Open, reset: Option<u32>, message: Message) -> Context
        ensures { result ≡ matched pending reset message self }
    {
        match (pending.awaited, message) {
            (Awaited::Update { new_area }, Message::LuAccept { .. }) => {
                self.accepted(pending, new_area, reset)
            }
            (Awaited::Update { .. }, Message::LuReject { cause, .. }) => {
                self.let_go(self.attached, Verdict::Rejected(cause))
            }
            (Awaited::GprsDetach { .. }, Message::GprsDetachAcknowledge { .. }) => {
                self.let_go(false, Verdict::Done)
            }
            (Awaited::ImsiDetach { stays }, Message::ImsiDetachAcknowledge { .. }) => {
                self.let_go(self.attached && stays, Verdict::Done)
            }
            _ => self,
        }
    }

    // The record after a message from this VLR that answers this stamp, where the last RESET that
    // went there has the stamp `reset`. The IMSI alone does not match: the request may have
    // expired, and another may be open.
    pub fn answered(
        self,
        vlr: VlrNumber,
        answers: u32,
        reset: Option<u32>,
        message: Message,
    ) -> Context
        ensures { result ≡ answered vlr answers reset message self }
    {
        match self.errand {
            Errand::Open(pending) if pending.vlr == vlr && pending.stamp == answers => {
                self.matched(pending, reset, message)
            }
            _ => self,
        }
    }
}
