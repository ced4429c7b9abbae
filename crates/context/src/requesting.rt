// What a request makes of a mobile's record.
ghost use Rattle.std.specs.Prelude.{◌≡◌};
ghost use Rattle.context.specs.Requesting.{needs_no_frame, update, requested};

use crate::context::Context;
use crate::errand::{Awaited, Errand, Open, Verdict};
use crate::kind::{Request, RequestKind};
use elements::code::Class;
use messages::message::Message;
use station::mark::Mark;
use station::sending::Outgoing;

// So many ticks a VLR has to answer a location update.
const UPDATE_TICKS: u8 = 10;

impl Context {
    // Is it an IMSI attach where the VLR is sure already?
    pub fn needs_no_frame(self, kind: RequestKind, request: Request) -> bool
        ensures { result ≡ needs_no_frame kind request self }
    {
        kind == RequestKind::ImsiAttach && self.mark == Mark::Confirmed(request.vlr)
    }

    // What asks the VLR.
    fn update(self, kind: RequestKind, class: Class, request: Request) -> Outgoing
        ensures { result ≡ update kind class request self }
    {
        Outgoing {
            to: request.vlr.node,
            answers: 0,
            message: Message::LuRequest {
                imsi: self.imsi,
                update: kind.update_type(),
                old_area: request.old_area,
                new_area: request.new_area,
                class,
            },
        }
    }

    // The record after the request, and what goes to the VLR with this stamp, if anything: the mobile
    // has voice service of this class.
    pub fn requested(
        self,
        kind: RequestKind,
        class: Class,
        request: Request,
        stamp: u32,
    ) -> (Context, Option<Outgoing>)
        ensures { result ≡ requested kind class request stamp self }
    {
        if self.needs_no_frame(kind, request) {
            let done = Context {
                area: Some(request.new_area),
                errand: Errand::Ended(Verdict::Done),
                ..self
            };
            return (done, None);
        }
        let pending = Open {
            vlr: request.vlr,
            stamp,
            ticks: UPDATE_TICKS,
            awaited: Awaited::Update {
                new_area: request.new_area,
            },
        };
        let asked = Context {
            attached: self.attached || kind.attaches(),
            errand: Errand::Open(pending),
            ..self.with_mark(Mark::Unsure(request.vlr))
        };
        (asked, Some(self.update(kind, class, request)))
    }
}
