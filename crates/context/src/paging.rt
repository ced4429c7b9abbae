// What a page from a VLR makes of a mobile's record, and what is sent for it.
ghost use Rattle.std.specs.Prelude.{◌≡◌};
ghost use Rattle.context.specs.Paging.{moves_to, paged};

use crate::context::Context;
use elements::code::Cause;
use elements::node::VlrNumber;
use messages::message::Message;
use station::mark::Mark;
use station::sending::Outgoing;

impl Context {
    // Does a page from this VLR tell that the mobile is another's no more?
    pub fn moves_to(self, vlr: VlrNumber) -> bool
        ensures { result ≡ moves_to vlr self }
    {
        self.attached
            && self.class.voice().is_some()
            && !self.errand.is_open()
            && self.mark.node() != Some(vlr)
    }

    // The record after a page from this VLR with this stamp, and what is sent for it: that it cannot be
    // carried out, to that VLR; or that the mobile is another's, to the VLR that the mark names. The page may
    // be old, so that its VLR is not sure.
    pub fn paged(self, vlr: VlrNumber, stamp: u32) -> (Context, Option<Outgoing>)
        ensures { result ≡ paged vlr stamp self }
    {
        let imsi = self.imsi;
        if !self.attached {
            let cause = Cause::NotAttached;
            let failure = Outgoing {
                to: vlr.node,
                answers: stamp,
                message: Message::PagingFailure { imsi, cause },
            };
            return (self, Some(failure));
        }
        if !self.moves_to(vlr) {
            return (self, None);
        }
        let after = self.with_mark(Mark::Unsure(vlr));
        let Some(before) = self.mark.node() else {
            return (after, None);
        };
        let cause = Cause::MovedToAnotherVlr;
        let status = Outgoing {
            to: before.node,
            answers: 0,
            message: Message::MobileStatus { imsi, cause },
        };
        (after, Some(status))
    }
}
