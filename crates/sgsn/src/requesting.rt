// A request: a mobile that is to be served by a VLR.
ghost use Rattle.std.specs.Prelude.{◌≡◌};
ghost use Rattle.std.specs.List.{list_any};
ghost use Rattle.elements.specs.Nodes.{same_node};
ghost use Rattle.station.specs.Calls.{AtOnce, plan_with};
ghost use Rattle.sgsn.specs.Fitting.{is_one_of};
ghost use Rattle.sgsn.specs.State.{state_of, vlrs_of, Does};
ghost use Rattle.sgsn.specs.Replies.{reply_to};
ghost use Rattle.sgsn.specs.Requesting.{request_plan};

use crate::peer::Peer;
use crate::reply::Reply;
use crate::sgsn::Sgsn;
use carrier::carrier::Carrier;
use carrier::in_order::InOrder;
use context::kind::{Request, RequestKind};
use elements::node::VlrNumber;
use imsi::Imsi;
use station::denial::Denial;

// Is this the number of one of these VLRs?
fn is_one_of(peers: &[Peer], vlr: VlrNumber) -> bool
    ensures { result ≡ list_any (λ p. same_node p.vlr.node vlr.node) peers.now }
{
    peers.iter().any(|peer| peer.vlr == vlr)
}

impl Sgsn {
    // Is this VLR one of its own?
    fn has_vlr(&self, vlr: VlrNumber) -> bool
        ensures { result ≡ is_one_of (vlrs_of (state_of self.now)) vlr }
    {
        is_one_of(&self.peers[0..self.count], vlr)
    }

    // Has a VLR serve a mobile. A reply is owed to the mobile from now on, which its record keeps.
    pub fn open_request<C: InOrder>(
        &mut self,
        carrier: &mut C,
        imsi: Imsi,
        request: Request,
    ) -> Result<(), Denial>
        ensures { Does C.Carrier.takes C.Carrier.puts (λ s. AtOnce (request_plan s imsi request))
            result self.old carrier.old self.new carrier.new }
    {
        if self.sender.is_worn() {
            return Err(Denial::Worn);
        }
        let Some(kind) = RequestKind::from_code(request.kind) else {
            return Err(Denial::UnlistedCode);
        };
        if !imsi.is_lawful() {
            return Err(Denial::UnlawfulImsi);
        }
        let Some(context) = self.record_of(imsi) else {
            return Err(Denial::NotEnrolled);
        };
        let Some(class) = context.class.voice() else {
            return Err(Denial::WrongClass);
        };
        if !self.has_vlr(request.vlr) {
            return Err(Denial::NotItsVlr);
        }
        if context.errand.owes() {
            return Err(Denial::ReplyOwed);
        }
        if !kind.attaches() && !context.attached {
            return Err(Denial::NotAttached);
        }
        let (after, outgoing) = context.requested(kind, class, request, self.sender.last + 1);
        self.keep_and_send(carrier, after, outgoing);
        Ok(())
    }

    // The same for whoever keeps the reply that is owed.
    pub fn request<C: InOrder>(
        &mut self,
        carrier: &mut C,
        imsi: Imsi,
        request: Request,
    ) -> Result<Reply, Denial>
        ensures { Does C.Carrier.takes C.Carrier.puts
            (λ s. AtOnce (plan_with (λ u. reply_to s.own imsi) (λ d. d) (request_plan s imsi request)))
            result self.old carrier.old self.new carrier.new }
    {
        let own = self.sender.own;
        self.open_request(carrier, imsi, request)?;
        Ok(Reply::new(own, imsi))
    }
}
