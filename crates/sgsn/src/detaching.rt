// A detach: a mobile that gives up packet service, voice service, or both.
ghost use Rattle.station.specs.Calls.{AtOnce, plan_with};
ghost use Rattle.sgsn.specs.State.{Does};
ghost use Rattle.sgsn.specs.Replies.{reply_to};
ghost use Rattle.sgsn.specs.Detaching.{detach_plan};

use crate::reply::Reply;
use crate::sgsn::Sgsn;
use carrier::carrier::Carrier;
use carrier::in_order::InOrder;
use context::kind::DetachKind;
use imsi::Imsi;
use station::denial::Denial;

impl Sgsn {
    // Detaches a mobile in the way with this code. A reply is owed to the mobile from
    // now on, which its record keeps.
    pub fn open_detach<C: InOrder>(
        &mut self,
        carrier: &mut C,
        imsi: Imsi,
        kind: u8,
    ) -> Result<(), Denial>
        ensures { Does C.Carrier.takes C.Carrier.puts (λ s. AtOnce (detach_plan s imsi kind))
            result self.old carrier.old self.new carrier.new }
    {
        if self.sender.is_worn() {
            return Err(Denial::Worn);
        }
        let Some(kind) = DetachKind::from_code(kind) else {
            return Err(Denial::UnlistedCode);
        };
        if !imsi.is_lawful() {
            return Err(Denial::UnlawfulImsi);
        }
        let Some(context) = self.record_of(imsi) else {
            return Err(Denial::NotEnrolled);
        };
        if context.errand.owes() {
            return Err(Denial::ReplyOwed);
        }
        if !context.attached {
            return Err(Denial::NotAttached);
        }
        // an IMSI detach wants a VLR that can be told
        if kind == DetachKind::Imsi && context.mark.node().is_none() {
            return Err(Denial::WrongMark);
        }
        let (after, outgoing) = context.detached(kind, self.sender.last + 1);
        self.keep_and_send(carrier, after, outgoing);
        Ok(())
    }

    // The same for whoever keeps the reply that is owed.
    pub fn detach<C: InOrder>(
        &mut self,
        carrier: &mut C,
        imsi: Imsi,
        kind: u8,
    ) -> Result<Reply, Denial>
        ensures { Does C.Carrier.takes C.Carrier.puts
            (λ s. AtOnce (plan_with (λ u. reply_to s.own imsi) (λ d. d) (detach_plan s imsi kind)))
            result self.old carrier.old self.new carrier.new }
    {
        let own = self.sender.own;
        self.open_detach(carrier, imsi, kind)?;
        Ok(Reply::new(own, imsi))
    }
}
