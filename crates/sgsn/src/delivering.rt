// Taking a frame from a VLR.
ghost use Rattle.std.specs.Prelude.{◌≡◌, true, map};
ghost use Rattle.station.specs.Sends.{HasStamps};
ghost use Rattle.context.specs.Contexts.{doubtful_at};
ghost use Rattle.sgsn.specs.Fitting.{is_one_of};
ghost use Rattle.sgsn.specs.Peers.{SentBy};
ghost use Rattle.sgsn.specs.State.{state_of, vlrs_of, record_at, with_records, Does};
ghost use Rattle.sgsn.specs.Delivering.{noted, reset_by, acknowledged_by, answered_by, paged_by, taken_by};
ghost use Rattle.sgsn.specs.Delivering.{Did, delivery};

use crate::peer::Peer;
use crate::peers::{place_of_sender, take_acknowledgement_at, take_reset_at};
use crate::sgsn::Sgsn;
use carrier::carrier::Carrier;
use carrier::in_order::InOrder;
use context::context::DoubtAt;
use directory::table::change_each;
use elements::node::VlrNumber;
use frames::frame::Frame;
use imsi::Imsi;
use messages::message::Message;
use station::denial::Denial;
use station::receiving::{Delivery, Refusal, take_frame};

impl Sgsn {
    // No record says any more that this VLR is sure.
    fn doubt_at(&mut self, vlr: VlrNumber)
        ensures { state_of self.new
            ≡ with_records (state_of self.old) (map (doubtful_at vlr) (state_of self.old).records) }
    {
        change_each(&mut self.places, self.held, &DoubtAt { vlr });
    }

    // Takes a RESET from this VLR, the one at `i`: it is sure of no mobile, and is
    // told later that the RESET came.
    fn take_reset(&mut self, i: usize, peer: Peer, frame: Frame)
        requires { SentBy frame i peer (state_of self.old).peers }
        ensures { state_of self.new ≡ reset_by (state_of self.old) frame peer }
    {
        self.doubt_at(peer.vlr);
        take_reset_at(&mut self.peers, i, frame.stamp);
    }

    // Takes a RESET_ACKNOWLEDGE from this VLR, the one at `i`.
    fn take_acknowledgement(&mut self, i: usize, peer: Peer, frame: Frame)
        requires { SentBy frame i peer (state_of self.old).peers }
        ensures { state_of self.new ≡ acknowledged_by (state_of self.old) frame }
    {
        take_acknowledgement_at(&mut self.peers, i, frame.answers);
    }

    // Takes a page of a mobile from this VLR, and tells whether the radio side is to page the mobile.
    fn take_page<C: InOrder>(
        &mut self,
        carrier: &mut C,
        peer: Peer,
        frame: Frame,
        imsi: Imsi,
    ) -> bool
        requires its { is_one_of (vlrs_of (state_of self.old)) peer.vlr ≡ true }
        requires stamps { HasStamps 1 self.old.sender }
        ensures { Did C.Carrier.puts
            (paged_by (state_of self.old) frame peer (record_at (state_of self.old) imsi))
            result self.old carrier.old self.new carrier.new }
    {
        let Some(before) = self.record_of(imsi) else {
            return true;
        };
        let (after, outgoing) = before.paged(peer.vlr, frame.stamp);
        self.keep_and_send(carrier, after, outgoing);
        before.attached
    }

    // Takes any other message from this VLR: it may be the answer that its mobile's record waits for.
    fn take_answer(&mut self, peer: Peer, frame: Frame)
        ensures { state_of self.new
            ≡ answered_by (state_of self.old) frame peer (noted (state_of self.old) frame.message) }
    {
        let Some(imsi) = frame.message.mobile() else {
            return;
        };
        let Some(before) = self.record_of(imsi) else {
            return;
        };
        self.keep(before.answered(peer.vlr, frame.answers, peer.row.reset, frame.message));
    }

    // Takes a frame from this VLR, the one at `i`.
    fn take<C: InOrder>(&mut self, carrier: &mut C, i: usize, peer: Peer, frame: Frame) -> Delivery
        requires sender { SentBy frame i peer (state_of self.old).peers }
        requires stamps { HasStamps 1 self.old.sender }
        ensures { Did C.Carrier.puts (taken_by (state_of self.old) frame peer frame.message)
            result self.old carrier.old self.new carrier.new }
    {
        match frame.message {
            Message::Paging {
                imsi,
                tmsi,
                channel,
            } => {
                if self.take_page(carrier, peer, frame, imsi) {
                    return Delivery::PageOrder {
                        imsi,
                        tmsi,
                        channel,
                    };
                }
            }
            Message::Reset { .. } => self.take_reset(i, peer, frame),
            Message::ResetAcknowledge { .. } => self.take_acknowledgement(i, peer, frame),
            _ => self.take_answer(peer, frame),
        }
        Delivery::Done
    }

    // Takes once from the carrier.
    pub fn deliver<C: InOrder>(&mut self, carrier: &mut C) -> Result<Delivery, Refusal>
        ensures { Does C.Carrier.takes C.Carrier.puts delivery
            result self.old carrier.old self.new carrier.new }
    {
        if self.sender.is_worn() {
            return Err(Refusal::Denied(Denial::Worn));
        }
        let Some(received) = take_frame(carrier, self.sender.own) else {
            return Ok(Delivery::Nothing);
        };
        let frame = received?;
        let Some(i) = place_of_sender(&self.peers[0..self.count], frame) else {
            return Ok(Delivery::Done);
        };
        Ok(self.take(carrier, i, self.peers[i], frame))
    }
}
