// Taking a frame from the SGSN.
ghost use Rattle.std.specs.Prelude.{◌≡◌, true, is_some};
ghost use Rattle.directory.specs.Lookup.{stored};
ghost use Rattle.messages.specs.Lawful.{lawful_message};
ghost use Rattle.station.specs.Sends.{HasStamps, Sent};
ghost use Rattle.vlr.specs.Delivering.{noted, message_plan, taken_by, delivery};
ghost use Rattle.vlr.specs.Laws.{DeliversByMobile};
ghost use Rattle.vlr.specs.Records.{names_its};
ghost use Rattle.vlr.specs.State.{state_of, whose, record_at, with_records, Does};

use crate::moves::message_move;
use crate::record::{DoubtAt, Record};
use crate::vlr::Vlr;
use carrier::carrier::Carrier;
use carrier::in_order::InOrder;
use directory::table::{change_each, look, store};
use frames::frame::Frame;
use messages::message::Message;
use station::denial::Denial;
use station::receiving::{Delivery, Refusal, is_from, take_frame};
use station::sending::Outgoing;

impl Vlr {
    // The record of the mobile that a message is about.
    fn record_of(&self, message: Message) -> Option<Record>
        ensures { result ≡ noted (state_of self.now) message }
    {
        look(&self.places, self.held, message.mobile()?)
    }

    // Keeps a record over the one of its mobile.
    fn keep(&mut self, changed: Record)
        requires held { is_some (record_at (state_of self.old) (whose changed)) ≡ true }
        requires names { names_its self.old.sgsn changed ≡ true }
        ensures { let s = state_of self.old in
            state_of self.new ≡ with_records s (stored whose changed s.records) }
    {
        if let Some(held) = store(&mut self.places, self.held, changed) {
            self.held = held;
        }
    }

    // Takes a message about a mobile: keeps what that makes of its record, and answers.
    fn take_message<C: InOrder>(&mut self, carrier: &mut C, frame: Frame)
        requires lawful { lawful_message frame.message ≡ true }
        requires stamps { HasStamps 1 self.old.sender }
        ensures state { let s = state_of self.old in
            state_of self.new ≡ (message_plan s frame frame.message).after }
        ensures sent { let s = state_of self.old in
            Sent C.Carrier.puts s.own s.last (message_plan s frame frame.message).sends
            carrier.old carrier.new }
    {
        let before = self.record_of(frame.message);
        let (after, answer) = message_move(before, self.sgsn, frame.message);
        if let Some(record) = after {
            self.keep(record);
        }
        if let Some(message) = answer {
            let outgoing = Outgoing {
                to: self.sgsn.node,
                answers: frame.stamp,
                message,
            };
            self.sender.send(carrier, outgoing);
        }
    }

    // Takes a frame from the SGSN that names no other.
    fn take<C: InOrder>(&mut self, carrier: &mut C, frame: Frame)
        requires lawful { lawful_message frame.message ≡ true }
        requires stamps { HasStamps 1 self.old.sender }
        ensures state { let s = state_of self.old in
            state_of self.new ≡ (taken_by s frame frame.message).after }
        ensures sent { let s = state_of self.old in
            Sent C.Carrier.puts s.own s.last (taken_by s frame frame.message).sends
            carrier.old carrier.new }
    {
        match frame.message {
            Message::Reset { .. } => {
                change_each(&mut self.places, self.held, &DoubtAt { sgsn: self.sgsn });
                self.row.take_reset(frame.stamp);
            }
            Message::ResetAcknowledge { .. } => self.row.take_acknowledgement(frame.answers),
            _ => self.take_message(carrier, frame),
        }
    }

    // Takes once from the carrier.
    pub fn deliver<C: InOrder>(&mut self, carrier: &mut C) -> Result<Delivery, Refusal>
        ensures delivers { Does C.Carrier.takes C.Carrier.puts delivery
            result self.old carrier.old self.new carrier.new }
        ensures by_mobile { DeliversByMobile C.Carrier.takes
            (state_of self.old) carrier.old (state_of self.new) }
    {
        if self.sender.is_worn() {
            return Err(Refusal::Denied(Denial::Worn));
        }
        let Some(received) = take_frame(carrier, self.sender.own) else {
            return Ok(Delivery::Nothing);
        };
        let frame = received?;
        if is_from(frame, self.sgsn.node) {
            self.take(carrier, frame);
        }
        Ok(Delivery::Done)
    }
}
