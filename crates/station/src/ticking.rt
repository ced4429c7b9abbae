// What a row sends its peer: of a loss here, and on a tick.
ghost use Rattle.std.specs.Prelude.{◌≡◌, ◌+◌, [], ◌∷◌, length};
ghost use Rattle.station.specs.Rows.{lost_row};
ghost use Rattle.station.specs.Sends.{HasStamps, Sent};
ghost use Rattle.station.specs.Ticks.{CanReach, reset_to, acknowledgement_to};
ghost use Rattle.station.specs.Ticks.{due_sends, repeat_sends, repeat_ticked, row_sends, row_ticked};

use crate::row::Row;
use crate::sending::{Outgoing, Sender};
use carrier::carrier::Carrier;
use carrier::in_order::InOrder;
use elements::node::NodeNumber;
use messages::message::Message;

// The only place where a RESET is made.
fn reset(own: NodeNumber, peer: NodeNumber) -> Outgoing
    ensures { result ≡ reset_to own peer }
{
    Outgoing {
        to: peer,
        answers: 0,
        message: Message::Reset { entity: own },
    }
}

fn acknowledgement(own: NodeNumber, peer: NodeNumber, answers: u32) -> Outgoing
    ensures { result ≡ acknowledgement_to own peer answers }
{
    Outgoing {
        to: peer,
        answers,
        message: Message::ResetAcknowledge { entity: own },
    }
}

// Sender, carrier and peer stay parameters: the carrier is lent to each end in turn, and an end has several
// peers, so that a struct of them would be made anew for each call.
impl Row {
    // Tells the peer of a loss here: recovery begins.
    pub fn lose<C: InOrder>(&mut self, sender: &mut Sender, carrier: &mut C, peer: NodeNumber)
        ensures row { HasStamps 1 sender.old → self.new ≡ lost_row self.old (sender.old.last + 1) }
        ensures own { sender.new.own ≡ sender.old.own }
        ensures last { HasStamps 1 sender.old → sender.new.last ≡ sender.old.last + 1 }
        ensures sent { CanReach peer 1 sender.old
            → Sent C.Carrier.puts sender.old.own sender.old.last (reset_to sender.old.own peer ∷ [])
            carrier.old carrier.new }
    {
        let stamp = sender.send(carrier, reset(sender.own, peer));
        self.begin_recovery(stamp);
    }

    // Sends the acknowledgement, if this is its tick.
    fn acknowledge<C: InOrder>(&self, sender: &mut Sender, carrier: &mut C, peer: NodeNumber)
        ensures own { sender.new.own ≡ sender.old.own }
        ensures last { CanReach peer 1 sender.old
            → sender.new.last ≡ sender.old.last + length (due_sends sender.old.own peer self.now) }
        ensures sent { CanReach peer 1 sender.old
            → Sent C.Carrier.puts sender.old.own sender.old.last (due_sends sender.old.own peer self.now)
            carrier.old carrier.new }
    {
        if let Some(answers) = self.due_now() {
            sender.send(carrier, acknowledgement(sender.own, peer, answers));
        }
    }

    // Sends the RESET again, if this is its tick.
    fn repeat<C: InOrder>(&mut self, sender: &mut Sender, carrier: &mut C, peer: NodeNumber)
        ensures row { CanReach peer 1 sender.old → self.new ≡ repeat_ticked sender.old.last self.old }
        ensures own { sender.new.own ≡ sender.old.own }
        ensures last { CanReach peer 1 sender.old
            → sender.new.last ≡ sender.old.last + length (repeat_sends sender.old.own peer self.old) }
        ensures sent { CanReach peer 1 sender.old
            → Sent C.Carrier.puts sender.old.own sender.old.last (repeat_sends sender.old.own peer self.old)
            carrier.old carrier.new }
    {
        if self.repeat_now() {
            let stamp = sender.send(carrier, reset(sender.own, peer));
            self.note_repeat(stamp);
        } else {
            self.tick_reset();
        }
    }

    // One tick toward the peer: the acknowledgement that is due goes before the RESET's repeat.
    pub fn tick<C: InOrder>(&mut self, sender: &mut Sender, carrier: &mut C, peer: NodeNumber)
        ensures row { CanReach peer 2 sender.old
            → self.new ≡ row_ticked sender.old.own peer sender.old.last self.old }
        ensures own { sender.new.own ≡ sender.old.own }
        ensures last { CanReach peer 2 sender.old
            → sender.new.last ≡ sender.old.last + length (row_sends sender.old.own peer self.old) }
        ensures sent { CanReach peer 2 sender.old
            → Sent C.Carrier.puts sender.old.own sender.old.last (row_sends sender.old.own peer self.old)
            carrier.old carrier.new }
    {
        self.acknowledge(sender, carrier, peer);
        self.tick_due();
        self.repeat(sender, carrier, peer);
    }
}
