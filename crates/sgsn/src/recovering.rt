// Losing all marks, and time.
ghost use Rattle.std.specs.Prelude.{◌≡◌, ◌+◌, true, length};
ghost use Rattle.std.specs.List.{list_all};
ghost use Rattle.frames.specs.Format.{lawful_nodes};
ghost use Rattle.station.specs.Calls.{AtOnce};
ghost use Rattle.station.specs.Few.{row_few};
ghost use Rattle.station.specs.Sends.{HasStamps, Sent};
ghost use Rattle.sgsn.specs.Peers.{peer_sends, peer_ticked, peers_lost, peers_resets, doubted_by};
ghost use Rattle.sgsn.specs.Recovering.{lose_plan, tick_plan};
ghost use Rattle.sgsn.specs.State.{Does};

use crate::peer::Peer;
use crate::sgsn::Sgsn;
use carrier::carrier::Carrier;
use carrier::in_order::InOrder;
use context::context::{Context, Doubt, DoubtAt};
use directory::table::change_each;
use station::denial::Denial;
use station::sending::Sender;
use station::time::{TimedPeer, tick};

impl TimedPeer<Context> for Peer {
    ghost node = { λ p. p.vlr.node };

    ghost ticked = { peer_ticked };

    ghost sends = { peer_sends };

    ghost doubts = { doubted_by };

    // Where this tick repeats the RESET, no record says any more that the VLR is sure.
    fn tick<C: InOrder>(&mut self, contexts: &mut [Context], sender: &mut Sender, carrier: &mut C) {
        if self.row.repeat_now() {
            change_each(contexts, contexts.len(), &DoubtAt { vlr: self.vlr });
        }
        self.row.tick(sender, carrier, self.vlr.node);
    }

    ghost few = { λ own p. row_few own p.vlr.node p.row };
}

// Tells each of these VLRs of a loss here, in order.
fn reset_all<C: InOrder>(peers: &mut [Peer], sender: &mut Sender, carrier: &mut C)
    requires stamps { HasStamps (length peers.old) sender.old }
    requires nodes { list_all (λ p. lawful_nodes sender.old.own p.vlr.node) peers.old ≡ true }
    ensures peers { peers.new ≡ peers_lost sender.old.last peers.old }
    ensures own { sender.new.own ≡ sender.old.own }
    ensures last { sender.new.last ≡ sender.old.last + length peers.old }
    ensures sent { Sent C.Carrier.puts sender.old.own sender.old.last
        (peers_resets sender.old.own peers.old) carrier.old carrier.new }
{
    for i in 0..peers.len() {
        let node = peers[i].vlr.node;
        peers[i].row.lose(sender, carrier, node);
    }
}

impl Sgsn {
    // The SGSN lost its marks: none is sure any more, and each VLR is told, in rising number.
    pub fn lose<C: InOrder>(&mut self, carrier: &mut C) -> Result<(), Denial>
        ensures { Does C.Carrier.takes C.Carrier.puts (λ s. AtOnce (lose_plan s))
            result self.old carrier.old self.new carrier.new }
    {
        if self.sender.is_worn() {
            return Err(Denial::Worn);
        }
        change_each(&mut self.places, self.held, &Doubt {});
        let peers = &mut self.peers[0..self.count];
        reset_all(peers, &mut self.sender, carrier);
        Ok(())
    }

    // One tick: of each record in order, and then toward each VLR in rising number.
    pub fn tick<C: InOrder>(&mut self, carrier: &mut C) -> Result<(), Denial>
        ensures { Does C.Carrier.takes C.Carrier.puts (λ s. AtOnce (tick_plan s))
            result self.old carrier.old self.new carrier.new }
    {
        if self.sender.is_worn() {
            return Err(Denial::Worn);
        }
        let contexts = &mut self.places[0..self.held];
        let peers = &mut self.peers[0..self.count];
        tick(contexts, peers, &mut self.sender, carrier);
        Ok(())
    }
}
