// Time at an end: its records tick in order, and then what it keeps of its peers.
ghost use Rattle.std.specs.Prelude.{◌≡◌, ◌+◌, ◌≤◌, ℕ, List, true, length};
ghost use Rattle.std.specs.List.{list_all};
ghost use Rattle.elements.specs.declared.node.NodeNumber.{NodeNumber as Node};
ghost use Rattle.station.specs.declared.sending.Outgoing.{Outgoing};
ghost use Rattle.station.specs.Sends.{HasStamps, Sent, may_go};
ghost use Rattle.station.specs.Ticks.{CanReach};
ghost use Rattle.station.specs.Times.{record_clock, peer_clock, CanTick, AllTicked};

use crate::sending::Sender;
use carrier::carrier::Carrier;
use carrier::in_order::InOrder;

// A record with a timer. `ticked n r` is the record r after a tick where the last stamp was n,
// and `sends r` what that sends.
pub trait Timed: Copy {
    ghost ticked: { ℕ → Self → Self };

    ghost sends: { Self → List Outgoing };

    fn tick<C: InOrder>(self, sender: &mut Sender, carrier: &mut C) -> Self
        ensures value { HasStamps 1 sender.old → result ≡ ticked sender.old.last self }
        ensures own { sender.new.own ≡ sender.old.own }
        ensures last { HasStamps 1 sender.old → sender.new.last ≡ sender.old.last + length (sends self) }
        ensures sent { HasStamps 1 sender.old → list_all (may_go sender.old.own) (sends self) ≡ true
            → Sent C.Carrier.puts sender.old.own sender.old.last (sends self) carrier.old carrier.new };

    // One frame at most.
    ghost few: { (r : Self) → length (sends r) ≤ 1 };
}

// What an end keeps of one of its peers, beside records of mobiles. A tick can send a RESET again, and
// `doubts` is what that makes of the records.
pub trait TimedPeer<R> {
    ghost node: { Self → Node };

    ghost ticked: { Node → ℕ → Self → Self };

    ghost sends: { Node → Self → List Outgoing };

    ghost doubts: { Self → List R → List R };

    fn tick<C: InOrder>(&mut self, records: &mut [R], sender: &mut Sender, carrier: &mut C)
        ensures peer { CanReach (node self.old) 2 sender.old
            → self.new ≡ ticked sender.old.own sender.old.last self.old }
        ensures records { records.new ≡ doubts self.old records.old }
        ensures own { sender.new.own ≡ sender.old.own }
        ensures last { CanReach (node self.old) 2 sender.old
            → sender.new.last ≡ sender.old.last + length (sends sender.old.own self.old) }
        ensures sent { CanReach (node self.old) 2 sender.old
            → Sent C.Carrier.puts sender.old.own sender.old.last (sends sender.old.own self.old)
            carrier.old carrier.new };

    // Two frames at most.
    ghost few: { (n : Node) (p : Self) → length (sends n p) ≤ 2 };
}

// One tick of these records, in order, and then toward these peers, in order.
pub fn tick<R: Timed, P: TimedPeer<R>, C: InOrder>(
    records: &mut [R],
    peers: &mut [P],
    sender: &mut Sender,
    carrier: &mut C,
)
    ensures own { sender.new.own ≡ sender.old.own }
    ensures ticked { let a = record_clock R.ticked R.sends in
        let b = peer_clock P.node P.ticked P.sends in
        CanTick a b sender.old records.old peers.old
        → AllTicked a b P.doubts C.Carrier.puts sender.old records.old peers.old carrier.old
        sender.new records.new peers.new carrier.new }
{
    for i in 0..records.len() {
        records[i] = records[i].tick(sender, carrier);
    }
    for i in 0..peers.len() {
        peers[i].tick(records, sender, carrier);
    }
}
