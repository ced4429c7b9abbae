// What a carrier promises that gives frames in order.
ghost use Rattle.std.specs.Prelude.{ℕ, List, Option};
ghost use Rattle.elements.specs.declared.node.NodeNumber.{NodeNumber as Node};
ghost use Rattle.carrier.specs.Datagrams.{carried};
ghost use Rattle.carrier.specs.Order.{Stamps, Still, Moves};
ghost use Rattle.carrier.specs.Waiting.{Adds, Gives, Leaves};

use crate::carrier::Carrier;
use crate::datagram::Datagram;
use elements::node::NodeNumber;

// A frame given has a higher stamp than all given before from its source to its node. The stamp last given, 0
// when new, is moved only by a frame given. Its put and take are its own, so that their contracts name the
// frames that wait and the stamps.
pub trait InOrder: Carrier {
    ghost last_given: { Self → Stamps };

    fn put(&mut self, octets: &[u8])
        ensures puts { Self.Carrier.puts self.old octets.now self.new }
        ensures waiting { Adds (Self.Carrier.waiting self.old) octets.now (Self.Carrier.waiting self.new) }
        ensures stamps { Still (last_given self.old) (last_given self.new) }
    {
        Carrier::put(self, octets)
    }

    fn take(&mut self, node: NodeNumber) -> Option<Datagram>
        ensures takes { Self.Carrier.takes self.old node (carried result) self.new }
        ensures given { Gives (Self.Carrier.waiting self.old) node (carried result) }
        ensures waiting { Leaves (Self.Carrier.waiting self.old) (Self.Carrier.waiting self.new) }
        ensures stamps { Moves (last_given self.old) (carried result) (last_given self.new) }
    {
        Carrier::take(self, node)
    }

    ghost still: { (s : Self) (f : List ℕ) (t : Self)
        → Self.Carrier.puts s f t → Still (last_given s) (last_given t) };

    ghost moves: { (s : Self) (n : Node) (r : Option (List ℕ)) (t : Self)
        → Self.Carrier.takes s n r t → Moves (last_given s) r (last_given t) };
}
