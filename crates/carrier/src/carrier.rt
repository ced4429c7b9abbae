// What every carrier promises.
ghost use Rattle.std.specs.Prelude.{ℕ, List, Option};
ghost use Rattle.elements.specs.declared.node.NodeNumber.{NodeNumber as Node};
ghost use Rattle.carrier.specs.Datagrams.{carried};
ghost use Rattle.carrier.specs.Waiting.{Adds, Gives, Leaves};

use crate::datagram::Datagram;
use elements::node::NodeNumber;

// A carrier's meaning is the frames that wait in it. It may lose, keep and shuffle them.
// What exactly a put and a take of one make do, its own relations `puts` and `takes` say; whoever uses a
// carrier promises a chain of them, so that a frame that is never put is missed even where all may be lost.
pub trait Carrier {
    ghost waiting: { Self → List (List ℕ) };

    ghost puts: { Self → List ℕ → Self → Type 0 };

    ghost takes: { Self → Node → Option (List ℕ) → Self → Type 0 };

    // Octets not 11 to 64 in number are lost.
    fn put(&mut self, octets: &[u8])
        ensures { puts self.old octets.now self.new };

    fn take(&mut self, node: NodeNumber) -> Option<Datagram>
        ensures { takes self.old node (carried result) self.new };

    ghost adds: { (s : Self) (f : List ℕ) (t : Self) → puts s f t → Adds (waiting s) f (waiting t) };

    ghost gives: { (s : Self) (n : Node) (r : Option (List ℕ)) (t : Self)
        → takes s n r t → Gives (waiting s) n r };

    ghost leaves: { (s : Self) (n : Node) (r : Option (List ℕ)) (t : Self)
        → takes s n r t → Leaves (waiting s) (waiting t) };
}
