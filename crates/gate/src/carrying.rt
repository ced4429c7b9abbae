// How the gate carries.
ghost use Rattle.std.specs.Prelude.{◌≡◌, []};
ghost use Rattle.std.proofs.Common.{sym, subst, ap, ⊎_elim};
ghost use Rattle.carrier.specs.Datagrams.{octets_in, carried};
ghost use Rattle.carrier.specs.Order.{NoneGiven};
ghost use Rattle.gate.specs.Passing.{Gated, Passed};
ghost use Rattle.gate.specs.Rows.{rows_of, last_given_in};
ghost use Rattle.carrier.specs.Waiting.{Empty, Gives};
ghost use Rattle.gate.specs.Moving.{passed, moved};

use crate::pairs::Pairs;
use carrier::carrier::Carrier;
use carrier::datagram::Datagram;
use carrier::in_order::InOrder;
use carrier::route::Route;
use elements::node::NodeNumber;
use frames::reading::read_frame;

// The carrier below is held by value, and asked once for each take.
#[derive(Drop)]
pub struct Gate<C> {
    pub below: C,
    pub pairs: Pairs,
}

impl<C: Carrier> Gate<C> {
    pub fn new(below: C) -> Gate<C>
        ensures below { result.below ≡ below }
        ensures pairs { rows_of result.pairs ≡ [] }
        ensures empty { Empty (C.Carrier.waiting below) → Empty (C.Carrier.waiting result.below) }
        ensures stamps { NoneGiven (last_given_in (rows_of result.pairs)) }
    {
        let pairs = Pairs::new();
        Gate { below, pairs }
    }
}

// What the gate lets through of what came from below: a frame that reads, above the stamp last given of its
// pair, of a pair that is among the first 16.
fn pass(pairs: &mut Pairs, came: Option<Datagram>) -> Option<Datagram>
    ensures { Passed (rows_of pairs.old) (carried came) (carried result) (rows_of pairs.new) }
{
    let datagram = came?;
    let frame = read_frame(datagram.as_slice()).ok()?;
    // By the frame that was read: it is what the promise of order speaks of.
    let route = Route {
        source: frame.source,
        destination: frame.destination,
    };
    pairs.note(route, frame.stamp).then_some(datagram)
}

impl<C: Carrier> Carrier for Gate<C> {
    ghost waiting = { λ g. C.Carrier.waiting g.below };

    ghost puts = { λ g f h. C.Carrier.puts g.below f h.below × (h.pairs ≡ g.pairs) };

    ghost takes = { λ g n r h.
        Gated C.Carrier.takes g.below (rows_of g.pairs) n r h.below (rows_of h.pairs) };

    ghost adds = { λ s f t p. C.Carrier.adds s.below f t.below p.0 };

    ghost gives = { λ s n r t (came, p, q).
        let w = C.Carrier.waiting s.below in
        ⊎_elim (λ e. subst (Gives w n) (sym e) (C.Carrier.gives s.below n came t.below p))
        (λ e. subst (Gives w n) (sym e) tt) (passed _ _ came r q) };

    ghost leaves = { λ s n r t (came, p, q). C.Carrier.leaves s.below n came t.below p };

    fn put(&mut self, octets: &[u8]) {
        self.below.put(octets);
    }

    fn take(&mut self, node: NodeNumber) -> Option<Datagram> {
        let came = self.below.take(node);
        pass(&mut self.pairs, came)
    }
}

impl<C: Carrier> InOrder for Gate<C> {
    ghost last_given = { λ g. last_given_in (rows_of g.pairs) };

    ghost still = { λ s f t p a b. ap (λ x. last_given_in (rows_of x) a b) p.1 };

    ghost moves = { λ s n r t (came, p, q). moved (rows_of s.pairs) (rows_of t.pairs) came r q };
}
