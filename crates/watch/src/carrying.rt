// How a watched carrier carries.
ghost use Rattle.std.specs.Prelude.{◌≡◌, []};
ghost use Rattle.carrier.specs.Datagrams.{carried, travelling};
ghost use Rattle.watch.specs.Events.{taken, events_of, Logged, LoggedPut};

use crate::log::{Log, Sighting};
use carrier::carrier::Carrier;
use carrier::datagram::Datagram;
use carrier::in_order::InOrder;
use elements::node::NodeNumber;
use std::alloc::Global;

// The carrier below is held by value, and does each put and take.
#[derive(Drop)]
pub struct Watched<C> {
    pub below: C,
    pub log: Log,
}

impl<C: Carrier> Watched<C> {
    pub fn new(heap: Global, below: C) -> Watched<C>
        ensures below { result.below ≡ below }
        ensures events { events_of result.log ≡ [] }
        ensures empty { C.Carrier.waiting below ≡ [] → C.Carrier.waiting result.below ≡ [] }
    {
        let log = Log::new(heap);
        Watched { below, log }
    }
}

impl<C: Carrier> Carrier for Watched<C> {
    ghost waiting = { λ w. C.Carrier.waiting w.below };

    // As below, and what was put is noted.
    ghost puts = { λ v f w. C.Carrier.puts v.below f w.below × LoggedPut (travelling f) v.log w.log };

    // As below, and what was given is noted.
    ghost takes = { λ v n r w. C.Carrier.takes v.below n r w.below × Logged (taken n r) v.log w.log };

    ghost adds = { λ s f t p. C.Carrier.adds s.below f t.below p.0 };

    ghost gives = { λ s n r t p. C.Carrier.gives s.below n r t.below p.0 };

    ghost leaves = { λ s n r t p. C.Carrier.leaves s.below n r t.below p.0 };

    fn put(&mut self, octets: &[u8]) {
        self.below.put(octets);
        if let Ok(frame) = Datagram::try_from(octets) {
            self.log.note(Sighting::Put(frame));
        }
    }

    fn take(&mut self, node: NodeNumber) -> Option<Datagram> {
        let given = self.below.take(node);
        self.log.note(Sighting::Take { node, given });
        given
    }
}

impl<C: InOrder> InOrder for Watched<C> {
    ghost last_given = { λ w. C.InOrder.last_given w.below };

    ghost still = { λ s f t p. C.InOrder.still s.below f t.below p.0 };

    ghost moves = { λ s n r t p. C.InOrder.moves s.below n r t.below p.0 };
}
