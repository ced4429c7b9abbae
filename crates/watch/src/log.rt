// What was seen of a carrier.
ghost use Rattle.std.specs.Prelude.{◌≡◌, []};
ghost use Rattle.watch.specs.Events.{event_of, events_of, Logged};

use carrier::datagram::Datagram;
use elements::node::NodeNumber;
use std::alloc::Global;

#[derive(Clone, Copy)]
pub enum Sighting {
    // a frame was put
    Put(Datagram),
    // a node took, and was given this, if anything
    Take {
        node: NodeNumber,
        given: Option<Datagram>,
    },
}

// What was seen, the earliest first, and how often there was no memory to keep it. What is missed is counted,
// since a carrier must not fail for being watched.
#[derive(Drop)]
pub struct Log {
    pub sightings: Vec<Sighting>,
    pub missed: u64,
}

impl Log {
    pub fn new(heap: Global) -> Log
        ensures events { events_of result ≡ [] }
        ensures missed { result.missed ≡ 0 }
    {
        Log {
            sightings: Vec::new(heap),
            missed: 0,
        }
    }

    pub fn note(&mut self, sighting: Sighting)
        ensures { Logged (event_of sighting) self.old self.new }
    {
        if self.sightings.push(sighting).is_err() {
            self.missed = self.missed.saturating_add(1);
        }
    }
}
