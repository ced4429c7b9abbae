// A slot of a mailbox: what it keeps for one pair of nodes.
ghost use Rattle.std.specs.Prelude.{◌≡◌, false};
ghost use Rattle.mailbox.specs.Slots.{slot, is_of, waits, waits_for, renewed, emptied};

use carrier::datagram::Datagram;
use carrier::route::Route;
use elements::node::NodeNumber;

// The first frame of highest stamp put for a pair, and the stamp last given of that pair, 0 for none. That is
// the number that the promise of order has where nothing was given: an Option would be made 0 again there.
// The frame waits while its stamp is the higher: an emptied slot keeps the frame given, and so its pair.
#[derive(Clone, Copy)]
pub struct Slot {
    pub frame: Datagram,
    pub given: u32,
}

// A blank, whose frame does not wait. By hand, since no datagram is one by default.
impl Default for Slot {
    ghost is_default = { λ e. waits e ≡ false };

    fn default() -> Slot {
        Slot::new(Datagram {
            octets: [0; 64],
            len: 11,
        })
    }
}

impl Slot {
    // For a new pair, of which nothing was given.
    pub(crate) fn new(frame: Datagram) -> Slot
        ensures { result ≡ slot frame 0 }
    {
        Slot { frame, given: 0 }
    }

    // Is it the slot of this pair?
    pub(crate) fn is_of(&self, route: Route) -> bool
        ensures { result ≡ is_of route.source route.destination self.now }
    {
        self.frame.route() == route
    }

    // Does its frame wait, or was it given?
    pub fn waits(&self) -> bool
        ensures { result ≡ waits self.now }
    {
        self.given < self.frame.stamp()
    }

    // Does its frame wait for this node?
    pub(crate) fn waits_for(&self, node: NodeNumber) -> bool
        ensures { result ≡ waits_for node self.now }
    {
        self.frame.destination() == node && self.waits()
    }

    // With this frame of its pair, if its stamp is higher. What was given stays here until then, so a frame
    // whose stamp is not above the last given is lost.
    pub(crate) fn renewed(self, frame: Datagram) -> Slot
        ensures { result ≡ renewed frame self }
    {
        if self.frame.stamp() < frame.stamp() {
            Slot {
                frame,
                given: self.given,
            }
        } else {
            self
        }
    }

    // With its frame given.
    pub(crate) fn emptied(self) -> Slot
        ensures { result ≡ emptied self }
    {
        Slot {
            frame: self.frame,
            given: self.frame.stamp(),
        }
    }
}
