// How a mailbox carries.
ghost use Rattle.std.specs.Prelude.{◌≡◌, []};
ghost use Rattle.std.proofs.Common.{sym, subst, ap};
ghost use Rattle.carrier.specs.Order.{NoneGiven};
ghost use Rattle.mailbox.specs.Model.{slots_of, Puts, Takes};
ghost use Rattle.mailbox.specs.Slots.{is_of, waits_for, place, held_in, last_given_in, noted};
ghost use Rattle.mailbox.specs.Waiting;
ghost use Rattle.carrier.specs.Waiting.{Empty, Gives, Leaves};
ghost use Rattle.mailbox.specs.Order;

use crate::mailbox::Mailbox;
use crate::reading::legible;
use crate::slot::Slot;
use arrayvec::ArrayVec;
use carrier::carrier::Carrier;
use carrier::datagram::Datagram;
use carrier::in_order::InOrder;
use carrier::route::Route;
use elements::node::NodeNumber;

impl Mailbox {
    pub fn new() -> Mailbox
        ensures slots { slots_of result ≡ [] }
        ensures empty { Empty (held_in (slots_of result)) }
        ensures stamps { NoneGiven (last_given_in (slots_of result)) }
    {
        Mailbox {
            slots: ArrayVec::new(),
        }
    }

    // Where the slot of a route stands.
    fn slot_of(&self, route: Route) -> Option<usize>
        ensures { result ≡ place (is_of route.source route.destination) (slots_of self.now) }
    {
        self.slots.iter().position(|slot| slot.is_of(route))
    }

    // Where the first slot stands whose frame waits for a node.
    fn first_for(&self, node: NodeNumber) -> Option<usize>
        ensures { result ≡ place (waits_for node) (slots_of self.now) }
    {
        self.slots.iter().position(|slot| slot.waits_for(node))
    }

    // Puts a frame that was read.
    fn note(&mut self, frame: Datagram)
        ensures { slots_of self.new ≡ noted frame (slots_of self.old) }
    {
        match self.slot_of(frame.route()) {
            Some(i) => {
                let slot = self.slots[i];
                self.slots[i] = slot.renewed(frame);
            }
            None => {
                if !self.slots.is_full() {
                    self.slots.push(Slot::new(frame));
                }
            }
        }
    }
}

impl Carrier for Mailbox {
    ghost waiting = { λ m. held_in (slots_of m) };

    // The frame is noted in the slot of its pair, or in a new one, or lost.
    ghost puts = { λ s f t. Puts (slots_of s) f (slots_of t) };

    // The first frame that waits for the node, which no longer waits.
    ghost takes = { λ s n r t. Takes (slots_of s) n r (slots_of t) };

    ghost adds = { λ s f t p. Waiting.adds (slots_of s) (slots_of t) f p };

    ghost gives = { λ s n r t p.
        subst (Gives (held_in (slots_of s)) n) (sym p.0) (Waiting.gives n (slots_of s)) };

    ghost leaves = { λ s n r t p.
        subst (Leaves (held_in (slots_of s))) (sym (ap held_in p.1)) (Waiting.leaves n (slots_of s)) };

    fn put(&mut self, octets: &[u8]) {
        if let Some(frame) = legible(octets) {
            self.note(frame);
        }
    }

    fn take(&mut self, node: NodeNumber) -> Option<Datagram> {
        let i = self.first_for(node)?;
        let slot = self.slots[i];
        self.slots[i] = slot.emptied();
        Some(slot.frame)
    }
}

impl InOrder for Mailbox {
    ghost last_given = { λ m. last_given_in (slots_of m) };

    ghost still = { λ s f t p. Order.still (slots_of s) (slots_of t) f p };

    ghost moves = { λ s n r t p. Order.moves (slots_of s) (slots_of t) n r s.pairs p };
}
