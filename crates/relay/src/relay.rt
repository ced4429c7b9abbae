// The carriers that a script can name.
use crate::command::{Base, Make};
use carrier::carrier::Carrier;
use carrier::datagram::Datagram;
use elements::node::NodeNumber;
use gate::carrying::Gate;
use mailbox::mailbox::Mailbox;
use nowhere::Nowhere;
use queue::queue::Queue;
use slip::carrying::Slip;
use std::alloc::{AllocError, Global};

// An enum, not a boxed dyn carrier, which no function may hand out; and a trait's impls
// would be longer than three matches.
#[derive(Drop)]
pub(crate) enum Relay {
    Queue(Queue),
    Slip(Slip),
    GateOverQueue(Gate<Queue>),
    GateOverSlip(Gate<Slip>),
    Mailbox(Mailbox),
    Nowhere(Nowhere),
}

// The frames that wait in a mailbox. A slot keeps its frame when it is given,
// and then the frame does not wait.
fn held(heap: Global, mailbox: &Mailbox) -> Result<Vec<Datagram>, AllocError> {
    mailbox
        .slots
        .iter()
        .filter(|slot| slot.waits())
        .map(|slot| slot.frame)
        .collect(heap)
}

impl Relay {
    pub(crate) fn new(heap: Global, make: &Make) -> Result<Relay, AllocError> {
        Ok(match make {
            Make::Base(Base::Queue) => Relay::Queue(Queue::new(heap)?),
            Make::Base(Base::Slip(script)) => Relay::Slip(Slip::new(heap, script)?),
            Make::Gate(Base::Queue) => Relay::GateOverQueue(Gate::new(Queue::new(heap)?)),
            Make::Gate(Base::Slip(script)) => {
                Relay::GateOverSlip(Gate::new(Slip::new(heap, script)?))
            }
            Make::Mailbox => Relay::Mailbox(Mailbox::new()),
            Make::Nowhere => Relay::Nowhere(Nowhere {}),
        })
    }

    pub(crate) fn put(&mut self, octets: &[u8]) {
        match self {
            Relay::Queue(queue) => queue.put(octets),
            Relay::Slip(slip) => slip.put(octets),
            Relay::GateOverQueue(gate) => gate.put(octets),
            Relay::GateOverSlip(gate) => gate.put(octets),
            Relay::Mailbox(mailbox) => mailbox.put(octets),
            Relay::Nowhere(nowhere) => nowhere.put(octets),
        }
    }

    pub(crate) fn take(&mut self, node: NodeNumber) -> Option<Datagram> {
        match self {
            Relay::Queue(queue) => queue.take(node),
            Relay::Slip(slip) => slip.take(node),
            Relay::GateOverQueue(gate) => gate.take(node),
            Relay::GateOverSlip(gate) => gate.take(node),
            Relay::Mailbox(mailbox) => mailbox.take(node),
            Relay::Nowhere(nowhere) => nowhere.take(node),
        }
    }

    // What waits in the carrier; below a gate.
    pub(crate) fn waiting(&self, heap: Global) -> Result<Vec<Datagram>, AllocError> {
        match self {
            Relay::Queue(queue) => queue.frames.to_vec(heap),
            Relay::Slip(slip) => slip.queue.frames.to_vec(heap),
            Relay::GateOverQueue(gate) => gate.below.frames.to_vec(heap),
            Relay::GateOverSlip(gate) => gate.below.queue.frames.to_vec(heap),
            Relay::Mailbox(mailbox) => held(heap, mailbox),
            Relay::Nowhere(_) => Ok(Vec::new(heap)),
        }
    }
}
