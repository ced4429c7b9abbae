// A voice register, and the carrier that it stands on.
use carrier::datagram::Datagram;
use carrier::in_order::InOrder;
use gate::carrying::Gate;
use queue::queue::Queue;
use station::receiving::Refusal;
use std::alloc::{AllocError, Global};
use vlr::call::{VlrAnswer, VlrCall};
use vlr::vlr::Vlr;

#[derive(Drop)]
pub(crate) struct Site {
    pub(crate) vlr: Vlr,
    carrier: Gate<Queue>,
}

impl Site {
    pub(crate) fn new(heap: Global, vlr: Vlr) -> Result<Site, AllocError> {
        let carrier = Gate::new(Queue::new(heap)?);
        Ok(Site { vlr, carrier })
    }

    pub(crate) fn make(&mut self, call: VlrCall) -> Result<VlrAnswer, Refusal> {
        self.vlr.make(&mut self.carrier, call)
    }

    // Octets come in from the net.
    pub(crate) fn put(&mut self, octets: &[u8]) {
        InOrder::put(&mut self.carrier, octets);
    }

    // What goes out to the SGSN next.
    pub(crate) fn outgoing(&mut self) -> Option<Datagram> {
        InOrder::take(&mut self.carrier, self.vlr.sgsn.node)
    }
}
