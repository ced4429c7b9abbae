// How a queue carries.
ghost use Rattle.std.specs.Prelude.{◌≡◌, [], IfOk};
ghost use Rattle.std.proofs.Common.{sym, subst};
ghost use Rattle.queue.specs.Lists.{place, first_for, without_first, added};
ghost use Rattle.queue.specs.Model.{frames_of};
ghost use Rattle.carrier.specs.Waiting.{Adds, Gives, Leaves};
ghost use Rattle.queue.specs.Laws;

use crate::queue::Queue;
use carrier::carrier::Carrier;
use carrier::datagram::Datagram;
use elements::node::NodeNumber;
use std::alloc::{AllocError, Global};

// A queue is full with so many frames.
const FULL: usize = 512;

// Where the oldest frame for a node stands.
pub fn oldest(frames: &[Datagram], node: NodeNumber) -> Option<usize>
    ensures { result ≡ place node frames.now }
{
    frames.iter().position(|frame| frame.destination() == node)
}

impl Queue {
    pub fn new(heap: Global) -> Result<Queue, AllocError>
        ensures { IfOk result (λ q. frames_of q ≡ []) }
    {
        let frames = Vec::with_capacity(heap, FULL)?;
        Ok(Queue { frames })
    }
}

impl Carrier for Queue {
    ghost waiting = { frames_of };

    // The frame stands behind all others, unless the queue is full or it is no frame.
    ghost puts = { λ s f t. frames_of t ≡ added f (frames_of s) };

    // The node's oldest frame, which no longer waits.
    ghost takes = { λ s n r t. (r ≡ first_for n (frames_of s))
        × (frames_of t ≡ without_first n (frames_of s)) };

    ghost adds = { λ s f t p. subst (Adds (frames_of s) f) (sym p) (Laws.adds f (frames_of s)) };

    ghost gives = { λ s n r t p. subst (Gives (frames_of s) n) (sym p.0) (Laws.gives n (frames_of s)) };

    ghost leaves = { λ s n r t p. subst (Leaves (frames_of s)) (sym p.1) (Laws.leaves n (frames_of s)) };

    fn put(&mut self, octets: &[u8]) {
        if self.frames.len() < FULL {
            if let Ok(frame) = Datagram::try_from(octets) {
                let _ = self.frames.push(frame);
            }
        }
    }

    fn take(&mut self, node: NodeNumber) -> Option<Datagram> {
        let i = oldest(&self.frames, node)?;
        Some(self.frames.remove(i))
    }
}
