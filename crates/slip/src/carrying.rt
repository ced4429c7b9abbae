// How a slip carrier carries.
ghost use Rattle.std.specs.Prelude.{◌≡◌, [], drop, IfOk, slice_index};
ghost use Rattle.std.proofs.Common.{sym, subst};
ghost use Rattle.carrier.specs.Datagrams.{carried};
ghost use Rattle.queue.specs.Lists.{added};
ghost use Rattle.queue.specs.Model.{frames_of};
ghost use Rattle.slip.specs.Lists.{answer_by, left_by};
ghost use Rattle.slip.specs.Modes.{mode_of};
ghost use Rattle.slip.specs.Scripts.{octets_left};
ghost use Rattle.carrier.specs.Waiting.{Adds, Gives, Leaves};
ghost use Rattle.queue.specs.Laws;
ghost use Rattle.slip.specs.Laws as ProofsLaws;

use crate::newest::{peek, take_newest};
use crate::script::{Mode, Script};
use carrier::carrier::Carrier;
use carrier::datagram::Datagram;
use elements::node::NodeNumber;
use queue::queue::Queue;
use std::alloc::{AllocError, Global};

#[derive(Drop)]
pub struct Slip {
    pub queue: Queue,
    pub script: Script,
}

// One take of the queue, as the mode says. A match, since the script says modes by numbers: closures would
// stand in a table under the same numbers.
fn take_by(queue: &mut Queue, mode: Mode, node: NodeNumber) -> Option<Datagram>
    ensures answer { carried result ≡ answer_by mode node (frames_of queue.old) }
    ensures left { frames_of queue.new ≡ left_by mode node (frames_of queue.old) }
{
    match mode {
        Mode::GiveOldest => queue.take(node),
        Mode::GiveNewest => take_newest(queue, node),
        Mode::GiveAndKeepOldest => peek(queue, node),
        Mode::LoseOldest => {
            let _lost = queue.take(node);
            None
        }
    }
}

impl Slip {
    pub fn new(heap: Global, script: &[u8]) -> Result<Slip, AllocError>
        ensures { IfOk result (λ s. (frames_of s.queue ≡ []) × (octets_left s.script ≡ script.now)) }
    {
        let queue = Queue::new(heap)?;
        let script = Script::new(heap, script)?;
        Ok(Slip { queue, script })
    }
}

impl Carrier for Slip {
    ghost waiting = { λ s. frames_of s.queue };

    ghost puts = { λ s f t. (frames_of t.queue ≡ added f (frames_of s.queue))
        × (octets_left t.script ≡ octets_left s.script) };

    // The mode is that of the next octet of the script, which is spent.
    ghost takes = { λ s n r t.
        (r ≡ answer_by (mode_of (slice_index (octets_left s.script) 0)) n (frames_of s.queue))
        × (frames_of t.queue ≡ left_by (mode_of (slice_index (octets_left s.script) 0)) n (frames_of s.queue))
        × (octets_left t.script ≡ drop 1 (octets_left s.script)) };

    ghost adds = { λ s f t p.
        subst (Adds (frames_of s.queue) f) (sym p.0) (Laws.adds f (frames_of s.queue)) };

    ghost gives = { λ s n r t p. subst (Gives (frames_of s.queue) n) (sym p.0)
        (ProofsLaws.gives (mode_of (slice_index (octets_left s.script) 0)) n (frames_of s.queue)) };

    ghost leaves = { λ s n r t p. subst (Leaves (frames_of s.queue)) (sym p.1)
        (ProofsLaws.leaves (mode_of (slice_index (octets_left s.script) 0)) n (frames_of s.queue)) };

    fn put(&mut self, octets: &[u8]) {
        self.queue.put(octets);
    }

    fn take(&mut self, node: NodeNumber) -> Option<Datagram> {
        let mode = Mode::from(self.script.next());
        take_by(&mut self.queue, mode, node)
    }
}
