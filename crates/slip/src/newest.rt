// A queue taken from the wrong end, or only looked at.
ghost use Rattle.std.specs.Prelude.{◌≡◌};
ghost use Rattle.carrier.specs.Datagrams.{carried};
ghost use Rattle.queue.specs.Lists.{first_for};
ghost use Rattle.queue.specs.Model.{frames_of};
ghost use Rattle.slip.specs.Lists.{Newest, last_for, without_last};

use carrier::datagram::Datagram;
use elements::node::NodeNumber;
use queue::carrying::oldest;
use queue::queue::Queue;

// Where the newest frame for a node stands.
fn newest(frames: &[Datagram], node: NodeNumber) -> Option<usize>
    ensures { Newest node frames.now result }
{
    frames.iter().rposition(|frame| frame.destination() == node)
}

// The node's oldest frame, which goes on waiting.
pub fn peek(queue: &Queue, node: NodeNumber) -> Option<Datagram>
    ensures { carried result ≡ first_for node (frames_of queue.now) }
{
    let i = oldest(&queue.frames, node)?;
    Some(queue.frames[i])
}

// The node's newest frame, which no longer waits.
pub fn take_newest(queue: &mut Queue, node: NodeNumber) -> Option<Datagram>
    ensures answer { carried result ≡ last_for node (frames_of queue.old) }
    ensures left { frames_of queue.new ≡ without_last node (frames_of queue.old) }
{
    let i = newest(&queue.frames, node)?;
    Some(queue.frames.remove(i))
}
