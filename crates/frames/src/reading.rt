// Octets to frames.
ghost use Rattle.std.specs.Prelude.{◌≡◌, ◌<◌, ◌≤◌, length, MatchOption, IfSome};
ghost use Rattle.frames.specs.Format.{header_in, header_read, frame_in, ReadsExactly, AlwaysExactly};

use crate::frame::{Frame, Header};
use elements::fault::{Fault, FaultKind};
use elements::node::NodeNumber;
use elements::reader::{Reader, number_at};
use messages::reading::{IN_FRAME, read_message};

// A frame has this many octets at least, its own ten and a message type, and this many at most.
const SHORTEST: usize = 11;

const LONGEST: usize = 64;

// What stands in front of the message, lawful or not, if there are so many octets.
pub fn header_in(octets: &[u8]) -> Option<Header>
    ensures value { MatchOption result (length octets.now < 10) (λ h. h ≡ header_in octets.now) }
    ensures there { IfSome result (λ _. 10 ≤ length octets.now) }
{
    if octets.len() < IN_FRAME {
        return None;
    }
    Some(Header {
        source: NodeNumber { number: octets[0] },
        destination: NodeNumber { number: octets[1] },
        stamp: number_at(octets, 2).unwrap(),
        answers: number_at(octets, 6).unwrap(),
    })
}

// Nodes and stamps, or the first fault among them.
fn header(octets: &[u8]) -> Result<Header, Fault>
    ensures { result ≡ header_read octets.now }
{
    let size = octets.len();
    if size < SHORTEST {
        return Err(FaultKind::FrameSize.at(size));
    }
    if size > LONGEST {
        return Err(FaultKind::FrameSize.at(LONGEST));
    }
    let header = header_in(octets).unwrap();
    if !header.source.is_lawful() {
        return Err(FaultKind::Nodes.at(0));
    }
    if !header.destination.is_lawful() {
        return Err(FaultKind::Nodes.at(1));
    }
    if header.source == header.destination {
        return Err(FaultKind::Nodes.at(0));
    }
    if header.stamp == 0 {
        return Err(FaultKind::Stamp.at(2));
    }
    Ok(header)
}

// Does nothing: whatever is so read is exactly what the octets spell.
fn spelt_exactly(octets: &[u8])
    ensures { AlwaysExactly octets.now }
{
    // that octets are below 256 is known of a slice that is looked at
    let _empty = octets.is_empty();
}

// The frame that these octets are, or the first fault.
pub fn read_frame(octets: &[u8]) -> Result<Frame, Fault>
    ensures value { result ≡ frame_in octets.now }
    ensures exactly { ReadsExactly octets.now result }
{
    spelt_exactly(octets);
    let Header {
        source,
        destination,
        stamp,
        answers,
    } = header(octets)?;
    let from = Reader {
        octets,
        at: IN_FRAME,
    };
    let message = read_message(from)?;
    Ok(Frame {
        source,
        destination,
        stamp,
        answers,
        message,
    })
}
