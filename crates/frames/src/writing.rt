// Frames to octets.
ghost use Rattle.std.specs.Prelude.{◌≡◌, ◌≤◌, ◌++◌, length, drop};
ghost use Rattle.frames.specs.Format.{lawful_nodes, header_octets};
ghost use Rattle.frames.specs.Writing.{frame_written, frame_left, ReadBack};

use crate::frame::Frame;
use elements::fault::{Fault, FaultKind};
use elements::node::NodeNumber;
use messages::writing::{Place, write_message};

// May a frame go between these nodes?
fn may_go(source: NodeNumber, destination: NodeNumber) -> bool
    ensures { result ≡ lawful_nodes source destination }
{
    source.is_lawful() && destination.is_lawful() && source != destination
}

// Puts nodes and stamps at the front of the buffer.
fn put_header(frame: Frame, buffer: &mut [u8])
    requires { 10 ≤ length buffer.old }
    ensures { buffer.new
        ≡ header_octets frame.source frame.destination frame.stamp frame.answers ++ drop 10 buffer.old }
{
    buffer[0] = frame.source.number;
    buffer[1] = frame.destination.number;
    buffer[2..6].copy_from_slice(&frame.stamp.to_be_bytes());
    buffer[6..10].copy_from_slice(&frame.answers.to_be_bytes());
}

// Writes the frame at the front of the buffer, and answers how many octets it has.
pub fn write_frame(frame: Frame, buffer: &mut [u8]) -> Result<usize, Fault>
    ensures value { result ≡ frame_written frame buffer.old }
    ensures octets { buffer.new ≡ frame_left frame buffer.old }
    ensures back { ReadBack frame buffer.new result }
{
    if !may_go(frame.source, frame.destination) {
        return Err(FaultKind::Nodes.at(0));
    }
    if frame.stamp == 0 {
        return Err(FaultKind::Stamp.at(0));
    }
    let end = write_message(frame.message, buffer, Place::InFrame)?;
    put_header(frame, buffer);
    Ok(end)
}
