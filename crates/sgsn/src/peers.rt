// An SGSN's VLRs as a slice: which of them sent a frame, and what that does to what is kept of it.
ghost use Rattle.std.specs.Prelude.{◌≡◌, ◌<◌, length};
ghost use Rattle.std.specs.List.{position};
ghost use Rattle.station.specs.Rows.{reset_taken, acknowledged};
ghost use Rattle.sgsn.specs.Peers.{sent_it, row_changed_at};

use crate::peer::Peer;
use frames::frame::Frame;
use station::receiving::is_from;
use station::row::Row;

// Where the VLR stands that sent the frame, if it is one of these and the frame names no other.
pub(crate) fn place_of_sender(peers: &[Peer], frame: Frame) -> Option<usize>
    ensures { result ≡ position (sent_it frame) peers.now }
{
    peers.iter().position(|peer| is_from(frame, peer.vlr.node))
}

// The VLR at `i` sent a RESET with this stamp.
pub(crate) fn take_reset_at(peers: &mut [Peer], i: usize, stamp: u32)
    requires { i < length peers.old }
    ensures { peers.new ≡ row_changed_at i (λ r. reset_taken r stamp) peers.old }
{
    peers[i].row.take_reset(stamp);
}

// The VLR at `i` sent a RESET_ACKNOWLEDGE that answers this stamp.
pub(crate) fn take_acknowledgement_at(peers: &mut [Peer], i: usize, answers: u32)
    requires { i < length peers.old }
    ensures { peers.new ≡ row_changed_at i (λ r. acknowledged r answers) peers.old }
{
    peers[i].row.take_acknowledgement(answers);
}
