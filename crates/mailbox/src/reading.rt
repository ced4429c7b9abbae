// Octets looked at: are they a frame?
ghost use Rattle.std.specs.Prelude.{◌≡◌};
ghost use Rattle.carrier.specs.Datagrams.{carried};
ghost use Rattle.mailbox.specs.Frames.{legible};

use carrier::datagram::Datagram;
use frames::reading::read_frame;

// These octets as a datagram, if they are a frame: a fault of either layer makes them none.
pub(crate) fn legible(octets: &[u8]) -> Option<Datagram>
    ensures { carried result ≡ legible octets.now }
{
    read_frame(octets).ok()?;
    Datagram::try_from(octets).ok()
}
