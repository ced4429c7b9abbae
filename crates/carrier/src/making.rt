// Datagrams made and looked at.
ghost use Rattle.std.specs.Prelude.{◌≡◌, ◌≤◌, length, take, IfErr};
ghost use Rattle.std.specs.Result.{result_ok};
ghost use Rattle.frames.specs.Format.{header_in};
ghost use Rattle.carrier.specs.Datagrams.{octets_in, travelling, carried};
ghost use Rattle.carrier.specs.Octets.{source_of, destination_of, stamp_of, route_of};

use crate::datagram::{Datagram, WrongLength};
use crate::route::Route;
use elements::node::NodeNumber;
use frames::frame::Header;
use frames::reading::header_in;

// What is shorter or longer is no frame, and no carrier takes it.
const SHORTEST: usize = 11;

const LONGEST: usize = 64;

// The octets, with zeros after them.
fn padded(octets: &[u8]) -> [u8; 64]
    requires { length octets.now ≤ 64 }
    ensures { take (length octets.now) result ≡ octets.now }
{
    let mut all = [0; 64];
    all[0..octets.len()].copy_from_slice(octets);
    all
}

// These octets as a datagram, if they are 11 to 64.
impl TryFrom<&[u8]> for Datagram {
    type Error = WrongLength;

    ghost try_from_gives = { λ o r. (carried (result_ok r) ≡ travelling o.now)
        × IfErr r (λ e. e.len ≡ length o.now) };

    fn try_from(octets: &[u8]) -> Result<Datagram, WrongLength> {
        let len = octets.len();
        if len < SHORTEST || len > LONGEST {
            return Err(WrongLength { len });
        }
        Ok(Datagram {
            octets: padded(octets),
            len,
        })
    }
}

impl Datagram {
    pub fn as_slice(&self) -> &[u8]
        ensures value { result.now ≡ octets_in self.now }
        ensures long { 11 ≤ length result.now }
    {
        &self.octets[0..self.len]
    }

    // What the octets say in front, lawful or not. Of the whole array, in which a header always has room, since
    // a carrier asks this of each frame that waits.
    fn header(&self) -> Header
        ensures { result ≡ header_in (octets_in self.now) }
    {
        header_in(&self.octets).unwrap()
    }

    // The node that the octets name as their source, lawful or not.
    pub fn source(&self) -> NodeNumber
        ensures { result ≡ source_of (octets_in self.now) }
    {
        self.header().source
    }

    // The node that the octets name as their destination, lawful or not.
    pub fn destination(&self) -> NodeNumber
        ensures { result ≡ destination_of (octets_in self.now) }
    {
        self.header().destination
    }

    pub fn route(&self) -> Route
        ensures { result ≡ route_of (octets_in self.now) }
    {
        Route {
            source: self.source(),
            destination: self.destination(),
        }
    }

    pub fn stamp(&self) -> u32
        ensures { result ≡ stamp_of (octets_in self.now) }
    {
        self.header().stamp
    }
}
