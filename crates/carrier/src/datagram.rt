// Octets as they travel: 11 to 64 of them.
ghost use Rattle.std.specs.Prelude.{◌≡◌, ◌≤◌};

use std::error::Error;
use std::fmt;

// The first `len` of `octets`. An array with its length beside, not an ArrayVec, whose copies are Results:
// carriers keep a datagram and give it at once, and copying one must not fail.
#[derive(Clone, Copy)]
pub struct Datagram {
    pub octets: [u8; 64],
    pub len: usize,
    ghost low: { 11 ≤ len },
    ghost high: { len ≤ 64 },
}

// So many octets are no datagram.
#[derive(Clone, Copy, Debug, PartialEq, Eq)]
pub struct WrongLength {
    pub len: usize,
}

impl fmt::Display for WrongLength {
    fn fmt<W: fmt::Write>(&self, f: &mut fmt::Formatter<W>) -> fmt::Result {
        write!(f, "{} octets are no datagram, which has 11 to 64", self.len)
    }
}

impl Error for WrongLength {}
