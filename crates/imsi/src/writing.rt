// Digits to octets.
ghost use Rattle.std.specs.Prelude.{◌≡◌};
ghost use Rattle.imsi.specs.Written.{written_of, ReadBack};

use crate::Imsi;
use crate::halves::octets_from;

// The octets that spell an IMSI are the first `count`; every octet after them is FF. An array with its count,
// not an ArrayVec, so that they can be copied.
#[derive(Clone, Copy, Debug, PartialEq, Eq)]
pub struct ImsiOctets {
    pub octets: [u8; 8],
    pub count: usize,
}

// The octets that spell `imsi`, or nothing where it is unlawful.
pub fn octets_of(imsi: Imsi) -> Option<ImsiOctets>
    ensures value { result ≡ written_of imsi }
    ensures back { ReadBack imsi result }
{
    if !imsi.is_lawful() {
        return None;
    }
    Some(ImsiOctets {
        octets: octets_from(imsi.digits, imsi.value),
        count: imsi.digits as usize / 2 + 1,
    })
}
