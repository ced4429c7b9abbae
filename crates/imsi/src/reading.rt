// Octets to digits.
ghost use Rattle.std.specs.Prelude.{◌≡◌};
ghost use Rattle.imsi.specs.Spelling.{imsi_in, ReadsExactly};

use crate::halves::value_in;

// An IMSI has at most this many octets.
const LONGEST: usize = 8;
// The first half octet for an odd and for an even count of digits, and the filler behind an even count.
const ODD: u8 = 9;

const EVEN: u8 = 1;

const FILLER: u8 = 15;

// The digit count and the value, by the marker, the count of octets and the filler.
fn digits_by_marker(octets: &[u8]) -> Option<(u8, u64)>
    ensures { result ≡ imsi_in octets.now }
{
    let size = octets.len();
    if size < 1 || size > LONGEST {
        return None;
    }
    let count = match octets[0] % 16 {
        ODD => 2 * size - 1,
        EVEN if size > 1 && octets[size - 1] / 16 == FILLER => 2 * size - 2,
        _ => return None,
    };
    Some((count as u8, value_in(octets, count)?))
}

// The digit count and the value that these octets spell, the pair from which an `Imsi` is made, or
// nothing where they spell no IMSI.
pub fn digits_in(octets: &[u8]) -> Option<(u8, u64)>
    ensures value { result ≡ imsi_in octets.now }
    ensures exactly { ReadsExactly octets.now result }
{
    digits_by_marker(octets)
}
