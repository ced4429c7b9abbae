// Half octets: the low half of each octet stands before its high half.
ghost use Rattle.std.specs.Prelude.{◌≡◌, ◌*◌, ◌<◌, ◌≤◌, length, take, drop, MatchOption};
ghost use Rattle.imsi.specs.Halves.{halves, paired};
ghost use Rattle.imsi.specs.Spelling.{valued, filled};

// A half octet above this is no digit.
const LAST_DIGIT: u8 = 9;

// A half octet as a digit, unless it is none.
fn digit(half: u8) -> Option<u8>
    ensures { MatchOption result (10 ≤ half) (λ d. (d ≡ half) × (d < 10)) }
{
    (half <= LAST_DIGIT).then_some(half)
}

// The number that the `count` halves after the first write in decimal, unless one is no digit. They are taken
// by octets: the high half of the first, both halves of those behind it, and the low half of the last where
// the count is even.
pub(crate) fn value_in(octets: &[u8], count: usize) -> Option<u64>
    requires inside { count < 2 * length octets.now }
    requires some { 1 ≤ count }
    requires few { count ≤ 15 }
    ensures { result ≡ valued 0 (take count (drop 1 (halves octets.now))) }
{
    let mut value = digit(octets[0] / 16)? as u64;
    for octet in &octets[1..(count + 1) / 2] {
        let low = digit(octet % 16)?;
        let high = digit(octet / 16)?;
        value = value * 100 + (low * 10 + high) as u64;
    }
    if count % 2 == 1 {
        return Some(value);
    }
    let last = digit(octets[count / 2] % 16)?;
    Some(value * 10 + last as u64)
}

// The octets that spell the last `digits` digits of `value`, FF in each place after them. They are made from
// the last one back, two digits at a time: only the last one of an even count, which has the filler, and the
// first, which has the marker, have one digit.
pub(crate) fn octets_from(digits: u8, value: u64) -> [u8; 8]
    requires some { 1 ≤ digits }
    requires few { digits ≤ 15 }
    ensures { result ≡ paired (filled digits value) }
{
    let mut octets = [255u8; 8];
    let mut left = value;
    if digits % 2 == 0 {
        octets[digits as usize / 2] = 240 + (left % 10) as u8;
        left /= 10;
    }
    for i in (1..(digits as usize + 1) / 2).rev() {
        let pair = (left % 100) as u8;
        octets[i] = pair / 10 + 16 * (pair % 10);
        left /= 100;
    }
    octets[0] = 1 + 8 * (digits % 2) + 16 * (left % 10) as u8;
    octets
}
