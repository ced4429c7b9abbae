// What a line of hexadecimal octets holds, or why it holds none.
ghost use Rattle.std.specs.Prelude.{◌≡◌, ◌-◌, ◌≤◌, drop, replicate};

use thiserror::Error;

// The most octets of a line: twice the longest frame, so that a frame that is too long is still read,
// and answered as a frame with a fault, while a line needs no more than a fixed room.
pub const LONGEST: usize = 128;

// The octets of one line, the first `count` of `octets`, and zeros behind them, so that two of them are equal
// where the lines write the same. An array with its count, not an ArrayVec, so that they can be copied.
#[derive(Clone, Copy, PartialEq, Eq)]
pub struct LineOctets {
    pub(crate) octets: [u8; LONGEST],
    pub(crate) count: usize,
    ghost inside: { count ≤ 128 },
    ghost behind: { drop count octets ≡ replicate (128 - count) 0 },
}

#[derive(Clone, Copy, Debug, PartialEq, Eq, Error)]
pub enum BadLine {
    // a character that is neither a hexadecimal digit nor a blank
    #[error("not hexadecimal")]
    NotHexadecimal,
    // no blank may stand between the two digits of an octet
    #[error("a digit stands alone: an octet is two digits side by side")]
    OddDigits,
    #[error("more than {LONGEST} octets")]
    TooLong,
}
