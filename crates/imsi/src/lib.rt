// The IMSI, a mobile's number: what is lawful, and the octets that spell it.
#![tactic(auto)]

ghost use Rattle.std.specs.Prelude.{◌≡◌};
ghost use Rattle.imsi.specs.Spelling.{lawful_imsi};

use std::fmt;

mod halves;
pub mod reading;
pub mod writing;

// The first number that takes more than 0, 1 .. 15 digits. A table, since every frame is held against it.
const LIMITS: [u64; 16] = [
    1,
    10,
    100,
    1000,
    10000,
    100000,
    1000000,
    10000000,
    100000000,
    1000000000,
    10000000000,
    100000000000,
    1000000000000,
    10000000000000,
    100000000000000,
    1000000000000000,
];

// A digit count and the number that the digits write. The count matters: 01 and 1 are two mobiles.
// Fewer digits come first, and of as many digits the smaller value.
// Any pair of numbers can be held here; `is_lawful` says whether it is an IMSI.
#[derive(Clone, Copy, Debug, PartialEq, Eq, PartialOrd, Ord)]
pub struct Imsi {
    pub digits: u8,
    pub value: u64,
}

impl Imsi {
    // 1 to 15 digits, and a value that they can write.
    pub fn is_lawful(self) -> bool
        ensures { result ≡ lawful_imsi self.digits self.value }
    {
        matches!(self.digits, 1..=15) && self.value < LIMITS[self.digits as usize]
    }
}

// All digits, so that 01 and 1 stay two mobiles.
impl fmt::Display for Imsi {
    fn fmt<W: fmt::Write>(&self, f: &mut fmt::Formatter<W>) -> fmt::Result {
        let value = self.value;
        let digits = self.digits as usize;
        write!(f, "{value:0digits$}")
    }
}
