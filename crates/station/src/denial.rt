// Why a call is denied.
ghost use Rattle.std.specs.Prelude.{◌≡◌};
ghost use Rattle.station.specs.Denials.{denial_number};

use std::error::Error;
use std::fmt;

// In the order in which the questions are asked. The first no denies the call, and the call then changes
// nothing. What each means, its text says.
#[derive(Clone, Copy, Debug, PartialEq, Eq)]
pub enum Denial {
    Worn = 1,
    UnlistedCode = 2,
    // no IMSI: not 1 to 15 digits, or a value that they cannot write
    UnlawfulImsi = 3,
    NotNew = 4,
    NoPlace = 5,
    NotEnrolled = 6,
    // the mobile has no voice service
    WrongClass = 7,
    NotItsVlr = 8,
    ReplyOwed = 9,
    NotAttached = 10,
    WrongMark = 11,
    NoSuchReply = 12,
    NoVerdict = 13,
    // the node numbers are not lawful and different, or there are too many or too few
    WrongNumbers = 14,
}

impl Denial {
    // The number by which users know this denial.
    pub fn number(self) -> u8
        ensures { result ≡ denial_number self }
    {
        self as u8
    }

    fn reason(self) -> &'static str {
        match self {
            Denial::Worn => "the end is worn, it has hardly a stamp left",
            Denial::UnlistedCode => "a code is not listed",
            Denial::UnlawfulImsi => "the IMSI has not 1 to 15 digits",
            Denial::NotNew => "the mobile is enrolled already",
            Denial::NoPlace => "the mobile is not held, and no place is free",
            Denial::NotEnrolled => "the mobile is not enrolled here",
            Denial::WrongClass => "the mobile is not of class A or B",
            Denial::NotItsVlr => "the VLR is not this SGSN's",
            Denial::ReplyOwed => "a reply is owed to the mobile",
            Denial::NotAttached => "the mobile is not attached",
            Denial::WrongMark => "the mark does not allow it",
            Denial::NoSuchReply => "no such reply is owed here",
            Denial::NoVerdict => "there is no verdict yet",
            Denial::WrongNumbers => "the node numbers are not lawful and different",
        }
    }
}

// The number for a program, and the reason for a person.
impl fmt::Display for Denial {
    fn fmt<W: fmt::Write>(&self, f: &mut fmt::Formatter<W>) -> fmt::Result {
        write!(f, "denied {}: {}", self.number(), self.reason())
    }
}

impl Error for Denial {}
