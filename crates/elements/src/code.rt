// Contents of one octet: which octet stands for which case.
ghost use Rattle.std.specs.Prelude.{◌≡◌, ℕ, if◌then◌else◌, Some, None, Option, nat_eq};
ghost use Rattle.elements.specs.Codes.{cause_octet, cause_in, update_octet, update_in, class_octet, class_in};
ghost use Rattle.elements.specs.Codes.{gprs_detach_octet, gprs_detach_in, imsi_detach_octet, imsi_detach_in};
ghost use Rattle.elements.specs.Codes.{reject_in, entity_in};
ghost use Rattle.elements.specs.Backs.{cause_back, update_back, class_back, gprs_back, imsi_back};
ghost use Rattle.elements.specs.Backs.{reject_back, entity_back};

use crate::node::NodeNumber;
use std::fmt;

// What fits one content octet: an octet for each value, and the value, if any, that an octet stands for.
// Not From and TryFrom: what is said of reading an element takes `value_in` as a function, and what those two
// give is said by relations.
pub trait Coded: Sized {
    ghost octet_of: { Self → ℕ };

    ghost value_in: { ℕ → Option Self };

    fn octet(self) -> u8
        ensures { result ≡ octet_of self };

    fn from_octet(octet: u8) -> Option<Self>
        ensures { result ≡ value_in octet };

    // No octet is read as a value that is written otherwise.
    ghost back: { (n : ℕ) (x : Self) → value_in n ≡ Some x → octet_of x ≡ n };
}

// Of two values the one that this octet stands for, 1 or 2.
// Written without a match, whose jump is mispredicted half the time.
fn either<T: Copy>(octet: u8, first: T, second: T) -> Option<T>
    ensures { result ≡ (if nat_eq octet 1 then Some first
        else (if nat_eq octet 2 then Some second else None)) }
{
    if octet < 1 || octet > 2 {
        return None;
    }
    Some(if octet == 1 { first } else { second })
}

// Five codes have two cases each. A trait of two cases with one impl over it would ask each code for as many
// lines as stand here: its two cases, its numbers, and what is proved of them.

// Why a mobile was not paged, or what became of it.
#[derive(Clone, Copy, Debug, PartialEq, Eq, Hash)]
pub enum Cause {
    NotAttached = 1,
    MovedToAnotherVlr = 2,
}

impl Coded for Cause {
    ghost octet_of = { cause_octet };

    ghost value_in = { cause_in };

    ghost back = { cause_back };

    fn octet(self) -> u8 {
        self as u8
    }

    fn from_octet(octet: u8) -> Option<Cause> {
        either(octet, Cause::NotAttached, Cause::MovedToAnotherVlr)
    }
}

#[derive(Clone, Copy, Debug, PartialEq, Eq, Hash)]
pub enum UpdateType {
    ImsiAttach = 1,
    Normal = 2,
}

impl Coded for UpdateType {
    ghost octet_of = { update_octet };

    ghost value_in = { update_in };

    ghost back = { update_back };

    fn octet(self) -> u8 {
        self as u8 // IMSI attach 1, normal 2
    }

    fn from_octet(octet: u8) -> Option<UpdateType> {
        either(octet, UpdateType::ImsiAttach, UpdateType::Normal)
    }
}

// The class of a mobile that uses packet and voice service: A both at once, B one at a time.
#[derive(Clone, Copy, Debug, PartialEq, Eq, Hash)]
pub enum Class {
    A = 1,
    B = 2,
}

impl Coded for Class {
    ghost octet_of = { class_octet };

    ghost value_in = { class_in };

    ghost back = { class_back };

    fn octet(self) -> u8 {
        self as u8
    }

    fn from_octet(octet: u8) -> Option<Class> {
        either(octet, Class::A, Class::B)
    }
}

#[derive(Clone, Copy, Debug, PartialEq, Eq, Hash)]
pub enum GprsDetachType {
    ByNetwork = 1,
    ByMobile = 2,
}

impl Coded for GprsDetachType {
    ghost octet_of = { gprs_detach_octet };

    ghost value_in = { gprs_detach_in };

    ghost back = { gprs_back };

    fn octet(self) -> u8 {
        self as u8 // by the network 1, by the mobile 2
    }

    fn from_octet(octet: u8) -> Option<GprsDetachType> {
        either(octet, GprsDetachType::ByNetwork, GprsDetachType::ByMobile)
    }
}

// Whether the sender of an IMSI detach wants it acknowledged.
#[derive(Clone, Copy, Debug, PartialEq, Eq, Hash)]
pub enum ImsiDetachType {
    Unacknowledged = 1,
    Acknowledged = 2,
}

impl Coded for ImsiDetachType {
    ghost octet_of = { imsi_detach_octet };

    ghost value_in = { imsi_detach_in };

    ghost back = { imsi_back };

    fn octet(self) -> u8 {
        self as u8
    }

    fn from_octet(octet: u8) -> Option<ImsiDetachType> {
        either(
            octet,
            ImsiDetachType::Unacknowledged,
            ImsiDetachType::Acknowledged,
        )
    }
}

// Why a location update was rejected: 1 to 255. A 0 can be held, and is not written.
#[derive(Clone, Copy, Debug, PartialEq, Eq, Hash, PartialOrd, Ord)]
pub struct RejectCause {
    pub number: u8,
}

impl Coded for RejectCause {
    ghost octet_of = { λ c. c.number };

    ghost value_in = { reject_in };

    ghost back = { λ n c e. (reject_back n c e).0 };

    fn octet(self) -> u8 {
        self.number
    }

    fn from_octet(octet: u8) -> Option<RejectCause> {
        (octet != 0).then_some(RejectCause { number: octet })
    }
}

// What the numbers mean is the affair of the VLR that rejects.
impl fmt::Display for RejectCause {
    fn fmt<W: fmt::Write>(&self, f: &mut fmt::Formatter<W>) -> fmt::Result {
        write!(f, "{}", self.number)
    }
}

// As the entity that a RESET names.
impl Coded for NodeNumber {
    ghost octet_of = { λ n. n.number };

    ghost value_in = { entity_in };

    ghost back = { λ n x e. (entity_back n x e).0 };

    fn octet(self) -> u8 {
        self.number
    }

    fn from_octet(octet: u8) -> Option<NodeNumber> {
        let node = NodeNumber { number: octet };
        node.is_lawful().then_some(node)
    }
}
