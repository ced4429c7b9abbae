// Elements in words: a code is its number and its meaning.
use crate::hexadecimal::Hex;
use crate::in_words::InWords;
use elements::area::LocationArea;
use elements::code::{Cause, Class, Coded, GprsDetachType, ImsiDetachType, UpdateType};
use std::fmt;

impl fmt::Display for InWords<LocationArea> {
    fn fmt<W: fmt::Write>(&self, f: &mut fmt::Formatter<W>) -> fmt::Result {
        let area = Hex {
            octets: &self.0.octets,
            between: "",
        };
        write!(f, "{area}")
    }
}

// What a code means. Its octet stands in front of that in words.
pub(crate) trait Meaning: Coded + Copy {
    fn meaning(self) -> &'static str;
}

impl<T: Meaning> fmt::Display for InWords<T> {
    fn fmt<W: fmt::Write>(&self, f: &mut fmt::Formatter<W>) -> fmt::Result {
        let InWords(code) = *self;
        write!(f, "{} ({})", code.octet(), code.meaning())
    }
}

impl Meaning for Cause {
    fn meaning(self) -> &'static str {
        match self {
            Cause::NotAttached => "not attached",
            Cause::MovedToAnotherVlr => "moved to another VLR",
        }
    }
}

impl Meaning for UpdateType {
    fn meaning(self) -> &'static str {
        match self {
            UpdateType::ImsiAttach => "IMSI attach",
            UpdateType::Normal => "normal",
        }
    }
}

impl Meaning for Class {
    fn meaning(self) -> &'static str {
        match self {
            Class::A => "A",
            Class::B => "B",
        }
    }
}

impl Meaning for GprsDetachType {
    fn meaning(self) -> &'static str {
        match self {
            GprsDetachType::ByNetwork => "by the network",
            GprsDetachType::ByMobile => "by the mobile",
        }
    }
}

impl Meaning for ImsiDetachType {
    fn meaning(self) -> &'static str {
        match self {
            ImsiDetachType::Unacknowledged => "unacknowledged",
            ImsiDetachType::Acknowledged => "acknowledged",
        }
    }
}
