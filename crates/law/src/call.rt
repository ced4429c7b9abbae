// The calls of a site as plain values, and what they are answered.
ghost use Rattle.std.specs.Prelude.{◌≡◌};
ghost use Rattle.law.specs.Counts.{accepted};

use elements::node::{SgsnNumber, VlrNumber};
use sgsn::call::{SgsnAnswer, SgsnCall};
use station::receiving::Refusal;
use std::fmt;
use vlr::call::{VlrAnswer, VlrCall};

// A call names its end by that end's own kind of number.
#[derive(Clone, Copy, Debug, PartialEq, Eq)]
pub enum Call {
    Sgsn(SgsnNumber, SgsnCall),
    Vlr(VlrNumber, VlrCall),
}

#[derive(Clone, Copy, Debug, PartialEq, Eq)]
pub enum Answer {
    Sgsn(Result<SgsnAnswer, Refusal>),
    Vlr(Result<VlrAnswer, Refusal>),
    // no such node is here
    NoSuchNode,
}

impl Answer {
    // The node is here, and made the call, if only to find that what came is no frame.
    pub fn is_accepted(self) -> bool
        ensures { result ≡ accepted self }
    {
        !matches!(
            self,
            Answer::Sgsn(Err(Refusal::Denied(_)))
                | Answer::Vlr(Err(Refusal::Denied(_)))
                | Answer::NoSuchNode
        )
    }
}

impl fmt::Display for Answer {
    fn fmt<W: fmt::Write>(&self, f: &mut fmt::Formatter<W>) -> fmt::Result {
        match self {
            Answer::Sgsn(Ok(answer)) => write!(f, "{answer}"),
            Answer::Vlr(Ok(answer)) => write!(f, "{answer}"),
            Answer::Sgsn(Err(refusal)) | Answer::Vlr(Err(refusal)) => write!(f, "{refusal}"),
            Answer::NoSuchNode => f.write_str("no such node here"),
        }
    }
}
