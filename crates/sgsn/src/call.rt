// The calls of an SGSN as values, and what they are answered.
ghost use Rattle.std.specs.Prelude.{◌≡◌};
ghost use Rattle.station.specs.declared.receiving.Refusal.TheVariants.{Denied};
ghost use Rattle.station.specs.Calls.{handed_on};
ghost use Rattle.sgsn.specs.declared.call.SgsnAnswer.TheVariants as answer;
ghost use Rattle.sgsn.specs.Calls.{call_course};
ghost use Rattle.sgsn.specs.State.{Does};

use crate::sgsn::Sgsn;
use carrier::carrier::Carrier;
use carrier::in_order::InOrder;
use context::errand::Verdict;
use context::kind::Request;
use imsi::Imsi;
use station::denial::Denial;
use station::receiving::{Delivery, Refusal};
use std::fmt;

// Numbers and codes are as they come from outside: the SGSN refuses what is none.
#[derive(Clone, Copy, Debug, PartialEq, Eq)]
pub enum SgsnCall {
    Enrol { imsi: Imsi, class: u8 },
    Attach { imsi: Imsi },
    Request { imsi: Imsi, request: Request },
    Detach { imsi: Imsi, kind: u8 },
    // settles by what the mobile's record keeps
    Settle { imsi: Imsi },
    Lose,
    Deliver,
    Tick,
}

#[derive(Clone, Copy, Debug, PartialEq, Eq)]
pub enum SgsnAnswer {
    // the call was made, and has no more to tell
    Done,
    // a settled reply
    Verdict(Verdict),
    // what a delivery brought about
    Delivered(Delivery),
}

impl fmt::Display for SgsnAnswer {
    fn fmt<W: fmt::Write>(&self, f: &mut fmt::Formatter<W>) -> fmt::Result {
        match self {
            SgsnAnswer::Done => f.write_str("accepted"),
            SgsnAnswer::Verdict(verdict) => write!(f, "{verdict}"),
            SgsnAnswer::Delivered(delivery) => write!(f, "{delivery}"),
        }
    }
}

// Of a call that has no more to tell than that it was made.
fn done(made: Result<(), Denial>) -> Result<SgsnAnswer, Refusal>
    ensures { result ≡ handed_on (λ u. answer.Done) Denied made }
{
    made?;
    Ok(SgsnAnswer::Done)
}

impl Sgsn {
    // Makes the call, whichever it is.
    pub fn make<C: InOrder>(
        &mut self,
        carrier: &mut C,
        call: SgsnCall,
    ) -> Result<SgsnAnswer, Refusal>
        ensures { Does C.Carrier.takes C.Carrier.puts (call_course call)
            result self.old carrier.old self.new carrier.new }
    {
        match call {
            SgsnCall::Enrol { imsi, class } => done(self.enrol(imsi, class)),
            SgsnCall::Attach { imsi } => done(self.attach(imsi)),
            SgsnCall::Request { imsi, request } => done(self.open_request(carrier, imsi, request)),
            SgsnCall::Detach { imsi, kind } => done(self.open_detach(carrier, imsi, kind)),
            SgsnCall::Settle { imsi } => Ok(SgsnAnswer::Verdict(self.settle_by_record(imsi)?)),
            SgsnCall::Lose => done(self.lose(carrier)),
            SgsnCall::Tick => done(self.tick(carrier)),
            SgsnCall::Deliver => Ok(SgsnAnswer::Delivered(self.deliver(carrier)?)),
        }
    }
}
