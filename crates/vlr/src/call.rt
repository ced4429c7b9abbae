// The calls of a VLR as values, and what they are answered.
ghost use Rattle.std.specs.Prelude.{◌≡◌};
ghost use Rattle.station.specs.declared.receiving.Refusal.TheVariants.{Denied};
ghost use Rattle.station.specs.Calls.{handed_on};
ghost use Rattle.vlr.specs.declared.call.VlrAnswer.TheVariants as answer;
ghost use Rattle.vlr.specs.Calls.{call_course};
ghost use Rattle.vlr.specs.State.{Does};

use crate::vlr::Vlr;
use carrier::carrier::Carrier;
use carrier::in_order::InOrder;
use imsi::Imsi;
use station::denial::Denial;
use station::receiving::{Delivery, Refusal};
use std::fmt;

// Numbers and codes are as they come from outside: the VLR refuses what is none.
#[derive(Clone, Copy, Debug, PartialEq, Eq)]
pub enum VlrCall {
    Enrol {
        imsi: Imsi,
        home_cause: u8,
    },
    Page {
        imsi: Imsi,
        tmsi: Option<u32>,
        channel: Option<u8>,
    },
    Lose,
    Deliver,
    Tick,
}

#[derive(Clone, Copy, Debug, PartialEq, Eq)]
pub enum VlrAnswer {
    // the call was made, and has no more to tell
    Done,
    // what a delivery brought about
    Delivered(Delivery),
}

impl fmt::Display for VlrAnswer {
    fn fmt<W: fmt::Write>(&self, f: &mut fmt::Formatter<W>) -> fmt::Result {
        match self {
            VlrAnswer::Done => f.write_str("accepted"),
            VlrAnswer::Delivered(delivery) => write!(f, "{delivery}"),
        }
    }
}

// Of a call that has no more to tell than that it was made.
fn done(made: Result<(), Denial>) -> Result<VlrAnswer, Refusal>
    ensures { result ≡ handed_on (λ u. answer.Done) Denied made }
{
    made?;
    Ok(VlrAnswer::Done)
}

impl Vlr {
    // Makes the call, whichever it is.
    pub fn make<C: InOrder>(&mut self, carrier: &mut C, call: VlrCall) -> Result<VlrAnswer, Refusal>
        ensures { Does C.Carrier.takes C.Carrier.puts (call_course call)
            result self.old carrier.old self.new carrier.new }
    {
        match call {
            VlrCall::Enrol { imsi, home_cause } => done(self.enrol(imsi, home_cause)),
            VlrCall::Page {
                imsi,
                tmsi,
                channel,
            } => done(self.page(carrier, imsi, tmsi, channel)),
            VlrCall::Lose => done(self.lose(carrier)),
            VlrCall::Tick => done(self.tick(carrier)),
            VlrCall::Deliver => Ok(VlrAnswer::Delivered(self.deliver(carrier)?)),
        }
    }
}
