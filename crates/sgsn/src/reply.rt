// The reply that is owed to a mobile.
ghost use Rattle.std.specs.Prelude.{◌≡◌};
ghost use Rattle.sgsn.specs.Replies.{reply_to, owed_by, owed_to};

use elements::node::{NodeNumber, SgsnNumber};
use imsi::Imsi;

// Which SGSN owes it, and which mobile is to have it: the mobile's number by its digits and its
// value. Whoever has one can hand it on, but not copy it or let it go: only the SGSN that owes it
// takes it back, when it is settled.
#[derive(Debug)]
pub struct Reply {
    sgsn: u8,
    digits: u8,
    value: u64,
}

impl Reply {
    pub(crate) fn new(sgsn: NodeNumber, imsi: Imsi) -> Reply
        ensures { result ≡ reply_to sgsn imsi }
    {
        Reply {
            sgsn: sgsn.number,
            digits: imsi.digits,
            value: imsi.value,
        }
    }

    // The SGSN that owes it.
    pub fn owed_by(&self) -> SgsnNumber
        ensures { result ≡ owed_by self.now }
    {
        SgsnNumber {
            node: NodeNumber { number: self.sgsn },
        }
    }

    // The mobile that it is owed to.
    pub fn owed_to(&self) -> Imsi
        ensures { result ≡ owed_to self.now }
    {
        Imsi {
            digits: self.digits,
            value: self.value,
        }
    }

    // It was settled.
    pub(crate) fn spend(self) {
        let Reply {
            sgsn: _,
            digits: _,
            value: _,
        } = self;
    }
}
