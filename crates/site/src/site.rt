// A site.
ghost use Rattle.std.specs.Prelude.{◌≡◌, ◌∷◌};
ghost use Rattle.law.specs.declared.call.Call.TheVariants as calls;
ghost use Rattle.law.specs.Laws.{Law};
ghost use Rattle.law.specs.Steps.{Step, Came, Events};
ghost use Rattle.site.specs.Sites.{view_of};

use crate::registers::make_by;
use carrier::carrier::Carrier;
use carrier::in_order::InOrder;
use elements::node::{SgsnNumber, VlrNumber};
use law::call::{Answer, Call};
use sgsn::call::SgsnCall;
use sgsn::sgsn::Sgsn;
use vlr::call::VlrCall;
use vlr::vlr::Vlr;

// The VLRs are those that the SGSN was made with, each made for it, in rising number.
#[derive(Drop)]
pub struct Site<C> {
    pub(crate) sgsn: Sgsn,
    pub(crate) vlrs: Vec<Vlr>,
    pub(crate) carrier: C,
}

impl<C: InOrder> Site<C> {
    // The SGSN, to be read: its table is what planners are given.
    pub fn sgsn(&self) -> &Sgsn
        ensures { result.now ≡ self.now.sgsn }
    {
        &self.sgsn
    }

    // The VLRs, in rising number.
    pub fn vlrs(&self) -> &[Vlr]
        ensures { result.now ≡ self.now.vlrs.items }
    {
        &self.vlrs
    }

    // What carries the frames.
    pub fn carrier(&self) -> &C
        ensures { result.now ≡ self.now.carrier }
    {
        &self.carrier
    }

    // A call of the SGSN with this number, if it is here.
    fn at_sgsn(&mut self, number: SgsnNumber, call: SgsnCall) -> Answer
        ensures { Step C.Carrier.takes C.Carrier.puts (calls.Sgsn number call) result
            (view_of self.old) (view_of self.new) }
    {
        if self.sgsn.sender.own == number.node {
            Answer::Sgsn(self.sgsn.make(&mut self.carrier, call))
        } else {
            Answer::NoSuchNode
        }
    }

    // A call of the VLR with this number, if it is here.
    fn at_vlr(&mut self, number: VlrNumber, call: VlrCall) -> Answer
        ensures { Step C.Carrier.takes C.Carrier.puts (calls.Vlr number call) result
            (view_of self.old) (view_of self.new) }
    {
        make_by(&mut self.vlrs, number, &mut self.carrier, call)
    }

    fn step(&mut self, call: Call) -> Answer
        ensures { Step C.Carrier.takes C.Carrier.puts call result (view_of self.old) (view_of self.new) }
    {
        match call {
            Call::Sgsn(number, call) => self.at_sgsn(number, call),
            Call::Vlr(number, call) => self.at_vlr(number, call),
        }
    }

    // One call, whichever it is. The law: however the site came to be so from a new one, it holds after this
    // call, too.
    pub fn make(&mut self, call: Call) -> Answer
        ensures step { Step C.Carrier.takes C.Carrier.puts call result (view_of self.old) (view_of self.new) }
        ensures law { (es : Events)
            → Came C.Carrier.waiting C.Carrier.takes C.Carrier.puts es (view_of self.old)
            → Law ((call, result) ∷ es) (view_of self.new) }
    {
        self.step(call)
    }
}
