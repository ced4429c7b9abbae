// Calls by hand: whoever makes them keeps the reply that is owed, and settles it.
ghost use Rattle.std.specs.Prelude.{◌≡◌, ◌∷◌, IfOk, IfErr};
ghost use Rattle.station.specs.declared.denial.Denial.TheVariants as Denial;
ghost use Rattle.sgsn.specs.Awaiting.{SettledInTime};
ghost use Rattle.sgsn.specs.declared.call.SgsnCall.TheVariants as calls;
ghost use Rattle.sgsn.specs.Replies.{reply_to};
ghost use Rattle.sgsn.specs.State.{state_of};
ghost use Rattle.law.specs.Laws.{Law};
ghost use Rattle.law.specs.Steps.{Step, Came, Events};
ghost use Rattle.site.specs.ByHand.{own_call, asked, is_its, Settles, with_settling};
ghost use Rattle.site.specs.Sites.{view_of};

use crate::site::Site;
use carrier::carrier::Carrier;
use carrier::in_order::InOrder;
use context::errand::Verdict;
use context::kind::Request;
use imsi::Imsi;
use sgsn::reply::Reply;
use station::denial::Denial;

impl<C: InOrder> Site<C> {
    // Has a VLR serve a mobile.
    pub fn request(&mut self, imsi: Imsi, request: Request) -> Result<Reply, Denial>
        ensures step { Step C.Carrier.takes C.Carrier.puts
            (own_call (view_of self.old) (calls.Request imsi request)) (asked result)
            (view_of self.old) (view_of self.new) }
        ensures reply { IfOk result (λ reply. reply ≡ reply_to self.old.sgsn.sender.own imsi) }
        ensures law { (es : Events)
            → Came C.Carrier.waiting C.Carrier.takes C.Carrier.puts es (view_of self.old)
            → Law ((own_call (view_of self.old) (calls.Request imsi request), asked result) ∷ es)
            (view_of self.new) }
    {
        self.sgsn.request(&mut self.carrier, imsi, request)
    }

    // Ends a mobile's packet service, voice service, or both.
    pub fn detach(&mut self, imsi: Imsi, kind: u8) -> Result<Reply, Denial>
        ensures step { Step C.Carrier.takes C.Carrier.puts
            (own_call (view_of self.old) (calls.Detach imsi kind)) (asked result)
            (view_of self.old) (view_of self.new) }
        ensures reply { IfOk result (λ reply. reply ≡ reply_to self.old.sgsn.sender.own imsi) }
        ensures law { (es : Events)
            → Came C.Carrier.waiting C.Carrier.takes C.Carrier.puts es (view_of self.old)
            → Law ((own_call (view_of self.old) (calls.Detach imsi kind), asked result) ∷ es)
            (view_of self.new) }
    {
        self.sgsn.detach(&mut self.carrier, imsi, kind)
    }

    // Settles a reply, which is spent then. A denial hands it back.
    pub fn settle(&mut self, reply: Reply) -> Result<Verdict, (Denial, Reply)>
        ensures step { Settles C.Carrier.takes C.Carrier.puts reply result
            (view_of self.old) (view_of self.new) }
        ensures back { IfErr result (λ e. e.1 ≡ reply) }
        ensures law { (es : Events)
            → Came C.Carrier.waiting C.Carrier.takes C.Carrier.puts es (view_of self.old)
            → Law (with_settling (view_of self.old) (is_its reply (view_of self.old)) reply result es)
            (view_of self.new) }
    {
        self.sgsn.settle(reply)
    }

    // Settles a reply for whoever lets no more frames in: the SGSN ticks until its verdict is there, 32 times
    // at most.
    pub fn settle_in_time(&mut self, reply: Reply) -> Result<Verdict, (Denial, Reply)>
        ensures settled { SettledInTime C.Carrier.puts reply result
            (state_of self.old.sgsn) self.old.carrier (state_of self.new.sgsn) self.new.carrier }
        ensures denied { IfErr result (λ e. e ≡ (Denial.NoSuchReply, reply)) }
        ensures vlrs { self.new.vlrs ≡ self.old.vlrs }
        ensures law { (es : Events)
            → Came C.Carrier.waiting C.Carrier.takes C.Carrier.puts es (view_of self.old)
            → (fs : Events)
            × Came C.Carrier.waiting C.Carrier.takes C.Carrier.puts fs (view_of self.new)
            × Law fs (view_of self.new) }
    {
        self.sgsn.settle_in_time(&mut self.carrier, reply)
    }
}
