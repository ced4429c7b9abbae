// Waiting for a mobile's verdict by ticks alone.
ghost use Rattle.std.specs.Prelude.{◌≡◌, IfErr};
ghost use Rattle.sgsn.specs.State.{state_of};
ghost use Rattle.sgsn.specs.Awaiting.{is_awaited, Waited, SettledInTime};

use crate::reply::Reply;
use crate::sgsn::Sgsn;
use carrier::carrier::Carrier;
use carrier::in_order::InOrder;
use context::errand::Verdict;
use station::denial::Denial;

impl Sgsn {
    // Does this SGSN owe the reply, and is its verdict still to come?
    fn is_awaited(&self, reply: &Reply) -> bool
        ensures { result ≡ is_awaited (state_of self.now) reply.now }
    {
        reply.owed_by().node == self.sender.own
            && !self.sender.is_worn()
            && self
                .record_of(reply.owed_to())
                .is_some_and(|context| context.errand.is_open())
    }

    // Ticks until the verdict is there. No tick is denied before, since a worn SGSN has its verdict.
    fn wait<C: InOrder>(&mut self, carrier: &mut C, reply: &Reply)
        ensures { Waited C.Carrier.puts reply.now
            (state_of self.old) carrier.old (state_of self.new) carrier.new }
    {
        while self.is_awaited(reply) {
            let _ = self.tick(carrier);
        }
    }

    // Settles a reply for whoever lets no more frames in: ticks until its verdict is there, 32 times at most.
    pub fn settle_in_time<C: InOrder>(
        &mut self,
        carrier: &mut C,
        reply: Reply,
    ) -> Result<Verdict, (Denial, Reply)>
        ensures settled { SettledInTime C.Carrier.puts reply result
            (state_of self.old) carrier.old (state_of self.new) carrier.new }
        ensures denied { IfErr result (λ e. e ≡ (Denial.NoSuchReply, reply)) }
    {
        self.wait(carrier, &reply);
        self.settle(reply)
    }
}
