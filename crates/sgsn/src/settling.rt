// Settling what a mobile is owed.
ghost use Rattle.std.specs.Prelude.{◌≡◌};
ghost use Rattle.station.specs.Sends.{is_worn};
ghost use Rattle.sgsn.specs.State.{Decides};
ghost use Rattle.sgsn.specs.Settling.{settle_move, settle_plan, reply_plan, handing_back};

use crate::reply::Reply;
use crate::sgsn::Sgsn;
use context::context::Context;
use context::errand::{Errand, Verdict};
use imsi::Imsi;
use station::denial::Denial;

impl Sgsn {
    // The verdict for the mobile with this record, and the record when nothing is owed any more. A worn SGSN
    // hears of no other verdict than that the VLR did not respond: what is open expires for the last time.
    fn verdict_for(&self, context: Context) -> Result<(Verdict, Context), Denial>
        ensures { result ≡ settle_move (is_worn self.now.sender.last) context.errand context }
    {
        match context.errand {
            Errand::Idle => Err(Denial::NoSuchReply),
            Errand::Open(pending) if self.sender.is_worn() => {
                Ok((Verdict::NotResponding, context.expired(pending).idle()))
            }
            Errand::Open(_) => Err(Denial::NoVerdict),
            Errand::Ended(verdict) => Ok((verdict, context.idle())),
        }
    }

    // Settles what is owed to a mobile by what its record keeps, where nobody keeps the reply.
    pub fn settle_by_record(&mut self, imsi: Imsi) -> Result<Verdict, Denial>
        ensures { Decides (λ s. settle_plan s imsi) result self.old self.new }
    {
        let Some(context) = self.record_of(imsi) else {
            return Err(Denial::NoSuchReply);
        };
        let (verdict, after) = self.verdict_for(context)?;
        self.keep(after);
        Ok(verdict)
    }

    // Settles a reply, which is spent then. A denial hands it back.
    pub fn settle(&mut self, reply: Reply) -> Result<Verdict, (Denial, Reply)>
        ensures { Decides (λ s. handing_back reply (reply_plan s reply)) result self.old self.new }
    {
        if reply.owed_by().node != self.sender.own {
            return Err((Denial::NoSuchReply, reply));
        }
        match self.settle_by_record(reply.owed_to()) {
            Ok(verdict) => {
                reply.spend();
                Ok(verdict)
            }
            Err(denial) => Err((denial, reply)),
        }
    }
}
