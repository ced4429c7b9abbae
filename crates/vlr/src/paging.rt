// Paging a mobile by way of its SGSN.
ghost use Rattle.station.specs.Calls.{AtOnce};
ghost use Rattle.vlr.specs.State.{Does};
ghost use Rattle.vlr.specs.Paging.{page_plan};

use crate::vlr::Vlr;
use carrier::carrier::Carrier;
use carrier::in_order::InOrder;
use directory::table::look;
use imsi::Imsi;
use messages::message::Message;
use station::denial::Denial;
use station::mark::Mark;
use station::sending::Outgoing;

// The channels that a mobile can be paged for are numbered from 0 to this.
const LAST_CHANNEL: u8 = 3;

impl Vlr {
    // Has the SGSN page a mobile, which it is sure to serve.
    pub fn page<C: InOrder>(
        &mut self,
        carrier: &mut C,
        imsi: Imsi,
        tmsi: Option<u32>,
        channel: Option<u8>,
    ) -> Result<(), Denial>
        ensures { Does C.Carrier.takes C.Carrier.puts (λ s. AtOnce (page_plan s imsi tmsi channel))
            result self.old carrier.old self.new carrier.new }
    {
        if self.sender.is_worn() {
            return Err(Denial::Worn);
        }
        if channel.is_some_and(|number| number > LAST_CHANNEL) {
            return Err(Denial::UnlistedCode);
        }
        if !imsi.is_lawful() {
            return Err(Denial::UnlawfulImsi);
        }
        let Some(record) = look(&self.places, self.held, imsi) else {
            return Err(Denial::NotEnrolled);
        };
        let Mark::Confirmed(_) = record.mark else {
            return Err(Denial::WrongMark);
        };
        let message = Message::Paging {
            imsi,
            tmsi,
            channel,
        };
        let outgoing = Outgoing {
            to: self.sgsn.node,
            answers: 0,
            message,
        };
        self.sender.send(carrier, outgoing);
        Ok(())
    }
}
