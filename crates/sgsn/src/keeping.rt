// Keeping the record of a mobile that has one, and sending what goes with it.
ghost use Rattle.std.specs.Prelude.{◌≡◌, true, is_some};
ghost use Rattle.std.specs.List.{list_all};
ghost use Rattle.station.specs.Sends.{HasStamps, Sent, may_go, outgoing_in};
ghost use Rattle.context.specs.Contexts.{whose};
ghost use Rattle.sgsn.specs.Fitting.{fits_in};
ghost use Rattle.sgsn.specs.State.{state_of, vlrs_of, record_at, with_context, with_sent};

use crate::sgsn::Sgsn;
use carrier::carrier::Carrier;
use carrier::in_order::InOrder;
use context::context::Context;
use directory::table::{look, store};
use imsi::Imsi;
use station::sending::Outgoing;

impl Sgsn {
    // The record of a mobile, if there is one.
    pub(crate) fn record_of(&self, imsi: Imsi) -> Option<Context>
        ensures { result ≡ record_at (state_of self.now) imsi }
    {
        look(&self.places, self.held, imsi)
    }

    // Keeps a record over the one of its mobile.
    pub(crate) fn keep(&mut self, context: Context)
        requires held { is_some (record_at (state_of self.old) (whose context)) ≡ true }
        requires fits { fits_in (vlrs_of (state_of self.old)) context ≡ true }
        ensures { state_of self.new ≡ with_context (state_of self.old) context }
    {
        if let Some(held) = store(&mut self.places, self.held, context) {
            self.held = held;
        }
    }

    // Keeps a record over the one of its mobile, and sends a message if there is one.
    pub(crate) fn keep_and_send<C: InOrder>(
        &mut self,
        carrier: &mut C,
        context: Context,
        outgoing: Option<Outgoing>,
    )
        requires held { is_some (record_at (state_of self.old) (whose context)) ≡ true }
        requires fits { fits_in (vlrs_of (state_of self.old)) context ≡ true }
        requires stamps { HasStamps 1 self.old.sender }
        requires may { list_all (may_go self.old.sender.own) (outgoing_in outgoing) ≡ true }
        ensures state { state_of self.new ≡ with_sent (state_of self.old) context (outgoing_in outgoing) }
        ensures sent { Sent C.Carrier.puts self.old.sender.own self.old.sender.last
            (outgoing_in outgoing) carrier.old carrier.new }
    {
        self.keep(context);
        if let Some(message) = outgoing {
            self.sender.send(carrier, message);
        }
    }
}
