// One tick of a mobile's open request or detach.
ghost use Rattle.std.specs.Prelude.{◌≡◌, ◌+◌, ◌<◌};
ghost use Rattle.station.specs.Sends.{outgoing_in};
ghost use Rattle.context.specs.Few.{context_few};
ghost use Rattle.context.specs.Ticking.{expired, run_out, context_sends, context_ticked};

use crate::context::Context;
use crate::detaching::DETACH_TICKS;
use crate::errand::{Awaited, Errand, Open, Verdict};
use carrier::carrier::Carrier;
use carrier::in_order::InOrder;
use messages::message::Message;
use station::sending::{Outgoing, Sender};
use station::time::Timed;

impl Context {
    // No answer came in time, and nothing is told again: the VLR stays unsure.
    pub fn expired(self, pending: Open) -> Context
        ensures { result ≡ expired pending self }
    {
        Context {
            attached: self.attached && !matches!(pending.awaited, Awaited::GprsDetach { .. }),
            errand: Errand::Ended(Verdict::NotResponding),
            ..self
        }
    }

    // The timer ended: the detach is told again, with this stamp, while it can be, else all is over.
    fn run_out(self, pending: Open, stamp: u32) -> Context
        ensures { result ≡ run_out pending pending.awaited stamp self }
    {
        match pending.awaited {
            Awaited::GprsDetach { detach, repeats } if repeats > 0 => {
                let repeats = repeats - 1;
                let pending = Open {
                    stamp,
                    ticks: DETACH_TICKS,
                    awaited: Awaited::GprsDetach { detach, repeats },
                    ..pending
                };
                Context {
                    errand: Errand::Open(pending),
                    ..self
                }
            }
            _ => self.expired(pending),
        }
    }

    // The record after a tick, where the last stamp before it was this one.
    fn ticked(self, last: u32) -> Context
        ensures { last + 1 < 4294967296 → result ≡ context_ticked last self }
    {
        let Errand::Open(pending) = self.errand else {
            return self;
        };
        if pending.ticks <= 1 {
            return self.run_out(pending, last.saturating_add(1));
        }
        let pending = Open {
            ticks: pending.ticks - 1,
            ..pending
        };
        Context {
            errand: Errand::Open(pending),
            ..self
        }
    }

    // What a tick sends: a detach that is told again.
    fn tick_sends(self) -> Option<Outgoing>
        ensures { outgoing_in result ≡ context_sends self }
    {
        let Errand::Open(pending) = self.errand else {
            return None;
        };
        match pending.awaited {
            Awaited::GprsDetach { detach, repeats } if repeats > 0 && pending.ticks <= 1 => {
                let imsi = self.imsi;
                Some(Outgoing {
                    to: pending.vlr.node,
                    answers: 0,
                    message: Message::GprsDetachIndication { imsi, detach },
                })
            }
            _ => None,
        }
    }
}

impl Timed for Context {
    ghost ticked = { context_ticked };

    ghost sends = { context_sends };

    fn tick<C: InOrder>(self, sender: &mut Sender, carrier: &mut C) -> Context {
        let after = self.ticked(sender.last);
        if let Some(outgoing) = self.tick_sends() {
            sender.send(carrier, outgoing);
        }
        after
    }

    ghost few = { context_few };
}
