// What is printed of the site at work.
use crate::heading::Heading;
use crate::ladder::{Fate, Rung};
use crate::place::{Made, Place};
use crate::table::{Count, HEAD, Row, marked};
use crate::tally::Event;
use elements::node::SgsnNumber;
use law::call::{Answer, Call};
use sgsn::call::SgsnCall;
use station::mark::Mark;
use std::io;
use vlr::call::VlrCall;

// So many ticks after its call at most, a request or detach has its verdict.
const LAST_TICKS: usize = 32;

impl Place {
    // Makes a call and shows it.
    pub(crate) fn call(
        &mut self,
        rt: &HostRuntime,
        heading: Heading<'_>,
        call: Call,
    ) -> io::Result<Answer> {
        let made = self.make(call);
        if !self.is_quiet(heading, call, made.answer) {
            println!(rt; "{heading}: {made}")?;
        }
        self.tally.note(if made.answer.is_accepted() {
            Event::Accepted
        } else {
            Event::Refused
        });
        self.show_frames(rt, made)?;
        Ok(made.answer)
    }

    // A tick that sends nothing, and is not the last of several.
    fn is_quiet(&self, heading: Heading<'_>, call: Call, answer: Answer) -> bool {
        let is_last = match heading {
            Heading::Line { .. } | Heading::LastSettle(_) => true,
            Heading::Turn { turn, .. } => turn.nth == turn.of,
            Heading::LastTick(_) => !self.awaits_verdict(),
        };
        let is_tick = matches!(
            call,
            Call::Sgsn(_, SgsnCall::Tick) | Call::Vlr(_, VlrCall::Tick)
        );
        is_tick && !is_last && answer.is_accepted() && self.unseen().is_empty()
    }

    // What became of frames in this call.
    fn show_frames(&mut self, rt: &HostRuntime, made: Made) -> io::Result<()> {
        for i in 0..self.unseen().len() {
            if let Some(rung) = self.rung(i, made) {
                println!(rt; "{rung}")?;
                self.tally.note(rung.fate.event());
            }
        }
        self.all_seen();
        Ok(())
    }

    // Ticks until each verdict stands, and settles what is owed.
    pub(crate) fn settle_all(&mut self, rt: &HostRuntime) -> io::Result<()> {
        let number = SgsnNumber {
            node: self.sgsn().sender.own,
        };
        for i in 0..LAST_TICKS {
            if !self.awaits_verdict() {
                break;
            }
            self.call(
                rt,
                Heading::LastTick(i + 1),
                Call::Sgsn(number, SgsnCall::Tick),
            )?;
        }
        for i in 0..self.sgsn().table().len() {
            if let Some(imsi) = self.owed(i) {
                let call = Call::Sgsn(number, SgsnCall::Settle { imsi });
                self.call(rt, Heading::LastSettle(imsi), call)?;
            }
        }
        Ok(())
    }

    // What waits, the SGSN's table, and the tally.
    pub(crate) fn show_end(&self, rt: &HostRuntime) -> io::Result<()> {
        println!(rt; "frames that wait: {}", self.waiting().len())?;
        for datagram in self.waiting() {
            println!(rt; "{}", self.rung_of(Fate::Sent, *datagram))?;
        }
        self.show_table(rt)?;
        if self.missed() > 0 {
            println!(rt; "frames not shown, for want of memory: {}", self.missed())?;
        }
        println!(rt; "{}", self.tally)
    }

    fn show_table(&self, rt: &HostRuntime) -> io::Result<()> {
        let table = self.sgsn().table();
        println!(rt; "{HEAD}")?;
        for context in table {
            let at_vlr = self.mark_at_vlr(*context);
            println!(rt;
                "{}",
                Row {
                    context: *context,
                    at_vlr
                }
            )?;
        }
        for peer in self.sgsn().peers() {
            println!(rt; "{}", Count::at(peer.vlr, table))?;
        }
        println!(rt; "no VLR: {}", marked(table, Mark::None))
    }
}
