// The shift, line by line.
use crate::command::{Command, Numbers, command_in, text_in};
use crate::deed::{Deed, Times};
use crate::heading::{Heading, Turn};
use crate::mistake::{LineError, Mistake};
use crate::place::Place;
use elements::node::NodeNumber;
use site::making::SiteError;
use std::alloc::Global;
use words::counting::count;

#[derive(Drop)]
pub(crate) struct Bench {
    // of lines, by `count`, which stays at the largest number: `enumerate` would ask for a proof that the
    // lines end before it
    number: u64,
    script: Vec<u8>,
    place: Option<Place>,
}

impl Bench {
    pub(crate) fn new(heap: Global) -> Bench {
        Bench {
            number: 0,
            script: Vec::new(heap),
            place: None,
        }
    }

    // Does what the next line asks for, or shows why it cannot.
    pub(crate) fn line(&mut self, rt: &HostRuntime, line: &[u8]) -> Result<(), LineError> {
        count(&mut self.number);
        match self.follow(rt, line) {
            Err(LineError::Mistake(mistake)) => {
                println!(rt; "line {}: bad line: {mistake}", self.number)?;
                Ok(())
            }
            done => done,
        }
    }

    fn follow(&mut self, rt: &HostRuntime, line: &[u8]) -> Result<(), LineError> {
        let words = text_in(line)?;
        match command_in(rt.alloc(), words)? {
            Some(Command::Script(octets)) => self.script(&octets),
            Some(Command::Site(numbers)) => self.site(rt, words, &numbers),
            Some(Command::At { node, deed }) => self.deed(rt, words, node, deed),
            None => Ok(()),
        }
    }

    // More for the net's script.
    fn script(&mut self, octets: &[u8]) -> Result<(), LineError> {
        if self.place.is_some() {
            return Err(Mistake::Late.into());
        }
        for octet in octets {
            self.script.push(*octet)?;
        }
        Ok(())
    }

    fn site(&mut self, rt: &HostRuntime, words: &str, numbers: &Numbers) -> Result<(), LineError> {
        if self.place.is_some() {
            return Err(Mistake::Second.into());
        }
        let number = self.number;
        let heading = Heading::Line { number, words };
        match Place::new(rt.alloc(), numbers, &self.script) {
            Ok(place) => {
                self.place = Some(place);
                println!(rt; "{heading}: accepted")?;
            }
            Err(SiteError::Denied(denial)) => println!(rt; "{heading}: {denial}")?,
            Err(SiteError::Memory(error)) => return Err(error.into()),
        }
        Ok(())
    }

    // Makes the call, or each call, that the line asks for.
    fn deed(
        &mut self,
        rt: &HostRuntime,
        words: &str,
        node: NodeNumber,
        deed: Deed,
    ) -> Result<(), LineError> {
        let place = self.place.as_mut().ok_or(Mistake::NoSite)?;
        let call = deed.call_at(node, place.sgsn().sender.own)?;
        let number = self.number;
        let times = match deed.times {
            Times::Counted(times) => times as usize,
            Times::Waiting => place.waiting_for(node).max(1),
        };
        if times == 1 {
            place.call(rt, Heading::Line { number, words }, call)?;
            return Ok(());
        }
        for i in 0..times {
            let turn = Turn {
                nth: i + 1,
                of: times,
            };
            let heading = Heading::Turn {
                number,
                words,
                turn,
            };
            if !place.call(rt, heading, call)?.is_accepted() {
                return Ok(());
            }
        }
        Ok(())
    }

    // Settles what is still owed, and shows the SGSN's table.
    pub(crate) fn end(&mut self, rt: &HostRuntime) -> Result<(), LineError> {
        let Some(place) = self.place.as_mut() else {
            return Ok(());
        };
        place.settle_all(rt)?;
        place.show_end(rt)?;
        Ok(())
    }
}
