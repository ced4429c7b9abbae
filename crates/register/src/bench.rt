// The register at work, and what is printed of it.
use crate::census::{Census, Row};
use crate::command::{Command, Numbers, command_in, name_of};
use crate::mistake::{LineError, Mistake};
use crate::site::Site;
use crate::spoken::Spoken;
use crate::tally::{Event, Tally};
use crate::went::Went;
use frames::writing::write_frame;
use station::receiving::Refusal;
use std::io;
use vlr::call::{VlrAnswer, VlrCall};
use vlr::vlr::Vlr;
use words::counting::count;
use words::frame::Offered;

#[derive(Drop)]
pub(crate) struct Bench {
    // of lines, by `count`, which stays at the largest number: `enumerate` would ask for a proof that the
    // lines end before it
    number: u64,
    site: Option<Site>,
    tally: Tally,
}

impl Bench {
    pub(crate) fn new() -> Bench {
        Bench {
            number: 0,
            site: None,
            tally: Tally::new(),
        }
    }

    // Does what the next line asks for, or shows why it cannot.
    pub(crate) fn line(&mut self, rt: &HostRuntime, line: &[u8]) -> Result<(), LineError> {
        count(&mut self.number);
        match self.follow(rt, line) {
            Err(LineError::Mistake(mistake)) => Ok(self.bad(rt, mistake)?),
            done => done,
        }
    }

    fn follow(&mut self, rt: &HostRuntime, line: &[u8]) -> Result<(), LineError> {
        match command_in(rt.alloc(), line)? {
            Some(Command::Register(numbers)) => self.register(rt, numbers),
            Some(Command::Call { call, times }) => self.calls(rt, call, times),
            Some(Command::Octets(octets)) => self.arrives(rt, octets.as_slice()),
            Some(Command::Frame(spoken)) => self.spoken(rt, spoken),
            None => Ok(()),
        }
    }

    fn register(&mut self, rt: &HostRuntime, numbers: Numbers) -> Result<(), LineError> {
        if self.site.is_some() {
            return Err(Mistake::Second.into());
        }
        match Vlr::new(numbers.own, numbers.sgsn) {
            Ok(vlr) => {
                self.site = Some(Site::new(rt.alloc(), vlr)?);
                self.answer(rt, "register", Ok(VlrAnswer::Done))
            }
            Err(denial) => self.answer(rt, "register", Err(denial.into())),
        }
    }

    fn calls(&mut self, rt: &HostRuntime, call: VlrCall, times: u8) -> Result<(), LineError> {
        for _ in 0..times {
            self.call(rt, call)?;
        }
        Ok(())
    }

    // Makes a call, and shows what it answers and the frames that the register put.
    fn call(&mut self, rt: &HostRuntime, call: VlrCall) -> Result<(), LineError> {
        let site = self.site.as_mut().ok_or(Mistake::NoRegister)?;
        let before = site.vlr.sender.last;
        let answer = site.make(call);
        self.answer(rt, name_of(call), answer)?;
        self.went(rt, before)
    }

    // The frame that the words say, to this register.
    fn spoken(&mut self, rt: &HostRuntime, spoken: Spoken) -> Result<(), LineError> {
        let site = self.site.as_ref().ok_or(Mistake::NoRegister)?;
        let mut octets = [0; 64];
        let size = write_frame(spoken.frame_to(site.vlr.sender.own), &mut octets).map_err(
            Mistake::Unwritten,
        )?;
        self.arrives(rt, &octets[0..size])
    }

    // Octets come in from the net, and the register takes once. What is for another node never comes here.
    fn arrives(&mut self, rt: &HostRuntime, octets: &[u8]) -> Result<(), LineError> {
        let site = self.site.as_mut().ok_or(Mistake::NoRegister)?;
        if octets
            .get(1)
            .is_some_and(|node| *node != site.vlr.sender.own.number)
        {
            return Err(Mistake::Elsewhere.into());
        }
        println!(rt;
            "line {}: {}",
            self.number,
            Offered {
                how: "arrives",
                octets
            }
        )?;
        site.put(octets);
        self.call(rt, VlrCall::Deliver)
    }

    // Counts what a call answers, or why it was refused, and shows it.
    fn answer(
        &mut self,
        rt: &HostRuntime,
        call: &str,
        answer: Result<VlrAnswer, Refusal>,
    ) -> Result<(), LineError> {
        self.tally.note(match answer {
            Err(Refusal::Denied(_)) => Event::Denied,
            _ => Event::Accepted,
        });
        match answer {
            Ok(answer) => println!(rt; "line {}: {call}: {answer}", self.number)?,
            Err(refusal) => println!(rt; "line {}: {call}: {refusal}", self.number)?,
        }
        Ok(())
    }

    // The frames that the register put since its last stamp was this one: each took a stamp.
    fn went(&mut self, rt: &HostRuntime, before: u32) -> Result<(), LineError> {
        let site = self.site.as_mut().ok_or(Mistake::NoRegister)?;
        for _ in before..site.vlr.sender.last {
            if let Some(datagram) = site.outgoing() {
                let octets = datagram.as_slice();
                self.tally.note(Event::Put);
                println!(rt; "line {}: {}", self.number, Went { octets })?;
            }
        }
        Ok(())
    }

    fn bad(&mut self, rt: &HostRuntime, mistake: Mistake) -> io::Result<()> {
        self.tally.note(Event::BadLine);
        println!(rt; "line {}: bad line: {mistake}", self.number)
    }

    // The table, and the tally.
    pub(crate) fn end(&self, rt: &HostRuntime) -> Result<(), LineError> {
        if let Some(site) = &self.site {
            let records = &site.vlr.places[0..site.vlr.held];
            for record in records {
                println!(rt; "{}", Row(*record))?;
            }
            println!(rt; "{}", Census::of(records))?;
        }
        println!(rt; "{}", self.tally)?;
        Ok(())
    }
}
