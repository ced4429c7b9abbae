// What both readers answered, counted.
ghost use Rattle.std.specs.Prelude.{◌≡◌, ◌<◌, true, is_ok};

use crate::answer::{Answer, Shown};
use crate::compare::{Accepted, ask_library};
use crate::counts::Counts;
use crate::reader::read;
use crate::rule::Rule;
use crate::sample::{Form, Sample};
use crate::table::{MessageType, TYPES};
use anyhow::anyhow;
use std::io;
use words::counting::count;
use words::hexadecimal::Hex;

// Only so many differences are shown.
const SHOWN: u64 = 20;
// A fault or a message type that came up less often was not tried enough.
const ENOUGH: u64 = 500;

// How many strings were read as one form, and how many of them both readers accepted.
#[derive(Clone, Copy, Default)]
struct Strings {
    read: u64,
    accepted: u64,
}

#[derive(Drop)]
pub(crate) struct Tally {
    messages: Strings,
    frames: Strings,
    accepted_types: Counts<MessageType, 12>,
    broken: Counts<Rule, 8>,
    written_again: u64,
    differences: u64,
}

impl Tally {
    pub(crate) fn new() -> Tally {
        Tally {
            messages: Strings::default(),
            frames: Strings::default(),
            accepted_types: Counts {
                rows: TYPES.map(|message| (message, 0)),
            },
            broken: Counts {
                rows: Rule::ALL.map(|rule| (rule, 0)),
            },
            written_again: 0,
            differences: 0,
        }
    }

    fn strings(&mut self, form: Form) -> &mut Strings {
        match form {
            Form::Message => &mut self.messages,
            Form::Frame => &mut self.frames,
        }
    }

    // Gives the sample to both readers, and shows how they differ, if they do.
    pub(crate) fn compare(&mut self, rt: &HostRuntime, sample: Sample) -> io::Result<()> {
        let Sample { form, octets } = sample;
        count(&mut self.strings(form).read);
        let second = read(sample);
        let library = ask_library(sample);
        match (&second, &library) {
            (Ok(answer), Ok(accepted)) if *answer == accepted.answer => {
                count(&mut self.strings(form).accepted);
                self.accept(rt, octets, accepted)
            }
            (Err(refusal), Err(other)) if refusal == other => {
                self.broken.count(|rule| rule as u8 == refusal.number);
                Ok(())
            }
            _ => {
                let library = library.as_ref().map(|accepted| &accepted.answer);
                self.differ(rt, octets, Shown(second.as_ref()), Shown(library))
            }
        }
    }

    // Both accepted the octets, so the library must write them again.
    fn accept(&mut self, rt: &HostRuntime, octets: &[u8], accepted: &Accepted) -> io::Result<()> {
        let type_octet = accepted.answer.content.type_octet;
        self.accepted_types
            .count(|message| message.octet == type_octet);
        if !accepted.written_again {
            let both = Shown(Ok(&accepted.answer));
            return self.differ(rt, octets, both, both);
        }
        count(&mut self.written_again);
        Ok(())
    }

    fn differ(
        &mut self,
        rt: &HostRuntime,
        octets: &[u8],
        second: Shown,
        library: Shown,
    ) -> io::Result<()>
        ensures { 0 < self.new.differences }
    {
        count(&mut self.differences);
        if self.differences > SHOWN {
            return Ok(());
        }
        if octets.is_empty() {
            println!(rt; "Difference on no octets")?;
        } else {
            let octets = Hex {
                octets,
                between: " ",
            };
            println!(rt; "Difference on {octets}")?;
        }
        println!(rt; "    second reader: {second}")?;
        println!(rt; "    library:       {library}")?;
        if second == library {
            println!(rt; "    They read alike, but the library writes other octets.")?;
        }
        Ok(())
    }

    pub(crate) fn print(&self, rt: &HostRuntime) -> io::Result<()> {
        let Tally {
            messages,
            frames,
            ..
        } = self;
        let strings = messages.read.saturating_add(frames.read);
        println!(rt;
            "{strings} strings of octets, each read by the library and by a second reader."
        )?;
        println!(rt;
            "Messages: {} strings, {} accepted by both readers.",
            messages.read, messages.accepted
        )?;
        println!(rt;
            "Frames: {} strings, {} accepted by both readers.",
            frames.read, frames.accepted
        )?;
        println!(rt; "Accepted of each type, alone or in a frame:")?;
        for (message, times) in &self.accepted_types.rows {
            println!(rt; "    {:02X} {}: {times}", message.octet, message.name)?;
        }
        println!(rt; "Refused by both with the same fault at the same place:")?;
        for (rule, times) in &self.broken.rows {
            println!(rt; "    {} {rule}: {times}", *rule as u8)?;
        }
        println!(rt; "Written again to the same octets: {}.", self.written_again)?;
        println!(rt; "Differences: {}.", self.differences)
    }

    // Did the readers never differ, and was everything tried often enough?
    pub(crate) fn verdict(&self, rt: &HostRuntime) -> anyhow::Result<()>
        ensures { is_ok result ≡ true → self.now.differences ≡ 0 }
    {
        if self.differences > 0 {
            return Err(anyhow!("the two readers differ"));
        }
        if let Some(rule) = self.broken.below(ENOUGH) {
            println!(rt; "Seen too seldom: {rule}.")?;
            return Err(anyhow!("a fault was seen too seldom"));
        }
        if let Some(message) = self.accepted_types.below(ENOUGH) {
            println!(rt; "Accepted too seldom: {}.", message.name)?;
            return Err(anyhow!("a message type was accepted too seldom"));
        }
        Ok(())
    }
}
