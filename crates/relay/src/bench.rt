// The carrier at work, and what is printed of it.
use crate::command::{Command, Make, command_in};
use crate::mistake::{LineError, Mistake};
use crate::relay::Relay;
use crate::seen::Seen;
use crate::tally::{Event, Tally};
use elements::node::NodeNumber;
use std::io;
use words::counting::count;
use words::frame::Offered;

// A carrier, and the line that it was made in.
#[derive(Drop)]
struct Placed {
    relay: Relay,
    line: u64,
}

#[derive(Drop)]
pub(crate) struct Bench {
    // of lines, by `count`, which stays at the largest number: `enumerate` would ask for a proof that the
    // lines end before it
    number: u64,
    placed: Option<Placed>,
    tally: Tally,
}

impl Bench {
    pub(crate) fn new() -> Bench {
        Bench {
            number: 0,
            placed: None,
            tally: Tally::new(),
        }
    }

    // Does what the next line asks for, or shows why it cannot.
    pub(crate) fn line(&mut self, rt: &HostRuntime, line: &[u8]) -> Result<(), LineError> {
        count(&mut self.number);
        match self.follow(rt, line) {
            Err(LineError::Mistake(mistake)) => Ok(self.bad(rt, mistake)?),
            done => done,
        }
    }

    fn follow(&mut self, rt: &HostRuntime, line: &[u8]) -> Result<(), LineError> {
        match command_in(rt.alloc(), line)? {
            Some(Command::Carrier(make)) => self.carrier(rt, &make),
            Some(Command::Put(octets)) => self.put(rt, octets.as_slice()),
            Some(Command::Take(node)) => self.take(rt, node),
            None => Ok(()),
        }
    }

    fn carrier(&mut self, rt: &HostRuntime, make: &Make) -> Result<(), LineError> {
        self.waiting(rt)?;
        let line = self.number;
        println!(rt; "line {line}: carrier {make}")?;
        let relay = Relay::new(rt.alloc(), make)?;
        self.placed = Some(Placed { relay, line });
        Ok(())
    }

    fn put(&mut self, rt: &HostRuntime, octets: &[u8]) -> Result<(), LineError> {
        let placed = self.placed.as_mut().ok_or(Mistake::NoCarrier)?;
        placed.relay.put(octets);
        self.tally.note(Event::Put);
        // The fault alone stands for octets that are no frame: the script shows them.
        println!(rt; "line {}: {}", self.number, Offered { how: "put", octets })?;
        Ok(())
    }

    fn take(&mut self, rt: &HostRuntime, node: NodeNumber) -> Result<(), LineError> {
        let placed = self.placed.as_mut().ok_or(Mistake::NoCarrier)?;
        let given = placed.relay.take(node);
        let line = self.number;
        let NodeNumber { number } = node;
        match given {
            Some(datagram) => {
                self.tally.note(Event::Given);
                let octets = datagram.as_slice();
                println!(rt; "line {line}: take {number}: {}", Seen { octets })?;
            }
            None => {
                self.tally.note(Event::Nothing);
                println!(rt; "line {line}: take {number}: nothing")?;
            }
        }
        Ok(())
    }

    fn bad(&mut self, rt: &HostRuntime, mistake: Mistake) -> io::Result<()> {
        self.tally.note(Event::BadLine);
        println!(rt; "line {}: bad line: {mistake}", self.number)
    }

    // What waits in the carrier that is there.
    fn waiting(&self, rt: &HostRuntime) -> Result<(), LineError> {
        let Some(placed) = &self.placed else {
            return Ok(());
        };
        let line = placed.line;
        let waiting = placed.relay.waiting(rt.alloc())?;
        if waiting.is_empty() {
            println!(rt; "carrier of line {line}, waiting: nothing")?;
        }
        for datagram in waiting.iter() {
            let octets = datagram.as_slice();
            println!(rt; "carrier of line {line}, waiting: {}", Seen { octets })?;
        }
        Ok(())
    }

    // What still waits, and the tally.
    pub(crate) fn end(&self, rt: &HostRuntime) -> Result<(), LineError> {
        self.waiting(rt)?;
        println!(rt; "{}", self.tally)?;
        Ok(())
    }
}
