// Which octets the readers are tried on.
use crate::generator::{Choice, Plan, Source, add_element, lawful_frame, lawful_message};
use crate::sample::Sample;
use crate::table::{MessageType, TYPES};
use crate::tally::Tally;

const CHOICES: [Choice; 3] = [Choice::Lowest, Choice::Highest, Choice::Any];
// Whether the TMSI and the channel are present, in the one message that may have them.
const PRESENCES: [(bool, bool); 4] = [(false, false), (true, false), (false, true), (true, true)];

// Octets are lengthened until there are more than the 64 of the longest frame.
const LENGTHENED: usize = 67;
// So many strings with two wrong octets are made of each lawful one.
const TWICE_WRONG: usize = 10;
// So many strings are made of random octets alone, and as many of small octets, which go further.
const RANDOM: usize = 5000;

// What every trial needs: where to print, what to draw from and what to count in.
#[derive(Drop)]
pub(crate) struct Trials<'a> {
    pub(crate) rt: &'a HostRuntime,
    pub(crate) source: Source,
    pub(crate) tally: Tally,
}

fn put(octets: &mut Vec<u8>, place: usize, octet: u8) {
    if let Some(slot) = octets.get_mut(place) {
        *slot = octet;
    }
}

impl Trials<'_> {
    fn compare(&mut self, sample: Sample) -> anyhow::Result<()> {
        self.tally.compare(self.rt, sample)?;
        Ok(())
    }

    // The octet at a place replaced by each of these.
    fn replaced_at(&mut self, sample: Sample, place: usize, others: &[u8]) -> anyhow::Result<()> {
        let mut changed = Vec::from_slice(self.rt.alloc(), sample.octets)?;
        for other in others {
            put(&mut changed, place, *other);
            self.compare(sample.with(changed.as_slice()))?;
        }
        Ok(())
    }

    // Each octet replaced by some others: its neighbours, one half turned over, and any.
    fn replaced(&mut self, sample: Sample) -> anyhow::Result<()> {
        for (place, octet) in sample.octets.iter().enumerate() {
            let others = [
                octet.wrapping_add(1),
                octet.wrapping_sub(1),
                *octet ^ 0x0F,
                *octet ^ 0xF0,
                self.source.octet(),
            ];
            self.replaced_at(sample, place, &others)?;
        }
        Ok(())
    }

    // Each octet replaced by every value that it can have. Places alone are counted:
    // what stood there does not matter.
    fn replaced_by_all(&mut self, sample: Sample) -> anyhow::Result<()> {
        let values: Vec<u8> = (0..=255).collect(self.rt.alloc())?;
        for place in 0..sample.octets.len() {
            self.replaced_at(sample, place, values.as_slice())?;
        }
        Ok(())
    }

    // Two octets replaced at once: only the fault that comes first counts.
    fn replaced_twice(&mut self, sample: Sample) -> anyhow::Result<()> {
        for _ in 0..TWICE_WRONG {
            let mut changed = Vec::from_slice(self.rt.alloc(), sample.octets)?;
            for _ in 0..2 {
                let place = self.source.place(sample.octets.len());
                let value = self.source.octet();
                put(&mut changed, place, value);
            }
            self.compare(sample.with(changed.as_slice()))?;
        }
        Ok(())
    }

    // Cut at every length. Lengths are counted here, not places of octets.
    fn cut(&mut self, sample: Sample) -> anyhow::Result<()> {
        for length in 0..sample.octets.len() {
            self.compare(sample.with(&sample.octets[0..length]))?;
        }
        Ok(())
    }

    // Lengthened by one random octet after another.
    fn lengthened(&mut self, sample: Sample) -> anyhow::Result<()> {
        let mut longer = Vec::from_slice(self.rt.alloc(), sample.octets)?;
        for _ in sample.octets.len()..LENGTHENED {
            longer.push(self.source.octet())?;
            self.compare(sample.with(longer.as_slice()))?;
        }
        Ok(())
    }

    // Lengthened by one lawful element, of any message.
    fn with_element(&mut self, sample: Sample, plan: Plan) -> anyhow::Result<()> {
        for message in &TYPES {
            for row in message.rows() {
                let mut longer = Vec::from_slice(self.rt.alloc(), sample.octets)?;
                add_element(&mut longer, row, plan, &mut self.source)?;
                self.compare(sample.with(longer.as_slice()))?;
            }
        }
        Ok(())
    }

    // Lawful octets, and what damage makes of them.
    fn damaged(&mut self, sample: Sample, plan: Plan) -> anyhow::Result<()> {
        self.compare(sample)?;
        self.replaced(sample)?;
        self.replaced_twice(sample)?;
        self.cut(sample)?;
        self.lengthened(sample)?;
        self.with_element(sample, plan)
    }

    // A lawful frame with wrong nodes, and then with lawful nodes and the stamp 0.
    fn bad_header(&mut self, frame: &[u8]) -> anyhow::Result<()> {
        let mut changed = Vec::from_slice(self.rt.alloc(), frame)?;
        let source = frame.first().copied().unwrap_or(0);
        put(&mut changed, 1, source);
        self.compare(Sample::frame(changed.as_slice()))?;
        for (from, to) in [
            (0, 0),
            (0, 255),
            (255, 0),
            (255, 1),
            (1, 255),
            (1, 0),
            (1, 2),
        ] {
            put(&mut changed, 0, from);
            put(&mut changed, 1, to);
            self.compare(Sample::frame(changed.as_slice()))?;
        }
        for octet in changed.iter_mut().skip(2).take(4) {
            *octet = 0;
        }
        self.compare(Sample::frame(changed.as_slice()))
    }

    // The message of a plan, and the frame around it.
    fn planned(&mut self, plan: Plan) -> anyhow::Result<()> {
        let heap = self.rt.alloc();
        let message = lawful_message(heap, plan, &mut self.source)?;
        self.damaged(Sample::message(message.as_slice()), plan)?;
        let frame = lawful_frame(heap, message.as_slice(), plan.choice, &mut self.source)?;
        self.damaged(Sample::frame(frame.as_slice()), plan)?;
        self.bad_header(frame.as_slice())
    }

    // One type of message with every count of digits, with and without its optional elements, and each of
    // these with the lowest values, the highest and others.
    fn every_plan(&mut self, message: &'static MessageType) -> anyhow::Result<()> {
        let has_optional = message.rows().iter().any(|row| row.optional);
        for digits in 1..=15 {
            for (tmsi, channel) in PRESENCES {
                if !has_optional && (tmsi || channel) {
                    continue;
                }
                for choice in CHOICES {
                    self.planned(Plan {
                        message,
                        digits,
                        tmsi,
                        channel,
                        choice,
                    })?;
                }
            }
        }
        Ok(())
    }

    // A message and a frame, with every value of every octet.
    fn every_value(&mut self, message: &'static MessageType, digits: u8) -> anyhow::Result<()> {
        let heap = self.rt.alloc();
        let plan = Plan {
            message,
            digits,
            tmsi: true,
            channel: true,
            choice: Choice::Any,
        };
        let message = lawful_message(heap, plan, &mut self.source)?;
        self.replaced_by_all(Sample::message(message.as_slice()))?;
        let frame = lawful_frame(heap, message.as_slice(), plan.choice, &mut self.source)?;
        self.replaced_by_all(Sample::frame(frame.as_slice()))
    }

    // Random octets, none above `high`, as a message and as a frame.
    fn random(&mut self, high: u8) -> anyhow::Result<()> {
        for _ in 0..RANDOM {
            let mut octets = Vec::new(self.rt.alloc());
            for _ in 0..self.source.place(LENGTHENED) {
                octets.push(self.source.within(0, high))?;
            }
            self.compare(Sample::message(octets.as_slice()))?;
            self.compare(Sample::frame(octets.as_slice()))?;
        }
        Ok(())
    }

    pub(crate) fn all(&mut self) -> anyhow::Result<()> {
        for message in &TYPES {
            self.every_plan(message)?;
            self.every_value(message, 6)?;
            self.every_value(message, 7)?;
        }
        self.random(255)?;
        self.random(0x12)
    }
}
