// The site of the shift.
use crate::command::Numbers;
use crate::ladder::{Fate, Rung};
use crate::tally::Tally;
use carrier::datagram::Datagram;
use context::context::Context;
use directory::table::look;
use elements::node::{NodeNumber, SgsnNumber};
use gate::carrying::Gate;
use imsi::Imsi;
use law::call::{Answer, Call};
use sgsn::call::{SgsnAnswer, SgsnCall};
use sgsn::sgsn::Sgsn;
use site::making::SiteError;
use site::site::Site;
use slip::carrying::Slip;
use station::mark::Mark;
use station::receiving::Delivery;
use std::alloc::Global;
use std::fmt;
use vlr::call::{VlrAnswer, VlrCall};
use watch::carrying::Watched;
use watch::log::Sighting;
use words::counting::count;

// The log stands below the gate, so that a frame that the gate drops is seen too.
#[derive(Drop)]
pub(crate) struct Place {
    site: Site<Gate<Watched<Slip>>>,
    // so many sightings were shown
    shown: usize,
    // so many takes were made, one for each octet of the script
    takes: u64,
    pub(crate) tally: Tally,
}

// A call that was made.
#[derive(Clone, Copy)]
pub(crate) struct Made {
    pub(crate) answer: Answer,
    // which take it made of the net, if it made one
    take: Option<u64>,
    // the frame that no longer waits since, where a take was given nothing
    missing: Option<Datagram>,
}

impl Made {
    // A delivery that found no frame, whatever the net gave.
    fn is_nothing(self) -> bool {
        matches!(
            self.answer,
            Answer::Sgsn(Ok(SgsnAnswer::Delivered(Delivery::Nothing)))
                | Answer::Vlr(Ok(VlrAnswer::Delivered(Delivery::Nothing)))
        )
    }
}

impl fmt::Display for Made {
    fn fmt<W: fmt::Write>(&self, f: &mut fmt::Formatter<W>) -> fmt::Result {
        write!(f, "{}", self.answer)?;
        match self.take {
            Some(take) => write!(f, " (take {take})"),
            None => Ok(()),
        }
    }
}

impl Place {
    // Over a net in which nothing waits yet. All calls of the shift are made by `make` below, at this one
    // site, and nothing else changes it: so the law of the site's tables, which `Site::make` promises,
    // holds at each line that is shown.
    pub(crate) fn new(heap: Global, numbers: &Numbers, script: &[u8]) -> Result<Place, SiteError> {
        let slip = Slip::new(heap, script)?;
        let carrier = Gate::new(Watched::new(heap, slip));
        let site = Site::new(heap, numbers.sgsn, &numbers.vlrs, carrier)?;
        Ok(Place {
            site,
            shown: 0,
            takes: 0,
            tally: Tally::new(),
        })
    }

    pub(crate) fn sgsn(&self) -> &Sgsn {
        self.site.sgsn()
    }

    // Is a request or detach without verdict?
    pub(crate) fn awaits_verdict(&self) -> bool {
        self.sgsn()
            .table()
            .iter()
            .any(|context| context.errand.is_open())
    }

    // What the VLR that the mark names says of the mobile itself.
    pub(crate) fn mark_at_vlr(&self, context: Context) -> Option<Mark<SgsnNumber>> {
        let number = context.mark.node()?;
        let mut vlrs = self.site.vlrs().iter();
        let vlr = vlrs.find(|vlr| vlr.sender.own == number.node)?;
        let record = look(&vlr.places, vlr.held, context.imsi)?;
        Some(record.mark)
    }

    // The mobile of the record at `i`, if it is owed a reply.
    pub(crate) fn owed(&self, i: usize) -> Option<Imsi> {
        let context = self.sgsn().table().get(i)?;
        context.errand.owes().then_some(context.imsi)
    }

    // The frames that wait in the net, the oldest first.
    pub(crate) fn waiting(&self) -> &[Datagram] {
        &self.site.carrier().below.below.queue.frames
    }

    pub(crate) fn waiting_for(&self, node: NodeNumber) -> usize {
        self.waiting()
            .iter()
            .filter(|frame| frame.destination() == node)
            .count()
    }

    // A frame that was put and does not wait found no room.
    fn waits(&self, frame: Datagram) -> bool {
        self.waiting()
            .iter()
            .any(|other| other.as_slice() == frame.as_slice())
    }

    fn oldest_for(&self, node: NodeNumber) -> Option<Datagram> {
        self.waiting()
            .iter()
            .find(|frame| frame.destination() == node)
            .copied()
    }

    // Makes a call.
    pub(crate) fn make(&mut self, call: Call) -> Made {
        let oldest = match call {
            Call::Sgsn(number, SgsnCall::Deliver) => self.oldest_for(number.node),
            Call::Vlr(number, VlrCall::Deliver) => self.oldest_for(number.node),
            _ => None,
        };
        let before = self.waiting().len();
        let answer = self.site.make(call);
        let missing = if self.waiting().len() < before {
            oldest
        } else {
            None
        };
        let take = self.count_take();
        Made {
            answer,
            take,
            missing,
        }
    }

    // Which take was the one that was seen since, if there was one. A call takes once at most.
    fn count_take(&mut self) -> Option<u64> {
        let sightings = &mut self.unseen().iter();
        if !sightings.any(|sighting| matches!(sighting, Sighting::Take { .. })) {
            return None;
        }
        count(&mut self.takes);
        Some(self.takes)
    }

    // What was seen since it was shown last.
    pub(crate) fn unseen(&self) -> &[Sighting] {
        let sightings = &self.site.carrier().below.log.sightings;
        sightings.get(self.shown..).unwrap_or(&[])
    }

    pub(crate) fn all_seen(&mut self) {
        self.shown = self.site.carrier().below.log.sightings.len();
    }

    // How often a sighting found no memory.
    pub(crate) fn missed(&self) -> u64 {
        self.site.carrier().below.log.missed
    }

    // What became of the frame that was seen there, in this call.
    pub(crate) fn rung(&self, i: usize, made: Made) -> Option<Rung> {
        let (fate, datagram) = match *self.unseen().get(i)? {
            Sighting::Put(frame) if self.waits(frame) => (Fate::Sent, frame),
            Sighting::Put(frame) => (Fate::Lost, frame),
            Sighting::Take { given: None, .. } => (Fate::Lost, made.missing?),
            Sighting::Take {
                given: Some(frame),
                ..
            } if made.is_nothing() => (Fate::Dropped, frame),
            Sighting::Take {
                given: Some(frame),
                ..
            } => (Fate::Taken, frame),
        };
        Some(self.rung_of(fate, datagram))
    }

    pub(crate) fn rung_of(&self, fate: Fate, datagram: Datagram) -> Rung {
        Rung {
            sgsn: self.sgsn().sender.own,
            fate,
            datagram,
        }
    }
}
