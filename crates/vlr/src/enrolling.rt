// Enrolling a mobile.
ghost use Rattle.std.specs.Prelude.{◌≡◌};
ghost use Rattle.vlr.specs.State.{state_of, Decides};
ghost use Rattle.vlr.specs.Enrolling.{enrolled, enrol_plan};
ghost use Rattle.vlr.specs.Laws.{ByMobile, by_enrolment};

use crate::record::Record;
use crate::vlr::Vlr;
use directory::table::{look, store};
use imsi::Imsi;
use station::denial::Denial;

// The record of a mobile whose home says this now, where the one before was this, or none.
fn enrolled(before: Option<Record>, imsi: Imsi, home_cause: u8) -> Record
    ensures { result ≡ enrolled imsi home_cause before }
{
    match before {
        Some(record) => record.with_home_cause(home_cause),
        None => Record::new(imsi, home_cause),
    }
}

impl Vlr {
    // Sets what a mobile's home says of it, and gives it a record if it has none.
    pub fn enrol(&mut self, imsi: Imsi, home_cause: u8) -> Result<(), Denial>
        ensures decided { Decides (λ s. enrol_plan s imsi home_cause) result self.old self.new }
        ensures by_mobile { ByMobile (state_of self.old) (state_of self.new)
            (by_enrolment (state_of self.old) imsi home_cause) }
    {
        if self.sender.is_worn() {
            return Err(Denial::Worn);
        }
        if !imsi.is_lawful() {
            return Err(Denial::UnlawfulImsi);
        }
        let before = look(&self.places, self.held, imsi);
        let after = enrolled(before, imsi, home_cause);
        match store(&mut self.places, self.held, after) {
            Some(held) => {
                self.held = held;
                Ok(())
            }
            None => Err(Denial::NoPlace),
        }
    }
}
