// Enrolling a mobile, and giving it packet service.
ghost use Rattle.sgsn.specs.State.{Decides};
ghost use Rattle.sgsn.specs.Enrolling.{enrol_plan, attach_plan};

use crate::sgsn::Sgsn;
use context::class::ServiceClass;
use context::context::Context;
use directory::table::store;
use imsi::Imsi;
use station::denial::Denial;

impl Sgsn {
    // Gives a new mobile a record: it uses the services of the class with this code, and is detached.
    pub fn enrol(&mut self, imsi: Imsi, class: u8) -> Result<(), Denial>
        ensures { Decides (λ s. enrol_plan s imsi class) result self.old self.new }
    {
        if self.sender.is_worn() {
            return Err(Denial::Worn);
        }
        let Some(class) = ServiceClass::from_code(class) else {
            return Err(Denial::UnlistedCode);
        };
        if !imsi.is_lawful() {
            return Err(Denial::UnlawfulImsi);
        }
        if self.record_of(imsi).is_some() {
            return Err(Denial::NotNew);
        }
        let Some(held) = store(&mut self.places, self.held, Context::new(imsi, class)) else {
            return Err(Denial::NoPlace);
        };
        self.held = held;
        Ok(())
    }

    // Gives a mobile packet service.
    pub fn attach(&mut self, imsi: Imsi) -> Result<(), Denial>
        ensures { Decides (λ s. attach_plan s imsi) result self.old self.new }
    {
        if self.sender.is_worn() {
            return Err(Denial::Worn);
        }
        if !imsi.is_lawful() {
            return Err(Denial::UnlawfulImsi);
        }
        let Some(context) = self.record_of(imsi) else {
            return Err(Denial::NotEnrolled);
        };
        self.keep(context.attached());
        Ok(())
    }
}
