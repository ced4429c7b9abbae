// Losing all marks, and time.
ghost use Rattle.station.specs.Calls.{AtOnce};
ghost use Rattle.vlr.specs.State.{state_of, Does};
ghost use Rattle.vlr.specs.Recovering.{lose_plan, tick_plan};
ghost use Rattle.vlr.specs.Laws.{ByMobile, by_loss};

use crate::record::Doubt;
use crate::vlr::Vlr;
use carrier::carrier::Carrier;
use carrier::in_order::InOrder;
use directory::table::change_each;
use station::denial::Denial;

impl Vlr {
    // The register lost its marks: none is sure any more, and the SGSN is told.
    pub fn lose<C: InOrder>(&mut self, carrier: &mut C) -> Result<(), Denial>
        ensures called { Does C.Carrier.takes C.Carrier.puts (λ s. AtOnce (lose_plan s))
            result self.old carrier.old self.new carrier.new }
        ensures by_mobile { ByMobile (state_of self.old) (state_of self.new) (by_loss (state_of self.old)) }
    {
        if self.sender.is_worn() {
            return Err(Denial::Worn);
        }
        change_each(&mut self.places, self.held, &Doubt {});
        self.row.lose(&mut self.sender, carrier, self.sgsn.node);
        Ok(())
    }

    // One tick: an acknowledgement that is due goes before a RESET's repeat.
    pub fn tick<C: InOrder>(&mut self, carrier: &mut C) -> Result<(), Denial>
        ensures { Does C.Carrier.takes C.Carrier.puts (λ s. AtOnce (tick_plan s))
            result self.old carrier.old self.new carrier.new }
    {
        if self.sender.is_worn() {
            return Err(Denial::Worn);
        }
        self.row.tick(&mut self.sender, carrier, self.sgsn.node);
        Ok(())
    }
}
