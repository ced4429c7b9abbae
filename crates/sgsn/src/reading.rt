// What planners and programs read of an SGSN.
ghost use Rattle.std.specs.Prelude.{◌≡◌};
ghost use Rattle.sgsn.specs.State.{state_of};

use crate::peer::Peer;
use crate::sgsn::Sgsn;
use context::context::Context;

impl Sgsn {
    // The records of its mobiles, in rising order.
    pub fn table(&self) -> &[Context]
        ensures { result.now ≡ (state_of self.now).records }
    {
        &self.places[0..self.held]
    }

    // Its VLRs, in rising number, with what is kept of each.
    pub fn peers(&self) -> &[Peer]
        ensures { result.now ≡ (state_of self.now).peers }
    {
        &self.peers[0..self.count]
    }
}
