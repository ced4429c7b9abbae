// A new site.
ghost use Rattle.std.specs.Prelude.{◌≡◌, true, map, IfOk, IfErr};
ghost use Rattle.std.specs.List.{list_all};
ghost use Rattle.frames.specs.Format.{lawful_nodes};
ghost use Rattle.vlr.specs.Making.{new_state};
ghost use Rattle.site.specs.declared.making.SiteError.TheVariants.{Denied, Memory};
ghost use Rattle.site.specs.Making.{IsMemory, SiteMade};
ghost use Rattle.site.specs.Sites.{states_of};

use crate::site::Site;
use carrier::carrier::Carrier;
use carrier::in_order::InOrder;
use elements::node::{SgsnNumber, VlrNumber};
use sgsn::peer::Peer;
use sgsn::sgsn::{Sgsn, VLRS};
use station::denial::Denial;
use std::alloc::{AllocError, Global};
use vlr::vlr::Vlr;

// Why there is no site.
#[derive(Clone, Copy, Debug, PartialEq, Eq)]
pub enum SiteError {
    Denied(Denial),
    Memory(AllocError),
}

impl From<Denial> for SiteError {
    ghost from_gives = { λ denial error. error ≡ Denied denial };

    fn from(denial: Denial) -> SiteError {
        SiteError::Denied(denial)
    }
}

impl From<AllocError> for SiteError {
    ghost from_gives = { λ failure error. error ≡ Memory failure };

    fn from(failure: AllocError) -> SiteError {
        SiteError::Memory(failure)
    }
}

// The VLRs, each made for this SGSN.
fn registers(heap: Global, number: SgsnNumber, peers: &[Peer]) -> Result<Vec<Vlr>, SiteError>
    ensures made { IfOk result (λ vs. states_of vs.items ≡ map (λ p. new_state p.vlr number) peers.now) }
    ensures only_memory { list_all (λ p. lawful_nodes number.node p.vlr.node) peers.now ≡ true
        → IfErr result IsMemory }
{
    let mut vlrs = Vec::with_capacity(heap, VLRS)?;
    for peer in peers {
        vlrs.push(Vlr::new(peer.vlr, number)?)
            .map_err(AllocError::from)?;
    }
    Ok(vlrs)
}

impl<C: InOrder + Drop> Site<C> {
    // Of the SGSN with this number and the VLRs with these, over this carrier.
    pub fn new(
        heap: Global,
        number: SgsnNumber,
        vlrs: &[VlrNumber],
        carrier: C,
    ) -> Result<Site<C>, SiteError>
        ensures { SiteMade C.Carrier.waiting number vlrs.now carrier result }
    {
        let sgsn = Sgsn::new(number, vlrs)?;
        let vlrs = registers(heap, number, &sgsn.peers[0..sgsn.count])?;
        Ok(Site {
            sgsn,
            vlrs,
            carrier,
        })
    }
}
