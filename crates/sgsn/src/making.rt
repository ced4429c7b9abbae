// A new SGSN.
ghost use Rattle.std.specs.Prelude.{◌≡◌, ◌≤◌, ◌<◌, length, take, map};
ghost use Rattle.std.specs.List.{list_all};
ghost use Rattle.frames.specs.Format.{lawful_nodes};
ghost use Rattle.sgsn.specs.Making.{Made, Risen, all_different, lawful_numbers, new_peer};

use crate::peer::Peer;
use crate::sgsn::{PLACES, Sgsn, VLRS};
use context::class::ServiceClass;
use context::context::Context;
use elements::node::{NodeNumber, SgsnNumber, VlrNumber};
use imsi::Imsi;
use station::denial::Denial;
use station::row::Row;
use station::sending::Sender;

// Has none of these the number of another?
fn are_different(vlrs: &[VlrNumber]) -> bool
    ensures { result ≡ all_different vlrs.now }
{
    match vlrs {
        [] => true,
        [first, others @ ..] => !others.contains(first) && are_different(others),
    }
}

// Is this SGSN's number lawful, and is each VLR's lawful and another one?
fn are_reachable(own: NodeNumber, vlrs: &[VlrNumber]) -> bool
    ensures { result ≡ list_all (λ v. lawful_nodes own v.node) vlrs.now }
{
    vlrs.iter().all(|vlr| own.is_lawful() && vlr.node.is_lawful() && own != vlr.node)
}

// One to four VLRs, all numbers lawful and different?
fn are_lawful(number: SgsnNumber, vlrs: &[VlrNumber]) -> bool
    ensures { result ≡ lawful_numbers number vlrs.now }
{
    1 <= vlrs.len() && vlrs.len() <= VLRS && are_reachable(number.node, vlrs) && are_different(vlrs)
}

// These in rising number, and copies of the first behind them.
fn risen(vlrs: &[VlrNumber]) -> [VlrNumber; 4]
    requires some { 0 < length vlrs.now }
    requires few { length vlrs.now ≤ 4 }
    ensures { Risen vlrs.now (take (length vlrs.now) result) }
{
    let mut all = [vlrs[0]; VLRS];
    let front = &mut all[0..vlrs.len()];
    front.copy_from_slice(vlrs);
    front.sort_unstable_by_key(|vlr| vlr.node.number);
    all
}

// What is kept of new VLRs.
fn new_peers(vlrs: [VlrNumber; 4]) -> [Peer; 4]
    ensures { result ≡ map new_peer vlrs }
{
    vlrs.map(|vlr| Peer {
        vlr,
        row: Row::new(),
    })
}

impl Sgsn {
    // With its own number and its VLRs'; it knows no mobile, and has sent nothing.
    pub fn new(number: SgsnNumber, vlrs: &[VlrNumber]) -> Result<Sgsn, Denial>
        ensures { Made number vlrs.now result }
    {
        if !are_lawful(number, vlrs) {
            return Err(Denial::WrongNumbers);
        }
        let nobody = Imsi {
            digits: 0,
            value: 0,
        };
        Ok(Sgsn {
            sender: Sender {
                own: number.node,
                last: 0,
            },
            peers: new_peers(risen(vlrs)),
            count: vlrs.len(),
            places: [Context::new(nobody, ServiceClass::C); PLACES],
            held: 0,
        })
    }
}
