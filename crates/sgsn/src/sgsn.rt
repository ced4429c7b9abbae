// An SGSN: its number, its VLRs with what it keeps of each, and its records.
ghost use Rattle.std.specs.Prelude.{◌≡◌, ◌≤◌, true, length, map, take};
ghost use Rattle.std.specs.List.{list_all};
ghost use Rattle.directory.specs.Order.{Climbs};
ghost use Rattle.frames.specs.Format.{lawful_nodes};
ghost use Rattle.sgsn.specs.Fitting.{fits_in};

use crate::peer::Peer;
use context::context::Context;
use station::sending::Sender;

// So many VLRs at most.
pub const VLRS: usize = 4;

// So many mobiles have a place.
pub const PLACES: usize = 1024;

// The first `count` of `peers` are its VLRs, in rising number, and the first `held` of `places` are records,
// in rising order of their mobiles. The SGSN owns the places, so that no memory is wanted later. Its number
// and its VLRs' are lawful and different. Each record is sound and names no VLR but these.
#[derive(Drop)]
pub struct Sgsn {
    pub sender: Sender,
    pub peers: [Peer; 4],
    pub count: usize,
    pub places: [Context; 1024],
    pub held: usize,
    ghost four: { length peers ≡ 4 },
    ghost served: { count ≤ 4 },
    ghost nodes: { list_all (λ p. lawful_nodes sender.own p.vlr.node) (take count peers) ≡ true },
    ghost all: { length places ≡ 1024 },
    ghost few: { held ≤ 1024 },
    ghost rising: { Climbs (λ r. r.imsi) (take held places) },
    ghost fit: { list_all (fits_in (map (λ p. p.vlr) (take count peers))) (take held places) ≡ true },
}
