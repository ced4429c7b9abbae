// A voice register: its numbers, its records, and what it keeps of its SGSN.
ghost use Rattle.std.specs.Prelude.{◌≡◌, ◌≤◌, true, length, take};
ghost use Rattle.std.specs.List.{list_all};
ghost use Rattle.directory.specs.Order.{Climbs};
ghost use Rattle.frames.specs.Format.{lawful_nodes};
ghost use Rattle.vlr.specs.Records.{names_its};

use crate::record::Record;
use elements::node::SgsnNumber;
use station::row::Row;
use station::sending::Sender;

// So many mobiles have a place.
pub const PLACES: usize = 1024;

// The first `held` of `places` are records, in rising order of their mobiles. The register owns the places,
// so that no memory is wanted later. Its number and its SGSN's are lawful and different, and no mark names
// another SGSN.
#[derive(Drop)]
pub struct Vlr {
    pub sender: Sender,
    pub sgsn: SgsnNumber,
    pub row: Row,
    pub places: [Record; 1024],
    pub held: usize,
    ghost nodes: { lawful_nodes sender.own sgsn.node ≡ true },
    ghost all: { length places ≡ 1024 },
    ghost few: { held ≤ 1024 },
    ghost rising: { Climbs (λ r. r.imsi) (take held places) },
    ghost marks: { list_all (names_its sgsn) (take held places) ≡ true },
}
