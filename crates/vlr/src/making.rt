// A new voice register.
ghost use Rattle.vlr.specs.Making.{Made};

use crate::record::Record;
use crate::vlr::{PLACES, Vlr};
use elements::node::{SgsnNumber, VlrNumber};
use imsi::Imsi;
use station::denial::Denial;
use station::row::Row;
use station::sending::Sender;

impl Vlr {
    // With its own number and its SGSN's; it knows no mobile, and has sent nothing.
    pub fn new(number: VlrNumber, sgsn: SgsnNumber) -> Result<Vlr, Denial>
        ensures { Made number sgsn result }
    {
        let own = number.node;
        if !own.is_lawful() || !sgsn.node.is_lawful() || own == sgsn.node {
            return Err(Denial::WrongNumbers);
        }
        let nobody = Record::new(
            Imsi {
                digits: 0,
                value: 0,
            },
            0,
        );
        Ok(Vlr {
            sender: Sender { own, last: 0 },
            sgsn,
            row: Row::new(),
            places: [nobody; PLACES],
            held: 0,
        })
    }
}
