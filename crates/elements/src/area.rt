// Location areas.
ghost use Rattle.std.specs.Prelude.{◌≡◌};
ghost use Rattle.elements.specs.Areas.{element_of};

use crate::element::Element;

// A location area identity: five octets, any five, that this interface carries and does not take apart.
#[derive(Clone, Copy, Debug, PartialEq, Eq, Hash)]
pub struct LocationArea {
    pub octets: [u8; 5],
}

// Which area of a location update: the one that the mobile left, or the one that it entered.
#[derive(Clone, Copy, Debug, PartialEq, Eq, Hash)]
pub enum Area {
    Old,
    New,
}

impl Area {
    // The element that carries this area.
    pub fn element(self) -> Element
        ensures { result ≡ element_of self }
    {
        match self {
            Area::Old => Element::OldArea,
            Area::New => Element::NewArea,
        }
    }
}
