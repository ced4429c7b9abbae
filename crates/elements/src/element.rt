// The twelve kinds of element: their identifiers, and how many content octets each may have.
ghost use Rattle.std.specs.Prelude.{◌≡◌};
ghost use Rattle.elements.specs.Table.{identifier_of, least_of, most_of};

#[derive(Clone, Copy, Debug, PartialEq, Eq, Hash, PartialOrd, Ord)]
pub enum Element {
    Imsi = 0x01,
    Tmsi = 0x02,
    Cause = 0x03,
    UpdateType = 0x04,
    OldArea = 0x05,
    NewArea = 0x06,
    Class = 0x07,
    RejectCause = 0x08,
    GprsDetachType = 0x09,
    ImsiDetachType = 0x0A,
    Entity = 0x0B,
    Channel = 0x0C,
}

impl Element {
    pub fn identifier(self) -> u8
        ensures { result ≡ identifier_of self }
    {
        self as u8
    }

    // The fewest content octets.
    pub fn least(self) -> usize
        ensures { result ≡ least_of self }
    {
        match self {
            Element::Tmsi => 4,
            Element::OldArea | Element::NewArea => 5,
            _ => 1,
        }
    }

    // The most content octets. Only an IMSI varies in length.
    pub fn most(self) -> usize
        ensures { result ≡ most_of self }
    {
        match self {
            Element::Imsi => 8,
            fixed => fixed.least(),
        }
    }
}
