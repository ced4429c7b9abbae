// What a VLR keeps of a mobile.
ghost use Rattle.std.specs.Prelude.{◌≡◌};
ghost use Rattle.vlr.specs.Records.{new_record, with_home_cause, with_mark};
ghost use Rattle.vlr.specs.Records.{confirmed, unmarked, imsi_detached, doubtful, doubtful_at};

use directory::record::{Change, OfMobile};
use elements::node::SgsnNumber;
use imsi::Imsi;
use station::mark::Mark;

#[derive(Clone, Copy, Debug, PartialEq, Eq)]
pub struct Record {
    pub imsi: Imsi,
    // 0 where the mobile's home lets it in, else the cause with which it is turned away
    pub home_cause: u8,
    // whether the mobile has voice service here
    pub attached: bool,
    pub mark: Mark<SgsnNumber>,
}

impl OfMobile for Record {
    ghost whose = { λ r. r.imsi };

    fn imsi(&self) -> Imsi {
        self.imsi
    }
}

impl Record {
    // Of a mobile that is new here: detached, and served by no SGSN that is known.
    pub fn new(imsi: Imsi, home_cause: u8) -> Record
        ensures { result ≡ new_record imsi home_cause }
    {
        Record {
            imsi,
            home_cause,
            attached: false,
            mark: Mark::None,
        }
    }

    // Of a mobile that is enrolled again: its home says something else now.
    pub fn with_home_cause(self, home_cause: u8) -> Record
        ensures { result ≡ with_home_cause self home_cause }
    {
        Record { home_cause, ..self }
    }

    // Every change of a mark is made here.
    fn with_mark(self, mark: Mark<SgsnNumber>) -> Record
        ensures { result ≡ with_mark mark self }
    {
        Record { mark, ..self }
    }

    // The mobile is attached here, and this SGSN serves it.
    pub fn confirmed(self, sgsn: SgsnNumber) -> Record
        ensures { result ≡ confirmed self sgsn }
    {
        Record {
            attached: true,
            ..self.with_mark(Mark::Confirmed(sgsn))
        }
    }

    // No SGSN serves the mobile any more.
    pub fn unmarked(self) -> Record
        ensures { result ≡ unmarked self }
    {
        self.with_mark(Mark::None)
    }

    // The mobile is detached here, too.
    pub fn imsi_detached(self) -> Record
        ensures { result ≡ imsi_detached self }
    {
        Record {
            attached: false,
            ..self.unmarked()
        }
    }

    // What was sure of its SGSN is sure no more.
    pub fn doubtful(self) -> Record
        ensures { result ≡ doubtful self }
    {
        self.with_mark(self.mark.doubted())
    }

    // This SGSN is sure no more.
    pub fn doubtful_at(self, sgsn: SgsnNumber) -> Record
        ensures { result ≡ doubtful_at sgsn self }
    {
        if self.mark == Mark::Confirmed(sgsn) {
            self.doubtful()
        } else {
            self
        }
    }
}

// After a loss here: no record is sure of its SGSN.
#[derive(Clone, Copy, Debug, PartialEq, Eq)]
pub struct Doubt {}

impl Change<Record> for Doubt {
    ghost to = { λ d r. doubtful r };

    fn change(&self, before: Record) -> Record {
        before.doubtful()
    }
}

// After a loss that this SGSN told of: no record is sure of it.
#[derive(Clone, Copy, Debug, PartialEq, Eq)]
pub struct DoubtAt {
    pub sgsn: SgsnNumber,
}

impl Change<Record> for DoubtAt {
    ghost to = { λ d r. doubtful_at d.sgsn r };

    fn change(&self, before: Record) -> Record {
        before.doubtful_at(self.sgsn)
    }
}
