// What an SGSN keeps of a mobile.
ghost use Rattle.std.specs.Prelude.{◌≡◌};
ghost use Rattle.context.specs.Contexts.{new_context, attached_now, with_mark, doubtful, doubtful_at, idle};

use crate::class::ServiceClass;
use crate::errand::Errand;
use directory::record::{Change, OfMobile};
use elements::area::LocationArea;
use elements::node::VlrNumber;
use imsi::Imsi;
use station::mark::Mark;

#[derive(Clone, Copy, Debug, PartialEq, Eq)]
pub struct Context {
    pub imsi: Imsi,
    pub class: ServiceClass,
    // whether the mobile has packet service
    pub attached: bool,
    // which VLR serves it with voice service, and how surely
    pub mark: Mark<VlrNumber>,
    // the area that a VLR accepted last
    pub area: Option<LocationArea>,
    // its last request or detach, until the reply to it is settled
    pub errand: Errand,
}

impl OfMobile for Context {
    ghost whose = { λ r. r.imsi };

    fn imsi(&self) -> Imsi {
        self.imsi
    }
}

impl Context {
    // Of a mobile that is new here: detached, and served by no VLR.
    pub fn new(imsi: Imsi, class: ServiceClass) -> Context
        ensures { result ≡ new_context imsi class }
    {
        Context {
            imsi,
            class,
            attached: false,
            mark: Mark::None,
            area: None,
            errand: Errand::Idle,
        }
    }

    // The mobile has packet service now.
    pub fn attached(self) -> Context
        ensures { result ≡ attached_now self }
    {
        Context {
            attached: true,
            ..self
        }
    }

    // Every change of a mark is made here.
    pub(crate) fn with_mark(self, mark: Mark<VlrNumber>) -> Context
        ensures { result ≡ with_mark mark self }
    {
        Context { mark, ..self }
    }

    // The VLR is sure no more, whichever it is.
    pub fn doubtful(self) -> Context
        ensures { result ≡ doubtful self }
    {
        self.with_mark(self.mark.doubted())
    }

    // This VLR is sure no more; another one stays as it is.
    pub fn doubtful_at(self, vlr: VlrNumber) -> Context
        ensures { result ≡ doubtful_at vlr self }
    {
        if self.mark == Mark::Confirmed(vlr) {
            self.doubtful()
        } else {
            self
        }
    }

    // The reply to it was settled.
    pub fn idle(self) -> Context
        ensures { result ≡ idle self }
    {
        let errand = Errand::Idle;
        Context { errand, ..self }
    }
}

// After a loss here: no VLR is sure of any mobile.
#[derive(Clone, Copy, Debug, PartialEq, Eq)]
pub struct Doubt {}

impl Change<Context> for Doubt {
    ghost to = { λ d r. doubtful r };

    fn change(&self, before: Context) -> Context {
        before.doubtful()
    }
}

// After a loss that this VLR told of, or is told of: it is sure of no mobile.
#[derive(Clone, Copy, Debug, PartialEq, Eq)]
pub struct DoubtAt {
    pub vlr: VlrNumber,
}

impl Change<Context> for DoubtAt {
    ghost to = { λ d r. doubtful_at d.vlr r };

    fn change(&self, before: Context) -> Context {
        before.doubtful_at(self.vlr)
    }
}
