// Why nothing is done that a line asks for.
use thiserror::Error;

// What is wrong with a line.
#[derive(Clone, Copy, Debug, PartialEq, Eq, Error)]
pub enum Mistake {
    #[error("no text")]
    Text,
    #[error("it begins with neither script, site nor a node number")]
    Start,
    #[error("a node can enrol, attach, request, detach, settle, page, lose, deliver and tick")]
    Verb,
    #[error("site wants an SGSN's number and its VLRs'")]
    Site,
    #[error("there is a site already")]
    Second,
    #[error("no site yet")]
    NoSite,
    #[error("script wants numbers from 0 to 255, or a count, x and a number")]
    Script,
    #[error("the script stands before the site")]
    Late,
    #[error("only the SGSN does that")]
    NotSgsn,
    #[error("enrol wants an IMSI, and A, B or C at the SGSN, a home cause at a VLR")]
    Enrol,
    #[error("at a VLR enrol wants a home cause from 0 to 255")]
    HomeCause,
    #[error("it wants one IMSI")]
    OneMobile,
    #[error("request wants an IMSI, combined-attach, imsi-attach or area-change, a VLR, the old and the \
             new area")]
    Request,
    #[error("detach wants an IMSI, and by-mobile, by-network, imsi, imsi-and-gprs or switched-off")]
    Detach,
    #[error("page wants an IMSI, then tmsi and 8 hexadecimal digits, then channel and a number, or neither")]
    Page,
    #[error("lose stands alone")]
    Lose,
    #[error("deliver wants at most a number from 0 to 255, or all")]
    Deliver,
    #[error("tick wants at most a number from 0 to 255")]
    Tick,
}

pub(crate) type LineError = words::line_error::LineError<Mistake>;

impl From<Mistake> for LineError {
    fn from(mistake: Mistake) -> LineError {
        LineError::Mistake(mistake)
    }
}
