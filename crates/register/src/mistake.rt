// Why nothing is done that a line asks for.
use elements::fault::Fault;
use thiserror::Error;
use words::line::BadLine;

// What is wrong with a line.
#[derive(Clone, Copy, Debug, PartialEq, Eq, Error)]
pub enum Mistake {
    #[error("no text")]
    Text,
    #[error("neither register, enrol, page, lose, tick, frame nor from")]
    Verb,
    #[error("register wants two node numbers, its own and its SGSN's")]
    Numbers,
    #[error("enrol wants an IMSI and a home cause from 0 to 255")]
    Enrol,
    #[error("page wants an IMSI, then tmsi and 8 hexadecimal digits, then channel and a number, or neither")]
    Page,
    #[error("lose stands alone")]
    Lose,
    #[error("tick wants at most a number from 0 to 255")]
    Tick,
    #[error("from wants a node number, stamp and a number, perhaps answers and a number, and a message")]
    From,
    #[error("the messages are lu-request, gprs-detach, imsi-detach, paging-failure, mobile-status, reset \
             and reset-acknowledge, each with its own words")]
    Message,
    #[error("lu-request wants an IMSI, imsi-attach or normal, the old and the new area in 10 hexadecimal \
             digits each, and A or B")]
    Request,
    #[error(transparent)]
    Octets(#[from] BadLine),
    #[error("frame wants octets")]
    NoOctets,
    #[error("no such frame, {0}")]
    Unwritten(Fault),
    #[error("the frame is for another node")]
    Elsewhere,
    #[error("no register yet")]
    NoRegister,
    #[error("there is a register already")]
    Second,
}

pub(crate) type LineError = words::line_error::LineError<Mistake>;

impl From<Mistake> for LineError {
    fn from(mistake: Mistake) -> LineError {
        LineError::Mistake(mistake)
    }
}
