// Why nothing is done that a line asks for.
use thiserror::Error;
use words::line::BadLine;

// What is wrong with a line.
#[derive(Clone, Copy, Debug, PartialEq, Eq, Error)]
pub enum Mistake {
    #[error("neither carrier, put nor take")]
    Verb,
    #[error("the carriers are queue, slip, gate queue, gate slip, mailbox and nowhere")]
    Carrier,
    #[error("a script is numbers from 0 to 255")]
    Script,
    #[error("take wants one node number from 0 to 255")]
    Node,
    #[error(transparent)]
    Octets(#[from] BadLine),
    #[error("put wants octets")]
    NoOctets,
    #[error("more words than this carrier wants")]
    Behind,
    #[error("no carrier yet")]
    NoCarrier,
}

pub(crate) type LineError = words::line_error::LineError<Mistake>;

impl From<Mistake> for LineError {
    fn from(mistake: Mistake) -> LineError {
        LineError::Mistake(mistake)
    }
}
