// Elements that a message may lack, in words: the TMSI and the channel that a mobile needs.
use std::fmt;

// A mobile's temporary identity, as the four octets that carry it.
#[derive(Clone, Copy)]
pub struct Tmsi(pub u32);

impl fmt::Display for Tmsi {
    fn fmt<W: fmt::Write>(&self, f: &mut fmt::Formatter<W>) -> fmt::Result {
        write!(f, "{:08X}", self.0)
    }
}

// An element, or that there is none.
#[derive(Clone, Copy)]
pub struct OrAbsent<T>(pub Option<T>);

impl<T: fmt::Display> fmt::Display for OrAbsent<T> {
    fn fmt<W: fmt::Write>(&self, f: &mut fmt::Formatter<W>) -> fmt::Result {
        match &self.0 {
            Some(element) => write!(f, "{element}"),
            None => f.write_str("absent"),
        }
    }
}
