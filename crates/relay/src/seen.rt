// Octets as a person sees them.
use frames::reading::read_frame;
use std::fmt;
use words::hexadecimal::Hex;
use words::in_words::InWords;

// The frame in words, or the octets and their fault.
#[derive(Clone, Copy)]
pub(crate) struct Seen<'a> {
    pub(crate) octets: &'a [u8],
}

impl fmt::Display for Seen<'_> {
    fn fmt<W: fmt::Write>(&self, f: &mut fmt::Formatter<W>) -> fmt::Result {
        match read_frame(self.octets) {
            Ok(frame) => write!(f, "{}", InWords(frame)),
            Err(fault) => {
                let octets = Hex {
                    octets: self.octets,
                    between: "",
                };
                write!(f, "octets {octets}, {fault}")
            }
        }
    }
}
