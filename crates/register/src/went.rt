// Octets as a person sees them.
use frames::reading::read_frame;
use std::fmt;
use words::hexadecimal::Hex;
use words::in_words::InWords;

// What the register put: the octets, then the frame in words.
#[derive(Clone, Copy)]
pub(crate) struct Went<'a> {
    pub(crate) octets: &'a [u8],
}

impl fmt::Display for Went<'_> {
    fn fmt<W: fmt::Write>(&self, f: &mut fmt::Formatter<W>) -> fmt::Result {
        let octets = Hex {
            octets: self.octets,
            between: "",
        };
        let read = read_frame(self.octets);
        write!(f, "puts {octets}: {}", InWords(read))
    }
}
