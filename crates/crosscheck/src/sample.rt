// What both readers are given.

// Octets are read as a message alone, or as a frame with a message in it.
#[derive(Clone, Copy, Debug, PartialEq, Eq)]
pub(crate) enum Form {
    Message,
    Frame,
}

// Octets, and what to read them as.
#[derive(Clone, Copy)]
pub(crate) struct Sample<'a> {
    pub(crate) form: Form,
    pub(crate) octets: &'a [u8],
}

impl<'a> Sample<'a> {
    pub(crate) fn message(octets: &'a [u8]) -> Sample<'a> {
        Sample {
            form: Form::Message,
            octets,
        }
    }

    pub(crate) fn frame(octets: &'a [u8]) -> Sample<'a> {
        Sample {
            form: Form::Frame,
            octets,
        }
    }

    // Other octets, to be read as the same form.
    pub(crate) fn with<'b>(self, octets: &'b [u8]) -> Sample<'b> {
        Sample {
            form: self.form,
            octets,
        }
    }
}
