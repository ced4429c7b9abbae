// A row of numbers with a name for each of them.
ghost use Rattle.std.specs.Prelude.{◌≡◌};
ghost use Rattle.capi.specs.Rows.{fields_of, row_in_front};

// How many fields a frame has.
pub(crate) const FIELDS: usize = 15;

// The fields in their order. Two numbers, a flag and a value, stand for an `Option`,
// since C gets and gives this row.
#[derive(Clone, Copy, Default)]
pub(crate) struct Row {
    pub source: u64,
    pub destination: u64,
    pub stamp: u64,
    pub answers: u64,
    pub kind: u64,
    pub digits: u64,
    pub value: u64,
    pub has_tmsi: u64,
    pub tmsi: u64,
    pub has_channel: u64,
    pub channel: u64,
    pub code: u64,
    pub old_area: u64,
    pub new_area: u64,
    pub class: u64,
}

impl Row {
    // The row in the first fifteen fields, if there are so many.
    pub fn in_front(fields: &[u64]) -> Option<Row>
        ensures { result ≡ row_in_front fields.now }
    {
        let &[
            source,
            destination,
            stamp,
            answers,
            kind,
            digits,
            value,
            has_tmsi,
            tmsi,
            has_channel,
            channel,
            code,
            old_area,
            new_area,
            class,
            ..
        ] = fields
        else {
            return None;
        };
        Some(Row {
            source,
            destination,
            stamp,
            answers,
            kind,
            digits,
            value,
            has_tmsi,
            tmsi,
            has_channel,
            channel,
            code,
            old_area,
            new_area,
            class,
        })
    }

    pub fn fields(self) -> [u64; FIELDS]
        ensures { result ≡ fields_of self }
    {
        [
            self.source,
            self.destination,
            self.stamp,
            self.answers,
            self.kind,
            self.digits,
            self.value,
            self.has_tmsi,
            self.tmsi,
            self.has_channel,
            self.channel,
            self.code,
            self.old_area,
            self.new_area,
            self.class,
        ]
    }
}
