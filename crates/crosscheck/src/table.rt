// The format as a table: which elements each message has, and what each may hold.
use std::ops::RangeInclusive;

// How the contents of an element are read.
#[derive(Clone, Copy)]
pub(crate) enum Kind {
    // the digits of an IMSI
    Digits,
    // one octet within bounds
    Octet { low: u8, high: u8 },
    // so many octets, any, as one number, the high octet first
    Number { size: u8 },
}

impl Kind {
    // How many content octets there may be.
    pub(crate) fn sizes(self) -> RangeInclusive<u8> {
        match self {
            Kind::Digits => 1..=8,
            Kind::Octet { .. } => 1..=1,
            Kind::Number { size } => size..=size,
        }
    }
}

// One element of a message.
#[derive(Clone, Copy)]
pub(crate) struct Row {
    pub(crate) identifier: u8,
    pub(crate) optional: bool,
    pub(crate) kind: Kind,
}

const IMSI: Row = Row {
    identifier: 0x01,
    optional: false,
    kind: Kind::Digits,
};

const TMSI: Row = Row {
    identifier: 0x02,
    optional: true,
    kind: Kind::Number { size: 4 },
};

const CAUSE: Row = Row {
    identifier: 0x03,
    optional: false,
    kind: Kind::Octet { low: 1, high: 2 },
};

const UPDATE: Row = Row {
    identifier: 0x04,
    ..CAUSE
};

const OLD_AREA: Row = Row {
    identifier: 0x05,
    optional: false,
    kind: Kind::Number { size: 5 },
};

const NEW_AREA: Row = Row {
    identifier: 0x06,
    ..OLD_AREA
};

const CLASS: Row = Row {
    identifier: 0x07,
    ..CAUSE
};

const REJECT: Row = Row {
    identifier: 0x08,
    optional: false,
    kind: Kind::Octet { low: 1, high: 255 },
};

const GPRS_DETACH: Row = Row {
    identifier: 0x09,
    ..CAUSE
};

const IMSI_DETACH: Row = Row {
    identifier: 0x0A,
    ..CAUSE
};

const ENTITY: Row = Row {
    identifier: 0x0B,
    optional: false,
    kind: Kind::Octet { low: 1, high: 254 },
};

const CHANNEL: Row = Row {
    identifier: 0x0C,
    optional: true,
    kind: Kind::Octet { low: 0, high: 3 },
};

// One type of message.
#[derive(Clone, Copy)]
pub(crate) struct MessageType {
    pub(crate) octet: u8,
    // what people call it
    pub(crate) name: &'static str,
    // its elements in their order
    rows: &'static [Row],
}

impl MessageType {
    pub(crate) fn rows(&self) -> &'static [Row] {
        self.rows
    }
}

pub(crate) static TYPES: [MessageType; 12] = [
    MessageType {
        octet: 0x00,
        name: "PAGING",
        rows: &[IMSI, TMSI, CHANNEL],
    },
    MessageType {
        octet: 0x01,
        name: "PAGING_FAILURE",
        rows: &[IMSI, CAUSE],
    },
    MessageType {
        octet: 0x02,
        name: "MOBILE_STATUS",
        rows: &[IMSI, CAUSE],
    },
    MessageType {
        octet: 0x06,
        name: "LU Request",
        rows: &[IMSI, UPDATE, OLD_AREA, NEW_AREA, CLASS],
    },
    MessageType {
        octet: 0x07,
        name: "LU Accept",
        rows: &[IMSI, NEW_AREA],
    },
    MessageType {
        octet: 0x08,
        name: "LU Reject",
        rows: &[IMSI, REJECT],
    },
    MessageType {
        octet: 0x09,
        name: "RESET",
        rows: &[ENTITY],
    },
    MessageType {
        octet: 0x0A,
        name: "RESET_ACKNOWLEDGE",
        rows: &[ENTITY],
    },
    MessageType {
        octet: 0x0E,
        name: "GPRS_DETACH Indication",
        rows: &[IMSI, GPRS_DETACH],
    },
    MessageType {
        octet: 0x0F,
        name: "GPRS_DETACH Acknowledge",
        rows: &[IMSI, GPRS_DETACH],
    },
    MessageType {
        octet: 0x11,
        name: "IMSI_DETACH Indication",
        rows: &[IMSI, IMSI_DETACH],
    },
    MessageType {
        octet: 0x12,
        name: "IMSI_DETACH Acknowledge",
        rows: &[IMSI, IMSI_DETACH],
    },
];

pub(crate) fn message_type(octet: u8) -> Option<&'static MessageType> {
    TYPES.iter().find(|message| message.octet == octet)
}
