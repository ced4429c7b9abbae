// How an end takes a frame.
ghost use Rattle.std.specs.Prelude.{◌≡◌};
ghost use Rattle.station.specs.declared.receiving.Refusal.TheVariants.{Denied, Faulty};
ghost use Rattle.station.specs.Receiving.{LawfulIn, Received, is_from, names_sender};

use crate::denial::Denial;
use carrier::carrier::Carrier;
use carrier::datagram::Datagram;
use carrier::in_order::InOrder;
use elements::absent::{OrAbsent, Tmsi};
use elements::fault::Fault;
use elements::node::NodeNumber;
use frames::frame::Frame;
use frames::reading::read_frame;
use imsi::Imsi;
use messages::message::Message;
use std::error::Error;
use std::fmt;

// What a delivery brings about. A page order tells the radio side to page the mobile.
#[derive(Clone, Copy, Debug, PartialEq, Eq)]
pub enum Delivery {
    Nothing,
    PageOrder {
        imsi: Imsi,
        tmsi: Option<u32>,
        channel: Option<u8>,
    },
    Done,
}

impl fmt::Display for Delivery {
    fn fmt<W: fmt::Write>(&self, f: &mut fmt::Formatter<W>) -> fmt::Result {
        match *self {
            Delivery::Nothing => f.write_str("nothing"),
            Delivery::Done => f.write_str("done"),
            Delivery::PageOrder {
                imsi,
                tmsi,
                channel,
            } => {
                let tmsi = OrAbsent(tmsi.map(Tmsi));
                let channel = OrAbsent(channel);
                write!(f, "page order, IMSI {imsi}, TMSI {tmsi}, channel {channel}")
            }
        }
    }
}

// Why a delivery brings nothing about: the end made no call, or what came is no frame.
#[derive(Clone, Copy, Debug, PartialEq, Eq)]
pub enum Refusal {
    Denied(Denial),
    Faulty(Fault),
}

impl From<Denial> for Refusal {
    ghost from_gives = { λ denial refusal. refusal ≡ Denied denial };

    fn from(denial: Denial) -> Refusal {
        Refusal::Denied(denial)
    }
}

impl From<Fault> for Refusal {
    ghost from_gives = { λ fault refusal. refusal ≡ Faulty fault };

    fn from(fault: Fault) -> Refusal {
        Refusal::Faulty(fault)
    }
}

impl fmt::Display for Refusal {
    fn fmt<W: fmt::Write>(&self, f: &mut fmt::Formatter<W>) -> fmt::Result {
        match self {
            Refusal::Denied(reason) => write!(f, "{reason}"),
            Refusal::Faulty(reason) => write!(f, "{reason}"),
        }
    }
}

impl Error for Refusal {}

// Takes once for a node, and reads what was given.
pub fn take_frame<C: InOrder>(carrier: &mut C, node: NodeNumber) -> Option<Result<Frame, Fault>>
    ensures received { Received C.Carrier.takes node result carrier.old carrier.new }
    ensures lawful { LawfulIn result }
{
    let datagram = InOrder::take(carrier, node)?;
    Some(read_frame(datagram.as_slice()))
}

// A RESET and its acknowledgement name their sender; no other message does.
fn names_sender(message: Message, sender: NodeNumber) -> bool
    ensures { result ≡ names_sender sender message }
{
    match message {
        Message::Reset { entity } | Message::ResetAcknowledge { entity } => entity == sender,
        _ => true,
    }
}

// Did this peer send the frame, and does the frame name no other?
pub fn is_from(frame: Frame, peer: NodeNumber) -> bool
    ensures { result ≡ is_from peer frame }
{
    frame.source == peer && names_sender(frame.message, peer)
}
