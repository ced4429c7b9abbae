// How an end sends a frame.
ghost use Rattle.std.specs.Prelude.{◌≡◌, ◌+◌, true, false, [], ◌∷◌};
ghost use Rattle.station.specs.Sends.{HasStamps, is_worn, may_go, Sent};

use carrier::carrier::Carrier;
use carrier::in_order::InOrder;
use elements::node::NodeNumber;
use frames::frame::Frame;
use frames::writing::write_frame;
use messages::message::Message;

// An end with a higher last stamp makes no more calls, so that no call ever runs out of stamps.
pub const WORN_ABOVE: u32 = 4_294_965_000;

// A message to a node.
#[derive(Clone, Copy, Debug, PartialEq, Eq)]
pub struct Outgoing {
    pub to: NodeNumber,
    // the stamp of the frame that this one answers, 0 for none: the number that goes into the frame
    pub answers: u32,
    pub message: Message,
}

// An end as it sends: its number, and the stamp that it sent last. Not Copy, so that no stamp is taken twice
// by mistake. Whatever is lent a sender says that its number stays: no type fixes one field of what is lent.
#[derive(Debug, Drop, PartialEq, Eq)]
pub struct Sender {
    pub own: NodeNumber,
    pub last: u32,
}

impl Sender {
    pub fn is_worn(&self) -> bool
        ensures { result ≡ is_worn self.now.last }
    {
        self.last > WORN_ABOVE
    }

    // Sends one frame with the next stamp, and answers that stamp. What may not go is
    // not put, and takes a stamp too.
    pub fn send<C: InOrder>(&mut self, carrier: &mut C, outgoing: Outgoing) -> u32
        ensures stamp { HasStamps 1 self.old → result ≡ self.old.last + 1 }
        ensures own { self.new.own ≡ self.old.own }
        ensures last { self.new.last ≡ result }
        ensures sent { HasStamps 1 self.old → may_go self.old.own outgoing ≡ true
            → Sent C.Carrier.puts self.old.own self.old.last (outgoing ∷ []) carrier.old carrier.new }
        ensures unsent { may_go self.old.own outgoing ≡ false → carrier.new ≡ carrier.old }
    {
        self.last = self.last.saturating_add(1);
        let frame = Frame {
            source: self.own,
            destination: outgoing.to,
            stamp: self.last,
            answers: outgoing.answers,
            message: outgoing.message,
        };
        let mut octets = [0; 64];
        if let Ok(size) = write_frame(frame, &mut octets) {
            InOrder::put(carrier, &octets[0..size]);
        }
        self.last
    }
}
