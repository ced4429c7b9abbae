// What a mailbox holds.
ghost use Rattle.std.specs.Prelude.{◌≡◌, true};
ghost use Rattle.mailbox.specs.Slots.{distinct};

use crate::slot::Slot;
use arrayvec::ArrayVec;

// A mailbox notes so many pairs.
const PAIRS: usize = 16;

// One slot for each of the first 16 pairs put, the earliest first.
#[derive(Drop)]
pub struct Mailbox {
    pub slots: ArrayVec<Slot, PAIRS>,
    ghost pairs: { distinct slots.items ≡ true },
}
