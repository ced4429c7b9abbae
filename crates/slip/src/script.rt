// The script of a slip carrier: an octet for each take.
ghost use Rattle.std.specs.Prelude.{◌≡◌, drop, IfOk, slice_index};
ghost use Rattle.slip.specs.Modes.{mode_of};
ghost use Rattle.slip.specs.Scripts.{octets_left};

use std::alloc::{AllocError, Global};
use std::vec;

// What one take does.
#[derive(Clone, Copy, Debug, PartialEq, Eq)]
pub enum Mode {
    GiveOldest,
    GiveNewest,
    GiveAndKeepOldest,
    LoseOldest,
}

// An octet counts modulo 4.
impl From<u8> for Mode {
    ghost from_gives = { λ octet mode. mode ≡ mode_of octet };

    fn from(octet: u8) -> Mode {
        match octet % 4 {
            0 => Mode::GiveOldest,
            1 => Mode::GiveNewest,
            2 => Mode::GiveAndKeepOldest,
            _ => Mode::LoseOldest,
        }
    }
}

// The octets that are still to come.
#[derive(Drop)]
pub struct Script {
    pub octets: vec::IntoIter<u8>,
}

impl Script {
    pub fn new(heap: Global, octets: &[u8]) -> Result<Script, AllocError>
        ensures { IfOk result (λ s. octets_left s ≡ octets.now) }
    {
        let octets = octets.to_vec(heap)?.into_iter();
        Ok(Script { octets })
    }

    // Spends the next octet; a spent script reads 0.
    pub fn next(&mut self) -> u8
        ensures octet { result ≡ slice_index (octets_left self.old) 0 }
        ensures left { octets_left self.new ≡ drop 1 (octets_left self.old) }
    {
        self.octets.next().unwrap_or(0)
    }
}
