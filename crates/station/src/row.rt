// What an end keeps of its peer: recovery, the last RESET sent, and the acknowledgement that is due.
ghost use Rattle.std.specs.Prelude.{◌≡◌};
ghost use Rattle.station.specs.Rows.{new_row, lost_row, reset_taken, acknowledged, due_now, repeat_now};
ghost use Rattle.station.specs.Rows.{due_ticked, reset_ticked, repeated};

// A RESET is repeated after so many ticks, so many times.
const REPEAT_TICKS: u8 = 6;

const REPEATS: u8 = 3;
// A RESET taken is acknowledged after so many ticks.
const ACKNOWLEDGE_TICKS: u8 = 2;

// The timer of a RESET that nobody acknowledged yet. Spent repeats do not end recovery: `repeats` is 0
// then, and `ticks` run down to 0.
#[derive(Clone, Copy, Debug, PartialEq, Eq)]
pub struct Recovery {
    // ticks left until the RESET is repeated; a spent timer stays at 0
    pub ticks: u8,
    // how often it can still be repeated
    pub repeats: u8,
}

// An acknowledgement that is due, of the RESET with the stamp `answers`.
#[derive(Clone, Copy, Debug, PartialEq, Eq)]
pub struct Due {
    pub answers: u32,
    pub ticks: u8,
}

#[derive(Clone, Copy, Debug, Default, PartialEq, Eq)]
pub struct Row {
    // from a loss here until its last RESET is acknowledged
    pub recovery: Option<Recovery>,
    // the stamp of the last RESET sent, which counts after recovery too
    pub reset: Option<u32>,
    pub due: Option<Due>,
}

impl Row {
    pub fn new() -> Row
        ensures { result ≡ new_row }
    {
        Row::default()
    }

    // There was a loss here, of which a RESET with this stamp told.
    pub(crate) fn begin_recovery(&mut self, stamp: u32)
        ensures { self.new ≡ lost_row self.old stamp }
    {
        self.recovery = Some(Recovery {
            ticks: REPEAT_TICKS,
            repeats: REPEATS,
        });
        self.reset = Some(stamp);
    }

    // A RESET with this stamp was taken. One taken while an acknowledgement is due starts that anew.
    pub fn take_reset(&mut self, stamp: u32)
        ensures { self.new ≡ reset_taken self.old stamp }
    {
        self.due = Some(Due {
            answers: stamp,
            ticks: ACKNOWLEDGE_TICKS,
        });
    }

    // A RESET_ACKNOWLEDGE was taken that answers this stamp: recovery ends only if it is the last RESET's.
    pub fn take_acknowledgement(&mut self, answers: u32)
        ensures { self.new ≡ acknowledged self.old answers }
    {
        if Some(answers) == self.reset {
            self.recovery = None;
        }
    }

    // The stamp that is to be acknowledged on this tick.
    pub(crate) fn due_now(&self) -> Option<u32>
        ensures { result ≡ due_now self.now }
    {
        let due = self.due.filter(|due| due.ticks <= 1)?;
        Some(due.answers)
    }

    // Is the RESET to be repeated on this tick?
    pub fn repeat_now(&self) -> bool
        ensures { result ≡ repeat_now self.now }
    {
        self.recovery
            .is_some_and(|recovery| recovery.ticks == 1 && recovery.repeats > 0)
    }

    // One tick of the acknowledgement that is due.
    pub(crate) fn tick_due(&mut self)
        ensures { self.new ≡ due_ticked self.old }
    {
        self.due = self.due.filter(|due| due.ticks > 1).map(|due| Due {
            ticks: due.ticks - 1,
            ..due
        });
    }

    // One tick of the RESET's timer, where it is not repeated. A spent timer stays spent.
    pub(crate) fn tick_reset(&mut self)
        ensures { self.new ≡ reset_ticked self.old }
    {
        self.recovery = self.recovery.map(|recovery| Recovery {
            ticks: recovery.ticks.saturating_sub(1),
            ..recovery
        });
    }

    // The RESET was repeated with this stamp.
    pub(crate) fn note_repeat(&mut self, stamp: u32)
        ensures { self.new ≡ repeated self.old stamp }
    {
        self.recovery = self.recovery.map(|recovery| Recovery {
            ticks: REPEAT_TICKS,
            repeats: recovery.repeats.saturating_sub(1),
        });
        self.reset = Some(stamp);
    }
}
