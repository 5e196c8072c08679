ghost use Rattle.std.specs.Prelude.{◌≡◌, ◌≤◌, ◌↔◌, IsTrue};
ghost use Rattle.pipe_frames.specs.Calls.{NextFails, no_calls, counted};

use std::marker::Model;

/// Which calls on an object in memory fail, by their numbers from 1, and how many were made and failed. Both counts stay at
/// `u64::MAX` once they are there.
#[derive(Drop)]
pub(crate) struct Schedule {
    fail: Vec<u64>,
    made: u64,
    faults: u64,
}

impl Model for Schedule {
    ghost use Rattle.pipe_frames.specs.Calls.{Calls};

    ghost Value = { Calls };

    ghost view = { λ s. record { fail = s.fail.items; made = s.made; faults = s.faults } };
}

impl Schedule {
    pub(crate) fn new(fail: Vec<u64>) -> Schedule
        ensures { result ≡ no_calls fail.items }
    {
        Schedule {
            fail,
            made: 0,
            faults: 0,
        }
    }

    // Counts one call more, and says whether it fails.
    pub(crate) fn fails(&mut self) -> bool
        ensures fails { IsTrue result ↔ NextFails self.old }
        ensures later { self.old.faults ≤ self.new.faults }
        ensures counted { self.new ≡ counted self.old result }
    {
        self.made = self.made.saturating_add(1);
        let fails = self.fail.contains(&self.made);
        if fails {
            self.faults = self.faults.saturating_add(1);
        }
        fails
    }
}
