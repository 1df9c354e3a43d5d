// The calls of an object in memory, one of which may be named to fail.
ghost use Rattle.std.specs.Prelude.{◌≡◌, ◌≤◌, false};
ghost use Rattle.outside.specs.Causes.{next_count};
ghost use Rattle.outside.specs.CallLog.{no_calls, fails_next, naming};

use crate::Failed;
use std::marker::Model;

// How many calls were made, which is to fail, and how many have failed. Both counts stop at their last value.
#[derive(Drop)]
pub struct Calls {
    made: u64,
    failing: Option<u64>,
    faults: u64,
}

impl Model for Calls {
    ghost use Rattle.outside.specs.CallLog.{CallLog};
    ghost use Rattle.outside.specs.HeldFiles.{log_code};

    ghost Value = { CallLog };

    ghost coded = { log_code };

    ghost view = { λ c. record { made = c.made; failing = c.failing; faults = c.faults } };
}

impl Calls {
    pub fn new() -> Self
        ensures { result ≡ no_calls }
    {
        Calls {
            made: 0,
            failing: None,
            faults: 0,
        }
    }

    // Names the nth call to fail.
    pub fn fail_call(&mut self, n: u64)
        ensures { self.new ≡ naming n self.old }
    {
        self.failing = Some(n);
    }

    // Counts a call, and says whether it was named to fail.
    pub fn is_failing(&mut self) -> bool
        ensures after { self.new ≡ record self.old { made = next_count self.old.made } }
        ensures named { result ≡ fails_next self.old }
    {
        self.made = self.made.saturating_add(1);
        self.failing == Some(self.made)
    }

    // Counts a fault.
    pub fn fail(&mut self) -> Failed
        ensures after { self.new ≡ record self.old { faults = next_count self.old.faults } }
        ensures later { self.old.faults ≤ self.new.faults }
    {
        self.faults = self.faults.saturating_add(1);
        Failed
    }
}
