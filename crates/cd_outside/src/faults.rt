ghost use Rattle.std.specs.Prelude.{◌≡◌, ◌≤◌, ◌↔◌, IsTrue};
ghost use Rattle.cd_outside.specs.Counts.{raised};
ghost use Rattle.cd_outside.specs.Faults.{IsDue};

use cd_text::List;

/// Which calls of a form in memory fail, and how many have failed. Both counts stay at 2^64 - 1 once they have come so far.
#[derive(Debug, Drop)]
pub struct Faults {
    /// The numbers of the calls that fail, counted from 0 over the calls that can fail.
    pub failing: List<u64>,
    /// The number of the next call that can fail.
    pub calls: u64,
    /// How many calls have failed.
    pub count: u64,
}

impl Faults {
    /// No call was made yet.
    pub fn new(failing: List<u64>) -> Faults
        ensures { result ≡ record { failing = failing; calls = 0; count = 0 } }
    {
        Faults {
            failing,
            calls: 0,
            count: 0,
        }
    }

    /// Counts a call, and says whether it is to fail.
    pub fn fails(&mut self) -> bool
        ensures due { IsTrue result ↔ IsDue self.old }
        ensures calls { self.new ≡ record self.old { calls = raised self.old.calls } }
    {
        let fails = self.failing.as_slice().contains(&self.calls);
        self.calls = self.calls.saturating_add(1);
        fails
    }

    /// Counts a fault.
    pub fn rise(&mut self)
        ensures count { self.new ≡ record self.old { count = raised self.old.count } }
        ensures later { self.old.count ≤ self.new.count }
    {
        self.count = self.count.saturating_add(1);
    }
}
