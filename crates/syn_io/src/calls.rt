//! Calls that are counted, some of which are to fail.
ghost use Rattle.std.specs.Prelude.{◌≡◌, ℕ};

/// A count of calls, and the numbers (from 1) of those that are to fail.
#[derive(Debug, Drop)]
pub struct Calls {
    pub made: u64,
    pub failing: Vec<u64>,
}

impl Calls {
    ghost use Rattle.syn_io.specs.Calls.{after_call, next_fails};

    /// No call was made yet.
    pub fn failing(numbers: Vec<u64>) -> Calls
        ensures { result ≡ record { made = 0; failing = numbers } }
    {
        Calls {
            made: 0,
            failing: numbers,
        }
    }

    /// Counts a call. True where it is to fail.
    pub fn begin(&mut self) -> bool
        ensures fails { result ≡ next_fails self.old }
        ensures counted { self.new ≡ after_call self.old }
    {
        self.made = self.made.saturating_add(1);
        self.failing.as_slice().contains(&self.made)
    }
}
