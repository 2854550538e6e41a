//! Sets of numbers that mostly follow one behind the other.

ghost use Rattle.std.specs.Prelude.{◌≡◌, ◌+◌, ◌<◌, ◌^◌, ◌||◌, ℕ, nat_eq, not, false, IfOk, OnOk};
ghost use Rattle.syn_aiger_files.specs.Seen.{holds};

use std::alloc::{AllocError, Global};
use std::collections::HashSet;

/// A set of numbers. While they are added in order from 0, it takes no memory.
#[derive(Drop)]
pub struct NumberSet {
    // All numbers below this one are there.
    run: u32,
    // The numbers that came out of order.
    others: HashSet<u32>,
}

impl NumberSet {
    /// No number.
    pub fn new(alloc: Global) -> NumberSet
        ensures { (n : ℕ) → holds result n ≡ false }
    {
        NumberSet {
            run: 0,
            others: HashSet::new(alloc),
        }
    }

    /// Adds a number; whether it wasn't there.
    pub fn insert(&mut self, n: u32) -> Result<bool, AllocError>
        requires { n + 1 < 2 ^ 32 }
        ensures added { IfOk result (λ added. added ≡ not (holds self.old n)) }
        ensures has { OnOk result ((m : ℕ) → holds self.new m ≡ (nat_eq n m || holds self.old m)) }
    {
        if n < self.run {
            return Ok(false);
        }
        if n == self.run && !self.others.contains(&n) {
            self.run = n + 1;
            return Ok(true);
        }
        let added = self.others.insert(n)?;
        Ok(added)
    }
}
