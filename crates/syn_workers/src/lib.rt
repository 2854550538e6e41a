//! How many workers a command may have.
#![tactic(auto)]

ghost use Rattle.std.specs.Prelude.{◌≡◌, ◌≤◌};

use std::marker::Model;

/// The most workers.
pub const MAX_WORKERS: u8 = 16;

/// A number of workers, 1 to 16. Contracts see the number.
#[derive(Clone, Copy, Debug, PartialEq, Eq)]
pub struct Workers {
    number: u8,
}

impl Model for Workers {
    ghost use Rattle.std.specs.Prelude.{ℕ, ◌≤◌};

    ghost Value = { ℕ };

    ghost view = { λ workers. workers.number };

    ghost inverse = { λ number. record { number = number } };

    ghost invariant = { λ workers. (1 ≤ workers.number) × (workers.number ≤ 16) };
}

impl Workers {
    /// So many workers.
    pub fn new(number: u8) -> Workers
        requires some { 1 ≤ number }
        requires few { number ≤ 16 }
        ensures { result ≡ number }
    {
        Workers { number }
    }

    /// How many they are.
    #[inline]
    pub fn number(self) -> u8
        ensures number { result ≡ self }
        ensures some { 1 ≤ result }
        ensures few { result ≤ 16 }
    {
        self.number
    }
}
