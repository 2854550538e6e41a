//! Plans: small circuits of AND gates over leaves, and the plans that factoring gives.
#![tactic(auto)]

mod factors;
mod laws;
mod plan;
mod tables;

ghost use Rattle.std.specs.Prelude.{◌≡◌, ℕ, ◌+◌, ◌*◌, ◌/◌, ◌%◌, ◌^◌, ◌<◌, ◌==◌, if◌then◌else◌, IsTrue, ◌↔◌};
ghost use Rattle.syn_plan.specs.Gates.{complement_of};

pub use factors::{Split, factor, factor_in};
pub use laws::{factored_names, factored_truth, needed_within};
pub use plan::Plan;

/// The most leaves of a plan, as many as a truth table has variables.
pub const MAX_LEAVES: u8 = 8;

/// The most gates of a plan: what factoring a function of 8 variables may take.
pub const MAX_GATES: usize = 381;

/// The most indexes of a plan: the constant 0, the leaves and the gates.
pub const MAX_INDEXES: usize = 390;

/// The most indexes of a small plan, for which there is less room.
pub const FEW_INDEXES: usize = 32;

/// A literal of a plan: `2 * index + complement`. Index 0 is the constant 0, then come the leaves,
/// then the gates.
#[derive(Clone, Copy, Debug, PartialEq, Eq, PartialOrd, Ord, Hash, Default)]
pub struct PLit(pub u16);

impl PLit {
    /// The literal of an index, complemented or plain.
    #[inline]
    pub fn of(index: u16, complement: bool) -> PLit
        requires { index < 2 ^ 15 }
        ensures { result.0 ≡ 2 * index + (if complement then 1 else 0) }
    {
        PLit(2 * index + u16::from(complement))
    }

    /// The index that it names.
    #[inline]
    pub fn index(self) -> u16
        ensures { result ≡ self.0 / 2 }
    {
        self.0 / 2
    }

    /// Whether it is complemented.
    #[inline]
    pub fn complemented(self) -> bool
        ensures { IsTrue result ↔ (self.0 % 2 ≡ 1) }
    {
        self.0 % 2 == 1
    }

    /// The literal of the same index with the other sign.
    #[inline]
    pub fn not(self) -> PLit
        ensures complement { result ≡ complement_of self }
        ensures index { result.0 / 2 ≡ self.0 / 2 }
    {
        PLit(self.0 ^ 1)
    }
}
