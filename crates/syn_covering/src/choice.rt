//! Choices of cuts.

ghost use Rattle.std.specs.Prelude.{◌≡◌, ℕ, ◌<◌, List};

/// Chooses a cut for each node.
pub trait Choice {
    /// The leaves of each node's cut.
    ghost leaves: { Self → ℕ → List ℕ };

    /// How many nodes have one.
    ghost count: { Self → ℕ };

    /// The leaves of a node's cut.
    fn cut(&self, node: u32) -> &[u32]
        requires { node < count self.now }
        ensures { result.now ≡ leaves self.now node };
}
