//! Nodes that wait.

ghost use Rattle.std.specs.Prelude.{◌≡◌, ◌<◌, ◌≤◌, [], ◌∷◌, length, reverse, IfNone, IfSome};
ghost use Rattle.syn_decide.specs.Told.{first_of};

use arrayvec::ArrayVec;
use std::marker::Model;

// The most nodes that wait: while the walk goes on, one more than there are inner rows; then the used leaves and the root.
const MAX_WAITING: usize = 64;

/// Nodes that wait, at most 64. Contracts see the list, the next node first.
#[derive(Debug, Drop)]
pub struct Waiting {
    nodes: ArrayVec<u32, MAX_WAITING>,
}

impl Model for Waiting {
    ghost use Rattle.std.specs.Prelude.{ℕ, List, reverse, length, ◌≤◌};

    ghost Value = { List ℕ };

    ghost view = { λ w. reverse w.nodes.items };

    ghost invariant = { λ w. length w.nodes.items ≤ 64 };
}

impl Waiting {
    /// No node waits.
    pub fn new() -> Waiting
        ensures { result ≡ [] }
    {
        Waiting {
            nodes: ArrayVec::new(),
        }
    }

    /// No node waits any more.
    pub fn clear(&mut self)
        ensures { self.new ≡ [] }
    {
        self.nodes.clear();
    }

    /// This node is the next.
    pub fn push(&mut self, node: u32)
        requires { length self.old < 64 }
        ensures { self.new ≡ node ∷ self.old }
    {
        self.nodes.push(node);
    }

    /// Takes the next node.
    pub fn pop(&mut self) -> Option<u32>
        ensures none { IfNone result ((self.old ≡ []) × (self.new ≡ [])) }
        ensures some { IfSome result (λ n. self.old ≡ n ∷ self.new) }
        ensures few { length self.old ≤ 64 }
    {
        self.nodes.pop()
    }

    /// The next node.
    pub fn next(&self) -> Option<u32>
        ensures { result ≡ first_of self.now }
    {
        last_of(self.nodes.as_slice())
    }
}

// The last node of a list.
fn last_of(nodes: &[u32]) -> Option<u32>
    ensures { result ≡ first_of (reverse nodes.now) }
{
    let len = nodes.len();
    if len == 0 {
        return None;
    }
    Some(nodes[len - 1])
}
