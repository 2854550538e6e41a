//! Proposals whose leaves and plan are tested when they are made.

ghost use Rattle.std.specs.Prelude.{◌≡◌, IfSome, length, true};
ghost use Rattle.syn_gain.specs.Leaves.{are_below, gates_within, names_within, rise_above};

use crate::Candidate;
use syn_plan::{PLit, Plan};

/// Whether the nodes rise, the first above this one.
pub fn rise_above(low: u32, nodes: &[u32]) -> bool
    ensures { result ≡ rise_above low nodes.now }
{
    let mut last = low;
    for node in nodes {
        if *node <= last {
            return false;
        }
        last = *node;
    }
    true
}

/// Whether the nodes are below this one.
pub fn are_below(high: u32, nodes: &[u32]) -> bool
    ensures { result ≡ are_below high nodes.now }
{
    for node in nodes {
        if *node >= high {
            return false;
        }
    }
    true
}

// Whether a literal of a plan over so many leaves names none behind the first `count`.
fn names_within(count: usize, leaves: u8, literal: PLit) -> bool
    ensures { result ≡ names_within count leaves literal }
{
    let index = literal.index();
    index as usize <= count || index > u16::from(leaves)
}

// Whether the gates of such a plan name none.
fn gates_within(count: usize, leaves: u8, gates: &[(PLit, PLit)]) -> bool
    ensures { result ≡ gates_within count leaves gates.now }
{
    for gate in gates {
        if !(names_within(count, leaves, gate.0) && names_within(count, leaves, gate.1)) {
            return false;
        }
    }
    true
}

impl<'a> Candidate<'a> {
    /// The proposal to replace the root by a plan; none where the leaves don't rise from above 0 to below the root, or the
    /// plan names a leaf behind the last of them.
    pub fn tested(root: u32, leaves: &'a [u32], plan: &'a Plan) -> Option<Candidate<'a>>
        ensures root { IfSome result (λ c. c.root ≡ root) }
        ensures leaves { IfSome result (λ c. c.leaves.now ≡ leaves.now) }
        ensures plan { IfSome result (λ c. c.plan.now ≡ plan.now) }
    {
        if root == 0 || !rise_above(0, leaves) || !are_below(root, leaves) {
            return None;
        }
        if !gates_within(leaves.len(), plan.leaves, plan.gates.as_slice())
            || !names_within(leaves.len(), plan.leaves, plan.out)
        {
            return None;
        }
        Some(Candidate { root, leaves, plan })
    }
}
