//! Borrowed proposals made owned.

ghost use Rattle.std.specs.Prelude.{◌≡◌, ◌≤◌, length};
ghost use Rattle.syn_gain.specs.Proposals.{replacement, replacement_of};

use crate::{Candidate, Proposal};
use arrayvec::ArrayVec;
use syn_plan::Plan;

// The same plan.
fn copied(plan: &Plan) -> Plan
    ensures leaves { result.leaves ≡ plan.now.leaves }
    ensures gates { result.gates.items ≡ plan.now.gates.items }
    ensures out { result.out ≡ plan.now.out }
{
    let mut gates = ArrayVec::new();
    for gate in plan.gates.iter() {
        gates.push(*gate);
    }
    Plan {
        leaves: plan.leaves,
        gates,
        out: plan.out,
    }
}

/// The same proposal, with leaves and a plan of its own.
pub fn owned(candidate: Candidate) -> Proposal
    requires { length candidate.leaves.now ≤ 8 }
    ensures { replacement result ≡ replacement_of candidate.entry }
{
    let mut leaves = ArrayVec::new();
    for leaf in candidate.leaves {
        leaves.push(*leaf);
    }
    Proposal {
        root: candidate.root,
        leaves,
        plan: copied(candidate.plan),
    }
}
