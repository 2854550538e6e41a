//! What is ready before a commit redefines its root.

ghost use Rattle.std.specs.Prelude.{◌≡◌, ◌≤◌, length};
ghost use Rattle.syn_decide.specs.Tasks.{task_of};
ghost use Rattle.syn_commit_laws.specs.Redefining as redefining;

use arrayvec::ArrayVec;
use syn_decide::{Attempt, Deciding};

/// The most leaves of a proposal.
const MAX_LEAVES: usize = syn_plan::MAX_LEAVES as usize;

/// The leaves that the walk met, in their order.
pub(crate) fn met_leaves(attempt: &Attempt<'_>, deciding: &Deciding) -> ArrayVec<u32, MAX_LEAVES>
    ensures leaves { result.items ≡ redefining.met_leaves (task_of attempt.now) deciding.now.inner }
    ensures few { length result.items ≤ 8 }
{
    let leaves = attempt.candidate.leaves;
    let mut met = ArrayVec::new();
    for leaf in leaves {
        if deciding.has_met(*leaf) {
            met.push(*leaf);
        }
    }
    met
}
