//! The stages of a decision.

ghost use Rattle.std.specs.Prelude.{◌≡◌, ◌<◌, ◌≤◌, ◌+◌, ◌^◌, ◌++◌, ◌∷◌, ℕ, List, [], find, length, not};
ghost use Rattle.syn_plan.specs.Naming as naming;
ghost use Rattle.syn_decide.specs.declared.decisions.TheConstants.{MAX_INNER};
ghost use Rattle.syn_decide.specs.declared.found.Found.{Found};
ghost use Rattle.syn_decide.specs.Tasks.{task_of};
ghost use Rattle.syn_decide.specs.Functions as functions;
ghost use Rattle.syn_decide.specs.Fold as fold;
ghost use Rattle.syn_decide.specs.Fold.{Stage};
ghost use Rattle.syn_decide.specs.Phases.{stage_of, most_at, state_at};

use crate::tables::compare;
use crate::walk::{add_fan_ins, is_met, skip_known};
use crate::words::Words;
use crate::worklist::Waiting;
use crate::{Attempt, Comparison, MAX_INNER, NodeRow, Outcome, Phase, StaleCause};
use arrayvec::ArrayVec;
use syn_core_laws::Seen;
use syn_plan::PLit;
use syn_rows::Row;

// Whether a literal of a plan names leaf i.
fn names(i: u16, literal: PLit) -> bool
    requires { i < 2 ^ 15 }
    ensures { result ≡ naming.names i literal }
{
    literal.index() == 1 + i
}

// Whether a gate names leaf i.
fn gates_name(i: u16, gates: &[(PLit, PLit)]) -> bool
    requires { i < 2 ^ 15 }
    ensures { result ≡ naming.gates_name i gates.now }
{
    for gate in gates {
        if names(i, gate.0) || names(i, gate.1) {
            return true;
        }
    }
    false
}

// Whether the plan uses leaf i.
fn uses(attempt: &Attempt<'_>, i: usize) -> bool
    ensures { result ≡ functions.uses (task_of attempt.now) i }
{
    let plan = attempt.candidate.plan;
    if i >= plan.leaves as usize {
        return false;
    }
    gates_name(i as u16, plan.gates.as_slice()) || names(i as u16, plan.out)
}

// The least used leaf that the walk did not meet.
fn first_unmet(attempt: &Attempt<'_>, inner: &[NodeRow]) -> Option<u32>
    ensures { result ≡ fold.first_unmet (task_of attempt.now) inner.now }
{
    let leaves = attempt.candidate.leaves;
    for (i, leaf) in leaves.iter().enumerate() {
        if !is_met(inner, *leaf) && uses(attempt, i) {
            return Some(*leaf);
        }
    }
    None
}

// The nodes whose keys are loaded: the used leaves, and then the root.
fn add_keys(attempt: &Attempt<'_>, waiting: &mut Waiting)
    requires { waiting.old ≡ [] }
    ensures keys { waiting.new ≡ functions.used_leaves (task_of attempt.now) ++ attempt.now.candidate.root ∷ [] }
    ensures few { length waiting.new ≤ 9 }
{
    waiting.push(attempt.candidate.root);
    let leaves = attempt.candidate.leaves;
    let mut i = leaves.len();
    while i > 0 {
        i -= 1;
        if uses(attempt, i) {
            waiting.push(leaves[i]);
        }
    }
}

// After the walk: a used leaf is out of reach, or the functions are compared.
fn after_walk(
    attempt: &Attempt<'_>,
    inner: &[NodeRow],
    waiting: &mut Waiting,
    words: &mut Words,
) -> Phase
    requires empty { waiting.old ≡ [] }
    requires inner { length inner.now ≤ MAX_INNER }
    ensures stage { stage_of result waiting.new ≡ fold.after_walk (task_of attempt.now) inner.now (fold.first_unmet (task_of attempt.now) inner.now) }
    ensures few { length waiting.new ≤ 9 }
    ensures room { length inner.now ≤ most_at result }
{
    if let Some(leaf) = first_unmet(attempt, inner) {
        return Phase::Ended(Outcome::Stale(StaleCause::Reach(leaf)));
    }
    match compare(attempt, inner, words) {
        Comparison::Circle => Phase::Failed,
        Comparison::Same => {
            add_keys(attempt, waiting);
            Phase::Keying
        }
        Comparison::Differs { was, now } => {
            Phase::Ended(Outcome::Stale(StaleCause::Differs { was, now }))
        }
    }
}

// The walk goes on, or is over.
fn walk_on(
    attempt: &Attempt<'_>,
    inner: &[NodeRow],
    waiting: &mut Waiting,
    words: &mut Words,
) -> Phase
    requires inner { length inner.now ≤ MAX_INNER }
    requires few { length waiting.old ≤ 9 + length inner.now }
    ensures stage { stage_of result waiting.new ≡ fold.walk_on (task_of attempt.now) inner.now waiting.old }
    ensures few { length waiting.new ≤ 9 + length inner.now }
    ensures room { length inner.now ≤ most_at result }
{
    let Some(node) = waiting.pop() else {
        return after_walk(attempt, inner, waiting, words);
    };
    if inner.len() < MAX_INNER {
        waiting.push(node);
        Phase::Walking
    } else {
        Phase::Ended(Outcome::Stale(StaleCause::Wide(node)))
    }
}

// A row of the walk was loaded.
fn row_loaded(
    attempt: &Attempt<'_>,
    inner: &mut ArrayVec<NodeRow, MAX_INNER>,
    waiting: &mut Waiting,
    words: &mut Words,
    node: u32,
    row: Row,
) -> Phase
    requires room { length inner.old.items < MAX_INNER }
    requires few { length waiting.old + 1 ≤ 9 + length inner.old.items }
    ensures state { (stage : Stage) (found : Found)
        → state_at (stage_of result waiting.new) inner.new.items found
        ≡ fold.row_loaded (task_of attempt.now) (state_at stage inner.old.items found) node row waiting.old }
    ensures few { length waiting.new ≤ 9 + length inner.new.items }
    ensures room { length inner.new.items ≤ most_at result }
{
    if !row.is_derived() {
        return Phase::Ended(Outcome::Stale(StaleCause::Reach(node)));
    }
    inner.push(NodeRow { node, row });
    add_fan_ins(row, waiting);
    skip_known(attempt.candidate.leaves, inner.as_slice(), waiting);
    walk_on(attempt, inner.as_slice(), waiting, words)
}

/// One read of the walk.
pub(crate) fn read_walking(
    attempt: &Attempt<'_>,
    inner: &mut ArrayVec<NodeRow, MAX_INNER>,
    waiting: &mut Waiting,
    words: &mut Words,
    read: Seen,
) -> Phase
    requires room { length inner.old.items < MAX_INNER }
    requires few { length waiting.old ≤ 9 + length inner.old.items }
    ensures state { (stage : Stage) (found : Found)
        → state_at (stage_of result waiting.new) inner.new.items found
        ≡ fold.read_walking (task_of attempt.now) (state_at stage inner.old.items found) waiting.old read }
    ensures few { length waiting.new ≤ 9 + length inner.new.items }
    ensures room { length inner.new.items ≤ most_at result }
{
    let Some(next) = waiting.pop() else {
        return Phase::Failed;
    };
    match read {
        Seen::Row(node, row) if node == next => {
            row_loaded(attempt, inner, waiting, words, next, row)
        }
        Seen::Miss(node) if node == next => Phase::Ended(Outcome::Busy(next)),
        _ => Phase::Failed,
    }
}
