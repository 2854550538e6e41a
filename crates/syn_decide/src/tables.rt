//! The tables of the root by the inner rows and of the plan, compared.

ghost use Rattle.std.specs.Prelude.{◌≡◌, ◌≤◌, max, length, take};
ghost use Rattle.syn_truth.specs.declared.TheConstants.{MAX_VARS};
ghost use Rattle.syn_truth.specs.Truth.{AtEach, value_of};
ghost use Rattle.syn_plan.specs.Plans.{plan_truth};
ghost use Rattle.syn_decide.specs.declared.decisions.TheConstants.{MAX_INNER};
ghost use Rattle.syn_decide.specs.Tables as spec;
ghost use Rattle.syn_decide.specs.Tasks.{task_of};

use crate::words::Words;
use crate::{Attempt, Comparison, Cone, NodeRow};
use syn_plan::Plan;
use syn_truth::{MAX_VARS, Truth};

fn greater(a: u8, b: u8) -> u8
    ensures { result ≡ max a b }
{
    if a < b { b } else { a }
}

// The table of a plan, widened.
fn was_table(plan: &Plan, vars: u8) -> Truth
    requires few { vars ≤ MAX_VARS }
    requires within { plan.now.leaves ≤ vars }
    ensures vars { result.vars ≡ vars }
    ensures values { AtEach vars (λ xs. value_of result xs ≡ plan_truth plan.now (take plan.now.leaves xs)) }
{
    plan.truth().widen(vars)
}

// The table of the root by the inner rows.
fn now_table(attempt: &Attempt<'_>, inner: &[NodeRow], vars: u8, words: &mut Words) -> Option<Truth>
    requires few { vars ≤ MAX_VARS }
    requires within { length attempt.now.candidate.leaves.now ≤ vars }
    requires inner { length inner.now ≤ MAX_INNER }
    ensures vars { spec.HasVars vars result }
    ensures values { spec.IsNodeTable vars attempt.now.candidate.leaves.now inner.now (length inner.now) attempt.now.candidate.root result }
{
    let leaves = attempt.candidate.leaves;
    let root = attempt.candidate.root;
    let cone = Cone {
        leaves,
        last: false,
        inner,
    };
    let low = cone.root_word(root, words)?;
    if vars < MAX_VARS {
        return Some(Truth::of_words(vars, low, 0));
    }
    let cone = Cone {
        leaves,
        last: true,
        inner,
    };
    let high = cone.root_word(root, words)?;
    Some(Truth::of_words(vars, low, high))
}

/// The function of the root by the inner rows, against the plan's.
#[inline(never)]
pub(crate) fn compare(attempt: &Attempt<'_>, inner: &[NodeRow], words: &mut Words) -> Comparison
    requires { length inner.now ≤ MAX_INNER }
    ensures { spec.IsCompared (task_of attempt.now) inner.now result }
{
    let leaves = attempt.candidate.leaves;
    let vars = greater(leaves.len() as u8, attempt.candidate.plan.leaves);
    let Some(now) = now_table(attempt, inner, vars, words) else {
        return Comparison::Circle;
    };
    let was = was_table(attempt.candidate.plan, vars);
    if was == now {
        Comparison::Same
    } else {
        Comparison::Differs { was, now }
    }
}
