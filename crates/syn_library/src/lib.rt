//! The plans of a class, and plans fitted to the functions of the class.
#![tactic(auto)]

ghost use Rattle.std.specs.Prelude.{◌≡◌, ℕ, ◌^◌, ◌<◌, ◌≤◌, map, slice_index};
ghost use Rattle.syn_truth.specs.Truth.{AtEach};
ghost use Rattle.syn_plan.specs.Plans.{plan_truth};
ghost use Rattle.syn_npn.specs.Images.{differ, inverse};
ghost use Rattle.syn_npn.specs.Transforms.{IsCanon};
ghost use Rattle.syn_plan.specs.Naming.{built_of};
ghost use Rattle.syn_library.specs.Library.{NamesOwn};
ghost use Rattle.syn_library.specs.Fitting.{Computes, fitted_built, fitted_gate, fitted_leaves, fitted_literal, fitted_out};

mod class_plans;
mod laws;
mod library;
mod prepared;

use arrayvec::ArrayVec;
pub use class_plans::ClassPlans;
pub use laws::own_within;
pub use library::plans;
pub use prepared::Prepared;
use syn_npn::Transform;
use syn_plan::{MAX_GATES, PLit, Plan};

/// The leaf that a leaf of a class's plan becomes.
#[inline]
fn leaf_at(transform: Transform, leaf: usize) -> u8
    requires { leaf < 4 }
    ensures place { result ≡ slice_index (inverse transform.perm) leaf }
    ensures below { result < 4 }
{
    transform.places()[leaf]
}

/// A literal after fitting: leaf `perm[i]` becomes leaf i, complemented where bit i of the flips is set.
fn fitted(literal: PLit, transform: Transform) -> PLit
    ensures { result ≡ fitted_literal transform.perm transform.flips literal }
{
    let index = literal.index();
    if index == 0 || index > 4 {
        return literal;
    }
    let leaf = leaf_at(transform, usize::from(index) - 1);
    let flip = u16::from(transform.flips) >> leaf & 1;
    PLit::of(1 + u16::from(leaf), (literal.0 + flip) % 2 == 1)
}

/// The gates after fitting.
fn fitted_gates(plan: &Plan, transform: Transform) -> ArrayVec<(PLit, PLit), MAX_GATES>
    ensures { result.items ≡ map (fitted_gate transform.perm transform.flips) plan.now.gates.items }
{
    let mut gates = ArrayVec::new();
    for (a, b) in plan.gates.iter() {
        gates.push((fitted(*a, transform), fitted(*b, transform)));
    }
    gates
}

/// The output after fitting.
fn fitted_output(out: PLit, transform: Transform) -> PLit
    ensures { result ≡ fitted_out transform.perm transform.flips transform.neg out }
{
    let literal = fitted(out, transform);
    if transform.neg {
        literal.not()
    } else {
        literal
    }
}

/// The plan of a class fitted to a function of the class, where the transform leads from the function to the class:
/// leaf `perm[i]` becomes leaf i, complemented where bit i of the flips is set, and the output is complemented where
/// `neg` is set.
pub fn fit(plan: &Plan, transform: Transform) -> Plan
    requires { plan.now.leaves ≡ 4 }
    ensures leaves { result.leaves ≡ 4 }
    ensures built { built_of result ≡ fitted_built transform (built_of plan.now) }
    ensures truth { AtEach 4 (λ xs. plan_truth result xs ≡ differ transform.neg (plan_truth plan.now (fitted_leaves transform.perm transform.flips xs))) }
    ensures fits { (function class : ℕ) → IsCanon function class transform → Computes plan.now class → Computes result function }
    ensures names { (function class : ℕ) → IsCanon function class transform → NamesOwn plan.now class → NamesOwn result function }
{
    Plan {
        leaves: 4,
        gates: fitted_gates(plan, transform),
        out: fitted_output(plan.out, transform),
    }
}
