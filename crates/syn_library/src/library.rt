//! The plans of a class.

ghost use Rattle.std.specs.Prelude.{◌≡◌, ℕ, ◌+◌, ◌<◌, ◌≤◌, true, ◌++◌, [], ◌∷◌, map, All, if◌then◌else◌};
ghost use Rattle.std.specs.List.{list_any};
ghost use Rattle.arrayvec.specs.ArrayVec.{array_vec_len};
ghost use Rattle.syn_plan.specs.Naming.{built_of};
ghost use Rattle.syn_library.specs.Fitting.{Computes};
ghost use Rattle.syn_library.specs.Library.{function_of, NamesOwn, plans_of, same_built};
ghost use Rattle.syn_plan.specs.Factoring.{factored, names_once};

use arrayvec::ArrayVec;
use syn_plan::{Plan, factor_in};
use syn_truth::Truth;

/// The orders of the variables in which a class is factored.
const ORDERS: [[u8; 4]; 4] = [[3, 2, 1, 0], [2, 1, 0, 3], [1, 0, 3, 2], [0, 3, 2, 1]];

/// Whether two plans have the same gates and the same output.
fn same(a: &Plan, b: &Plan) -> bool
    ensures { result ≡ same_built (built_of a.now) (built_of b.now) }
{
    a.gates == b.gates && a.out == b.out
}

/// Whether one of the plans is the same as the given one.
fn is_among(plans: &[Plan], plan: &Plan) -> bool
    ensures { result ≡ list_any (λ p. same_built (built_of p) (built_of plan.now)) plans.now }
{
    for other in plans {
        if same(other, plan) {
            return true;
        }
    }
    false
}

/// Adds a plan unless it is among them.
fn add_new(plans: &mut ArrayVec<Plan, 4>, plan: Plan)
    requires { array_vec_len plans.old < 4 }
    ensures { plans.new.items ≡ (if list_any (λ p. same_built (built_of p) (built_of plan)) plans.old.items then plans.old.items else plans.old.items ++ plan ∷ []) }
{
    if !is_among(plans.as_slice(), &plan) {
        plans.push(plan);
    }
}

/// The plan that factoring gives of a class in an order of the variables.
fn class_plan(class: u16, order: &[u8]) -> Plan
    requires { names_once 4 order.now ≡ true }
    ensures built { built_of result ≡ factored 4 order.now (function_of class) }
    ensures leaves { result.leaves ≡ 4 }
    ensures truth { Computes result class }
    ensures names { NamesOwn result class }
{
    factor_in(Truth::from_bits(class), order)
}

/// The distinct plans that factoring gives of a class, the least member, in four orders of the variables.
pub fn plans(class: u16) -> ArrayVec<Plan, 4>
    ensures plans { map built_of result.items ≡ plans_of class }
    ensures leaves { All (λ p. p.leaves ≡ 4) result.items }
    ensures truth { All (λ p. Computes p class) result.items }
    ensures names { All (λ p. NamesOwn p class) result.items }
{
    let mut plans = ArrayVec::new();
    for order in &ORDERS {
        add_new(&mut plans, class_plan(class, order));
    }
    plans
}
