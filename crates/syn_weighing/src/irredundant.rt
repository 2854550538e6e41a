//! Plans that have no gate in vain, and leaves that they name.

ghost use Rattle.std.specs.Prelude.{◌≡◌, ℕ, ◌+◌, ◌<◌, ◌≤◌, ◌^◌, true, All, length};
ghost use Rattle.std.specs.List.{list_any};
ghost use Rattle.syn_weighing.specs.Irredundant as spec;

use syn_plan::{PLit, Plan};

// Whether a gate names an index.
fn gate_names(index: u16, gate: (PLit, PLit)) -> bool
    ensures { result ≡ spec.gate_names index gate }
{
    gate.0.index() == index || gate.1.index() == index
}

// Whether one of the gates names an index.
fn some_names(index: u16, gates: &[(PLit, PLit)]) -> bool
    ensures { result ≡ list_any (spec.gate_names index) gates.now }
{
    for gate in gates {
        if gate_names(index, *gate) {
            return true;
        }
    }
    false
}

// Whether each gate is named by a gate or by the output. The first one has index `base`.
fn are_named(base: u16, gates: &[(PLit, PLit)], out: PLit) -> bool
    requires few { base + length gates.now < 2 ^ 16 }
    ensures { result ≡ true → spec.IsLean base gates.now out }
{
    for i in 0..gates.len() {
        let index = base + i as u16;
        if out.index() != index && !some_names(index, gates) {
            return false;
        }
    }
    true
}

// Whether a plan has no gate in vain.
fn is_irredundant(plan: &Plan) -> bool
    ensures { result ≡ true → spec.IsIrredundantPlan plan.now }
{
    are_named(1 + u16::from(plan.leaves), plan.gates.as_slice(), plan.out)
}

/// Whether none of these plans has a gate in vain.
pub fn are_irredundant(plans: &[Plan]) -> bool
    ensures { result ≡ true → All spec.IsIrredundantPlan plans.now }
{
    for plan in plans {
        if !is_irredundant(plan) {
            return false;
        }
    }
    true
}

// Whether a gate or the output names an index.
fn is_named(index: u16, gates: &[(PLit, PLit)], out: PLit) -> bool
    ensures { result ≡ spec.is_named gates.now out index }
{
    out.index() == index || some_names(index, gates)
}

// How many of so many leaves a gate or the output names, so far as all before them are named.
fn first_named(leaves: u8, gates: &[(PLit, PLit)], out: PLit) -> u8
    ensures few { result ≤ leaves }
    ensures named { (i : ℕ) → i < result → spec.is_named gates.now out (1 + i) ≡ true }
{
    for i in 0..leaves {
        if !is_named(1 + u16::from(i), gates, out) {
            return i;
        }
    }
    leaves
}

// How many leaves a plan names, so far as it names all before them.
fn leaves_named(plan: &Plan) -> u8
    ensures { spec.NamesFirst result plan.now }
{
    first_named(plan.leaves, plan.gates.as_slice(), plan.out)
}

/// How many leaves each of these plans names: the first ones.
pub fn leaves_named_by_all(plans: &[Plan]) -> u8
    ensures { All (spec.NamesFirst result) plans.now }
{
    let mut least = u8::MAX;
    for plan in plans {
        least = least.min(leaves_named(plan));
    }
    least
}
