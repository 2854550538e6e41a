//! Factoring of truth tables into plans.

ghost use Rattle.std.specs.Prelude.{◌≡◌, ℕ, ◌+◌, ◌-◌, ◌*◌, ◌/◌, ◌^◌, ◌<◌, ◌≤◌, Bool, true, false, List, [], ◌∷◌, ◌++◌, length, nat_lt};
ghost use Rattle.arrayvec.specs.ArrayVec.{array_vec_len};
ghost use Rattle.syn_truth.specs.Truth.{AtEach, value_of};
ghost use Rattle.std.specs.List.{list_all};
ghost use Rattle.syn_plan.specs.Gates.{index_of};
ghost use Rattle.syn_plan.specs.Plans.{plan_truth};
ghost use Rattle.syn_plan.specs.Factoring as spec;
ghost use Rattle.syn_plan.specs.Naming.{built_of, NamesNeeded};

use crate::{MAX_GATES, MAX_LEAVES, PLit, Plan};
use syn_truth::Truth;

/// How a function is put together from its cofactors by a variable x: `low` is the cofactor where x is
/// false, `high` the one where it is true.
#[derive(Clone, Copy, Debug, PartialEq, Eq)]
pub enum Split {
    /// `x`: low is 0 and high is 1.
    Plain,
    /// `!x`: low is 1 and high is 0.
    Complemented,
    /// `x & high`: low is 0.
    AndHigh,
    /// `!x & low`: high is 0.
    AndLow,
    /// `!(x & !high)`: low is 1.
    OrLow,
    /// `!(!x & !low)`: high is 1.
    OrHigh,
    /// `!(!(x & !low) & !(!x & low))`: high is the complement of low.
    Exclusive,
    /// `!(!(x & high) & !(!x & low))`.
    Choice,
}

/// Whether a table has one value everywhere.
#[inline]
fn is_constant(f: Truth, value: bool) -> bool
    ensures { result ≡ spec.is_constant f.vars (value_of f) value }
{
    f == Truth::constant(f.vars, value)
}

/// Whether a table is everywhere the complement of another.
#[inline]
fn is_complement(f: Truth, g: Truth) -> bool
    requires { f.vars ≡ g.vars }
    ensures { result ≡ spec.is_complement f.vars (value_of f) (value_of g) }
{
    f == g.not()
}

impl Split {
    ghost use Rattle.syn_plan.specs.Factoring.{cofactor_of, split_of};

    /// The case of a function and a variable.
    fn of_table(f: Truth, x: u8) -> Split
        requires { x < f.vars }
        ensures { result ≡ split_of f.vars (cofactor_of (value_of f) x false) (cofactor_of (value_of f) x true) }
    {
        Split::of(f.cofactor(x, false), f.cofactor(x, true))
    }

    /// The case of two cofactors by a variable, the first that fits.
    fn of(low: Truth, high: Truth) -> Split
        requires { low.vars ≡ high.vars }
        ensures { result ≡ split_of low.vars (value_of low) (value_of high) }
    {
        let low_zero = is_constant(low, false);
        let low_one = is_constant(low, true);
        let high_zero = is_constant(high, false);
        let high_one = is_constant(high, true);
        if low_zero && high_one {
            Split::Plain
        } else if low_one && high_zero {
            Split::Complemented
        } else if low_zero {
            Split::AndHigh
        } else if high_zero {
            Split::AndLow
        } else if low_one {
            Split::OrLow
        } else if high_one {
            Split::OrHigh
        } else if is_complement(low, high) {
            Split::Exclusive
        } else {
            Split::Choice
        }
    }
}

/// Builds a function by the variables of an order after the gates of a plan, and gives its literal.
#[cycle(build)]
fn build(f: Truth, order: &[u8], plan: &mut Plan) -> PLit
    requires leaves { plan.old.leaves ≡ f.vars }
    requires within { list_all (λ i. nat_lt i f.vars) order.now ≡ true }
    requires covers { spec.Covers f.vars order.now (value_of f) }
    requires room { length (spec.factored_after f.vars order.now (value_of f) plan.old.gates.items).gates ≤ MAX_GATES }
    ensures leaves { plan.new.leaves ≡ plan.old.leaves }
    ensures gates { plan.new.gates.items ≡ (spec.factored_after f.vars order.now (value_of f) plan.old.gates.items).gates }
    ensures out { result ≡ (spec.factored_after f.vars order.now (value_of f) plan.old.gates.items).out }
{
    let Some((x, rest)) = order.split_first() else {
        return PLit::of(0, is_constant(f, true));
    };
    if f.depends(*x) {
        join(f, *x, rest, plan)
    } else {
        build(f, rest, plan)
    }
}

/// Builds a function by a variable on which it depends, and then by the rest of the order.
#[cycle(build)]
fn join(f: Truth, x: u8, rest: &[u8], plan: &mut Plan) -> PLit
    requires leaves { plan.old.leaves ≡ f.vars }
    requires variable { x < f.vars }
    requires within { list_all (λ i. nat_lt i f.vars) rest.now ≡ true }
    requires covers { spec.Covers f.vars (x ∷ rest.now) (value_of f) }
    requires room { length (spec.joined_at f.vars x rest.now (value_of f) plan.old.gates.items).gates ≤ MAX_GATES }
    ensures leaves { plan.new.leaves ≡ plan.old.leaves }
    ensures gates { plan.new.gates.items ≡ (spec.joined_at f.vars x rest.now (value_of f) plan.old.gates.items).gates }
    ensures out { result ≡ (spec.joined_at f.vars x rest.now (value_of f) plan.old.gates.items).out }
{
    let leaf = PLit::of(1 + u16::from(x), false);
    match Split::of_table(f, x) {
        Split::Plain => leaf,
        Split::Complemented => leaf.not(),
        Split::AndHigh => {
            let high = build_cofactor(f, x, true, rest, plan);
            plan.and(leaf, high)
        }
        Split::AndLow => {
            let low = build_cofactor(f, x, false, rest, plan);
            plan.and(leaf.not(), low)
        }
        Split::OrLow => {
            let high = build_cofactor(f, x, true, rest, plan);
            plan.and(leaf, high.not()).not()
        }
        Split::OrHigh => {
            let low = build_cofactor(f, x, false, rest, plan);
            plan.and(leaf.not(), low.not()).not()
        }
        Split::Exclusive => {
            let low = build_cofactor(f, x, false, rest, plan);
            choose(leaf, low.not(), low, plan)
        }
        Split::Choice => {
            let low = build_cofactor(f, x, false, rest, plan);
            let high = build_cofactor(f, x, true, rest, plan);
            choose(leaf, high, low, plan)
        }
    }
}

/// Builds a cofactor by a variable of the order, by the rest of the order.
#[cycle(build)]
fn build_cofactor(f: Truth, x: u8, value: bool, rest: &[u8], plan: &mut Plan) -> PLit
    requires leaves { plan.old.leaves ≡ f.vars }
    requires variable { x < f.vars }
    requires within { list_all (λ i. nat_lt i f.vars) rest.now ≡ true }
    requires covers { spec.Covers f.vars (x ∷ rest.now) (value_of f) }
    requires room { length (spec.factored_after f.vars rest.now (spec.cofactor_of (value_of f) x value) plan.old.gates.items).gates ≤ MAX_GATES }
    ensures leaves { plan.new.leaves ≡ plan.old.leaves }
    ensures gates { plan.new.gates.items ≡ (spec.factored_after f.vars rest.now (spec.cofactor_of (value_of f) x value) plan.old.gates.items).gates }
    ensures out { result ≡ (spec.factored_after f.vars rest.now (spec.cofactor_of (value_of f) x value) plan.old.gates.items).out }
    ensures longer { array_vec_len plan.old.gates ≤ array_vec_len plan.new.gates }
    ensures there { index_of result < 1 + f.vars + array_vec_len plan.new.gates }
{
    build(f.cofactor(x, value), rest, plan)
}

/// Adds the three gates of a choice: `!(!(x & high) & !(!x & low))`.
fn choose(x: PLit, high: PLit, low: PLit, plan: &mut Plan) -> PLit
    requires room { array_vec_len plan.old.gates + 3 ≤ MAX_GATES }
    requires variable { index_of x < 1 + plan.old.leaves + array_vec_len plan.old.gates }
    requires high { index_of high < 1 + plan.old.leaves + array_vec_len plan.old.gates }
    requires low { index_of low < 1 + plan.old.leaves + array_vec_len plan.old.gates }
    ensures leaves { plan.new.leaves ≡ plan.old.leaves }
    ensures gates { plan.new.gates.items ≡ (spec.with_choice plan.old.leaves plan.old.gates.items x high low).gates }
    ensures out { result ≡ (spec.with_choice plan.old.leaves plan.old.gates.items x high low).out }
{
    let first = plan.and(x, high);
    let second = plan.and(x.not(), low);
    plan.and(first.not(), second.not()).not()
}

/// Factors a function by the variables of an order, which names each of them once. The first on which
/// the function depends stands nearest the output. A function of 8 variables takes at most 381 gates.
pub fn factor_in(f: Truth, order: &[u8]) -> Plan
    requires { spec.names_once f.vars order.now ≡ true }
    ensures leaves { result.leaves ≡ f.vars }
    ensures gates { result.gates.items ≡ (spec.factored f.vars order.now (value_of f)).gates }
    ensures out { result.out ≡ (spec.factored f.vars order.now (value_of f)).out }
    ensures truth { AtEach f.vars (λ xs. plan_truth result xs ≡ value_of f xs) }
    ensures few { array_vec_len result.gates ≤ spec.most_gates f.vars }
    ensures names { NamesNeeded f.vars (value_of f) (built_of result) }
{
    let mut plan = Plan::new(f.vars);
    let out = build(f, order, &mut plan);
    plan.out = out;
    plan
}

/// Factors a function by its variables from the highest down. A function of 8 variables takes at most
/// 381 gates.
pub fn factor(f: Truth) -> Plan
    ensures leaves { result.leaves ≡ f.vars }
    ensures gates { result.gates.items ≡ (spec.factored f.vars (spec.falling f.vars) (value_of f)).gates }
    ensures out { result.out ≡ (spec.factored f.vars (spec.falling f.vars) (value_of f)).out }
    ensures truth { AtEach f.vars (λ xs. plan_truth result xs ≡ value_of f xs) }
    ensures few { array_vec_len result.gates ≤ spec.most_gates f.vars }
    ensures names { NamesNeeded f.vars (value_of f) (built_of result) }
{
    let order = [7, 6, 5, 4, 3, 2, 1, 0];
    factor_in(f, &order[(MAX_LEAVES - f.vars) as usize..])
}
