//! LUTs that read only what they depend on.

ghost use Rattle.std.specs.Prelude.{◌≡◌, ◌⊎◌, ℕ, ◌+◌, ◌<◌, ◌≤◌, ◌||◌, ◌++◌, ◌∷◌, [], true, false, IfSome, IfNone, length, drop, slice_set, slice_index_or};
ghost use Rattle.syn_lists.specs.Numbers.{distinct_numbers, has_number};
ghost use Rattle.syn_truth.specs.Truth.{AtEach, Depends, value_of};
ghost use Rattle.syn_lutnet.specs.Data.{lut_data};
ghost use Rattle.syn_absorb.specs.Needed.{AllNeeded, IsIdle, IsNarrower, IsWithout, ReadsNeeded};

use crate::luts::copy_inputs;
use syn_lutnet::Lut;
use syn_truth::Truth;

// The function of all variables but the last, where that is false.
fn shorter(truth: Truth) -> Truth
    requires { 1 ≤ truth.vars }
    ensures vars { result.vars + 1 ≡ truth.vars }
    ensures values { AtEach result.vars (λ xs. value_of result xs ≡ value_of truth (xs ++ false ∷ [])) }
{
    Truth::of_words(truth.vars - 1, truth.low, truth.high)
}

// The function that is true where one of two is.
fn either(first: Truth, second: Truth) -> Truth
    requires { second.vars ≡ first.vars }
    ensures vars { result.vars ≡ first.vars }
    ensures values { AtEach first.vars (λ xs. value_of result xs ≡ (value_of first xs || value_of second xs)) }
{
    let neither = first.not().and(second.not());
    neither.not()
}

// The function in which variable `j` has the value of variable `i`.
fn joined(truth: Truth, i: u8, j: u8) -> Truth
    requires first { i < truth.vars }
    requires second { j < truth.vars }
    ensures vars { result.vars ≡ truth.vars }
    ensures values { AtEach truth.vars (λ xs. value_of result xs ≡ value_of truth (slice_set xs j (slice_index_or xs i false))) }
{
    let variable = Truth::var(truth.vars, i);
    let high = variable.and(truth.cofactor(j, true));
    let low = variable.not().and(truth.cofactor(j, false));
    either(high, low)
}

// The LUT of a function of these inputs without input `i`, where that is false. The last input takes its place.
fn without(truth: Truth, inputs: &[u32], i: u8) -> Lut
    requires vars { truth.vars ≡ length inputs.now }
    requires within { i < length inputs.now }
    ensures { IsWithout truth inputs.now i result }
{
    let swapped = truth.swap(i, truth.vars - 1);
    let mut left = copy_inputs(inputs);
    left.swap_remove(i as usize);
    Lut {
        inputs: left,
        truth: shorter(swapped),
    }
}

// Whether an input gives a function nothing: it is the constant, or the function doesn't depend on it.
fn is_idle(truth: Truth, i: u8, signal: u32) -> bool
    requires { i < truth.vars }
    ensures idle { result ≡ true → (signal ≡ 0) ⊎ (Depends truth i → ⊥) }
    ensures needed { result ≡ false → (1 ≤ signal) × Depends truth i }
{
    if signal == 0 {
        return true;
    }
    !truth.depends(i)
}

// The first input that gives the function nothing.
fn first_idle(truth: Truth, inputs: &[u32]) -> Option<u8>
    requires { truth.vars ≡ length inputs.now }
    ensures some { IfSome result (IsIdle truth inputs.now) }
    ensures none { IfNone result (AllNeeded truth inputs.now) }
{
    let mut i: u8 = 0;
    for signal in inputs {
        if is_idle(truth, i, *signal) {
            return Some(i);
        }
        i += 1;
    }
    None
}

// The first place from `from` on where a signal stands.
fn place_from(inputs: &[u32], from: usize, signal: u32) -> Option<usize>
    ensures some { IfSome result (λ j. (from ≤ j) × (j < length inputs.now) × (slice_index_or inputs.now j 0 ≡ signal)) }
    ensures none { IfNone result (has_number (drop from inputs.now) signal ≡ false) }
{
    for j in from..inputs.len() {
        if inputs[j] == signal {
            return Some(j);
        }
    }
    None
}

/// Two places where one signal stands.
pub fn first_twice(inputs: &[u32]) -> Option<(usize, usize)>
    ensures some { IfSome result (λ p. (p.0 < p.1) × (p.1 < length inputs.now) × (slice_index_or inputs.now p.0 0 ≡ slice_index_or inputs.now p.1 0)) }
    ensures none { IfNone result (distinct_numbers inputs.now ≡ true) }
{
    for i in 0..inputs.len() {
        if let Some(j) = place_from(inputs, i + 1, inputs[i]) {
            return Some((i, j));
        }
    }
    None
}

// The LUT with an input fewer, where one gives it nothing or stands there twice.
fn narrowed(lut: &Lut) -> Option<Lut>
    ensures some { IfSome result (λ l. IsNarrower (lut_data lut.now) (lut_data l)) }
    ensures fewer { IfSome result (λ l. length l.inputs.items < length lut.now.inputs.items) }
    ensures none { IfNone result (ReadsNeeded (lut_data lut.now)) }
{
    let inputs = lut.inputs.as_slice();
    if let Some(i) = first_idle(lut.truth, inputs) {
        return Some(without(lut.truth, inputs, i));
    }
    match first_twice(inputs) {
        Some((i, j)) => {
            let truth = joined(lut.truth, i as u8, j as u8);
            Some(without(truth, inputs, j as u8))
        }
        None => None,
    }
}

/// The LUT of the same function that reads only what it depends on.
pub(crate) fn reduced(lut: Lut) -> Lut
    ensures narrower { IsNarrower (lut_data lut) (lut_data result) }
    ensures needed { ReadsNeeded (lut_data result) }
{
    let mut narrow = lut;
    while let Some(next) = narrowed(&narrow) {
        narrow = next;
    }
    narrow
}
