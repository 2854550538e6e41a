//! Truth tables with complemented variables.

ghost use Rattle.std.specs.Prelude.{◌≡◌, ◌<◌, length};
ghost use Rattle.syn_truth.specs.Truth.{AtEach, value_of};
ghost use Rattle.syn_absorb.specs.Flips.{xor, xor_at, xor_list};

use syn_truth::Truth;

// A function with a variable complemented, or as it is.
fn flip_if(truth: Truth, i: u8, flip: bool) -> Truth
    requires { i < truth.vars }
    ensures vars { result.vars ≡ truth.vars }
    ensures values { AtEach truth.vars (λ xs. value_of result xs ≡ value_of truth (xor_at i flip xs)) }
{
    if flip { truth.flip(i) } else { truth }
}

/// A function, or its complement.
pub(crate) fn not_if(truth: Truth, flip: bool) -> Truth
    ensures vars { result.vars ≡ truth.vars }
    ensures values { AtEach truth.vars (λ xs. value_of result xs ≡ xor flip (value_of truth xs)) }
{
    if flip { truth.not() } else { truth }
}

/// A function with the marked ones of its variables complemented.
pub(crate) fn flip_variables(truth: Truth, flips: &[bool]) -> Truth
    requires { truth.vars ≡ length flips.now }
    ensures vars { result.vars ≡ truth.vars }
    ensures values { AtEach truth.vars (λ xs. value_of result xs ≡ value_of truth (xor_list flips.now xs)) }
{
    let mut flipped = truth;
    let mut i: u8 = 0;
    for flip in flips {
        let next = flip_if(flipped, i, *flip);
        flipped = next;
        i += 1;
    }
    flipped
}
