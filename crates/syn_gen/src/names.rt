//! The names of the signals.

ghost use Rattle.std.specs.Prelude.{◌≡◌, ℕ, ◌+◌, ◌-◌, ◌<◌, ◌^◌, true, List, IfOk, length};
ghost use Rattle.syn_netlist.specs.Numbers.{all_below, words_at};
ghost use Rattle.syn_gen.specs.Generated.{signal, signals};
ghost use Rattle.syn_gen.specs.Signals.{AreSignals};

use itoa::Buffer;
use std::alloc::{AllocError, Global};
use syn_netlist::Names;

/// How many inputs there are.
pub(crate) const INPUTS: u32 = 16;

// The name of a signal: x0 to x15 are the inputs, then come t0, t1, ..
#[tactic(auto, unfolding(crate::specs::Generated::signal))]
fn signal(alloc: Global, number: u32) -> Result<Vec<u8>, AllocError>
    ensures { IfOk result (λ word. word.items ≡ signal number) }
{
    let mut buffer = Buffer::new();
    if number < INPUTS {
        let mut word = Vec::from_slice(alloc, b"x")?;
        word.extend_from_slice(buffer.format(number).as_bytes())?;
        Ok(word)
    } else {
        let mut word = Vec::from_slice(alloc, b"t")?;
        word.extend_from_slice(buffer.format(number - INPUTS).as_bytes())?;
        Ok(word)
    }
}

/// The names of the first so many signals.
pub(crate) fn signal_names(alloc: Global, count: u32) -> Result<Names, AllocError>
    requires { count < 2 ^ 32 - 1 }
    ensures { IfOk result (λ names. names ≡ signals count) }
{
    let mut names = Names::new(alloc);
    for number in 0..count {
        let word = signal(alloc, number)?;
        let _number = names.add(alloc, word.as_slice())?;
    }
    Ok(names)
}

/// The numbers of the inputs.
pub(crate) fn input_numbers(alloc: Global) -> Result<Vec<u32>, AllocError>
    ensures words { IfOk result (λ v. (names : List (List ℕ)) → AreSignals 16 names → words_at names v.items ≡ signals 16) }
    ensures below { IfOk result (λ v. all_below 16 v.items ≡ true) }
{
    let mut numbers = Vec::new(alloc);
    for number in 0..INPUTS {
        numbers.push(number)?;
    }
    Ok(numbers)
}
