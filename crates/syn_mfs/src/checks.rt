//! Whether a guess may be asked about.

ghost use Rattle.std.specs.Prelude.{◌≡◌, ◌≤◌, true, length};
ghost use Rattle.std.specs.List.{list_all};
ghost use Rattle.syn_lutnet.specs.Data.{lut_data};
ghost use Rattle.syn_lutnet.specs.LutData.{is_input, is_lut};

use syn_absorb::first_twice;
use syn_lutnet::Lut;

// Whether each of some signals is one that the LUT of a signal may read.
fn are_inputs(signal: u32, inputs: &[u32]) -> bool
    ensures { result ≡ true → list_all (is_input signal) inputs.now ≡ true }
{
    for input in inputs {
        if *input < 1 || signal <= *input {
            return false;
        }
    }
    true
}

/// Whether a LUT may be that of a signal, and has at most so many inputs.
pub(crate) fn is_fit(signal: u32, most: usize, lut: &Lut) -> bool
    ensures fit { result ≡ true → is_lut signal (lut_data lut.now) ≡ true }
    ensures few { result ≡ true → length lut.now.inputs.items ≤ most }
{
    let inputs = lut.inputs.as_slice();
    if inputs.len() < 2 || most < inputs.len() || !are_inputs(signal, inputs) {
        return false;
    }
    match first_twice(inputs) {
        Some(_) => false,
        None => true,
    }
}
