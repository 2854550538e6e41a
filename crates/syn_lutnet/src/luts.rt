//! Lookup tables.

ghost use Rattle.std.specs.Prelude.{◌≡◌, ◌≤◌, length};
ghost use Rattle.syn_plan.specs.declared.TheConstants.{MAX_GATES};

use arrayvec::ArrayVec;
use syn_truth::Truth;

/// The most inputs of a LUT, as many as a truth table has variables.
pub const MAX_INPUTS: usize = 8;

/// A lookup table: the signals that it reads, and its function of them. Variable i is input i.
#[derive(Debug, Drop)]
pub struct Lut {
    pub inputs: ArrayVec<u32, MAX_INPUTS>,
    pub truth: Truth,
    pub ghost vars: { truth.vars ≡ length inputs.items },
}

impl Lut {
    ghost use Rattle.syn_truth.specs.Truth.{value_at};
    ghost use Rattle.syn_lutnet.specs.LutData.{lut_gates};
    ghost use Rattle.syn_lutnet.specs.Data.{lut_data};

    /// Whether its function is true at a minterm, whose bit j is the value of input j.
    pub fn is_one(&self, minterm: u32) -> bool
        ensures { result ≡ value_at self.now.truth minterm }
    {
        let word = if minterm < 128 {
            self.truth.low
        } else {
            self.truth.high
        };
        (word >> (minterm % 128)) % 2 == 1
    }

    /// The gates that factoring its function takes.
    pub fn gates(&self) -> u32
        ensures gates { result ≡ lut_gates (lut_data self.now) }
        ensures few { result ≤ MAX_GATES }
    {
        let plan = syn_plan::factor(self.truth);
        plan.gates.len() as u32
    }
}
