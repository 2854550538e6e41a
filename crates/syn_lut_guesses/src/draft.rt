//! LUTs that are being made. Nothing is promised of them.

use arrayvec::ArrayVec;
use std::alloc::{AllocError, Global};
use syn_lutnet::{Lut, MAX_INPUTS};
use syn_sat::{at, put};
use syn_truth::Truth;

/// Inputs, and by minterm the value.
#[derive(Debug, Drop)]
pub(crate) struct Draft {
    pub(crate) inputs: Vec<u32>,
    pub(crate) ones: Vec<bool>,
}

/// The minterm at which one more variable, in this place, is false.
#[inline]
pub(crate) fn inserted(minterm: usize, bit: usize) -> usize {
    let low = minterm & bit.saturating_sub(1);
    minterm
        .saturating_sub(low)
        .saturating_mul(2)
        .saturating_add(low)
}

impl Draft {
    /// No inputs. The only error of the calls below is want of memory.
    pub(crate) fn new(alloc: Global) -> Draft {
        Draft {
            inputs: Vec::new(alloc),
            ones: Vec::new(alloc),
        }
    }

    /// Takes inputs again, and no values.
    pub(crate) fn begin(&mut self) {
        self.inputs.clear();
        self.ones.clear();
    }

    /// The value of an input, or its complement.
    pub(crate) fn copy(&mut self, input: u32, is_opposite: bool) -> Result<(), AllocError> {
        self.begin();
        self.inputs.push(input)?;
        self.ones.push(is_opposite)?;
        self.ones.push(!is_opposite)?;
        Ok(())
    }

    // Whether the table changes nowhere with a variable.
    fn is_idle(&self, bit: usize) -> bool {
        let ones = self.ones.as_slice();
        for c in 0..ones.len() / 2 {
            let m = inserted(c, bit);
            if at(ones, m, false) != at(ones, m.saturating_add(bit), false) {
                return false;
            }
        }
        true
    }

    // Leaves an input out, where it is false.
    fn leave_out(&mut self, place: usize) {
        let half = self.ones.len() / 2;
        let bit = 1usize << (place % 8);
        for c in 0..half {
            let one = at(self.ones.as_slice(), inserted(c, bit), false);
            put(self.ones.as_mut_slice(), c, one);
        }
        self.ones.truncate(half);
        for i in place..self.inputs.len() {
            let next = at(self.inputs.as_slice(), i.saturating_add(1), 0);
            put(self.inputs.as_mut_slice(), i, next);
        }
        self.inputs.pop();
    }

    /// Leaves out the inputs with which the table changes nowhere, as long as two stay.
    pub(crate) fn narrow(&mut self) {
        for place in (0..self.inputs.len()).rev() {
            if self.inputs.len() > 2 && self.is_idle(1usize << (place % 8)) {
                self.leave_out(place);
            }
        }
    }

    /// One more input, with which the table changes nowhere.
    pub(crate) fn widen(&mut self, input: u32) -> Result<(), AllocError> {
        self.inputs.push(input)?;
        for m in 0..self.ones.len() {
            let one = at(self.ones.as_slice(), m, false);
            self.ones.push(one)?;
        }
        Ok(())
    }

    /// The LUT.
    pub(crate) fn lut(&self) -> Lut {
        let mut inputs = ArrayVec::new();
        for input in self.inputs.as_slice() {
            if inputs.len() < MAX_INPUTS {
                inputs.push(*input);
            }
        }
        let mut low: u128 = 0;
        let mut high: u128 = 0;
        for (m, one) in self.ones.as_slice().iter().enumerate() {
            if !*one {
                continue;
            }
            if m < 128 {
                low |= 1u128 << m;
            } else if m < 256 {
                high |= 1u128 << (m - 128);
            }
        }
        let truth = Truth::of_words(inputs.len() as u8, low, high);
        Lut { inputs, truth }
    }
}
