//! The patterns of each minterm of a LUT. Nothing is promised of them.

use crate::draft::{Draft, inserted};
use crate::references::NONE;
use crate::words::{COUNT, Words, mask};
use std::alloc::{AllocError, Global};
use syn_lutnet::Lut;
use syn_sat::{at, put};

/// A LUT by minterm.
#[derive(Debug, Drop)]
pub(crate) struct Cells {
    vars: usize,
    // The patterns in which the inputs have the minterm's values.
    words: Vec<u64>,
    // One of these, if there is any.
    spots: Vec<u32>,
    // The value.
    ones: Vec<bool>,
    // The minterms that the other input values alone don't tell from their neighbours: where the input that may go is false, and
    // with it the value changes, and both are met.
    mixed: Vec<usize>,
}

// The first pattern of some words.
fn first_spot(words: &[u64]) -> u32 {
    let mut spot: u32 = 0;
    for word in words {
        if *word != 0 {
            return spot.saturating_add(word.trailing_zeros());
        }
        spot = spot.saturating_add(64);
    }
    NONE
}

impl Cells {
    /// No LUT. The only error of this call and of those below is want of memory.
    pub(crate) fn new(alloc: Global) -> Result<Cells, AllocError> {
        Ok(Cells {
            vars: 0,
            words: vec![in alloc; 0; 256 * COUNT]?,
            spots: vec![in alloc; NONE; 256]?,
            ones: vec![in alloc; false; 256]?,
            mixed: Vec::new(alloc),
        })
    }

    // The patterns of a minterm.
    #[inline]
    fn cell(&self, m: usize) -> &[u64] {
        let words = self.words.as_slice();
        let start = m.saturating_mul(COUNT);
        let end = start.saturating_add(COUNT);
        if end <= words.len() {
            &words[start..end]
        } else {
            &words[..0]
        }
    }

    #[inline]
    fn spot(&self, m: usize) -> u32 {
        at(self.spots.as_slice(), m, NONE)
    }

    #[inline]
    fn one(&self, m: usize) -> bool {
        at(self.ones.as_slice(), m, false)
    }

    // Parts the first cells by one more input.
    fn split(&mut self, bits: &[u64], count: usize) {
        let apart = count.saturating_mul(COUNT);
        for c in 0..count {
            let start = c.saturating_mul(COUNT);
            for (place, word) in bits.iter().enumerate() {
                let i = start.saturating_add(place);
                let old = at(self.words.as_slice(), i, 0);
                put(
                    self.words.as_mut_slice(),
                    i.saturating_add(apart),
                    old & *word,
                );
                put(self.words.as_mut_slice(), i, old & !*word);
            }
        }
    }

    /// Takes the patterns of a LUT.
    pub(crate) fn fill(&mut self, words: &Words, lut: &Lut) {
        self.vars = lut.inputs.len();
        for place in 0..COUNT {
            put(self.words.as_mut_slice(), place, u64::MAX);
        }
        let mut count: usize = 1;
        for input in lut.inputs.as_slice() {
            self.split(words.of(*input), count);
            count = count.saturating_mul(2);
        }
        for m in 0..256 {
            if m >= count {
                break;
            }
            let spot = first_spot(self.cell(m));
            put(self.spots.as_mut_slice(), m, spot);
            put(self.ones.as_mut_slice(), m, lut.is_one(m as u32));
        }
    }

    // So many minterms there are of the other inputs.
    fn half(&self) -> usize {
        (1usize << (self.vars % 16)) / 2
    }

    /// Finds the mixed minterms of an input: whether there are none.
    pub(crate) fn mix(&mut self, bit: usize) -> Result<bool, AllocError> {
        self.mixed.clear();
        for c in 0..self.half() {
            let m = inserted(c, bit);
            let n = m.saturating_add(bit);
            let is_met = self.spot(m) != NONE && self.spot(n) != NONE;
            if is_met && self.one(m) != self.one(n) {
                self.mixed.push(m)?;
            }
        }
        Ok(self.mixed.len() == 0)
    }

    // Whether a signal differs between the patterns of a minterm and those of another, in each two.
    fn parts(&self, bits: &[u64], m: usize, n: usize, turn: u64) -> bool {
        let both = self.cell(m).iter().zip(self.cell(n));
        for ((low, high), word) in both.zip(bits) {
            let turned = *word ^ turn;
            if (*low & turned) | (*high & !turned) != 0 {
                return false;
            }
        }
        true
    }

    /// Whether a signal parts all mixed minterms of an input from their neighbours.
    pub(crate) fn is_parted(&self, words: &Words, signal: u32, bit: usize) -> bool {
        for m in self.mixed.as_slice() {
            let n = m.saturating_add(bit);
            if words.is_true(signal, self.spot(*m)) == words.is_true(signal, self.spot(n)) {
                return false;
            }
        }
        let bits = words.of(signal);
        for m in self.mixed.as_slice() {
            let turn = mask(words.is_true(signal, self.spot(*m)));
            if !self.parts(bits, *m, m.saturating_add(bit), turn) {
                return false;
            }
        }
        true
    }

    // The value where the input goes, and a signal, if one comes in its place, has a value.
    fn value(&self, words: &Words, m: usize, n: usize, signal: u32, side: bool) -> bool {
        let (low, high) = (self.one(m), self.one(n));
        if low == high || self.spot(n) == NONE {
            return low;
        }
        if self.spot(m) == NONE || words.is_true(signal, self.spot(n)) == side {
            return high;
        }
        low
    }

    // Drafts the values where a signal has a value.
    fn draft_side(
        &self,
        words: &Words,
        bit: usize,
        signal: u32,
        side: bool,
        draft: &mut Draft,
    ) -> Result<(), AllocError> {
        for c in 0..self.half() {
            let m = inserted(c, bit);
            let one = self.value(words, m, m.saturating_add(bit), signal, side);
            draft.ones.push(one)?;
        }
        Ok(())
    }

    /// Drafts the LUT without the input of a place, and with a signal in place of it, if that isn't the constant.
    pub(crate) fn draft(
        &self,
        words: &Words,
        lut: &Lut,
        place: usize,
        signal: u32,
        draft: &mut Draft,
    ) -> Result<(), AllocError> {
        let bit = 1usize << (place % 8);
        draft.begin();
        for (i, input) in lut.inputs.as_slice().iter().enumerate() {
            if i != place {
                draft.inputs.push(*input)?;
            }
        }
        self.draft_side(words, bit, signal, false, draft)?;
        if signal != 0 {
            draft.inputs.push(signal)?;
            self.draft_side(words, bit, signal, true, draft)?;
        }
        Ok(())
    }
}
