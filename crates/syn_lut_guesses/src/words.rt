//! Words of simulation: the values of each signal in 3,072 patterns. Nothing is promised of them.

use crate::luts::lut_of;
use std::alloc::{AllocError, Global};
use syn_fraig::Random;
use syn_lutnet::Lut;
use syn_sat::{at, put};

/// So many words of 64 patterns a signal.
pub(crate) const COUNT: usize = 48;

/// So many of these stay random; the others are of noted values, the latest ones.
const RANDOM: usize = 32;

const NOTED: u32 = 16;

/// Each guess pays for so many words of LUTs. Noted values may take a word of most LUTs, so that the time of all of them
/// together would grow as the square of a net's size.
const PAID: usize = 400;

/// The words of each signal, behind each other.
#[derive(Debug, Drop)]
pub(crate) struct Words {
    sources: u32,
    words: Vec<u64>,
    // By signal: so many of the notes are in its words. A LUT takes them when it is looked at.
    done: Vec<u32>,
    notes: u32,
    // So many words of LUTs are paid for.
    paid: usize,
    random: Random,
    // A word by minterm: all ones where the table is true; and what is left of these by some inputs.
    table: Vec<u64>,
    room: Vec<u64>,
    // Signals that wait for their words.
    stack: Vec<u32>,
}

/// All ones where a value is true.
#[inline]
pub(crate) fn mask(value: bool) -> u64 {
    if value { u64::MAX } else { 0 }
}

// The first word where a bit is 0, the second where it is 1.
#[inline]
fn chosen(low: u64, high: u64, bits: u64) -> u64 {
    low ^ ((low ^ high) & bits)
}

// Chooses between each two neighbours by an input's word.
fn fold(from: &[u64], to: &mut [u64], half: usize, bits: u64) {
    for m in 0..half.min(128) {
        let low = at(from, 2 * m, 0);
        let high = at(from, 2 * m + 1, 0);
        put(to, m, chosen(low, high, bits));
    }
}

// The same, in place.
fn fold_in_place(room: &mut [u64], half: usize, bits: u64) {
    for m in 0..half.min(128) {
        let low = at(room, 2 * m, 0);
        let high = at(room, 2 * m + 1, 0);
        put(room, m, chosen(low, high, bits));
    }
}

impl Words {
    /// Words for the signals of a net. The only error of this call and of those below is want of memory.
    pub(crate) fn new(alloc: Global, sources: u32, luts: &[Lut]) -> Result<Words, AllocError> {
        let mut words = Words {
            sources,
            words: Vec::new(alloc),
            done: Vec::new(alloc),
            notes: 0,
            paid: 0,
            random: Random::new(),
            table: vec![in alloc; 0; 256]?,
            room: vec![in alloc; 0; 128]?,
            stack: Vec::new(alloc),
        };
        words.push_sources()?;
        for lut in luts {
            words.push_lut(lut)?;
        }
        Ok(words)
    }

    // A random word: half of its bits are ones, or an eighth, or seven eighths.
    fn source_word(&mut self, place: usize) -> u64 {
        let word = self.random.next();
        match place % 8 {
            6 => word & self.random.next() & self.random.next(),
            7 => word | self.random.next() | self.random.next(),
            _ => word,
        }
    }

    // The words of the constant and of the sources.
    fn push_sources(&mut self) -> Result<(), AllocError> {
        for signal in 0..=self.sources {
            for place in 0..COUNT {
                let word = if signal == 0 {
                    0
                } else {
                    self.source_word(place)
                };
                self.words.push(word)?;
            }
            self.done.push(0)?;
        }
        Ok(())
    }

    // The words of the next LUT.
    fn push_lut(&mut self, lut: &Lut) -> Result<(), AllocError> {
        self.lay_table(lut);
        for place in 0..COUNT {
            let word = self.lut_word(lut.inputs.as_slice(), place);
            self.words.push(word)?;
        }
        self.done.push(0)?;
        Ok(())
    }

    // Lays a LUT's table out.
    fn lay_table(&mut self, lut: &Lut) {
        let mut low = lut.truth.low;
        let mut high = lut.truth.high;
        let count = 1usize << lut.inputs.len();
        for m in 0..count {
            put(self.table.as_mut_slice(), m, mask(low % 2 == 1));
            low >>= 1;
            if m == 127 {
                low = high;
            }
        }
    }

    // A word of a signal.
    #[inline]
    fn word_of(&self, signal: u32, place: usize) -> u64 {
        let start = (signal as usize).saturating_mul(COUNT);
        at(self.words.as_slice(), start.saturating_add(place), 0)
    }

    // A word of the LUT whose table is laid out.
    fn lut_word(&mut self, inputs: &[u32], place: usize) -> u64 {
        let mut half = 1usize << inputs.len().min(8);
        for (i, input) in inputs.iter().enumerate() {
            half /= 2;
            let bits = self.word_of(*input, place);
            if i == 0 {
                let from = self.table.as_slice();
                fold(from, self.room.as_mut_slice(), half, bits);
            } else {
                fold_in_place(self.room.as_mut_slice(), half, bits);
            }
        }
        at(self.room.as_slice(), 0, 0)
    }

    /// The words of a signal.
    #[inline]
    pub(crate) fn of(&self, signal: u32) -> &[u64] {
        let words = self.words.as_slice();
        let start = (signal as usize).saturating_mul(COUNT);
        let end = start.saturating_add(COUNT);
        if end <= words.len() {
            &words[start..end]
        } else {
            &words[..0]
        }
    }

    /// A hash of the signal's random words, the same for opposite ones.
    pub(crate) fn key(&self, signal: u32) -> u64 {
        let mut key: u64 = 0;
        let flip = mask(self.is_true(signal, 0));
        for word in self.of(signal).iter().take(RANDOM) {
            let product = (key ^ *word ^ flip).wrapping_mul(0x9E37_79B9_7F4A_7C15);
            key = product ^ (product >> 29);
        }
        key
    }

    /// Whether two signals have the same words, or opposite ones if they are in the first pattern.
    pub(crate) fn are_alike(&self, first: u32, second: u32) -> bool {
        let turn = mask(self.is_true(first, 0) != self.is_true(second, 0));
        for (x, y) in self.of(first).iter().zip(self.of(second)) {
            if *x ^ *y != turn {
                return false;
            }
        }
        true
    }

    /// Whether a signal is true in a pattern.
    #[inline]
    pub(crate) fn is_true(&self, signal: u32, pattern: u32) -> bool {
        self.word_of(signal, pattern as usize / 64) >> (pattern % 64) & 1 == 1
    }

    /// A guess pays for words.
    pub(crate) fn pay(&mut self) {
        self.paid = self.paid.saturating_add(PAID);
    }

    // The place of a note's words.
    #[inline]
    fn place_of(note: u32) -> usize {
        RANDOM + (note % NOTED) as usize
    }

    /// Takes values of the sources in place of the oldest ones, if that is paid for: one pattern of a word has them, the
    /// others differ in an eighth of the sources.
    pub(crate) fn note(&mut self, values: &[bool]) {
        let cost = values.len() / 16;
        if self.paid <= cost || self.notes == u32::MAX {
            return;
        }
        self.paid -= cost;
        let place = Words::place_of(self.notes);
        self.notes += 1;
        for (i, value) in values.iter().enumerate() {
            let signal = i.saturating_add(1);
            if signal > self.sources as usize {
                break;
            }
            let others = self.random.next() & self.random.next() & self.random.next();
            let word = mask(*value) ^ (others & !1);
            let seat = signal.saturating_mul(COUNT).saturating_add(place);
            put(self.words.as_mut_slice(), seat, word);
        }
    }

    // Whether the latest notes are in a signal's words.
    #[inline]
    fn is_fresh(&self, signal: u32) -> bool {
        signal <= self.sources
            || at(self.done.as_slice(), signal as usize, self.notes) == self.notes
    }

    // Lets the inputs of a LUT wait that lack notes: whether there are none.
    fn wait_for(&mut self, signal: u32, lut: &Lut) -> Result<bool, AllocError> {
        let mut is_ready = true;
        for input in lut.inputs.as_slice() {
            if *input < signal && !self.is_fresh(*input) {
                self.stack.push(*input)?;
                is_ready = false;
            }
        }
        Ok(is_ready)
    }

    // Puts the notes that a LUT lacks into its words.
    fn take_notes(&mut self, signal: u32, lut: &Lut) {
        let done = at(self.done.as_slice(), signal as usize, self.notes);
        let first = done.max(self.notes.saturating_sub(NOTED));
        self.lay_table(lut);
        for note in first..self.notes {
            let place = Words::place_of(note);
            let word = self.lut_word(lut.inputs.as_slice(), place);
            let seat = (signal as usize)
                .saturating_mul(COUNT)
                .saturating_add(place);
            put(self.words.as_mut_slice(), seat, word);
            self.paid = self.paid.saturating_sub(1);
        }
        put(self.done.as_mut_slice(), signal as usize, self.notes);
    }

    /// Puts the latest notes into the words of a signal, and of all below it.
    pub(crate) fn refresh(&mut self, luts: &[Lut], signal: u32) -> Result<(), AllocError> {
        if self.is_fresh(signal) {
            return Ok(());
        }
        self.stack.clear();
        self.stack.push(signal)?;
        for _ in 0..u64::MAX {
            let Some(top) = self.stack.pop() else {
                break;
            };
            let Some(lut) = lut_of(luts, self.sources, top) else {
                continue;
            };
            if self.is_fresh(top) {
                continue;
            }
            self.stack.push(top)?;
            if self.wait_for(top, lut)? {
                self.take_notes(top, lut);
                self.stack.pop();
            }
        }
        Ok(())
    }
}
