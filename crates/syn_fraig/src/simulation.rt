//! Values of all nodes in 64 patterns at once. Nothing is promised of them.

use std::alloc::{AllocError, Global};
use syn_rows::{Lit, Row};
use syn_sat::{Solver, at, put};

/// Random numbers (xorshift64*), the same in each run.
#[derive(Debug, Drop)]
pub struct Random {
    state: u64,
}

impl Random {
    pub fn new() -> Random {
        Random {
            state: 0x9E37_79B9_7F4A_7C15,
        }
    }

    /// The next one.
    pub fn next(&mut self) -> u64 {
        let mut x = self.state;
        x ^= x << 13;
        x ^= x >> 7;
        x ^= x << 17;
        self.state = x;
        x.wrapping_mul(0x2545_F491_4F6C_DD1D)
    }
}

/// A word of 64 patterns by node.
#[derive(Debug, Drop)]
pub(crate) struct Simulation {
    sources: u32,
    words: Vec<u64>,
    random: Random,
}

// The word of a literal.
#[inline]
fn word_of(words: &[u64], lit: Lit) -> u64 {
    let word = at(words, lit.node() as usize, 0);
    if lit.complemented() { !word } else { word }
}

impl Simulation {
    /// No patterns yet, of so many sources and nodes. The only error is want of memory.
    pub(crate) fn new(alloc: Global, sources: u32, nodes: usize) -> Result<Simulation, AllocError> {
        Ok(Simulation {
            sources,
            words: vec![in alloc; 0; nodes]?,
            random: Random::new(),
        })
    }

    /// The word of a node.
    #[inline]
    pub(crate) fn word(&self, node: u32) -> u64 {
        at(self.words.as_slice(), node as usize, 0)
    }

    // Gives a source a word.
    fn set(&mut self, source: u32, word: u64) {
        put(self.words.as_mut_slice(), source as usize + 1, word);
    }

    // The words of all ANDs, from those of the sources.
    fn run(&mut self, rows: &[Row]) {
        let words = self.words.as_mut_slice();
        for (n, row) in rows.iter().enumerate() {
            if let Row::And(a, b) = *row {
                let word = word_of(words, a) & word_of(words, b);
                put(words, n, word);
            }
        }
    }

    /// Random patterns.
    pub(crate) fn run_random(&mut self, rows: &[Row]) {
        for source in 0..self.sources {
            let word = self.random.next();
            self.set(source, word);
        }
        self.run(rows);
    }

    /// A model and 63 patterns that differ from it in one of the sources of its cone or a few; the other sources are random.
    pub(crate) fn run_model(&mut self, rows: &[Row], solver: &Solver) {
        let mut turned: u32 = 1;
        for source in 0..self.sources {
            let word = match solver.value(source + 1) {
                Some(value) => {
                    let all = if value { u64::MAX } else { 0 };
                    let bit = 1u64 << (turned % 64);
                    turned = if turned < 63 { turned + 1 } else { 1 };
                    all ^ bit
                }
                None => self.random.next(),
            };
            self.set(source, word);
        }
        self.run(rows);
    }
}
