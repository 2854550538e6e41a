//! Words of simulation: the values of each node in 3,072 patterns. Nothing is promised of them.

use crate::alike::number;
use std::alloc::{AllocError, Global};
use syn_fraig::Random;
use syn_rows::{Lit, Row};
use syn_sat::{Solver, at, put};

/// So many words of 64 patterns a node.
pub(crate) const COUNT: usize = 48;

/// So many of these are random; the others are of models.
const RANDOM: usize = 32;

/// Each node pays for so many words of models. A model takes a word of every node, so that the time of all models together
/// would grow as the square of a graph's size.
const PAID: usize = 1000;

/// The words of each node, behind each other.
#[derive(Debug, Drop)]
pub(crate) struct Words {
    words: Vec<u64>,
    // By node: a hash of its random words, complemented where the first value is 1.
    keys: Vec<u64>,
    random: Random,
    // Which word the next model gets.
    next: usize,
    // So many words of models are paid for.
    paid: usize,
}

/// All ones where a literal is complemented, to be added to its node's words.
#[inline]
pub(crate) fn mask(complemented: bool) -> u64 {
    if complemented { u64::MAX } else { 0 }
}

// The plain literal of a node.
#[inline]
fn plain(node: u32) -> Lit {
    Lit(node.saturating_mul(2))
}

impl Words {
    /// No words. The only error of the calls below is want of memory.
    pub(crate) fn new(alloc: Global) -> Words {
        Words {
            words: Vec::new(alloc),
            keys: Vec::new(alloc),
            random: Random::new(),
            next: RANDOM,
            paid: 0,
        }
    }

    /// The keys of all nodes.
    pub(crate) fn keys(&self) -> &[u64] {
        self.keys.as_slice()
    }

    /// Whether the node is true in the first pattern.
    pub(crate) fn is_flipped(&self, node: u32) -> bool {
        let start = (node as usize).saturating_mul(COUNT);
        at(self.words.as_slice(), start, 0) % 2 == 1
    }

    /// The words of a literal's node.
    #[inline]
    pub(crate) fn of(&self, lit: Lit) -> &[u64] {
        let words = self.words.as_slice();
        let start = (lit.node() as usize).saturating_mul(COUNT);
        let end = start.saturating_add(COUNT);
        if end <= words.len() {
            &words[start..end]
        } else {
            &words[..0]
        }
    }

    /// A hash of the node's random words, the same for opposite ones.
    #[inline]
    pub(crate) fn key(&self, node: u32) -> u64 {
        at(self.keys.as_slice(), node as usize, 0)
    }

    // A random word: half of its bits are ones, or an eighth, or seven eighths.
    fn source_word(&mut self, place: usize) -> u64 {
        let word = self.random.next();
        match place % 8 {
            6 => word & self.random.next() & self.random.next(),
            7 => word | self.random.next() | self.random.next(),
            _ => word,
        }
    }

    // One word of a row's node.
    #[inline]
    fn word_of(&self, lit: Lit, place: usize) -> u64 {
        let node = lit.node() as usize;
        let word = at(
            self.words.as_slice(),
            node.saturating_mul(COUNT).saturating_add(place),
            0,
        );
        word ^ mask(lit.complemented())
    }

    // Puts the words of the next node behind the others.
    fn push(&mut self, row: Row, node: usize) -> Result<(), AllocError> {
        for place in 0..COUNT {
            let word = match row {
                Row::And(a, b) => self.word_of(a, place) & self.word_of(b, place),
                _ if node == 0 => 0,
                _ => self.source_word(place),
            };
            self.words.push(word)?;
        }
        let key = self.hashed(node);
        self.keys.push(key)?;
        Ok(())
    }

    // The key of a node by its words.
    fn hashed(&self, node: usize) -> u64 {
        let words = self.words.as_slice();
        let start = node.saturating_mul(COUNT);
        let flip = mask(at(words, start, 0) % 2 == 1);
        let mut key: u64 = 0;
        for place in 0..RANDOM {
            let word = at(words, start.saturating_add(place), 0) ^ flip;
            let product = (key ^ word).wrapping_mul(0x9E37_79B9_7F4A_7C15);
            key = product ^ (product >> 29);
        }
        key
    }

    /// Words for the rows that have none yet.
    pub(crate) fn grow(&mut self, rows: &[Row]) -> Result<(), AllocError> {
        for node in self.keys.len()..rows.len() {
            self.push(rows[node], node)?;
            self.paid = self.paid.saturating_add(PAID);
        }
        Ok(())
    }

    // The patterns of a source by a model: that of the model, and others that differ from it in an eighth of the sources.
    fn model_word(&mut self, value: Option<bool>) -> u64 {
        let word = self.random.next();
        match value {
            Some(value) => {
                let others = word & self.random.next() & self.random.next();
                mask(value) ^ (others & !1)
            }
            None => word,
        }
    }

    /// Puts the solver's model in place of the oldest one, over the rows that have words, if that many words are paid for.
    pub(crate) fn take_model(&mut self, rows: &[Row], solver: &Solver) {
        if self.paid < self.keys.len() {
            return;
        }
        self.paid = self.paid.saturating_sub(self.keys.len());
        let place = self.next;
        self.next = if place.saturating_add(1) < COUNT {
            place.saturating_add(1)
        } else {
            RANDOM
        };
        for node in 1..self.keys.len() {
            let row = at(rows, node, Row::Free);
            let word = match row {
                Row::And(a, b) => self.word_of(a, place) & self.word_of(b, place),
                _ => self.model_word(solver.value(number(node))),
            };
            let i = node.saturating_mul(COUNT).saturating_add(place);
            put(self.words.as_mut_slice(), i, word);
        }
    }

    /// Whether two literals have the same words.
    pub(crate) fn same(&self, l: Lit, m: Lit) -> bool {
        let turn = mask(l.complemented() != m.complemented());
        for (x, y) in self.of(l).iter().zip(self.of(m)) {
            if *x ^ *y != turn {
                return false;
            }
        }
        true
    }

    /// How two nodes lie to each other: whether in some pattern both are true (1), the first alone (2), the second alone (4),
    /// neither (8).
    pub(crate) fn meeting(&self, first: u32, second: u32) -> u8 {
        let mut meeting: u8 = 0;
        let (xs, ys) = (self.of(plain(first)), self.of(plain(second)));
        for (x, y) in xs.iter().zip(ys) {
            let both = (*x & *y != 0) as u8;
            let alone = (*x & !*y != 0) as u8;
            let other = (!*x & *y != 0) as u8;
            let neither = (!*x & !*y != 0) as u8;
            meeting |= both | alone << 1 | other << 2 | neither << 3;
            if meeting == 15 {
                break;
            }
        }
        meeting
    }

    /// Whether a literal is true in a pattern: a word's place and a bit of it.
    #[inline]
    pub(crate) fn is_true(&self, lit: Lit, place: usize, bit: u64) -> bool {
        self.word_of(lit, place) & bit != 0
    }

    /// Whether the AND of the first two literals lies inside the third.
    pub(crate) fn both_inside(&self, p: Lit, q: Lit, m: Lit) -> bool {
        let (turn_p, turn_q) = (mask(p.complemented()), mask(q.complemented()));
        let turn_m = mask(!m.complemented());
        let words = self.of(p).iter().zip(self.of(q)).zip(self.of(m));
        for ((x, y), z) in words {
            if (*x ^ turn_p) & (*y ^ turn_q) & (*z ^ turn_m) != 0 {
                return false;
            }
        }
        true
    }

    /// Whether a literal is the AND of the first one and of the AND of the two inner ones, or its complement.
    pub(crate) fn is_made_of(&self, m: Lit, first: Lit, inner: (Lit, Lit), opposite: bool) -> bool {
        let (turn_m, turn_x) = (mask(m.complemented()), mask(first.complemented()));
        let (turn_p, turn_q) = (mask(inner.0.complemented()), mask(inner.1.complemented()));
        let turn = mask(opposite);
        let outer = self.of(m).iter().zip(self.of(first));
        let both = self.of(inner.0).iter().zip(self.of(inner.1));
        for ((m, x), (p, q)) in outer.zip(both) {
            let second = ((*p ^ turn_p) & (*q ^ turn_q)) ^ turn;
            if (*x ^ turn_x) & second != *m ^ turn_m {
                return false;
            }
        }
        true
    }
}
