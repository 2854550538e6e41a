//! Guesses: which literals may make another one, by the words of simulation. Nothing is promised of them.

use crate::words::{Words, mask};
use std::alloc::{AllocError, Global};
use syn_rows::Lit;
use syn_sat::at;

/// A guess for a literal: it, or its complement where it is turned, is the AND of the first literal and of the AND of the two
/// inner ones, or of the complement of that AND where it is opposite. A guess of fewer literals has some of them twice.
#[derive(Clone, Copy, Debug)]
pub(crate) struct Guess {
    pub first: Lit,
    pub inner: (Lit, Lit),
    pub opposite: bool,
    pub turned: bool,
}

impl Guess {
    /// The literal is another.
    pub(crate) fn literal(l: Lit) -> Guess {
        Guess {
            first: l,
            inner: (l, l),
            opposite: false,
            turned: false,
        }
    }

    // The literal, or its complement, is the OR of three others.
    fn or(x: Lit, y: Lit, z: Lit, turned: bool) -> Guess {
        Guess {
            first: x.not(),
            inner: (y.not(), z.not()),
            opposite: false,
            turned,
        }
    }

    // The literal, or its complement, is the OR of one other and the AND of two.
    fn or_of_and(x: Lit, p: Lit, q: Lit, turned: bool) -> Guess {
        Guess {
            first: x.not(),
            inner: (p, q),
            opposite: true,
            turned,
        }
    }
}

/// Among so many literals that lie inside the literal others are looked for.
const MOST: usize = 60;

/// So many guesses of one AND, and of two, for a literal or its complement.
const PAIRS: usize = 6;

const MORE: usize = 6;

/// So many pairs of literals are looked at whose AND may lie inside the literal.
const INNER: u32 = 400;

// A pattern: a word's place, and a bit of it.
#[derive(Clone, Copy, Debug)]
struct Spot {
    place: usize,
    bit: u64,
}

/// Guesses for a literal, and what they are made of.
#[derive(Debug, Drop)]
pub(crate) struct Guesses {
    /// The guesses, the simplest first.
    pub all: Vec<Guess>,
    // How each divisor lies to the node.
    meetings: Vec<u8>,
    // Literals of divisors that lie inside the literal, and those that lie neither inside it nor outside.
    inside: Vec<Lit>,
    others: Vec<Lit>,
    // The words of the literal, what of them is left outside one literal, and outside two.
    target: Vec<u64>,
    left: Vec<u64>,
    rest: Vec<u64>,
    // Those of the others in which all that is left lies.
    covers: Vec<Lit>,
}

// The lowest bit of the first word that isn't 0.
fn first_spot(words: &[u64]) -> Option<Spot> {
    for (place, word) in words.iter().enumerate() {
        if *word != 0 {
            let bit = *word & (!*word).wrapping_add(1);
            return Some(Spot { place, bit });
        }
    }
    None
}

// What of some words lies outside a literal.
fn outside(from: &[u64], words: &Words, l: Lit, to: &mut [u64]) {
    let turn = mask(!l.complemented());
    let both = from.iter().zip(words.of(l));
    for ((old, word), new) in both.zip(to.iter_mut()) {
        *new = *old & (*word ^ turn);
    }
}

// Whether some words lie inside a literal.
fn is_covered(from: &[u64], words: &Words, l: Lit) -> bool {
    let turn = mask(!l.complemented());
    for (x, y) in from.iter().zip(words.of(l)) {
        if *x & (*y ^ turn) != 0 {
            return false;
        }
    }
    true
}

impl Guesses {
    /// No guesses. The only error of the calls below is want of memory.
    pub(crate) fn new(alloc: Global) -> Guesses {
        Guesses {
            all: Vec::new(alloc),
            meetings: Vec::new(alloc),
            inside: Vec::new(alloc),
            others: Vec::new(alloc),
            target: Vec::new(alloc),
            left: Vec::new(alloc),
            rest: Vec::new(alloc),
            covers: Vec::new(alloc),
        }
    }

    // Parts the divisors' literals by a node's literal.
    fn part(&mut self, nodes: &[u32], flip: bool) -> Result<(), AllocError> {
        self.inside.clear();
        self.others.clear();
        for (i, node) in nodes.iter().enumerate() {
            let meeting = at(self.meetings.as_slice(), i, 0);
            for complement in [false, true] {
                let l = Lit(node.saturating_mul(2) | complement as u32);
                // true with the literal somewhere, and elsewhere
                let shift = if complement { meeting >> 2 } else { meeting };
                let (with, without) = if flip {
                    (shift & 2 != 0, shift & 1 != 0)
                } else {
                    (shift & 1 != 0, shift & 2 != 0)
                };
                if with && without {
                    self.others.push(l)?;
                } else if with && self.inside.len() < MOST {
                    self.inside.push(l)?;
                }
            }
        }
        Ok(())
    }

    // Takes a literal's words as those to be made.
    fn aim(&mut self, words: &Words, m: Lit) -> Result<(), AllocError> {
        let turn = mask(m.complemented());
        self.target.clear();
        self.left.clear();
        self.rest.clear();
        for word in words.of(m) {
            self.target.push(*word ^ turn)?;
            self.left.push(0)?;
            self.rest.push(0)?;
        }
        Ok(())
    }

    // How many of the literals inside are true at a pattern.
    fn count_at(&self, words: &Words, spot: Spot) -> usize {
        let mut count: usize = 0;
        for l in &self.inside {
            if words.is_true(*l, spot.place, spot.bit) {
                count = count.saturating_add(1);
            }
        }
        count
    }

    // Of a few patterns in which the literal is true one in which the fewest of those inside are: it, and how many are.
    fn rarest(&self, words: &Words) -> Option<(Spot, usize)> {
        let mut best = None;
        let mut least = usize::MAX;
        for (place, word) in self.target.iter().enumerate() {
            if *word == 0 {
                continue;
            }
            let bit = *word & (!*word).wrapping_add(1);
            let spot = Spot { place, bit };
            let count = self.count_at(words, spot);
            if count < least {
                least = count;
                best = Some((spot, count));
                if count == 0 {
                    break;
                }
            }
        }
        best
    }

    // Guesses that the literal is the OR of one more literal and two that leave the rest.
    fn find_third(
        &mut self,
        words: &Words,
        x: Lit,
        y: Lit,
        turned: bool,
    ) -> Result<(), AllocError> {
        let Some(spot) = first_spot(self.rest.as_slice()) else {
            return Ok(());
        };
        for z in &self.inside {
            if words.is_true(*z, spot.place, spot.bit)
                && is_covered(self.rest.as_slice(), words, *z)
            {
                self.all.push(Guess::or(x, y, *z, turned))?;
                return Ok(());
            }
        }
        Ok(())
    }

    // Guesses that the literal is the OR of one that leaves what is left, and another, or two others.
    fn find_second(
        &mut self,
        words: &Words,
        x: Lit,
        turned: bool,
        three: bool,
        end: usize,
    ) -> Result<(), AllocError> {
        outside(self.target.as_slice(), words, x, self.left.as_mut_slice());
        let Some(spot) = first_spot(self.left.as_slice()) else {
            self.all.push(Guess::or(x, x, x, turned))?;
            return Ok(());
        };
        for i in 0..self.inside.len() {
            let y = at(self.inside.as_slice(), i, x);
            if self.all.len() >= end {
                break;
            }
            if !words.is_true(y, spot.place, spot.bit) {
                continue;
            }
            if three {
                outside(self.left.as_slice(), words, y, self.rest.as_mut_slice());
                self.find_third(words, x, y, turned)?;
            } else if is_covered(self.left.as_slice(), words, y) {
                self.all.push(Guess::or(x, y, y, turned))?;
            }
        }
        Ok(())
    }

    // Guesses that the literal is the OR of two others, or three.
    fn find_ors(
        &mut self,
        words: &Words,
        rarest: Spot,
        turned: bool,
        three: bool,
    ) -> Result<(), AllocError> {
        let most = if three { MORE } else { PAIRS };
        let end = self.all.len().saturating_add(most);
        for i in 0..self.inside.len() {
            let x = at(self.inside.as_slice(), i, Lit(0));
            if self.all.len() >= end {
                break;
            }
            if words.is_true(x, rarest.place, rarest.bit) {
                self.find_second(words, x, turned, three, end)?;
            }
        }
        Ok(())
    }

    // Those of the others in which all that is left lies.
    fn find_covers(&mut self, words: &Words) -> Result<(), AllocError> {
        self.covers.clear();
        let Some(spot) = first_spot(self.left.as_slice()) else {
            return Ok(());
        };
        for p in &self.others {
            if words.is_true(*p, spot.place, spot.bit)
                && is_covered(self.left.as_slice(), words, *p)
            {
                self.covers.push(*p)?;
            }
        }
        Ok(())
    }

    // Guesses that the literal is the OR of one and an AND of two.
    fn find_mixed(&mut self, words: &Words, m: Lit, turned: bool) -> Result<(), AllocError> {
        let end = self.all.len().saturating_add(MORE);
        let mut tries = INNER;
        for k in 0..self.inside.len() {
            let x = at(self.inside.as_slice(), k, Lit(0));
            outside(self.target.as_slice(), words, x, self.left.as_mut_slice());
            self.find_covers(words)?;
            let covers = self.covers.as_slice();
            for (i, p) in covers.iter().enumerate() {
                for q in &covers[i..] {
                    if tries == 0 || self.all.len() >= end {
                        return Ok(());
                    }
                    tries -= 1;
                    if p.node() != q.node() && words.both_inside(*p, *q, m) {
                        self.all.push(Guess::or_of_and(x, *p, *q, turned))?;
                    }
                }
            }
        }
        Ok(())
    }

    // Guesses for a node's literal.
    fn find_for(
        &mut self,
        words: &Words,
        nodes: &[u32],
        m: Lit,
        turned: bool,
        two: bool,
    ) -> Result<(), AllocError> {
        self.part(nodes, m.complemented())?;
        self.aim(words, m)?;
        let before = self.all.len();
        let rarest = self.rarest(words);
        if let Some((spot, count)) = rarest {
            if count > 0 {
                self.find_ors(words, spot, turned, false)?;
                if two && self.all.len() == before {
                    self.find_ors(words, spot, turned, true)?;
                }
            }
        }
        if two && self.all.len() == before {
            self.find_mixed(words, m, turned)?;
        }
        Ok(())
    }

    /// Guesses for the plain literal of a node over its divisors: of one AND, and where there are none of these and two are
    /// allowed, of two.
    pub(crate) fn find(
        &mut self,
        words: &Words,
        nodes: &[u32],
        m: Lit,
        two: bool,
    ) -> Result<(), AllocError> {
        self.all.clear();
        self.meetings.clear();
        for node in nodes {
            self.meetings.push(words.meeting(*node, m.node()))?;
        }
        self.find_for(words, nodes, m, true, two)?;
        self.find_for(words, nodes, m.not(), false, two)
    }

    /// Whether the words still bear a guess for a literal out.
    pub(crate) fn is_borne_out(words: &Words, m: Lit, guess: &Guess) -> bool {
        let target = if guess.turned { m.not() } else { m };
        words.is_made_of(target, guess.first, guess.inner, guess.opposite)
    }
}
