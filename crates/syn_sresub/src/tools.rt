//! What resubstitution works with, of which nothing is promised: words, references, divisors and guesses.

use crate::Limits;
use crate::alike::{Alike, number};
use crate::divisors::Divisors;
use crate::guesses::{Guess, Guesses};
use crate::references::References;
use crate::words::Words;
use std::alloc::{AllocError, Global};
use syn_graph::Graph;
use syn_rows::{Lit, Row};
use syn_sat::{Solver, at};

/// So many guesses of a node may fail.
const FAILURES: u32 = 4;

/// So many nodes with the same words are guessed.
const ALIKE: u32 = 4;

/// The tools.
#[derive(Debug, Drop)]
pub(crate) struct Tools {
    /// Room for the nodes whose gates are to be loaded.
    pub queue: Vec<u32>,
    /// At most so many conflicts of a search for each question.
    pub conflicts: u32,
    words: Words,
    alike: Alike,
    references: References,
    divisors: Divisors,
    guesses: Guesses,
    // The rows that only the node refers to.
    cone: Vec<u32>,
    // By new node.
    levels: Vec<u32>,
    // By old node: how often it is referred to, and its level.
    needs: Vec<u32>,
    depths: Vec<u32>,
    // The most ANDs of a replacement, and whether none may lie deeper.
    gates: u32,
    keeps_levels: bool,
    // Of the node that is looked at: its references, its old level, how many guesses have failed.
    need: u32,
    depth: u32,
    failures: u32,
}

impl Tools {
    /// Tools for a graph. The only error of this call and of those below is want of memory.
    pub(crate) fn new(alloc: Global, graph: &Graph, limits: &Limits) -> Result<Tools, AllocError> {
        let needs = graph.refs(alloc)?;
        let depths = graph.levels(alloc)?;
        let alike = Alike::new(alloc)?;
        Ok(Tools {
            queue: Vec::new(alloc),
            conflicts: limits.conflicts,
            words: Words::new(alloc),
            alike,
            references: References::new(alloc),
            divisors: Divisors::new(alloc),
            guesses: Guesses::new(alloc),
            cone: Vec::new(alloc),
            levels: Vec::new(alloc),
            needs,
            depths,
            gates: limits.gates,
            keeps_levels: limits.levels,
            need: 0,
            depth: 0,
            failures: 0,
        })
    }

    #[inline]
    fn level(&self, lit: Lit) -> u32 {
        at(self.levels.as_slice(), lit.node() as usize, 0)
    }

    // Takes the rows in that are new.
    fn grow(&mut self, rows: &[Row]) -> Result<(), AllocError> {
        self.words.grow(rows)?;
        self.references.grow(rows)?;
        for node in self.levels.len()..rows.len() {
            let level = match rows[node] {
                Row::And(a, b) => self.level(a).max(self.level(b)).saturating_add(1),
                _ => 0,
            };
            self.levels.push(level)?;
            self.alike.push(self.words.keys())?;
        }
        Ok(())
    }

    /// Node 0 and the sources have their references.
    pub(crate) fn begin(&mut self, rows: &[Row]) -> Result<(), AllocError> {
        self.grow(rows)?;
        for node in 0..rows.len() {
            let need = at(self.needs.as_slice(), node, 0);
            self.references.add(rows, number(node), need)?;
        }
        Ok(())
    }

    /// An old node was made: the literal that stands for it gets its references, and those for its fan-ins lose one each.
    /// Whether the literal is worth guesses.
    pub(crate) fn made(
        &mut self,
        rows: &[Row],
        old: u32,
        fan_ins: (Lit, Lit),
        lit: Lit,
    ) -> Result<bool, AllocError> {
        self.grow(rows)?;
        let is_new = self.references.count(lit.node()) == 0;
        self.need = at(self.needs.as_slice(), old as usize, 0);
        self.depth = if self.keeps_levels {
            at(self.depths.as_slice(), old as usize, 0)
        } else {
            u32::MAX
        };
        self.failures = 0;
        self.references.add(rows, lit.node(), self.need)?;
        self.references.sub(rows, fan_ins.0.node(), 1)?;
        self.references.sub(rows, fan_ins.1.node(), 1)?;
        let is_and = matches!(at(rows, lit.node() as usize, Row::Free), Row::And(_, _));
        if is_new && is_and {
            self.references.cone(rows, lit.node(), &mut self.cone)?;
        }
        Ok(is_new && is_and)
    }

    /// Another literal is taken in place of one: it gets the references.
    pub(crate) fn replaced(
        &mut self,
        rows: &[Row],
        lit: Lit,
        other: Lit,
    ) -> Result<(), AllocError> {
        self.grow(rows)?;
        self.references.add(rows, other.node(), self.need)?;
        self.references.sub(rows, lit.node(), self.need)
    }

    // Guesses of nodes with the same words.
    fn find_alike(&mut self, m: Lit) -> Result<(), AllocError> {
        self.guesses.all.clear();
        let key = self.words.key(m.node());
        let mut node = self.alike.first(key);
        let mut left = ALIKE;
        for _ in 0..1000 {
            if left == 0 || node as usize >= self.levels.len() {
                break;
            }
            let opposite = self.words.is_flipped(node) != self.words.is_flipped(m.node());
            let lit = Lit(node.saturating_mul(2) | opposite as u32);
            if node != m.node()
                && self.references.count(node) > 0
                && self.words.key(node) == key
                && self.words.same(lit, m)
            {
                self.guesses.all.push(Guess::literal(lit))?;
                left -= 1;
            }
            node = self.alike.next(node);
        }
        Ok(())
    }

    /// Finds guesses for a plain literal: first those of one literal, in the second round those of one AND or two.
    pub(crate) fn find(&mut self, rows: &[Row], m: Lit, round: u32) -> Result<(), AllocError> {
        if round == 0 {
            return self.find_alike(m);
        }
        self.guesses.all.clear();
        if self.gates == 0 || self.cone.len() < 2 {
            return Ok(());
        }
        let (references, cone) = (&self.references, self.cone.as_slice());
        self.divisors.find(rows, references, m.node(), cone)?;
        let two = self.gates > 1 && self.cone.len() > 2;
        let nodes = self.divisors.nodes.as_slice();
        self.guesses.find(&self.words, nodes, m, two)
    }

    // The level of a guess's AND.
    fn level_of(&self, guess: &Guess) -> u32 {
        let first = self.level(guess.first);
        let (p, q) = guess.inner;
        if p != q {
            let inner = self.level(p).max(self.level(q)).saturating_add(1);
            first.max(inner).saturating_add(1)
        } else if p != guess.first {
            first.max(self.level(p)).saturating_add(1)
        } else {
            first
        }
    }

    // Whether a guess is still worth a question: low enough, and borne out by the words.
    fn is_open(&self, m: Lit, guess: &Guess) -> bool {
        let is_low = !self.keeps_levels || self.level_of(guess) <= self.depth;
        is_low && Guesses::is_borne_out(&self.words, m, guess)
    }

    /// The first guess from a place on that is worth a question, and the next place, if not too many have failed.
    pub(crate) fn next_guess(&self, m: Lit, place: usize) -> Option<(Guess, usize)> {
        if self.failures >= FAILURES {
            return None;
        }
        for i in place..self.guesses.all.len() {
            let guess = self.guesses.all[i];
            if self.is_open(m, &guess) {
                return Some((guess, i.saturating_add(1)));
            }
        }
        None
    }

    /// A guess has failed; the solver's model, if there is one, becomes patterns.
    pub(crate) fn failed(&mut self, rows: &[Row], solver: &Solver, has_model: bool) {
        self.failures = self.failures.saturating_add(1);
        if has_model {
            self.words.take_model(rows, solver);
        }
    }
}
