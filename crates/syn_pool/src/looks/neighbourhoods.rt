//! Which neighbourhoods the rounds of a pass have visited, and which ones its checks found to save nothing. It tells which ANDs
//! a round leaves out and which ones a check looks at first, and nothing rests on it.

use crate::rounds::opened_table::gates_of;
use std::alloc::{AllocError, Global};
use syn_gain::Proposal;
use syn_graph::Graph;
use syn_rows::{Lit, Row};

// How far down a neighbourhood goes from its AND.
const DEPTH: u32 = 5;

// How many places there are for each node of the first graph.
const PLACES: usize = 8;

/// Neighbourhoods, each by its mark, at a place that the mark tells: a later one takes the place of an earlier one.
#[derive(Drop)]
pub(crate) struct Neighbourhoods {
    marks: Vec<u64>,
}

/// What a pass remembers of the graphs that it had.
#[derive(Drop)]
pub(crate) struct Seen {
    /// The neighbourhoods that rounds visited.
    pub visited: Neighbourhoods,
    /// The neighbourhoods in which a check found nothing to save.
    pub clean: Neighbourhoods,
}

/// ANDs of a graph in order, with the marks of their neighbourhoods.
#[derive(Drop)]
pub(crate) struct Marked {
    /// The ANDs.
    pub nodes: Vec<u32>,
    marks: Vec<u64>,
}

// A word in which each bit of another tells on all.
fn mixed(word: u64) -> u64 {
    let first = (word ^ word >> 29).wrapping_mul(0x9e37_79b9_7f4a_7c15);
    let second = (first ^ first >> 32).wrapping_mul(0xbf58_476d_1ce4_e5b9);
    second ^ second >> 32
}

// The word of a node, 0 past the last one.
fn word_at(words: &[u64], node: u32) -> u64 {
    match words.get(node as usize) {
        Some(word) => *word,
        None => 0,
    }
}

// The word of a literal: its node's, with all bits turned where it is complemented.
fn word_of(words: &[u64], literal: Lit) -> u64 {
    let word = word_at(words, literal.node());
    if literal.complemented() { !word } else { word }
}

// The values of each node for 64 choices of source values.
fn simulated(alloc: Global, rows: &[Row]) -> Result<Vec<u64>, AllocError> {
    let mut words = Vec::with_capacity(alloc, rows.len())?;
    for (node, row) in rows.iter().enumerate() {
        let word = match *row {
            Row::And(a, b) => word_of(words.as_slice(), a) & word_of(words.as_slice(), b),
            _ if node == 0 => 0,
            _ => mixed(node as u64),
        };
        words.push(word)?;
    }
    Ok(words)
}

// The mark of an AND, by those of its fan-ins, in whichever order, and by whether others refer to it too.
fn mark_of(marks: &[u64], a: Lit, b: Lit, count: u32) -> u64 {
    let both = mixed(word_of(marks, a)).wrapping_add(mixed(word_of(marks, b)));
    mixed(both ^ u64::from(count > 1))
}

// Marks of neighbourhoods that go one row further down.
fn deepen(rows: &[Row], counts: &[u32], marks: &mut [u64]) {
    for node in (0..rows.len()).rev() {
        if let Row::And(a, b) = rows[node] {
            if node < counts.len() && node < marks.len() {
                marks[node] = mark_of(marks, a, b, counts[node]);
            }
        }
    }
}

// The mark of each AND's neighbourhood: the values of what is at its end, and the rows above that.
fn marks_of(alloc: Global, graph: &Graph) -> Result<Vec<u64>, AllocError> {
    let rows = graph.rows.as_slice();
    let counts = graph.refs(alloc)?;
    let mut marks = simulated(alloc, rows)?;
    for _ in 0..DEPTH {
        deepen(rows, counts.as_slice(), marks.as_mut_slice());
    }
    Ok(marks)
}

// The root of a proposal, none past the last one.
fn root_at(proposals: &[Proposal], place: usize) -> Option<u32> {
    let proposal = proposals.get(place)?;
    Some(proposal.root)
}

impl Seen {
    /// Nothing, with room for what passes over this graph and graphs made of it meet. The only error is want of memory.
    pub(crate) fn new(alloc: Global, graph: &Graph) -> Result<Seen, AllocError> {
        Ok(Seen {
            visited: Neighbourhoods::new(alloc, graph)?,
            clean: Neighbourhoods::new(alloc, graph)?,
        })
    }
}

impl Neighbourhoods {
    /// None, with room for those of this graph and of graphs made of it. The only error is want of memory.
    pub(crate) fn new(alloc: Global, graph: &Graph) -> Result<Neighbourhoods, AllocError> {
        let _count = graph.count();
        let count = PLACES * graph.rows.as_slice().len();
        let marks = vec![in alloc; 0; count]?;
        Ok(Neighbourhoods { marks })
    }

    // The place of a mark.
    fn place(&self, mark: u64) -> usize {
        let count = self.marks.len();
        if count == 0 {
            0
        } else {
            (mark >> 8) as usize % count
        }
    }

    // Whether a mark is there.
    fn has(&self, mark: u64) -> bool {
        self.marks.as_slice().get(self.place(mark)) == Some(&mark)
    }

    // Puts a mark there.
    fn add(&mut self, mark: u64) {
        let place = self.place(mark);
        if place < self.marks.len() {
            self.marks[place] = mark;
        }
    }

    /// The ANDs of a graph whose neighbourhoods aren't there. The only error is want of memory.
    pub(crate) fn others(&self, alloc: Global, graph: &Graph) -> Result<Marked, AllocError> {
        let all = marks_of(alloc, graph)?;
        let mut others = Marked {
            nodes: Vec::new(alloc),
            marks: Vec::new(alloc),
        };
        for node in gates_of(alloc, graph)?.iter().rev() {
            let mark = word_at(all.as_slice(), *node);
            if !self.has(mark) {
                others.nodes.push(*node)?;
                others.marks.push(mark)?;
            }
        }
        Ok(others)
    }

    /// Adds the neighbourhoods of ANDs, but of the roots of these proposals, which are in order too.
    pub(crate) fn add_but(&mut self, marked: &Marked, found: &[Proposal]) {
        let mut next = 0;
        for (node, mark) in marked.nodes.iter().zip(marked.marks.iter()) {
            while next < found.len() && found[next].root < *node {
                next += 1;
            }
            if root_at(found, next) != Some(*node) {
                self.add(*mark);
            }
        }
    }

    /// The ANDs of a graph whose neighbourhoods weren't there, the last one first: they are from now on. The only error is want
    /// of memory.
    pub(crate) fn visit(&mut self, alloc: Global, graph: &Graph) -> Result<Vec<u32>, AllocError> {
        let mut others = self.others(alloc, graph)?;
        self.add_but(&others, &[]);
        others.nodes.reverse();
        Ok(others.nodes)
    }
}
