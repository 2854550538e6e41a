//! Functions over small cuts, each carried from the fan-ins of a node to the node.

ghost use Rattle.std.specs.Prelude.{◌≡◌, ℕ, ◌+◌, ◌<◌, ◌≤◌, Bool, List, false, true, IfOk, IfSome, length, map};
ghost use Rattle.std.specs.List.{remove};
ghost use Rattle.syn_rows.specs.declared.Row.{Row};
ghost use Rattle.syn_rows.specs.declared.Row.TheVariants.{And};
ghost use Rattle.syn_rows.specs.Rows.{InOrder, node_of, row_at};
ghost use Rattle.syn_rows.specs.Nodes.{has_node};
ghost use Rattle.syn_truth.specs.Truth.{AtEach, value_of};
ghost use Rattle.syn_truth.specs.Words.{value_in};
ghost use Rattle.syn_cones.specs.CutTruth.{IsCutFunction, IsFloor, IsMade, IsPutTogether};
ghost use Rattle.syn_cones.specs.Cones.{IsCut, IsTruthOver};
ghost use Rattle.syn_cones.specs.Words.{IsWordOver};

use crate::cones::{function, place_of};
use crate::words::{lit_word, table_of, variable};
use std::alloc::{AllocError, Global};
use syn_rows::{Lit, Row};
use syn_truth::Truth;

// How many rows below a node are looked at for the least node of its cone.
const FLOOR_DEPTH: u8 = 8;

/// The function of a node over a cut of at most four leaves, with a number below which no node of the cone lies that
/// isn't a leaf. Over a larger cut that has no leaf from the floor up to the node but those of this one, the function
/// is the same.
#[derive(Clone, Copy, Debug, PartialEq, Eq)]
pub struct CutFunction {
    /// Bit m is the value where the leaves have the values of minterm m.
    pub word: u16,
    /// No node that is led to from the node, but the leaves, is below this one.
    pub min_inner: u32,
}

// The first 16 bits of a word.
#[inline]
fn short(word: u64) -> u16
    ensures { (xs : List Bool) → length xs ≤ 4 → value_in result xs ≡ value_in word xs }
{
    (word & 0xffff) as u16
}

// The word that has the values of a table of at most four variables.
#[inline]
fn word_of_table(table: Truth) -> u16
    requires { table.vars ≤ 4 }
    ensures { AtEach table.vars (λ xs. value_in result xs ≡ value_of table xs) }
{
    (table.low & 0xffff) as u16
}

// A word of three variables as one of four: variable `i` is a new one, on which it doesn't depend.
#[inline]
fn with_gap(word: u16, i: usize) -> u16
    requires { i < 4 }
    ensures { (xs : List Bool) → i < length xs → length xs ≤ 4 → value_in result xs ≡ value_in word (remove xs i) }
{
    let byte = word & 0x00ff;
    if i == 3 {
        return byte | byte << 8;
    }
    let nibbles = (byte | byte << 4) & 0x0f0f;
    if i == 2 {
        return nibbles | nibbles << 4;
    }
    let pairs = (nibbles | nibbles << 2) & 0x3333;
    if i == 1 {
        return pairs | pairs << 2;
    }
    let bits = (pairs | pairs << 1) & 0x5555;
    bits | bits << 1
}

// A word over the first of some leaves, and then those of a cut from a place on.
#[derive(Clone, Copy, Debug)]
struct Partial {
    word: u16,
    found: usize,
}

impl CutFunction {
    // With the leaf at a place of others: it is the next of the cut, or a new one that doesn't lie in the cone and for
    // which there is room.
    #[inline]
    fn with_leaf(
        self,
        part: Partial,
        root: u32,
        leaves: &[u32],
        more: &[u32],
        i: usize,
    ) -> Option<Partial>
        requires few { length more.now ≤ 4 }
        requires place { i < length more.now }
        requires part { IsPutTogether self root leaves.now more.now i part }
        ensures { IfSome result (IsPutTogether self root leaves.now more.now (i + 1)) }
    {
        let leaf = more[i];
        if part.found < leaves.len() && leaves[part.found] == leaf {
            return Some(Partial {
                word: part.word,
                found: part.found + 1,
            });
        }
        if leaves.len() - part.found >= more.len() - i {
            return None;
        }
        if leaf < self.min_inner || root < leaf {
            Some(Partial {
                word: with_gap(part.word, i),
                found: part.found,
            })
        } else {
            None
        }
    }

    // The word over more leaves: none where a leaf isn't among them in order, or one of the others may lie in the cone.
    fn word_over(self, root: u32, leaves: &[u32], more: &[u32]) -> Option<u16>
        requires few { length more.now ≤ 4 }
        ensures { IfSome result (IsMade self root leaves.now more.now) }
    {
        if leaves.len() > more.len() {
            return None;
        }
        let mut part = Partial {
            word: self.word,
            found: 0,
        };
        for i in 0..more.len() {
            part = self.with_leaf(part, root, leaves, more, i)?;
        }
        Some(part.word)
    }

    /// The function of a node over more leaves than those of its cut; none where one of these isn't among them, in the
    /// same order, or one of the others may lie between the node and the cut.
    #[inline]
    pub fn over_more(self, root: u32, leaves: &[u32], more: &[u32]) -> Option<CutFunction>
        requires few { length more.now ≤ 4 }
        ensures { IfSome result (λ f. (rows : List Row) → InOrder rows → IsCutFunction rows leaves.now root self → IsCutFunction rows more.now root f) }
    {
        let word = self.word_over(root, leaves, more)?;
        Some(CutFunction {
            word,
            min_inner: self.min_inner,
        })
    }

    /// The function of a node that is a leaf; none where it isn't.
    #[inline]
    pub fn of_leaf(leaves: &[u32], node: u32) -> Option<CutFunction>
        requires few { length leaves.now ≤ 4 }
        ensures { IfSome result (λ f. (rows : List Row) → IsCutFunction rows leaves.now node f) }
    {
        let i = place_of(leaves, node)?;
        Some(CutFunction {
            word: short(variable(i)),
            min_inner: u32::MAX,
        })
    }

    /// The function of an AND of two literals that isn't a leaf, from those of their nodes over the same leaves.
    #[inline]
    pub fn of_and(
        node: u32,
        first: Lit,
        left: CutFunction,
        second: Lit,
        right: CutFunction,
    ) -> CutFunction
        ensures { (rows : List Row) (leaves : List ℕ) → length leaves ≤ 4 → InOrder rows → row_at rows node ≡ And first second → has_node leaves node ≡ false → IsCutFunction rows leaves (node_of first) left → IsCutFunction rows leaves (node_of second) right → IsCutFunction rows leaves node result }
    {
        let word = lit_word(u64::from(left.word), first) & lit_word(u64::from(right.word), second);
        CutFunction {
            word: short(word),
            min_inner: node.min(left.min_inner).min(right.min_inner),
        }
    }

    /// The function of a node over a cut of it, by the rows between. The only error is want of memory.
    pub fn of_cone(
        alloc: Global,
        rows: &[Row],
        root: u32,
        leaves: &[u32],
    ) -> Result<CutFunction, AllocError>
        requires few { length leaves.now ≤ 4 }
        requires order { InOrder rows.now }
        requires root { root < length rows.now }
        requires cut { IsCut rows.now leaves.now root }
        ensures { IfOk result (IsCutFunction rows.now leaves.now root) }
    {
        let table = function(alloc, rows, root, leaves)?;
        Ok(CutFunction {
            word: word_of_table(table),
            min_inner: floor_of(rows, leaves, root, FLOOR_DEPTH),
        })
    }

    /// The table of the function: variable i is leaf i.
    #[inline]
    pub fn table(self, leaves: &[u32]) -> Truth
        requires few { length leaves.now ≤ 4 }
        ensures vars { result.vars ≡ length leaves.now }
        ensures truth { (rows : List Row) (node : ℕ) → IsCutFunction rows leaves.now node self → IsTruthOver rows leaves.now node result }
    {
        table_of(leaves.len() as u8, u64::from(self.word))
    }
}

// A number below which no node of a cone is, but leaves: the least node, or 0 where the cone is deeper than so many rows.
fn floor_of(rows: &[Row], leaves: &[u32], node: u32, depth: u8) -> u32
    requires order { InOrder rows.now }
    requires node { node < length rows.now }
    ensures { IsFloor rows.now leaves.now node result }
{
    if let Some(_) = place_of(leaves, node) {
        return u32::MAX;
    }
    if depth == 0 {
        return 0;
    }
    let row = rows[node as usize];
    match row {
        Row::And(a, b) => {
            let first = floor_of(rows, leaves, a.node(), depth - 1);
            if first == 0 {
                return 0;
            }
            let second = floor_of(rows, leaves, b.node(), depth - 1);
            node.min(first).min(second)
        }
        _ => 0,
    }
}
