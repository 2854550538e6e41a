//! The function of a node over a cut of at most six leaves, in words of 64 bits.

ghost use Rattle.std.specs.Prelude.{◌≡◌, ℕ, ◌-◌, ◌^◌, ◌<◌, ◌≤◌, Bool, List, false, not, IfSome, length, slice_index_or};
ghost use Rattle.syn_rows.specs.Rows.{InOrder, node_of};
ghost use Rattle.syn_rows.specs.Values.{lit_value};
ghost use Rattle.syn_truth.specs.Truth.{AtEach, value_of};
ghost use Rattle.syn_truth.specs.Words.{value_in};
ghost use Rattle.syn_cones.specs.Cones.{IsCut, IsTruthOver};
ghost use Rattle.syn_cones.specs.Words.{IsWordOver};

use crate::cones::place_of;
use syn_rows::{Lit, Row};
use syn_truth::Truth;

// The most leaves whose choices of values a word has bits for.
const WORD_LEAVES: usize = 6;

// How many rows lie at most one below the other between the root and a leaf.
const MAX_DEPTH: u8 = 8;

// The minterms of six variables at which a variable is true, as the bits of a word, one word for each variable.
static VARIABLES: [u64; 6] = [
    0xaaaa_aaaa_aaaa_aaaa,
    0xcccc_cccc_cccc_cccc,
    0xf0f0_f0f0_f0f0_f0f0,
    0xff00_ff00_ff00_ff00,
    0xffff_0000_ffff_0000,
    0xffff_ffff_0000_0000,
];

// The word of a leaf: that of a variable.
#[inline]
pub(crate) fn variable(i: usize) -> u64
    requires { i < 6 }
    ensures { (xs : List Bool) → i < length xs → length xs ≤ 6 → value_in result xs ≡ slice_index_or xs i false }
{
    VARIABLES[i]
}

// The word that has the opposite of each value.
#[inline]
fn complement(word: u64) -> u64
    ensures { (xs : List Bool) → length xs ≤ 6 → value_in result xs ≡ not (value_in word xs) }
{
    !word
}

// The word of a literal, from that of its node.
#[inline]
pub(crate) fn lit_word(word: u64, lit: Lit) -> u64
    ensures { (v : ℕ → Bool) (xs : List Bool) → length xs ≤ 6 → v (node_of lit) ≡ value_in word xs → lit_value v lit ≡ value_in result xs }
{
    if lit.complemented() {
        complement(word)
    } else {
        word
    }
}

// The function of a node over a cut of it; none where some leaf lies more than so many rows below it, or an alias lies
// between.
fn word_of(rows: &[Row], leaves: &[u32], node: u32, depth: u8) -> Option<u64>
    requires few { length leaves.now ≤ 6 }
    requires order { InOrder rows.now }
    requires node { node < length rows.now }
    requires cut { IsCut rows.now leaves.now node }
    ensures { IfSome result (IsWordOver rows.now leaves.now node) }
{
    if let Some(i) = place_of(leaves, node) {
        return Some(variable(i));
    }
    if node == 0 {
        return Some(0);
    }
    if depth == 0 {
        return None;
    }
    let row = rows[node as usize];
    match row {
        Row::And(a, b) => {
            let first = word_of(rows, leaves, a.node(), depth - 1)?;
            let second = word_of(rows, leaves, b.node(), depth - 1)?;
            Some(lit_word(first, a) & lit_word(second, b))
        }
        _ => None,
    }
}

// A word whose bits below `2 ^ vars` are 1.
#[inline]
fn ones(vars: u8) -> u64
    requires { vars ≤ 6 }
    ensures { result ≡ 2 ^ (2 ^ vars) - 1 }
{
    u64::MAX >> (64 - (1u32 << vars))
}

// The table of at most six variables that has the values of a word.
#[inline]
pub(crate) fn table_of(vars: u8, word: u64) -> Truth
    requires { vars ≤ 6 }
    ensures vars { result.vars ≡ vars }
    ensures values { AtEach vars (λ xs. value_of result xs ≡ value_in word xs) }
{
    Truth {
        vars,
        low: u128::from(word & ones(vars)),
        high: 0,
    }
}

/// The function of a node over a cut of it of at most six leaves; none where there are more leaves, some leaf lies
/// deep below the node, or an alias lies between. It takes no memory, and looks at a row once for each path to it.
pub(crate) fn small_table(rows: &[Row], root: u32, leaves: &[u32]) -> Option<Truth>
    requires order { InOrder rows.now }
    requires root { root < length rows.now }
    requires cut { IsCut rows.now leaves.now root }
    ensures { IfSome result (IsTruthOver rows.now leaves.now root) }
{
    if leaves.len() > WORD_LEAVES {
        return None;
    }
    let word = word_of(rows, leaves, root, MAX_DEPTH)?;
    Some(table_of(leaves.len() as u8, word))
}
