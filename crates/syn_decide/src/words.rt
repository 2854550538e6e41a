//! The function of a root over leaves, by rows that were read one by one: they have no order, and may lead in a circle.
//!
//! It is a word of 128 bits: bit m is the value where the first seven leaves have the values of minterm m, and the eighth has
//! a chosen one.

ghost use Rattle.std.specs.Prelude.{◌≡◌, ◌<◌, ◌≤◌, ◌+◌, ℕ, Bool, length, false, true, IfNone, IfSome, None, Some, slice_index_or, take, All};
ghost use Rattle.std.specs.List.{sum_by};
ghost use Rattle.syn_rows.specs.Nodes.{has_node};
ghost use Rattle.syn_rows.specs.Rows.{node_of};
ghost use Rattle.syn_truth.specs.Words.{value_in};
ghost use Rattle.syn_core_laws.specs.SameValue.{both, turned_by};
ghost use Rattle.syn_decide.specs.declared.decisions.TheConstants.{MAX_INNER};
ghost use Rattle.syn_decide.specs.Functions.{leaf_value};
ghost use Rattle.syn_decide.specs.Words as spec;

use crate::{Cone, MAX_INNER};
use arrayvec::ArrayVec;
use syn_rows::{Lit, Row};
use syn_truth::{MAX_VARS, Truth};

/// Room for the words of rows, one or none for each. It is kept, since it costs more to make than to fill.
pub type Words = ArrayVec<Option<u128>, MAX_INNER>;

// The word of the leaf at a place.
#[inline(always)]
fn leaf_word(place: usize, last: bool) -> u128
    requires { place < 8 }
    ensures { spec.AtChoices last (λ xs. value_in result (take 7 xs) ≡ slice_index_or xs place false) }
{
    let table = Truth::var(MAX_VARS, place as u8);
    if last { table.high } else { table.low }
}

// The AND of two words, if both are there.
#[inline(always)]
fn both(first: Option<u128>, second: Option<u128>) -> Option<u128>
    ensures { (last : Bool) → spec.AtChoices last (λ xs. spec.word_value xs result ≡ both (spec.word_value xs first) (spec.word_value xs second)) }
{
    match first {
        None => None,
        Some(a) => match second {
            None => None,
            Some(b) => Some(a & b),
        },
    }
}

// No word for any of so many rows.
fn no_words(count: usize, words: &mut Words)
    requires { count ≤ MAX_INNER }
    ensures count { length words.new.items ≡ count }
    ensures none { All (λ w. w ≡ None) words.new.items }
{
    words.clear();
    for _row in 0..count {
        words.push(None);
    }
}

impl Cone<'_> {
    // The word of a leaf.
    #[inline(always)]
    fn word_of_leaf(&self, node: u32) -> Option<u128>
        ensures none { IfNone result (has_node self.now.leaves.now node ≡ false) }
        ensures leaf { IfSome result (λ w. has_node self.now.leaves.now node ≡ true) }
        ensures values { IfSome result (λ w. spec.AtChoices self.now.last (λ xs. value_in w (take 7 xs) ≡ leaf_value self.now.leaves.now xs node)) }
    {
        for (place, leaf) in self.leaves.iter().enumerate() {
            if *leaf == node {
                return Some(leaf_word(place, self.last));
            }
        }
        None
    }

    // The word of the first of the rows that is the node's, if there is one.
    #[inline(always)]
    fn word_of_inner(&self, words: &[Option<u128>], node: u32) -> Option<u128>
        requires { length words.now ≡ length self.now.inner.now }
        ensures { result ≡ spec.word_for self.now.inner.now words.now node }
    {
        for (place, r) in self.inner.iter().enumerate() {
            if r.node == node {
                return words[place];
            }
        }
        None
    }

    // The word of a node.
    #[inline(always)]
    fn node_word(&self, words: &[Option<u128>], node: u32) -> Option<u128>
        requires { length words.now ≡ length self.now.inner.now }
        ensures { spec.AtChoices self.now.last (λ xs. spec.word_value xs result ≡ spec.node_value self.now words.now xs node) }
    {
        if let Some(word) = self.word_of_leaf(node) {
            return Some(word);
        }
        if node == 0 {
            return Some(0);
        }
        self.word_of_inner(words, node)
    }

    // The word of a literal.
    #[inline(always)]
    fn literal_word(&self, words: &[Option<u128>], l: Lit) -> Option<u128>
        requires { length words.now ≡ length self.now.inner.now }
        ensures { spec.AtChoices self.now.last (λ xs. spec.word_value xs result ≡ turned_by l (spec.node_value self.now words.now xs (node_of l))) }
    {
        match self.node_word(words, l.node()) {
            Some(word) => Some(if l.complemented() { !word } else { word }),
            None => None,
        }
    }

    // The word of a row.
    #[inline(always)]
    fn row_word(&self, words: &[Option<u128>], row: Row) -> Option<u128>
        requires { length words.now ≡ length self.now.inner.now }
        ensures { spec.IsRowWord self.now words.now row result }
    {
        match row {
            Row::Free | Row::Source => None,
            Row::And(a, b) => both(self.literal_word(words, a), self.literal_word(words, b)),
            Row::Alias(a) => self.literal_word(words, a),
        }
    }

    // Makes the word of one row where its nodes have words. How many were made: one or none.
    #[inline(always)]
    fn make_word(&self, words: &mut [Option<u128>], place: usize) -> usize
        requires inner { place < length self.now.inner.now }
        requires count { length words.old ≡ length self.now.inner.now }
        ensures count { length words.new ≡ length self.now.inner.now }
        ensures fewer { sum_by spec.unmade words.new + result ≡ sum_by spec.unmade words.old }
        ensures made { (steps : ℕ) → spec.IsMade self.now steps words.old → spec.IsMade self.now (steps + result) words.new }
        ensures same { result ≡ 0 → words.new ≡ words.old }
        ensures still { result ≡ 0 → spec.IsStillAt self.now words.old place }
    {
        if words[place].is_some() {
            return 0;
        }
        let Some(word) = self.row_word(words, self.inner[place].row) else {
            return 0;
        };
        words[place] = Some(word);
        1
    }

    // Makes words of rows, from the last to the first: in a walk a row refers to rows behind it, for the most part. How many
    // were made.
    fn sweep(&self, words: &mut [Option<u128>]) -> usize
        requires { length words.old ≡ length self.now.inner.now }
        ensures count { length words.new ≡ length self.now.inner.now }
        ensures fewer { sum_by spec.unmade words.new + result ≡ sum_by spec.unmade words.old }
        ensures made { (steps : ℕ) → spec.IsMade self.now steps words.old → spec.IsMade self.now (steps + result) words.new }
        ensures still { result ≡ 0 → spec.IsStill self.now words.new 0 }
    {
        let mut made = 0;
        let mut place = self.inner.len();
        while place > 0 {
            place -= 1;
            made += self.make_word(words, place);
        }
        made
    }

    /// The word of the root; none where rows lead in a circle, or elsewhere than to the leaves.
    pub fn root_word(&self, root: u32, words: &mut Words) -> Option<u128>
        ensures { spec.IsNodeWord self.now (length self.now.inner.now) root result }
    {
        no_words(self.inner.len(), words);
        let words = words.as_mut_slice();
        loop {
            let made = self.sweep(words);
            if let Some(word) = self.node_word(words, root) {
                return Some(word);
            }
            if made == 0 {
                return None;
            }
        }
    }
}
