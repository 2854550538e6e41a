//! Names and their numbers.

ghost use Rattle.std.specs.Prelude.{◌≡◌, ℕ, ◌+◌, ◌^◌, ◌<◌, ◌≤◌, ◌↔◌, IfOk, IfSome, IsNone, OnErr, OnOk, List, [], ◌∷◌, ◌++◌, length, map, true, false};
ghost use Rattle.std.specs.List.{list_all};
ghost use Rattle.syn_netlist.specs.Numbers.{with_word, word_at};
ghost use Rattle.syn_netlist.specs.Texts.{texts};
ghost use Rattle.syn_netlist.specs.Words.{distinct, has_word, is_word};

use indexmap::IndexSet;
use std::alloc::{AllocError, Global};
use std::marker::Model;

/// Distinct words, numbered from 0 in order. Contracts see the list of words.
#[derive(Debug, Drop)]
pub struct Names {
    words: IndexSet<Vec<u8>>,
}

impl Model for Names {
    ghost use Rattle.std.specs.Prelude.{◌≡◌, ◌<◌, ◌^◌, true, ℕ, List, length, map};
    ghost use Rattle.std.specs.List.{list_all};
    ghost use Rattle.syn_netlist.specs.Texts.{texts};
    ghost use Rattle.syn_netlist.specs.Words.{distinct, is_word};

    ghost Value = { List (List ℕ) };

    ghost view = { λ n. texts n.words.keys };

    ghost invariant = { λ n. (distinct (texts n.words.keys) ≡ true) × (list_all is_word (texts n.words.keys) ≡ true) × (length n.words.keys < 2 ^ 32) };
}

impl Names {
    /// No names.
    pub fn new(alloc: Global) -> Names
        ensures { result ≡ [] }
    {
        Names {
            words: IndexSet::new(alloc),
        }
    }

    /// How many names there are.
    pub fn len(&self) -> u32
        ensures value { result ≡ length self.now }
        ensures distinct { distinct self.now ≡ true }
        ensures words { list_all is_word self.now ≡ true }
    {
        self.words.len() as u32
    }

    /// The word's number.
    pub fn find(&self, word: &[u8]) -> Option<u32>
        ensures some { IfSome result (λ i. (i < length self.now) × (word_at self.now i ≡ word.now)) }
        ensures none { IsNone result ↔ (has_word self.now word.now ≡ false) }
    {
        find_word(&self.words, word)
    }

    /// The word's number, the next one where it is new. Refused, the names are as before.
    pub fn add(&mut self, alloc: Global, word: &[u8]) -> Result<u32, AllocError>
        requires few { length self.old + 1 < 2 ^ 32 }
        requires word { is_word word.now ≡ true }
        ensures number { IfOk result (λ i. (i < length self.new) × (word_at self.new i ≡ word.now)) }
        ensures ok { OnOk result (self.new ≡ with_word self.old word.now) }
        ensures err { OnErr result (self.new ≡ self.old) }
    {
        match find_word(&self.words, word) {
            Some(i) => Ok(i),
            None => {
                let i = self.words.len() as u32;
                push_word(alloc, &mut self.words, word)?;
                Ok(i)
            }
        }
    }

    /// Puts a new word at the end.
    pub(crate) fn push(&mut self, alloc: Global, word: &[u8]) -> Result<(), AllocError>
        requires few { length self.old + 1 < 2 ^ 32 }
        requires word { is_word word.now ≡ true }
        requires new { has_word self.old word.now ≡ false }
        ensures { OnOk result (self.new ≡ self.old ++ word.now ∷ []) }
    {
        push_word(alloc, &mut self.words, word)
    }

    /// The word of a number.
    pub fn word(&self, i: u32) -> &[u8]
        requires { i < length self.now }
        ensures { result.now ≡ word_at self.now i }
    {
        self.words.as_slice()[i as usize].as_slice()
    }
}

// The number of a word among the words.
fn find_word(words: &IndexSet<Vec<u8>>, word: &[u8]) -> Option<u32>
    requires { length words.now.keys < 2 ^ 32 }
    ensures some { IfSome result (λ i. (i < length words.now.keys) × (word_at (texts words.now.keys) i ≡ word.now)) }
    ensures none { IsNone result ↔ (has_word (texts words.now.keys) word.now ≡ false) }
{
    match words.get_index_of(word) {
        Some(i) => Some(i as u32),
        None => None,
    }
}

// Puts a new word at the end.
#[tactic(auto, using(crate::proofs::Sets::distinct_push))]
fn push_word(alloc: Global, words: &mut IndexSet<Vec<u8>>, word: &[u8]) -> Result<(), AllocError>
    requires { has_word (texts words.old.keys) word.now ≡ false }
    ensures ok { OnOk result (texts words.new.keys ≡ texts words.old.keys ++ word.now ∷ []) }
    ensures err { OnErr result (words.new.keys ≡ words.old.keys) }
    ensures few { length words.new.keys ≤ length words.old.keys + 1 }
    ensures distinct { distinct (texts words.old.keys) ≡ true → distinct (texts words.new.keys) ≡ true }
{
    let copy = word.to_vec(alloc)?;
    words.insert(copy)?;
    Ok(())
}
