//! Where words stand in lists of words.

ghost use Rattle.std.specs.Prelude.{◌≡◌, ℕ, ◌<◌, [], IfOk, IfSome, None, length, option_map, replicate, true};
ghost use Rattle.std.specs.List.{list_all};
ghost use Rattle.syn_netlist.specs.Choosing.{IsPlace};
ghost use Rattle.syn_netlist.specs.Numbers.{all_below, word_at, words_at};
ghost use Rattle.syn_netlist.specs.Words.{distinct, has_word};
ghost use Rattle.syn_network.specs.GraphShape.{place};
ghost use Rattle.syn_compare.specs.Matching.{lacked};
ghost use Rattle.syn_compare.specs.Places.{HavePlaces, places_in};

use std::alloc::{AllocError, Global};
use syn_netlist::Names;

/// Words by their numbers among names, and for each name its place among the words, if it is one of them.
#[derive(Drop)]
pub(crate) struct Index<'a> {
    pub names: &'a Names,
    pub numbers: &'a [u32],
    places: Vec<Option<usize>>,
    pub ghost below: { all_below (length names.now) numbers.now ≡ true },
    pub ghost placed: { HavePlaces names.now (words_at names.now numbers.now) places.items },
}

// So many names without a place.
fn no_places(alloc: Global, count: u32) -> Result<Vec<Option<usize>>, AllocError>
    ensures { IfOk result (λ v. v.items ≡ replicate count None) }
{
    vec![in alloc; None; count as usize]
}

// Puts the places of words among words, where no name has one.
fn fill(names: &Names, numbers: &[u32], places: &mut [Option<usize>])
    requires below { all_below (length names.now) numbers.now ≡ true }
    requires none { HavePlaces names.now [] places.old }
    ensures { HavePlaces names.now (words_at names.now numbers.now) places.new }
{
    let _count = names.len();
    for (place, number) in numbers.iter().enumerate() {
        places[*number as usize] = Some(place);
    }
}

impl<'a> Index<'a> {
    /// The index of the words of these numbers. The only error of this call and of those below is want of memory.
    pub(crate) fn of(
        alloc: Global,
        names: &'a Names,
        numbers: &'a [u32],
    ) -> Result<Index<'a>, AllocError>
        requires { all_below (length names.now) numbers.now ≡ true }
        ensures names { IfOk result (λ i. i.names.now ≡ names.now) }
        ensures numbers { IfOk result (λ i. i.numbers.now ≡ numbers.now) }
    {
        let mut places = no_places(alloc, names.len())?;
        fill(names, numbers, places.as_mut_slice());
        Ok(Index {
            names,
            numbers,
            places,
        })
    }

    // The place of a word, if it is one of them.
    fn place(&self, word: &[u8]) -> Option<usize>
        ensures { IsPlace (words_at self.now.names.now self.now.numbers.now) word.now result }
    {
        match self.names.find(word) {
            Some(number) => {
                let places = self.places.as_slice();
                places[number as usize]
            }
            None => None,
        }
    }

    /// The place of a word that is one of them.
    pub(crate) fn place_of(&self, word: &[u8]) -> usize
        requires once { distinct (words_at self.now.names.now self.now.numbers.now) ≡ true }
        requires there { has_word (words_at self.now.names.now self.now.numbers.now) word.now ≡ true }
        ensures place { result ≡ place word.now (words_at self.now.names.now self.now.numbers.now) }
        ensures below { result < length self.now.numbers.now }
    {
        match self.place(word) {
            Some(place) => place,
            None => unreachable!(),
        }
    }

    /// The places of other names, which are among the words.
    pub(crate) fn places_of(
        &self,
        alloc: Global,
        names: &Names,
        numbers: &[u32],
    ) -> Result<Vec<usize>, AllocError>
        requires once { distinct (words_at self.now.names.now self.now.numbers.now) ≡ true }
        requires below { all_below (length names.now) numbers.now ≡ true }
        requires there { list_all (has_word (words_at self.now.names.now self.now.numbers.now)) (words_at names.now numbers.now) ≡ true }
        ensures { IfOk result (λ v. v.items ≡ places_in (words_at self.now.names.now self.now.numbers.now) (words_at names.now numbers.now)) }
    {
        let mut found = Vec::with_capacity(alloc, numbers.len())?;
        for number in numbers {
            found.push(self.place_of(names.word(*number)))?;
        }
        Ok(found)
    }

    /// The number of the first of other names that isn't one of the words.
    pub(crate) fn lacked(&self, names: &Names, numbers: &[u32]) -> Option<u32>
        requires below { all_below (length names.now) numbers.now ≡ true }
        ensures below { IfSome result (λ i. i < length names.now) }
        ensures first { option_map (word_at names.now) result ≡ lacked (words_at self.now.names.now self.now.numbers.now) (words_at names.now numbers.now) }
    {
        for number in numbers {
            match self.place(names.word(*number)) {
                Some(_) => {}
                None => return Some(*number),
            }
        }
        None
    }
}
