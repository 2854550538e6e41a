//! A frame over its own names alone.

ghost use Rattle.std.specs.Prelude.{◌≡◌, ◌≤◌, ◌<◌, ◌++◌, IfOk, OnOk, None, length, map, replicate, true};
ghost use Rattle.std.specs.List.{list_all};
ghost use Rattle.syn_netlist.specs.Choosing.{ArePlaces};
ghost use Rattle.syn_netlist.specs.Frames.{frame_in};
ghost use Rattle.syn_netlist.specs.Kept.{control_number, latch_in, latch_numbers, latches_below};
ghost use Rattle.syn_netlist.specs.Lists.{observed, own_names, sources};
ghost use Rattle.syn_netlist.specs.Numbers.{all_below, kind_at, with_word, word_at, words_at};
ghost use Rattle.syn_netlist.specs.Words.{firsts, has_word};

use crate::frames::Frame;
use crate::name_numbers::Names;
use crate::words::Word;
use crate::{Latch, LatchKind};
use std::alloc::{AllocError, Global};
use syn_lists::Items;

// Names chosen among others, and for each of the others its place among them, if it is one.
#[derive(Drop)]
struct Chosen<'a> {
    all: &'a Names,
    names: Names,
    places: Vec<Option<u32>>,
    ghost placed: { ArePlaces all.now names places.items },
}

// So many names without a place.
fn no_places(alloc: Global, count: u32) -> Result<Vec<Option<u32>>, AllocError>
    ensures { IfOk result (λ v. v.items ≡ replicate count None) }
{
    vec![in alloc; None; count as usize]
}

// Puts a name behind those that are chosen, where it isn't among them.
fn choose(
    alloc: Global,
    all: &Names,
    number: u32,
    names: &mut Names,
    places: &mut [Option<u32>],
) -> Result<(), AllocError>
    requires below { number < length all.now }
    requires placed { ArePlaces all.now names.old places.old }
    ensures names { OnOk result (names.new ≡ with_word names.old (word_at all.now number)) }
    ensures placed { OnOk result (ArePlaces all.now names.new places.new) }
{
    let _count = all.len();
    match places[number as usize] {
        Some(_) => Ok(()),
        None => {
            let place = names.len();
            names.push(alloc, all.word(number))?;
            places[number as usize] = Some(place);
            Ok(())
        }
    }
}

// The names of these numbers, each once.
fn choose_all<'a>(alloc: Global, all: &'a Names, numbers: &[u32]) -> Result<Chosen<'a>, AllocError>
    requires { all_below (length all.now) numbers.now ≡ true }
    ensures all { IfOk result (λ c. c.all.now ≡ all.now) }
    ensures names { IfOk result (λ c. c.names ≡ firsts (words_at all.now numbers.now)) }
{
    let mut names = Names::new(alloc);
    let mut places = no_places(alloc, all.len())?;
    let slots = places.as_mut_slice();
    for number in numbers {
        choose(alloc, all, *number, &mut names, slots)?;
    }
    Ok(Chosen { all, names, places })
}

impl<'a> Chosen<'a> {
    // The number that a chosen name has now.
    fn number(&self, number: u32) -> u32
        requires below { number < length self.now.all.now }
        requires there { has_word self.now.names (word_at self.now.all.now number) ≡ true }
        ensures below { result < length self.now.names }
        ensures word { word_at self.now.names result ≡ word_at self.now.all.now number }
    {
        let places = self.places.as_slice();
        match places[number as usize] {
            Some(place) => place,
            None => unreachable!(),
        }
    }

    // The numbers that chosen names have now.
    fn numbers(&self, alloc: Global, numbers: &[u32]) -> Result<Items<u32>, AllocError>
        requires below { all_below (length self.now.all.now) numbers.now ≡ true }
        requires there { list_all (has_word self.now.names) (words_at self.now.all.now numbers.now) ≡ true }
        ensures below { IfOk result (λ v. all_below (length self.now.names) v ≡ true) }
        ensures words { IfOk result (λ v. words_at self.now.names v ≡ words_at self.now.all.now numbers.now) }
    {
        let mut found = Vec::new(alloc);
        for number in numbers {
            found.push(self.number(*number))?;
        }
        Ok(Items::of(found))
    }

    // A latch's kind with the number that its control has now.
    fn kind(&self, kind: Option<(LatchKind, Option<u32>)>) -> Option<(LatchKind, Option<u32>)>
        requires below { all_below (length self.now.all.now) (control_number kind) ≡ true }
        requires there { list_all (has_word self.now.names) (words_at self.now.all.now (control_number kind)) ≡ true }
        ensures below { all_below (length self.now.names) (control_number result) ≡ true }
        ensures words { kind_at self.now.names result ≡ kind_at self.now.all.now kind }
    {
        match kind {
            Some((kind, Some(control))) => Some((kind, Some(self.number(control)))),
            Some((kind, None)) => Some((kind, None)),
            None => None,
        }
    }

    // A latch with the numbers that its names have now.
    fn latch(&self, latch: Latch) -> Latch
        requires below { all_below (length self.now.all.now) (latch_numbers latch) ≡ true }
        requires there { list_all (has_word self.now.names) (words_at self.now.all.now (latch_numbers latch)) ≡ true }
        ensures below { all_below (length self.now.names) (latch_numbers result) ≡ true }
        ensures words { latch_in self.now.names result ≡ latch_in self.now.all.now latch }
    {
        Latch {
            feed: self.number(latch.feed),
            output: self.number(latch.output),
            kind: self.kind(latch.kind),
            init: latch.init,
        }
    }

    // The latches with the numbers that their names have now.
    fn latches(&self, alloc: Global, latches: &[Latch]) -> Result<Items<Latch>, AllocError>
        requires below { latches_below (length self.now.all.now) latches.now ≡ true }
        requires there { list_all (λ latch. list_all (has_word self.now.names) (words_at self.now.all.now (latch_numbers latch))) latches.now ≡ true }
        ensures below { IfOk result (λ v. latches_below (length self.now.names) v ≡ true) }
        ensures words { IfOk result (λ v. map (latch_in self.now.names) v ≡ map (latch_in self.now.all.now) latches.now) }
    {
        let mut found = Vec::new(alloc);
        for latch in latches {
            found.push(self.latch(*latch))?;
        }
        Ok(Items::of(found))
    }

    // The frame over the chosen names, which are its own.
    fn frame(self, alloc: Global, frame: &Frame) -> Result<Frame, AllocError>
        requires all { self.all.now ≡ frame.now.names }
        requires own { self.names ≡ own_names (frame_in frame.now) }
        ensures same { IfOk result (λ f. frame_in f ≡ frame_in frame.now) }
        ensures names { IfOk result (λ f. f.names ≡ self.entry.names) }
    {
        let model = Word::of(frame.model.as_slice().to_vec(alloc)?);
        let inputs = self.numbers(alloc, frame.inputs.as_slice())?;
        let clocks = self.numbers(alloc, frame.clocks.as_slice())?;
        let outputs = self.numbers(alloc, frame.outputs.as_slice())?;
        let latches = self.latches(alloc, frame.latches.as_slice())?;
        let Chosen {
            all: _,
            names,
            places: _,
        } = self;
        Ok(Frame {
            names,
            model,
            inputs,
            clocks,
            outputs,
            latches,
        })
    }
}

impl Frame {
    ghost use Rattle.std.specs.Prelude.{◌≡◌, ◌≤◌, ◌++◌, IfOk, length, true};
    ghost use Rattle.syn_netlist.specs.Frames.{frame_in};
    ghost use Rattle.syn_netlist.specs.Lists.{observed, own_names, sources};
    ghost use Rattle.syn_netlist.specs.Numbers.{all_below, words_at};

    // The numbers of the sources, then of the observed signals.
    fn own_numbers(&self, alloc: Global) -> Result<Vec<u32>, AllocError>
        ensures words { IfOk result (λ v. words_at self.now.names v.items ≡ sources (frame_in self.now) ++ observed (frame_in self.now)) }
        ensures below { IfOk result (λ v. all_below (length self.now.names) v.items ≡ true) }
    {
        let mut numbers = self.sources(alloc)?;
        let observed = self.observed(alloc)?;
        numbers.extend_from_slice(&observed)?;
        Ok(numbers)
    }

    /// The same frame over its own names alone: those of its sources and observed signals, each once. The only error is
    /// want of memory.
    pub fn over_own_names(&self, alloc: Global) -> Result<Frame, AllocError>
        ensures same { IfOk result (λ f. frame_in f ≡ frame_in self.now) }
        ensures names { IfOk result (λ f. f.names ≡ own_names (frame_in self.now)) }
        ensures fewer { IfOk result (λ f. length f.names ≤ length self.now.names) }
    {
        let numbers = self.own_numbers(alloc)?;
        let own = choose_all(alloc, &self.names, &numbers)?;
        own.frame(alloc, self)
    }
}
