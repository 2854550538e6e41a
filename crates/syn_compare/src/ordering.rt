//! A network's graph in the order of another frame.

ghost use Rattle.std.specs.Prelude.{◌≡◌, ◌<◌, ◌^◌, ◌++◌, length, map, slice_index_or, true, IfOk};
ghost use Rattle.std.specs.List.{list_all};
ghost use Rattle.syn_hashed.specs.Hashed.{lit_at};
ghost use Rattle.syn_netlist.specs.declared.Latch.{Latch};
ghost use Rattle.syn_netlist.specs.Frames.{frame_in};
ghost use Rattle.syn_netlist.specs.Lists.{observed, sources};
ghost use Rattle.syn_netlist.specs.Numbers.{all_below, word_at, words_at};
ghost use Rattle.syn_netlist.specs.Words.{has_word};
ghost use Rattle.syn_network.specs.Written.{network_of};
ghost use Rattle.syn_compare.specs.Comparing.{compared, feed_of, signals};
ghost use Rattle.syn_compare.specs.Matching.{latch_names};
ghost use Rattle.syn_compare.specs.Ordering.{IsOrderedBy, Suits, lit_of};
ghost use Rattle.syn_compare.specs.Places.{places_in};

use crate::matching::latch_numbers;
use crate::places::Index;
use crate::renaming::renamed;
use std::alloc::{AllocError, Global};
use syn_graph::Graph;
use syn_netlist::{Frame, Latch, Names};
use syn_network::Network;
use syn_rows::Lit;

// The number of a word that is a name.
fn number_of(names: &Names, word: &[u8]) -> u32
    requires { has_word names.now word.now ≡ true }
    ensures below { result < length names.now }
    ensures word { word_at names.now result ≡ word.now }
{
    match names.find(word) {
        Some(number) => number,
        None => unreachable!(),
    }
}

// Where among another frame's sources a frame's are.
fn source_places(alloc: Global, order: &Frame, frame: &Frame) -> Result<Vec<usize>, AllocError>
    requires { list_all (has_word (sources (frame_in order.now))) (sources (frame_in frame.now)) ≡ true }
    ensures { IfOk result (λ v. v.items ≡ places_in (sources (frame_in order.now)) (sources (frame_in frame.now))) }
{
    let numbers = order.sources(alloc)?;
    let index = Index::of(alloc, &order.names, numbers.as_slice())?;
    let own = frame.sources(alloc)?;
    index.places_of(alloc, &frame.names, own.as_slice())
}

// A frame's numbers of another one's outputs.
fn output_numbers(alloc: Global, order: &Frame, frame: &Frame) -> Result<Vec<u32>, AllocError>
    requires { list_all (has_word (frame_in frame.now).outputs) (frame_in order.now).outputs ≡ true }
    ensures words { IfOk result (λ v. words_at frame.now.names v.items ≡ (frame_in order.now).outputs) }
    ensures below { IfOk result (λ v. all_below (length frame.now.names) v.items ≡ true) }
{
    let mut numbers = Vec::new(alloc);
    for output in order.outputs.as_slice() {
        let word = order.names.word(*output);
        numbers.push(number_of(&frame.names, word))?;
    }
    Ok(numbers)
}

// What the latch at a place loads.
fn feed_at(latches: &[Latch], place: usize) -> u32
    requires { place < length latches.now }
    ensures { (latch : Latch) → result ≡ (slice_index_or latches.now place latch).feed }
{
    latches[place].feed
}

// A frame's number of what its latch of a name loads.
fn feed_number(frame: &Frame, index: &Index, word: &[u8]) -> u32
    requires index { words_at index.now.names.now index.now.numbers.now ≡ latch_names (frame_in frame.now) }
    requires there { has_word (latch_names (frame_in frame.now)) word.now ≡ true }
    ensures below { result < length frame.now.names }
    ensures word { word_at frame.now.names result ≡ feed_of (frame_in frame.now).latches word.now }
{
    let place = index.place_of(word);
    feed_at(frame.latches.as_slice(), place)
}

// A frame's numbers of what its latches of another one's names load.
fn feed_numbers(alloc: Global, order: &Frame, frame: &Frame) -> Result<Vec<u32>, AllocError>
    requires { list_all (has_word (latch_names (frame_in frame.now))) (latch_names (frame_in order.now)) ≡ true }
    ensures words { IfOk result (λ v. words_at frame.now.names v.items ≡ map (feed_of (frame_in frame.now).latches) (latch_names (frame_in order.now))) }
    ensures below { IfOk result (λ v. all_below (length frame.now.names) v.items ≡ true) }
{
    let own = latch_numbers(alloc, frame)?;
    let index = Index::of(alloc, &frame.names, own.as_slice())?;
    let named = latch_numbers(alloc, order)?;
    let named = named.as_slice();
    let mut numbers = Vec::new(alloc);
    for number in named {
        let word = order.names.word(*number);
        numbers.push(feed_number(frame, &index, word))?;
    }
    Ok(numbers)
}

// A frame's numbers of its signals by the names that another one compares.
fn signal_numbers(alloc: Global, order: &Frame, frame: &Frame) -> Result<Vec<u32>, AllocError>
    requires { Suits (frame_in order.now) (frame_in frame.now) }
    ensures words { IfOk result (λ v. words_at frame.now.names v.items ≡ signals (frame_in order.now) (frame_in frame.now)) }
    ensures below { IfOk result (λ v. all_below (length frame.now.names) v.items ≡ true) }
{
    let mut numbers = output_numbers(alloc, order, frame)?;
    let feeds = feed_numbers(alloc, order, frame)?;
    numbers.extend_from_slice(feeds.as_slice())?;
    Ok(numbers)
}

// The literal at a place.
fn literal_at(lits: &[Lit], place: usize) -> Lit
    requires { place < length lits.now }
    ensures { result ≡ lit_at lits.now place }
{
    lits[place]
}

// The literal of an observed signal.
fn literal(network: &Network, index: &Index, word: &[u8]) -> Lit
    requires index { words_at index.now.names.now index.now.numbers.now ≡ observed (frame_in network.now.frame) }
    requires there { has_word (observed (frame_in network.now.frame)) word.now ≡ true }
    ensures { result ≡ lit_of (observed (frame_in network.now.frame)) network.now.body.observed word.now }
{
    let place = index.place_of(word);
    literal_at(network.body.observed.as_slice(), place)
}

// The literals of observed signals.
fn literals(alloc: Global, network: &Network, numbers: &[u32]) -> Result<Vec<Lit>, AllocError>
    requires below { all_below (length network.now.frame.names) numbers.now ≡ true }
    requires there { list_all (has_word (observed (frame_in network.now.frame))) (words_at network.now.frame.names numbers.now) ≡ true }
    ensures { IfOk result (λ v. v.items ≡ map (lit_of (observed (frame_in network.now.frame)) network.now.body.observed) (words_at network.now.frame.names numbers.now)) }
{
    let own = network.frame.observed(alloc)?;
    let index = Index::of(alloc, &network.frame.names, own.as_slice())?;
    let mut found = Vec::with_capacity(alloc, numbers.len())?;
    for number in numbers {
        let word = network.frame.names.word(*number);
        found.push(literal(network, &index, word))?;
    }
    Ok(found)
}

/// A network's graph with the sources in the order of another frame, which observes the signals that this frame compares. The
/// only error is want of memory.
pub(crate) fn ordered(alloc: Global, order: &Frame, network: &Network) -> Result<Graph, AllocError>
    requires suits { Suits (frame_in order.now) (frame_in network.now.frame) }
    requires few { length (compared (frame_in order.now)) < 2 ^ 31 }
    ensures { IfOk result (IsOrderedBy (frame_in order.now) (network_of network.now)) }
{
    let places = source_places(alloc, order, &network.frame)?;
    let numbers = signal_numbers(alloc, order, &network.frame)?;
    let lits = literals(alloc, network, numbers.as_slice())?;
    renamed(alloc, &network.body, places.as_slice(), lits.as_slice())
}
