//! The symbols of a file, up to its comments.

ghost use Rattle.std.specs.Prelude.{◌≡◌, ◌⊎◌, ◌-◌, ◌<◌, ◌≤◌, ◌^◌, ◌+◌, ℕ, List, [], ◌∷◌, not, length, Some, IfErr, IfOk, IfSome, OnOk, Ok, Err};
ghost use Rattle.std.specs.List.{list_any};
ghost use Rattle.syn_aiger_files.specs.declared.fault.AigFault.TheVariants.{NoMemory};
ghost use Rattle.syn_aiger_files.specs.Headers.{HeaderFits};
ghost use Rattle.syn_aiger_files.specs.Seen.{AreGiven, holds, set_of};
ghost use Rattle.syn_aiger_files.specs.Symbols.{begins_comments, count_of, is_at, place_of, symbol_at, symbol_of, symbols_of};
ghost use Rattle.syn_aiger_files.specs.Texts.{behind, front, lines_at, number_of};

use crate::bodies::place;
use crate::cuts::{cut_at, next_line};
use crate::fault::AigFault;
use crate::files::{Header, Place, Symbol};
use crate::numbers::number_of;
use crate::sets::NumberSet;
use std::alloc::{AllocError, Global};
use syn_lists::Items;

/// The indices that have symbols, of each place.
#[derive(Drop)]
pub struct Given {
    inputs: NumberSet,
    latches: NumberSet,
    outputs: NumberSet,
    bad: NumberSet,
    constraints: NumberSet,
}

impl Given {
    fn new(alloc: Global) -> Given
        ensures { AreGiven result [] }
    {
        Given {
            inputs: NumberSet::new(alloc),
            latches: NumberSet::new(alloc),
            outputs: NumberSet::new(alloc),
            bad: NumberSet::new(alloc),
            constraints: NumberSet::new(alloc),
        }
    }

    // Whether the place's index had no symbol; it has one from now on.
    fn insert(&mut self, place: Place, index: u32) -> Result<bool, AllocError>
        requires { index + 1 < 2 ^ 32 }
        ensures { (given : List Symbol) → AreGiven self.old given → IfOk result (λ new. (new ≡ not (list_any (is_at place index) given)) × ((s : Symbol) → s.place ≡ place → s.index ≡ index → AreGiven self.new (s ∷ given))) }
    {
        match place {
            Place::Input => self.inputs.insert(index),
            Place::Latch => self.latches.insert(index),
            Place::Output => self.outputs.insert(index),
            Place::Bad => self.bad.insert(index),
            Place::Constraint => self.constraints.insert(index),
        }
    }
}

fn place_of(letter: u8) -> Option<Place>
    ensures { result ≡ place_of letter }
{
    match letter {
        b'i' => Some(Place::Input),
        b'l' => Some(Place::Latch),
        b'o' => Some(Place::Output),
        b'b' => Some(Place::Bad),
        b'c' => Some(Place::Constraint),
        _ => None,
    }
}

fn count_of(h: &Header, place: Place) -> u32
    ensures { result ≡ count_of h.now place }
{
    match place {
        Place::Input => h.inputs,
        Place::Latch => h.latches,
        Place::Output => h.outputs,
        Place::Bad => h.further.bad,
        Place::Constraint => h.further.constraints,
    }
}

fn bytes_of(alloc: Global, bytes: &[u8]) -> Result<Items<u8>, AllocError>
    ensures { IfOk result (λ items. items ≡ bytes.now) }
{
    let mut copy = Vec::new(alloc);
    copy.extend_from_slice(bytes)?;
    Ok(Items::of(copy))
}

// The symbol of a place, behind whose letter this stands.
fn symbol_at(
    alloc: Global,
    h: &Header,
    given: &mut Given,
    place: Place,
    text: &[u8],
) -> Result<Option<Symbol>, AllocError>
    requires { HeaderFits h.now }
    ensures { (ss : List Symbol) → AreGiven given.old ss → IfOk result (λ s. (s ≡ symbol_at h.now ss (Some place) (number_of (front 32 text.now)) (behind 32 text.now)) × IfSome s (λ s. AreGiven given.new (s ∷ ss))) }
{
    let (word, rest) = cut_at(text, b' ');
    let Some(name) = rest else {
        return Ok(None);
    };
    let Some(index) = number_of(word) else {
        return Ok(None);
    };
    if name.is_empty() {
        return Ok(None);
    }
    if index >= count_of(h, place) {
        return Ok(None);
    }
    let new = given.insert(place, index)?;
    if !new {
        return Ok(None);
    }
    let name = bytes_of(alloc, name)?;
    Ok(Some(Symbol { place, index, name }))
}

// The symbol that a line says.
fn symbol_of(
    alloc: Global,
    h: &Header,
    given: &mut Given,
    line: &[u8],
) -> Result<Option<Symbol>, AllocError>
    requires { HeaderFits h.now }
    ensures { (ss : List Symbol) → AreGiven given.old ss → IfOk result (λ s. (s ≡ symbol_of h.now ss line.now) × IfSome s (λ s. AreGiven given.new (s ∷ ss))) }
{
    let Some((letter, text)) = line.split_first() else {
        return Ok(None);
    };
    let Some(place) = place_of(*letter) else {
        return Ok(None);
    };
    symbol_at(alloc, h, given, place, text)
}

// Whether this is the line behind which there are only comments.
fn begins_comments(line: &[u8]) -> bool
    ensures { result ≡ begins_comments line.now }
{
    b"c".as_slice() == line
}

/// The symbols of a file of so many bytes, of which these are left behind the body; or the first line that is none.
pub fn read_symbols(
    alloc: Global,
    h: &Header,
    total: usize,
    bytes: &[u8],
) -> Result<Vec<Symbol>, AigFault>
    requires fits { HeaderFits h.now }
    requires within { length bytes.now ≤ total }
    requires short { total < 2 ^ 32 }
    ensures symbols { IfOk result (λ symbols. symbols_of h.now [] (lines_at (total - length bytes.now) bytes.now) ≡ Ok symbols.items) }
    ensures fault { IfErr result (λ f. (f ≡ NoMemory) ⊎ (symbols_of h.now [] (lines_at (total - length bytes.now) bytes.now) ≡ Err f)) }
{
    let mut given = Given::new(alloc);
    let mut symbols = Vec::new(alloc);
    let mut rest = bytes;
    loop {
        let Some((line, behind)) = next_line(rest) else {
            return Ok(symbols);
        };
        if begins_comments(line) {
            return Ok(symbols);
        }
        let Some(symbol) = symbol_of(alloc, h, &mut given, line)? else {
            return Err(AigFault::Symbol(place(total, rest)));
        };
        symbols.push(symbol)?;
        rest = behind;
    }
}
