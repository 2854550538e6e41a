//! The names of sources, outputs and of what latches load.

ghost use Rattle.std.specs.Prelude.{◌≡◌, ◌+◌, ◌<◌, ◌≤◌, ◌^◌, ◌++◌, List, [], ◌∷◌, false, length, map, slice_index, IfNone, IfOk, IfSome, OnOk};
ghost use Rattle.syn_lists.specs.Numbers.{has_number};
ghost use Rattle.syn_aiger_files.specs.Files.{latch_literal};
ghost use Rattle.syn_aiger_files.specs.Literals.{literals_from};
ghost use Rattle.syn_aiger.specs.Keeping.{Keeps, feed_next, places_named};
ghost use Rattle.syn_aiger.specs.Naming.{Named, feeds_named, named_of, sources_of};
ghost use Rattle.syn_aiger.specs.Values.{source_literals};

use crate::file_numbers::Numbered;
use crate::given::Given;
use std::alloc::{AllocError, Global};
use syn_aiger_files::{AigLatch, Inputs, Place, Symbol, first_name, numbered, symbol_table};

// Names what stands at a place: these literals, in order.
fn name_places(
    given: &mut Given,
    alloc: Global,
    symbols: &[Symbol],
    keeps: bool,
    place: Place,
    literals: &[u32],
) -> Result<(), AllocError>
    requires few { length given.old.names + length literals.now + 1 < 2 ^ 32 }
    ensures keeps { (known : List Named) → Keeps given.old known → OnOk result (Keeps given.new (known ++ places_named keeps symbols.now place 0 literals.now known)) }
    ensures few { length given.new.names ≤ length given.old.names + length literals.now }
{
    let table = symbol_table(alloc, symbols, place, literals.len())?;
    let numbers = table.as_slice();
    for i in 0..literals.len() {
        let first = first_name(alloc, symbols, numbers[i], place, i as u32)?;
        given.name(alloc, keeps, literals[i], first)?;
    }
    Ok(())
}

// The source with this literal.
fn source_of(file: &Numbered, l: u32) -> Option<usize>
    ensures some { IfSome result (λ s. (s < length (source_literals file.now.aig)) × (slice_index (source_literals file.now.aig) s ≡ l)) }
    ensures none { IfNone result (has_number (source_literals file.now.aig) l ≡ false) }
{
    if l % 2 == 1 {
        return None;
    }
    match file.place(l) {
        Some(place) => {
            if place == 0 {
                return None;
            }
            if place as usize > file.source_count() {
                return None;
            }
            Some(place as usize - 1)
        }
        None => None,
    }
}

// Names what a latch loads.
fn name_feed(
    given: &mut Given,
    alloc: Global,
    file: &Numbered,
    index: u32,
    next: u32,
) -> Result<(), AllocError>
    requires few { length given.old.names + 1 < 2 ^ 32 }
    requires sources { length (source_literals file.now.aig) ≤ length given.old.numbers.items }
    ensures keeps { (known more : List Named) → Keeps given.old known → known ≡ sources_of file.now.aig ++ more → OnOk result (Keeps given.new (known ++ feed_next (sources_of file.now.aig) index next known ∷ [])) }
    ensures few { length given.new.names ≤ length given.old.names + 1 }
    ensures more { length given.old.numbers.items ≤ length given.new.numbers.items }
{
    match source_of(file, next) {
        Some(s) => given.again(s),
        None => {
            let first = numbered(alloc, b'd', index)?;
            given.name(alloc, false, next, first)
        }
    }
}

// Names what the latches load.
fn name_feeds(given: &mut Given, alloc: Global, file: &Numbered) -> Result<(), AllocError>
    requires few { length given.old.names + length file.now.aig.latches + 1 < 2 ^ 32 }
    requires sources { length (source_literals file.now.aig) ≤ length given.old.numbers.items }
    ensures keeps { (known more : List Named) → Keeps given.old known → known ≡ sources_of file.now.aig ++ more → OnOk result (Keeps given.new (known ++ feeds_named (sources_of file.now.aig) 0 file.now.aig.latches known)) }
    ensures few { length given.new.names ≤ length given.old.names + length file.now.aig.latches }
{
    let latches = file.aig.latches.as_slice();
    for j in 0..latches.len() {
        name_feed(given, alloc, file, j as u32, latches[j].next)?;
    }
    Ok(())
}

// So many literals from 2 on.
fn first_literals(alloc: Global, count: u32) -> Result<Vec<u32>, AllocError>
    requires { count < 2 ^ 31 }
    ensures { IfOk result (λ v. v.items ≡ literals_from 1 count) }
{
    let mut literals = Vec::new(alloc);
    for k in 0..count {
        literals.push(2 * (k + 1))?;
    }
    Ok(literals)
}

/// The literals of the inputs.
pub fn input_literals(alloc: Global, inputs: &Inputs) -> Result<Vec<u32>, AllocError>
    requires { length inputs.now < 2 ^ 31 }
    ensures { IfOk result (λ v. v.items ≡ inputs.now) }
{
    match inputs.as_listed() {
        Some(literals) => literals.to_vec(alloc),
        None => first_literals(alloc, inputs.len() as u32),
    }
}

/// The literals of the latches.
pub fn latch_literals(alloc: Global, latches: &[AigLatch]) -> Result<Vec<u32>, AllocError>
    ensures { IfOk result (λ v. v.items ≡ map latch_literal latches.now) }
{
    let mut literals = Vec::new(alloc);
    for latch in latches {
        literals.push(latch.literal)?;
    }
    Ok(literals)
}

/// All names of a file. The only error is want of memory.
pub fn names_of(alloc: Global, file: &Numbered) -> Result<Given, AllocError>
    ensures keeps { IfOk result (λ s. Keeps s (named_of file.now.aig)) }
    ensures few { IfOk result (λ s. length s.names < 2 ^ 31) }
{
    let symbols = file.aig.symbols.as_slice();
    let inputs = input_literals(alloc, &file.aig.inputs)?;
    let latches = latch_literals(alloc, file.aig.latches.as_slice())?;
    let outputs = file.aig.outputs.as_slice();
    let mut given = Given::new(alloc);
    name_places(
        &mut given,
        alloc,
        symbols,
        false,
        Place::Input,
        inputs.as_slice(),
    )?;
    name_places(
        &mut given,
        alloc,
        symbols,
        false,
        Place::Latch,
        latches.as_slice(),
    )?;
    name_places(&mut given, alloc, symbols, true, Place::Output, outputs)?;
    name_feeds(&mut given, alloc, file)?;
    Ok(given)
}
