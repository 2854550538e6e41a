//! A file with the places of its variables.

ghost use Rattle.std.specs.Prelude.{◌≡◌, ◌+◌, ◌<◌, ◌≤◌, ◌^◌, ◌++◌, ℕ, List, [], ◌∷◌, true, length, map, IfOk, OnOk};
ghost use Rattle.syn_lists.specs.Numbers.{distinct_numbers};
ghost use Rattle.syn_aiger_files.specs.Files.{latch_literal, variable_of};
ghost use Rattle.syn_aiger.specs.Placing.{HasPlaces, IsSound, is_defined, lit_in, place_in};
ghost use Rattle.syn_aiger.specs.Values.{and_variable, defined_variables, source_literals};

use crate::places::Places;
use std::alloc::{AllocError, Global};
use syn_aiger_files::{Aig, AigAnd, AigLatch, Inputs};
use syn_rows::Lit;

/// A file with the places of its variables.
#[derive(Drop)]
pub struct Numbered {
    pub aig: Aig,
    pub places: Places,
    pub ghost sound: { IsSound aig },
    pub ghost placed: { HasPlaces places (defined_variables aig) },
}

// The places of the variables that the inputs define.
fn place_inputs(alloc: Global, inputs: &Inputs) -> Result<Places, AllocError>
    requires once { distinct_numbers (0 ∷ map variable_of inputs.now) ≡ true }
    requires few { length inputs.now + 1 < 2 ^ 32 }
    ensures { IfOk result (λ p. HasPlaces p (0 ∷ map variable_of inputs.now)) }
{
    match inputs.as_listed() {
        Some(literals) => {
            let mut places = Places::first(alloc, 0);
            place_literals(&mut places, literals)?;
            Ok(places)
        }
        None => Ok(Places::first(alloc, inputs.len() as u32)),
    }
}

fn place_literals(places: &mut Places, literals: &[u32]) -> Result<(), AllocError>
    requires { places.old.count + length literals.now < 2 ^ 32 }
    ensures count { OnOk result (places.new.count ≡ places.old.count + length literals.now) }
    ensures places { (known : List ℕ) → HasPlaces places.old known → distinct_numbers (known ++ map variable_of literals.now) ≡ true → OnOk result (HasPlaces places.new (known ++ map variable_of literals.now)) }
{
    for l in literals {
        places.add(*l / 2)?;
    }
    Ok(())
}

fn place_latches(places: &mut Places, latches: &[AigLatch]) -> Result<(), AllocError>
    requires { places.old.count + length latches.now < 2 ^ 32 }
    ensures count { OnOk result (places.new.count ≡ places.old.count + length latches.now) }
    ensures places { (known : List ℕ) → HasPlaces places.old known → distinct_numbers (known ++ map variable_of (map latch_literal latches.now)) ≡ true → OnOk result (HasPlaces places.new (known ++ map variable_of (map latch_literal latches.now))) }
{
    for latch in latches {
        places.add(latch.literal / 2)?;
    }
    Ok(())
}

fn place_ands(places: &mut Places, ands: &[AigAnd]) -> Result<(), AllocError>
    requires { places.old.count + length ands.now < 2 ^ 32 }
    ensures count { OnOk result (places.new.count ≡ places.old.count + length ands.now) }
    ensures places { (known : List ℕ) → HasPlaces places.old known → distinct_numbers (known ++ map and_variable ands.now) ≡ true → OnOk result (HasPlaces places.new (known ++ map and_variable ands.now)) }
{
    for a in ands {
        places.add(a.literal / 2)?;
    }
    Ok(())
}

// The places of all variables that a file defines.
fn place_all(alloc: Global, aig: &Aig) -> Result<Places, AllocError>
    requires { IsSound aig.now }
    ensures { IfOk result (λ p. HasPlaces p (defined_variables aig.now)) }
{
    let mut places = place_inputs(alloc, &aig.inputs)?;
    place_latches(&mut places, aig.latches.as_slice())?;
    place_ands(&mut places, aig.ands.as_slice())?;
    Ok(places)
}

impl Numbered {
    /// The file with the places of its variables. The only error is want of memory.
    pub fn of(alloc: Global, aig: Aig) -> Result<Numbered, AllocError>
        requires { IsSound aig }
        ensures { IfOk result (λ n. n.aig ≡ aig) }
    {
        let places = place_all(alloc, &aig)?;
        Ok(Numbered { aig, places })
    }

    /// How many sources there are.
    pub fn source_count(&self) -> usize
        ensures { result ≡ length (source_literals self.now.aig) }
    {
        self.aig.inputs.len() + self.aig.latches.as_slice().len()
    }

    /// The place of the literal's variable, where it is defined.
    pub fn place(&self, l: u32) -> Option<u32>
        ensures { result ≡ place_in (defined_variables self.now.aig) (variable_of l) }
    {
        self.places.place(l / 2)
    }

    /// Whether the literal's variable is defined.
    pub fn is_defined(&self, l: u32) -> bool
        ensures { result ≡ is_defined self.now.aig l }
    {
        self.place(l).is_some()
    }

    /// The literal of rows that a literal becomes whose variable is defined.
    pub fn lit(&self, l: u32) -> Lit
        requires { is_defined self.now.aig l ≡ true }
        ensures { result ≡ lit_in self.now.aig l }
    {
        match self.place(l) {
            Some(place) => Lit::of(place, l % 2 == 1),
            None => unreachable!(),
        }
    }
}
