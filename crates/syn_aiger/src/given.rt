//! Names that are given, each for a literal.

ghost use Rattle.std.specs.Prelude.{◌≤◌, length};

use std::alloc::{AllocError, Global};
use syn_netlist::Names;

/// Names that are given one after the other, each for a literal; one may be given again for its literal.
#[derive(Drop)]
pub struct Given {
    /// Each name once.
    pub names: Names,
    /// The literals of the names by their numbers.
    pub literals: Vec<u32>,
    /// The numbers of the names in the order in which they were given.
    pub numbers: Vec<u32>,
    pub ghost within: { length names ≤ length literals.items },
}

impl Given {
    ghost use Rattle.std.specs.Prelude.{◌≡◌, ◌+◌, ◌<◌, ◌^◌, ◌++◌, List, [], ◌∷◌, true, false, ◌≤◌, length, slice_index_or, if◌then◌else◌, IfOk, OnOk};
    ghost use Rattle.syn_netlist.specs.Numbers.{with_word, word_at};
    ghost use Rattle.syn_netlist.specs.Words.{has_word, is_word};
    ghost use Rattle.syn_aiger.specs.Keeping.{Keeps, named_next, taken_by};
    ghost use Rattle.syn_aiger.specs.Naming.{Named, free_name, is_given_otherwise};

    pub fn new(alloc: Global) -> Given
        ensures keeps { Keeps result [] }
        ensures none { length result.names ≡ 0 }
    {
        Given {
            names: Names::new(alloc),
            literals: Vec::new(alloc),
            numbers: Vec::new(alloc),
        }
    }

    // Whether the name is taken.
    fn is_taken(&self, keeps: bool, l: u32, name: &[u8]) -> bool
        ensures taken { (given : List Named) → Keeps self.now given → result ≡ taken_by keeps l given name.now }
        ensures there { result ≡ true → has_word self.now.names name.now ≡ true }
    {
        match self.names.find(name) {
            Some(i) => !keeps || self.literals.as_slice()[i as usize] != l,
            None => false,
        }
    }

    // The name with the fewest `_` behind it with which it isn't taken.
    fn free(&self, keeps: bool, l: u32, first: Vec<u8>) -> Result<Vec<u8>, AllocError>
        requires { is_word first.items ≡ true }
        ensures name { (given : List Named) → Keeps self.now given → IfOk result (λ w. w.items ≡ free_name given (taken_by keeps l given) first.items) }
        ensures word { IfOk result (λ w. is_word w.items ≡ true) }
    {
        let mut name = first;
        while self.is_taken(keeps, l, name.as_slice()) {
            name.push(b'_')?;
        }
        Ok(name)
    }

    // The number of a name, which is added with the literal where it is new.
    fn number(&mut self, alloc: Global, name: &[u8], l: u32) -> Result<u32, AllocError>
        requires few { length self.old.names + 1 < 2 ^ 32 }
        requires word { is_word name.now ≡ true }
        ensures number { IfOk result (λ i. (i < length self.new.names) × (word_at self.new.names i ≡ name.now)) }
        ensures names { OnOk result (self.new.names ≡ with_word self.old.names name.now) }
        ensures literals { OnOk result (self.new.literals.items ≡ (if has_word self.old.names name.now then self.old.literals.items else self.old.literals.items ++ l ∷ [])) }
        ensures numbers { self.new.numbers ≡ self.old.numbers }
        ensures few { length self.new.names ≤ length self.old.names + 1 }
    {
        match self.names.find(name) {
            Some(i) => Ok(i),
            None => {
                self.literals.push(l)?;
                self.names.add(alloc, name)
            }
        }
    }

    // Gives a name that isn't given for another literal.
    fn give(&mut self, alloc: Global, name: &[u8], l: u32) -> Result<(), AllocError>
        requires few { length self.old.names + 1 < 2 ^ 32 }
        requires word { is_word name.now ≡ true }
        ensures keeps { (given : List Named) → Keeps self.old given → is_given_otherwise l given name.now ≡ false → OnOk result (Keeps self.new (given ++ record { name = name.now; literal = l } ∷ [])) }
        ensures few { length self.new.names ≤ length self.old.names + 1 }
        ensures more { length self.old.numbers.items ≤ length self.new.numbers.items }
    {
        let number = self.number(alloc, name, l)?;
        self.numbers.push(number)?;
        Ok(())
    }

    // Gives the next name for a literal.
    pub fn name(
        &mut self,
        alloc: Global,
        keeps: bool,
        l: u32,
        first: Vec<u8>,
    ) -> Result<(), AllocError>
        requires few { length self.old.names + 1 < 2 ^ 32 }
        requires word { is_word first.items ≡ true }
        ensures keeps { (given : List Named) → Keeps self.old given → OnOk result (Keeps self.new (given ++ named_next keeps l given first.items ∷ [])) }
        ensures few { length self.new.names ≤ length self.old.names + 1 }
        ensures more { length self.old.numbers.items ≤ length self.new.numbers.items }
    {
        let name = self.free(keeps, l, first)?;
        self.give(alloc, name.as_slice(), l)
    }

    // Gives a name again that was given as the so manyth.
    pub fn again(&mut self, s: usize) -> Result<(), AllocError>
        requires { s < length self.old.numbers.items }
        ensures keeps { (given : List Named) (n : Named) → Keeps self.old given → s < length given → slice_index_or given s n ≡ n → OnOk result (Keeps self.new (given ++ n ∷ [])) }
        ensures few { length self.new.names ≤ length self.old.names }
        ensures more { length self.old.numbers.items ≤ length self.new.numbers.items }
    {
        let number = self.numbers.as_slice()[s];
        self.numbers.push(number)?;
        Ok(())
    }
}
