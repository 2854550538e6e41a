//! What inputs, latches and outputs are first called: by their symbols, else by a letter and a
//! number; and the symbols that bad states and constraints have as outputs.

ghost use Rattle.std.specs.Prelude.{◌≡◌, ◌+◌, ◌<◌, ◌^◌, ◌∷◌, ◌++◌, ◌&&◌, if◌then◌else◌, ℕ, decimal, find, length, slice_index, true, IfOk, OnOk};
ghost use Rattle.std.specs.List.{list_all};
ghost use Rattle.syn_netlist.specs.Words.{is_word, is_word_byte};
ghost use Rattle.syn_aiger_files.specs.FirstNames.{as_outputs, first_name, symbol_by, with_properties};
ghost use Rattle.syn_aiger_files.specs.Headers.{HeaderFits};
ghost use Rattle.syn_aiger_files.specs.Symbols.{is_at, letter_of};

use crate::files::{Header, Place, Symbol};
use crate::printer::letter_of;
use itoa::Buffer;
use std::alloc::{AllocError, Global};
use syn_lists::Items;

/// The letter and the digits of the number, as a word.
pub fn numbered(alloc: Global, letter: u8, number: u32) -> Result<Vec<u8>, AllocError>
    requires { is_word_byte letter ≡ true }
    ensures name { IfOk result (λ w. w.items ≡ letter ∷ decimal number) }
    ensures word { IfOk result (λ w. is_word w.items ≡ true) }
{
    let mut word = Vec::new(alloc);
    word.push(letter)?;
    let mut buffer = Buffer::new();
    word.extend_from_slice(buffer.format(number).as_bytes())?;
    Ok(word)
}

// No symbols.
fn no_symbols(alloc: Global, count: usize) -> Result<Vec<usize>, AllocError>
    ensures count { IfOk result (λ v. length v.items ≡ count) }
    ensures none { IfOk result (λ v. (i : ℕ) → slice_index v.items i ≡ 0) }
{
    vec![in alloc; 0; count]
}

// Puts the symbol at a place of the list where it belongs, if it is of the place.
fn put_symbol(table: &mut [usize], symbol: &Symbol, place: Place, number: usize)
    ensures at { (i : ℕ) → i < length table.old → slice_index table.new i ≡ (if is_at place i symbol.now then number else slice_index table.old i) }
{
    let index = symbol.index as usize;
    if symbol.place == place && index < table.len() {
        table[index] = number;
    }
}

/// For each index of a place its first symbol: the number of the symbol in the list, from 1, or 0 where it has none.
pub fn symbol_table(
    alloc: Global,
    symbols: &[Symbol],
    place: Place,
    count: usize,
) -> Result<Vec<usize>, AllocError>
    ensures count { IfOk result (λ v. length v.items ≡ count) }
    ensures symbols { IfOk result (λ v. (i : ℕ) → i < count → symbol_by symbols.now (slice_index v.items i) ≡ find (is_at place i) symbols.now) }
{
    let mut table = no_symbols(alloc, count)?;
    for k in (0..symbols.len()).rev() {
        put_symbol(table.as_mut_slice(), &symbols[k], place, k + 1);
    }
    Ok(table)
}

// Whether the byte may stand in a word.
fn is_word_byte(b: u8) -> bool
    ensures { result ≡ is_word_byte b }
{
    b > 32 && b < 127 && b != b'#' && b != b'\\'
}

// Whether the bytes are a word.
fn is_word(bytes: &[u8]) -> bool
    ensures { result ≡ is_word bytes.now }
{
    if bytes.is_empty() {
        return false;
    }
    for b in bytes {
        if !is_word_byte(*b) {
            return false;
        }
    }
    true
}

/// What stands at an index of a place is first called, where this is its number in the table of symbols.
pub fn first_name(
    alloc: Global,
    symbols: &[Symbol],
    number: usize,
    place: Place,
    index: u32,
) -> Result<Vec<u8>, AllocError>
    requires { symbol_by symbols.now number ≡ find (is_at place index) symbols.now }
    ensures name { IfOk result (λ w. w.items ≡ first_name symbols.now place index) }
    ensures word { IfOk result (λ w. is_word w.items ≡ true) }
{
    if number > 0 && number <= symbols.len() {
        let name = symbols[number - 1].name.as_slice();
        if is_word(name) {
            return name.to_vec(alloc);
        }
    }
    numbered(alloc, letter_of(place), index)
}

// Appends, for so many of a place, the symbols of outputs from an index on.
fn push_as_outputs(
    alloc: Global,
    symbols: &[Symbol],
    place: Place,
    output: u32,
    count: u32,
    made: &mut Vec<Symbol>,
) -> Result<(), AllocError>
    requires { output + count < 2 ^ 32 }
    ensures { OnOk result (made.new.items ≡ made.old.items ++ as_outputs symbols.now place 0 output count) }
{
    let table = symbol_table(alloc, symbols, place, count as usize)?;
    let numbers = table.as_slice();
    for k in 0..count {
        let name = first_name(alloc, symbols, numbers[k as usize], place, k)?;
        made.push(Symbol {
            place: Place::Output,
            index: output + k,
            name: Items::of(name),
        })?;
    }
    Ok(())
}

/// The symbols of a file, in front of which each bad state and each constraint has one as an output behind the file's own.
pub fn with_properties(
    alloc: Global,
    h: &Header,
    mut symbols: Vec<Symbol>,
) -> Result<Vec<Symbol>, AllocError>
    requires { HeaderFits h.now }
    ensures { IfOk result (λ v. v.items ≡ with_properties h.now symbols.items) }
{
    let further = h.further;
    if further.bad == 0 && further.constraints == 0 {
        return Ok(symbols);
    }
    let mut made = Vec::new(alloc);
    push_as_outputs(
        alloc,
        &symbols,
        Place::Bad,
        h.outputs,
        further.bad,
        &mut made,
    )?;
    let output = h.outputs + further.bad;
    push_as_outputs(
        alloc,
        &symbols,
        Place::Constraint,
        output,
        further.constraints,
        &mut made,
    )?;
    made.append(&mut symbols)?;
    Ok(made)
}
