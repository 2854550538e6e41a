//! Faults of subcircuits, each at its place.

ghost use Rattle.std.specs.Prelude.{◌≡◌, ℕ, ◌^◌, ◌<◌, ◌∷◌, List, [], false, if◌then◌else◌, find, length, map, not, option_map, true, IfNone, IfOk, IfSome, None, Some};
ghost use Rattle.std.specs.List.{list_all};
ghost use Rattle.syn_models.specs.Called.{actuals_below};
ghost use Rattle.syn_models.specs.FlatFaults.{checks, first_again, first_found, foreign, unbound};
ghost use Rattle.syn_models.specs.Kept.{bind_in, is_spelled, subcircuit_in};
ghost use Rattle.syn_models.specs.Files.{IsFile, all_in};
ghost use Rattle.syn_models.specs.Listed.{ArePorts};
ghost use Rattle.syn_models.specs.Marked.{Marked, defined_before, defines_in, pushed, site_of, subcircuit_at};
ghost use Rattle.syn_models.specs.Models as models;
ghost use Rattle.syn_models.specs.Models.{binds_once, formal_of};
ghost use Rattle.syn_models.specs.Views.{model_in};
ghost use Rattle.syn_netlist.specs.Numbers.{all_below, word_at, words_at};
ghost use Rattle.syn_netlist.specs.Words.{has_word, is_word};

use crate::FlatFault;
use crate::files::File;
use crate::hierarchy::{Bind, Model, Subcircuit};
use crate::ports::{Ports, is_port, is_reading, number_named};
use std::alloc::{AllocError, Global};
use syn_netlist::{Names, Word};

/// A copy of a word. The only error is want of memory.
pub(crate) fn copied(alloc: Global, word: &[u8]) -> Result<Word, AllocError>
    ensures { IfOk result (λ w. w ≡ word.now) }
{
    Ok(Word::of(word.to_vec(alloc)?))
}

// The first formal that is no input, clock or output of the model that is contained.
fn unknown_port(
    alloc: Global,
    m: &Model,
    ports: &Ports,
    binds: &[Bind],
) -> Result<Option<Word>, AllocError>
    requires { ArePorts m.now ports.now }
    ensures { IfOk result (λ r. (names : List (List ℕ)) → r ≡ foreign (map (bind_in names) binds.now) (Some (model_in m.now))) }
{
    for b in binds {
        if !is_port(m, ports, b.formal.as_slice()) {
            return Ok(Some(copied(alloc, b.formal.as_slice())?));
        }
    }
    Ok(None)
}

// The formals, each once.
fn bound_formals(alloc: Global, binds: &[Bind]) -> Result<Names, AllocError>
    requires few { length binds.now < 2 ^ 32 }
    requires words { (names : List (List ℕ)) → list_all is_word (map formal_of (map (bind_in names) binds.now)) ≡ true }
    ensures { IfOk result (λ bound. (names : List (List ℕ)) (word : List ℕ) → has_word bound word ≡ models.is_bound (map (bind_in names) binds.now) word) }
{
    let mut bound = Names::new(alloc);
    for b in binds {
        bound.add(alloc, b.formal.as_slice())?;
    }
    Ok(bound)
}

// The first of the names with these numbers that isn't among the others.
fn first_other(names: &Names, numbers: &[u32], others: &Names) -> Option<u32>
    requires { all_below (length names.now) numbers.now ≡ true }
    ensures found { option_map (word_at names.now) result ≡ find (λ word. not (has_word others.now word)) (words_at names.now numbers.now) }
    ensures below { IfSome result (λ i. i < length names.now) }
{
    for n in numbers {
        match others.find(names.word(*n)) {
            Some(_) => {}
            None => return Some(*n),
        }
    }
    None
}

// The first input, or else clock, of the model that is contained that isn't bound.
fn port_missing(
    alloc: Global,
    m: &Model,
    ports: &Ports,
    binds: &[Bind],
) -> Result<Option<Word>, AllocError>
    requires ports { ArePorts m.now ports.now }
    requires few { length binds.now < 2 ^ 32 }
    requires words { (names : List (List ℕ)) → list_all is_word (map formal_of (map (bind_in names) binds.now)) ≡ true }
    ensures { IfOk result (λ r. (names : List (List ℕ)) → r ≡ unbound (map (bind_in names) binds.now) (Some (model_in m.now))) }
{
    let bound = bound_formals(alloc, binds)?;
    match first_other(&m.names, ports.reading.as_slice(), &bound) {
        Some(port) => Ok(Some(copied(alloc, m.names.word(port))?)),
        None => Ok(None),
    }
}

// Whether a bind defines a name that is marked. If not, the name that it defines is marked.
fn defines_again(home: &Names, m: &Model, ports: &Ports, b: &Bind, marks: &mut [bool]) -> bool
    requires ports { ArePorts m.now ports.now }
    requires below { b.now.actual < length home.now }
    requires size { length marks.old ≡ length home.now }
    ensures found { (before : List (List ℕ)) → Marked home.now before marks.old → first_again before (defines_in home.now (model_in m.now) (b.now ∷ [])) ≡ (if result then Some (word_at home.now b.now.actual) else None) }
    ensures marked { (before : List (List ℕ)) → Marked home.now before marks.old → result ≡ false → Marked home.now (pushed before (defines_in home.now (model_in m.now) (b.now ∷ []))) marks.new }
{
    let _count = home.len();
    let n = b.actual as usize;
    if is_reading(m, ports, b.formal.as_slice()) {
        return false;
    }
    if marks[n] {
        return true;
    }
    marks[n] = true;
    false
}

// The first name that the binds define and that is marked, or that a bind before defines. If there is none, all names that
// they define are marked.
fn defined_twice(
    alloc: Global,
    home: &Names,
    m: &Model,
    ports: &Ports,
    binds: &[Bind],
    marks: &mut [bool],
) -> Result<Option<Word>, AllocError>
    requires ports { ArePorts m.now ports.now }
    requires below { actuals_below (length home.now) binds.now ≡ true }
    requires size { length marks.old ≡ length home.now }
    ensures found { IfOk result (λ r. (before : List (List ℕ)) → Marked home.now before marks.old → r ≡ first_again before (defines_in home.now (model_in m.now) binds.now)) }
    ensures marked { IfOk result (λ r. IfNone r ((before : List (List ℕ)) → Marked home.now before marks.old → Marked home.now (pushed before (defines_in home.now (model_in m.now) binds.now)) marks.new)) }
{
    for b in binds {
        if defines_again(home, m, ports, b, marks) {
            return Ok(Some(copied(alloc, home.word(b.actual))?));
        }
    }
    Ok(None)
}

/// The first fault of a subcircuit in a model with these names, of which those are marked that are defined by themselves or
/// above. If there is none, all names that it defines are marked. The only error is want of memory.
pub(crate) fn subcircuit_fault(
    alloc: Global,
    file: &File<'_>,
    home: &Names,
    line: u32,
    c: &Subcircuit,
    marks: &mut [bool],
) -> Result<Option<FlatFault>, AllocError>
    requires file { IsFile file.now }
    requires below { actuals_below (length home.now) c.now.binds ≡ true }
    requires size { length marks.old ≡ length home.now }
    requires spelled { is_spelled (subcircuit_in home.now c.now) ≡ true }
    requires once { binds_once (subcircuit_in home.now c.now) ≡ true }
    ensures found { IfOk result (λ r. (m : models.Model) (above : List models.Statement) → Marked home.now (defined_before (all_in file.now) m above) marks.old → r ≡ first_found checks (site_of (all_in file.now) m above line (subcircuit_in home.now c.now))) }
    ensures marked { IfOk result (λ r. IfNone r ((m : models.Model) (above : List models.Statement) → Marked home.now (defined_before (all_in file.now) m above) marks.old → Marked home.now (defined_before (all_in file.now) m (subcircuit_at line (subcircuit_in home.now c.now) ∷ above)) marks.new)) }
{
    let Some(number) = number_named(file.models, &file.names, c.model.as_slice()) else {
        return Ok(Some(FlatFault::UnknownModel(line)));
    };
    let m = &file.models[number as usize];
    let ports = &file.ports.as_slice()[number as usize];
    let binds = c.binds.as_slice();
    if let Some(formal) = unknown_port(alloc, m, ports, binds)? {
        return Ok(Some(FlatFault::UnknownPort(line, formal)));
    }
    let _count = m.names.len();
    if let Some(port) = port_missing(alloc, m, ports, binds)? {
        return Ok(Some(FlatFault::PortMissing(line, port)));
    }
    if let Some(name) = defined_twice(alloc, home, m, ports, binds, marks)? {
        return Ok(Some(FlatFault::DefinedTwice(line, name)));
    }
    Ok(None)
}
