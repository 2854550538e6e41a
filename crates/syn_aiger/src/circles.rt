//! Whether ANDs read each other in a circle.
//!
//! Where each AND reads only what stands above it, they don't. Else they are put in order as the tables of a netlist.

ghost use Rattle.std.specs.Prelude.{◌≡◌, ◌+◌, ◌<◌, ◌≤◌, ◌^◌, ◌++◌, ℕ, List, [], ◌∷◌, true, false, length, map, None, Some, IfErr, IfNone, IfOk, IfSome, OnOk};
ghost use Rattle.std.specs.List.{list_all};
ghost use Rattle.syn_netlist.specs.Faults.{AnswersCircle};
ghost use Rattle.syn_netlist.specs.Lists.{output_of};
ghost use Rattle.syn_lists.specs.Numbers.{has_number};
ghost use Rattle.syn_netlist.specs.Tables.{table_in, tables_below};
ghost use Rattle.syn_netlist.specs.Views.{netlist_in};
ghost use Rattle.syn_netlist.specs.Words.{has_word};
ghost use Rattle.syn_aiger_files.specs.declared.fault.AigFault.TheVariants.{Cycle};
ghost use Rattle.syn_aiger_files.specs.Files.{latch_literal, variable_of};
ghost use Rattle.syn_aiger.specs.Faults.{IsAigFault};
ghost use Rattle.syn_aiger.specs.Placing.{ReadsDefined, has_sides, node_in};
ghost use Rattle.syn_aiger.specs.Ranks.{HasRank, table_netlist};
ghost use Rattle.syn_aiger.specs.Values.{and_table, and_tables, and_variable, defined_variables, reads_above, source_variables, variable_word};
ghost use Rattle.syn_network.specs.Spelling.{sign_of};
ghost use Rattle.syn_lists.specs.Numbers.{numbers_from};

use crate::file_numbers::Numbered;
use crate::names::input_literals;
use itoa::Buffer;
use std::alloc::{AllocError, Global};
use syn_aiger_files::{AigAnd, AigLatch, number_of};
use syn_lists::Items;
use syn_netlist::{CheckedNetlist, Frame, Latch, Names, NetFault, Netlist, Table, Word};

// Whether the literal's variable is one of the first so many that are defined.
fn is_below(file: &Numbered, l: u32, bound: usize) -> bool
    ensures { (front more : List ℕ) → defined_variables file.now.aig ≡ front ++ more → length front ≡ bound → result ≡ has_number front (variable_of l) }
{
    match file.place(l) {
        Some(place) => (place as usize) < bound,
        None => false,
    }
}

// Whether each AND reads only what stands above it.
fn is_in_order(file: &Numbered) -> bool
    ensures { result ≡ reads_above (0 ∷ source_variables file.now.aig) file.now.aig.ands }
{
    let first = file.source_count() + 1;
    for (k, a) in file.aig.ands.as_slice().iter().enumerate() {
        if !is_below(file, a.first, first + k) {
            return false;
        }
        if !is_below(file, a.second, first + k) {
            return false;
        }
    }
    true
}

fn push_inputs(variables: &mut Vec<u32>, literals: &[u32]) -> Result<(), AllocError>
    ensures { OnOk result (variables.new.items ≡ variables.old.items ++ map variable_of literals.now) }
{
    for l in literals {
        variables.push(*l / 2)?;
    }
    Ok(())
}

fn push_latches(variables: &mut Vec<u32>, latches: &[AigLatch]) -> Result<(), AllocError>
    ensures { OnOk result (variables.new.items ≡ variables.old.items ++ map variable_of (map latch_literal latches.now)) }
{
    for latch in latches {
        variables.push(latch.literal / 2)?;
    }
    Ok(())
}

fn push_ands(variables: &mut Vec<u32>, ands: &[AigAnd]) -> Result<(), AllocError>
    ensures { OnOk result (variables.new.items ≡ variables.old.items ++ map and_variable ands.now) }
{
    for a in ands {
        variables.push(a.literal / 2)?;
    }
    Ok(())
}

// The variables that are defined, in order.
fn defined_variables(alloc: Global, file: &Numbered) -> Result<Vec<u32>, AllocError>
    ensures { IfOk result (λ v. v.items ≡ defined_variables file.now.aig) }
{
    let inputs = input_literals(alloc, &file.aig.inputs)?;
    let mut variables = Vec::new(alloc);
    variables.push(0)?;
    push_inputs(&mut variables, inputs.as_slice())?;
    push_latches(&mut variables, file.aig.latches.as_slice())?;
    push_ands(&mut variables, file.aig.ands.as_slice())?;
    Ok(variables)
}

// The variables' names.
fn variable_names(alloc: Global, file: &Numbered) -> Result<Names, AllocError>
    ensures { IfOk result (λ names. names ≡ map variable_word (defined_variables file.now.aig)) }
{
    let variables = defined_variables(alloc, file)?;
    let mut names = Names::new(alloc);
    for v in variables.as_slice() {
        let mut buffer = Buffer::new();
        names.add(alloc, buffer.format(*v).as_bytes())?;
    }
    Ok(names)
}

// The character of a literal: `1` where it is plain, `0` where it is complemented.
fn sign(l: u32) -> u8
    ensures { result ≡ sign_of (record { 0 = l }) }
{
    if l % 2 == 0 { b'1' } else { b'0' }
}

// The row of signs of two literals.
fn sign_row(alloc: Global, a: u32, b: u32) -> Result<Vec<Word>, AllocError>
    ensures { IfOk result (λ v. v.items ≡ (sign_of (record { 0 = a }) ∷ sign_of (record { 0 = b }) ∷ []) ∷ []) }
{
    let mut row = Vec::new(alloc);
    row.push(sign(a))?;
    row.push(sign(b))?;
    let mut rows = Vec::new(alloc);
    rows.push(Word::of(row))?;
    Ok(rows)
}

// The place of a variable that is defined.
fn place_of(file: &Numbered, l: u32) -> u32
    ensures { result ≡ node_in file.now.aig (variable_of l) }
{
    match file.place(l) {
        Some(place) => place,
        None => 0,
    }
}

// The table of an AND with this place.
fn and_table(alloc: Global, file: &Numbered, a: AigAnd, output: u32) -> Result<Table, AllocError>
    ensures inputs { IfOk result (λ t. t.inputs ≡ node_in file.now.aig (variable_of a.first) ∷ node_in file.now.aig (variable_of a.second) ∷ []) }
    ensures output { IfOk result (λ t. t.output ≡ output) }
    ensures rows { IfOk result (λ t. t.rows ≡ (sign_of (record { 0 = a.first }) ∷ sign_of (record { 0 = a.second }) ∷ []) ∷ []) }
    ensures on { IfOk result (λ t. t.on ≡ true) }
{
    let mut inputs = Vec::new(alloc);
    inputs.push(place_of(file, a.first))?;
    inputs.push(place_of(file, a.second))?;
    let rows = sign_row(alloc, a.first, a.second)?;
    Ok(Table {
        inputs: Items::of(inputs),
        output,
        rows: Items::of(rows),
        on: true,
    })
}

// The tables of the ANDs.
fn and_tables(alloc: Global, file: &Numbered) -> Result<Vec<Table>, AllocError>
    requires { ReadsDefined file.now.aig }
    ensures below { IfOk result (λ v. tables_below (length (defined_variables file.now.aig)) v.items ≡ true) }
    ensures tables { IfOk result (λ v. map (table_in (map variable_word (defined_variables file.now.aig))) v.items ≡ and_tables file.now.aig) }
{
    let first = file.source_count() + 1;
    let mut tables = Vec::new(alloc);
    for (k, a) in file.aig.ands.as_slice().iter().enumerate() {
        tables.push(and_table(alloc, file, *a, (first + k) as u32)?)?;
    }
    Ok(tables)
}

// The numbers up to this one.
fn first_numbers(alloc: Global, count: u32) -> Result<Vec<u32>, AllocError>
    ensures { IfOk result (λ v. v.items ≡ numbers_from 0 count) }
{
    let mut numbers = Vec::new(alloc);
    for k in 0..count {
        numbers.push(k)?;
    }
    Ok(numbers)
}

// The netlist of the ANDs' tables alone.
fn table_netlist(alloc: Global, file: &Numbered) -> Result<Netlist, AllocError>
    requires { ReadsDefined file.now.aig }
    ensures { IfOk result (λ n. netlist_in n ≡ table_netlist file.now.aig) }
{
    let names = variable_names(alloc, file)?;
    let model = b"top".to_vec(alloc)?;
    let inputs = first_numbers(alloc, file.source_count() as u32 + 1)?;
    let tables = and_tables(alloc, file)?;
    let none: Vec<u32> = Vec::new(alloc);
    let outputs: Vec<u32> = Vec::new(alloc);
    let latches: Vec<Latch> = Vec::new(alloc);
    let frame = Frame {
        names,
        model: Word::of(model),
        inputs: Items::of(inputs),
        clocks: Items::of(none),
        outputs: Items::of(outputs),
        latches: Items::of(latches),
    };
    Ok(Netlist {
        frame,
        tables: Items::of(tables),
    })
}

// The variables whose names these are.
fn variables_of(alloc: Global, file: &Numbered, words: &[Word]) -> Result<Vec<u32>, AllocError>
    requires { list_all (has_word (map variable_word (map and_variable file.now.aig.ands))) words.now ≡ true }
    ensures words { IfOk result (λ v. map variable_word v.items ≡ words.now) }
    ensures variables { IfOk result (λ v. list_all (has_number (map and_variable file.now.aig.ands)) v.items ≡ true) }
{
    let mut variables = Vec::new(alloc);
    for word in words {
        match number_of(word.as_slice()) {
            Some(v) => variables.push(v)?,
            None => unreachable!(),
        }
    }
    Ok(variables)
}

// The circle in which ANDs read each other, where they do, by their tables.
fn circle_of_tables(alloc: Global, file: &Numbered) -> Result<Option<Items<u32>>, AllocError>
    requires { ReadsDefined file.now.aig }
    ensures none { IfOk result (λ r. IfNone r (HasRank file.now.aig)) }
    ensures circle { IfOk result (λ r. IfSome r (λ vs. (list_all (has_number (map and_variable file.now.aig.ands)) vs ≡ true) × AnswersCircle (and_tables file.now.aig) (map variable_word vs))) }
{
    let netlist = table_netlist(alloc, file)?;
    match CheckedNetlist::of_driven(netlist, alloc) {
        Ok(checked) => {
            checked.is_checked();
            Ok(None)
        }
        Err(NetFault::Cycle(words)) => {
            let variables = variables_of(alloc, file, words.as_slice())?;
            Ok(Some(Items::of(variables)))
        }
        Err(NetFault::Undriven(_)) => unreachable!(),
        Err(NetFault::NoMemory) => Err(AllocError),
    }
}

/// The variables of ANDs that read each other in a circle, where there are some: those of the circle that is answered of
/// their tables. The only error is want of memory.
pub fn circle(alloc: Global, file: &Numbered) -> Result<Option<Items<u32>>, AllocError>
    requires { ReadsDefined file.now.aig }
    ensures none { IfOk result (λ r. IfNone r (HasRank file.now.aig)) }
    ensures circle { IfOk result (λ r. IfSome r (λ vs. (list_all (has_number (map and_variable file.now.aig.ands)) vs ≡ true) × AnswersCircle (and_tables file.now.aig) (map variable_word vs))) }
{
    if is_in_order(file) {
        return Ok(None);
    }
    circle_of_tables(alloc, file)
}
