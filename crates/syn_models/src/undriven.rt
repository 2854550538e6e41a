//! The first name that is read and never defined, model by model.

ghost use Rattle.std.specs.Prelude.{◌≡◌, ◌<◌, ◌++◌, ◌∷◌, [], find, flat_map, length, true, IfOk, IfSome, None, OnOk, Some};
ghost use Rattle.syn_models.specs.FlatFaults.{checks, first_of_models, first_of_statements, first_undriven, undriven_in};
ghost use Rattle.syn_models.specs.Files.{IsFile, all_in};
ghost use Rattle.syn_models.specs.Listed.{ArePorts};
ghost use Rattle.syn_models.specs.Models.{model_named};
ghost use Rattle.syn_models.specs.Reading.{bound_numbers, numbers_read, read_in};
ghost use Rattle.syn_models.specs.Views.{model_in};
ghost use Rattle.syn_netlist.specs.Marks.{read_numbers};
ghost use Rattle.syn_netlist.specs.Numbers.{all_below};
ghost use Rattle.syn_netlist.specs.Walk.{is_unmarked};

use crate::files::File;
use crate::first_fault::model_marks;
use crate::hierarchy::{Bind, Model, Statement, StatementKind, Subcircuit};
use crate::ports::{Ports, is_reading, number_named};
use std::alloc::{AllocError, Global};
use syn_netlist::{Latch, Word, first_unmarked};

// Appends the actual of a bind whose formal reads.
fn push_reading(
    m: &Model,
    ports: &Ports,
    b: &Bind,
    numbers: &mut Vec<u32>,
) -> Result<(), AllocError>
    requires { ArePorts m.now ports.now }
    ensures { OnOk result (numbers.new.items ≡ numbers.old.items ++ bound_numbers (b.now ∷ []) (Some (model_in m.now))) }
{
    if is_reading(m, ports, b.formal.as_slice()) {
        numbers.push(b.actual)?;
    }
    Ok(())
}

// Appends the actuals of all binds whose formals read.
fn push_bound(
    m: &Model,
    ports: &Ports,
    binds: &[Bind],
    numbers: &mut Vec<u32>,
) -> Result<(), AllocError>
    requires { ArePorts m.now ports.now }
    ensures { OnOk result (numbers.new.items ≡ numbers.old.items ++ bound_numbers binds.now (Some (model_in m.now))) }
{
    for b in binds {
        push_reading(m, ports, b, numbers)?;
    }
    Ok(())
}

// Appends the actuals that a subcircuit reads.
fn push_subcircuit(
    file: &File<'_>,
    c: &Subcircuit,
    numbers: &mut Vec<u32>,
) -> Result<(), AllocError>
    requires { IsFile file.now }
    ensures { OnOk result (numbers.new.items ≡ numbers.old.items ++ bound_numbers c.now.binds (model_named (all_in file.now) c.now.model)) }
{
    match number_named(file.models, &file.names, c.model.as_slice()) {
        Some(number) => {
            let m = &file.models[number as usize];
            let ports = &file.ports.as_slice()[number as usize];
            push_bound(m, ports, c.binds.as_slice(), numbers)
        }
        None => Ok(()),
    }
}

// Appends what a latch reads.
fn push_latch(latch: Latch, numbers: &mut Vec<u32>) -> Result<(), AllocError>
    ensures { OnOk result (numbers.new.items ≡ numbers.old.items ++ read_numbers latch) }
{
    numbers.push(latch.feed)?;
    if let Some((_, Some(control))) = latch.kind {
        numbers.push(control)?;
    }
    Ok(())
}

// Appends what a statement reads, in word order.
fn push_reads(
    file: &File<'_>,
    kind: &StatementKind,
    numbers: &mut Vec<u32>,
) -> Result<(), AllocError>
    requires { IsFile file.now }
    ensures { OnOk result (numbers.new.items ≡ numbers.old.items ++ numbers_read (all_in file.now) kind.now) }
{
    match kind {
        StatementKind::Outputs(outputs) => numbers.extend_from_slice(outputs.as_slice())?,
        StatementKind::Latch(latch) => push_latch(*latch, numbers)?,
        StatementKind::Table(table) => numbers.extend_from_slice(table.inputs.as_slice())?,
        StatementKind::Subckt(c) => push_subcircuit(file, c, numbers)?,
        StatementKind::Inputs(_) | StatementKind::Clock(_) => {}
    }
    Ok(())
}

// What statements read, by line and word.
fn all_reads(
    alloc: Global,
    file: &File<'_>,
    statements: &[Statement],
) -> Result<Vec<u32>, AllocError>
    requires { IsFile file.now }
    ensures { IfOk result (λ v. v.items ≡ flat_map (read_in (all_in file.now)) statements.now) }
{
    let mut numbers = Vec::new(alloc);
    for s in statements {
        push_reads(file, &s.kind, &mut numbers)?;
    }
    Ok(numbers)
}

// The first name that a model reads and never defines, by line and word.
fn model_undriven(alloc: Global, file: &File<'_>, m: &Model) -> Result<Option<Word>, AllocError>
    requires file { IsFile file.now }
    requires none { first_of_statements checks (all_in file.now) (model_in m.now) [] (model_in m.now).statements ≡ None }
    ensures { IfOk result (λ r. r ≡ undriven_in (all_in file.now) (model_in m.now)) }
{
    let marks = model_marks(alloc, file, m)?;
    let reads = all_reads(alloc, file, m.statements.as_slice())?;
    match first_unmarked(marks.as_slice(), reads.as_slice()) {
        Some(name) => Ok(Some(Word::of(m.names.word(name).to_vec(alloc)?))),
        None => Ok(None),
    }
}

/// The first name, by model, line and word, that is read and never defined in its model, where no subcircuit has a fault.
/// The only error is want of memory.
pub(crate) fn first_undriven_name(
    alloc: Global,
    file: &File<'_>,
) -> Result<Option<Word>, AllocError>
    requires file { IsFile file.now }
    requires none { first_of_models checks (all_in file.now) (all_in file.now) ≡ None }
    ensures { IfOk result (λ r. r ≡ first_undriven (all_in file.now) (all_in file.now)) }
{
    for m in file.models {
        if let Some(name) = model_undriven(alloc, file, m)? {
            return Ok(Some(name));
        }
    }
    Ok(None)
}
