//! The first fault of subcircuits, by line.

ghost use Rattle.std.specs.Prelude.{◌≡◌, ◌++◌, ◌∷◌, List, [], flat_map, length, true, IfNone, IfOk, OnOk};
ghost use Rattle.std.specs.List.{list_all};
ghost use Rattle.syn_models.specs.FlatFaults.{checks, defined_in, first_of_models, first_of_statements, statement_fault};
ghost use Rattle.syn_models.specs.Files.{IsFile, all_in};
ghost use Rattle.syn_models.specs.Kept.{is_spelled, kind_in, numbers_in, statement_in};
ghost use Rattle.syn_models.specs.Listed.{plain_in, plain_numbers};
ghost use Rattle.syn_models.specs.Marked.{Marked, above_of, defined_before};
ghost use Rattle.syn_models.specs.Models as models;
ghost use Rattle.syn_models.specs.Models.{binds_once, subcircuits_in};
ghost use Rattle.syn_models.specs.Views.{model_in};
ghost use Rattle.syn_netlist.specs.Numbers.{all_below};

use crate::FlatFault;
use crate::files::File;
use crate::hierarchy::{Model, Statement, StatementKind};
use crate::sites::subcircuit_fault;
use std::alloc::{AllocError, Global};
use syn_netlist::{Names, marks_of};

// Appends the numbers of the names that a statement defines by itself.
fn push_plain(numbers: &mut Vec<u32>, kind: &StatementKind) -> Result<(), AllocError>
    ensures { OnOk result (numbers.new.items ≡ numbers.old.items ++ plain_numbers kind.now) }
{
    match kind {
        StatementKind::Inputs(inputs) => numbers.extend_from_slice(inputs.as_slice())?,
        StatementKind::Clock(clocks) => numbers.extend_from_slice(clocks.as_slice())?,
        StatementKind::Latch(latch) => numbers.push(latch.output)?,
        StatementKind::Table(table) => numbers.push(table.output)?,
        StatementKind::Outputs(_) | StatementKind::Subckt(_) => {}
    }
    Ok(())
}

// The numbers of the names that statements define by themselves.
fn all_plain(alloc: Global, statements: &[Statement]) -> Result<Vec<u32>, AllocError>
    ensures { IfOk result (λ v. v.items ≡ flat_map plain_in statements.now) }
{
    let mut numbers = Vec::new(alloc);
    for s in statements {
        push_plain(&mut numbers, &s.kind)?;
    }
    Ok(numbers)
}

// Marks of the names that a model defines by itself.
fn plain_marks(alloc: Global, m: &Model) -> Result<Vec<bool>, AllocError>
    ensures { IfOk result (λ v. (all : List models.Model) → Marked m.now.names (defined_before all (model_in m.now) []) v.items) }
{
    let numbers = all_plain(alloc, m.statements.as_slice())?;
    let marks = marks_of(alloc, m.names.len(), &numbers)?;
    Ok(marks)
}

// The first fault of a statement. If there is none, all names that it defines are marked.
fn statement_fault(
    alloc: Global,
    file: &File<'_>,
    home: &Names,
    s: &Statement,
    marks: &mut [bool],
) -> Result<Option<FlatFault>, AllocError>
    requires file { IsFile file.now }
    requires below { all_below (length home.now) (numbers_in s.now.kind) ≡ true }
    requires size { length marks.old ≡ length home.now }
    requires spelled { list_all is_spelled (subcircuits_in (kind_in home.now s.now.kind)) ≡ true }
    requires once { list_all binds_once (subcircuits_in (kind_in home.now s.now.kind)) ≡ true }
    ensures found { IfOk result (λ r. (m : models.Model) (above : List models.Statement) → Marked home.now (defined_before (all_in file.now) m above) marks.old → r ≡ statement_fault checks (all_in file.now) m above s.now.line (kind_in home.now s.now.kind)) }
    ensures marked { IfOk result (λ r. IfNone r ((m : models.Model) (above : List models.Statement) → Marked home.now (defined_before (all_in file.now) m above) marks.old → Marked home.now (defined_before (all_in file.now) m (statement_in home.now s.now ∷ above)) marks.new)) }
{
    match &s.kind {
        StatementKind::Subckt(c) => match subcircuit_fault(alloc, file, home, s.line, c, marks)? {
            Some(fault) => Ok(Some(fault)),
            None => Ok(None),
        },
        StatementKind::Inputs(_)
        | StatementKind::Outputs(_)
        | StatementKind::Clock(_)
        | StatementKind::Latch(_)
        | StatementKind::Table(_) => Ok(None),
    }
}

// The first fault of a model's statements, where the names that it defines by itself are marked. If there is none, all names
// that it defines are marked.
fn statements_fault(
    alloc: Global,
    file: &File<'_>,
    m: &Model,
    marks: &mut [bool],
) -> Result<Option<FlatFault>, AllocError>
    requires file { IsFile file.now }
    requires marked { Marked m.now.names (defined_before (all_in file.now) (model_in m.now) []) marks.old }
    ensures found { IfOk result (λ r. r ≡ first_of_statements checks (all_in file.now) (model_in m.now) [] (model_in m.now).statements) }
    ensures marked { IfOk result (λ r. IfNone r (Marked m.now.names (defined_before (all_in file.now) (model_in m.now) (above_of [] (model_in m.now).statements)) marks.new)) }
{
    for s in m.statements.as_slice() {
        if let Some(fault) = statement_fault(alloc, file, &m.names, s, marks)? {
            return Ok(Some(fault));
        }
    }
    Ok(None)
}

// The first fault of a subcircuit in a model.
fn model_fault(alloc: Global, file: &File<'_>, m: &Model) -> Result<Option<FlatFault>, AllocError>
    requires { IsFile file.now }
    ensures { IfOk result (λ r. r ≡ first_of_statements checks (all_in file.now) (model_in m.now) [] (model_in m.now).statements) }
{
    let mut marks = plain_marks(alloc, m)?;
    statements_fault(alloc, file, m, marks.as_mut_slice())
}

// Marks all names that a model defines, in which no subcircuit has a fault, where those are marked that it defines by itself.
fn mark_defined(
    alloc: Global,
    file: &File<'_>,
    m: &Model,
    marks: &mut [bool],
) -> Result<(), AllocError>
    requires file { IsFile file.now }
    requires marked { Marked m.now.names (defined_before (all_in file.now) (model_in m.now) []) marks.old }
    requires none { first_of_statements checks (all_in file.now) (model_in m.now) [] (model_in m.now).statements ≡ None }
    ensures { OnOk result (Marked m.now.names (defined_in (all_in file.now) (model_in m.now)) marks.new) }
{
    let _none = statements_fault(alloc, file, m, marks)?;
    Ok(())
}

/// Marks of the names that a model defines, in which no subcircuit has a fault. The only error is want of memory.
pub(crate) fn model_marks(
    alloc: Global,
    file: &File<'_>,
    m: &Model,
) -> Result<Vec<bool>, AllocError>
    requires file { IsFile file.now }
    requires none { first_of_statements checks (all_in file.now) (model_in m.now) [] (model_in m.now).statements ≡ None }
    ensures { IfOk result (λ v. Marked m.now.names (defined_in (all_in file.now) (model_in m.now)) v.items) }
{
    let mut marks = plain_marks(alloc, m)?;
    mark_defined(alloc, file, m, marks.as_mut_slice())?;
    Ok(marks)
}

/// The first fault of a subcircuit, by line, in the models of a file. The only error is want of memory.
pub(crate) fn first_subcircuit_fault(
    alloc: Global,
    file: &File<'_>,
) -> Result<Option<FlatFault>, AllocError>
    requires { IsFile file.now }
    ensures { IfOk result (λ r. r ≡ first_of_models checks (all_in file.now) (all_in file.now)) }
{
    for m in file.models {
        if let Some(fault) = model_fault(alloc, file, m)? {
            return Ok(Some(fault));
        }
    }
    Ok(None)
}
