//! The first name that is read and never defined.

ghost use Rattle.std.specs.Prelude.{◌≡◌, ◌++◌, ◌∷◌, IfOk, OnOk, find, flat_map, length, map, true};
ghost use Rattle.syn_netlist.specs.Kept.{latches_below};
ghost use Rattle.syn_netlist.specs.Marks.{AreMarks};
ghost use Rattle.syn_netlist.specs.Numbers.{all_below};
ghost use Rattle.syn_netlist.specs.Tables.{tables_below};
ghost use Rattle.syn_netlist.specs.Walk.{is_unmarked, table_inputs, table_output};

use crate::Latch;
use crate::marks::{first_unmarked, marks_of};
use crate::signals::latch_reads;
use crate::tables::Table;
use std::alloc::{AllocError, Global};

// The first input of the tables that isn't marked.
fn first_unmarked_input(marks: &[bool], tables: &[Table]) -> Option<u32>
    requires { tables_below (length marks.now) tables.now ≡ true }
    ensures { result ≡ find (is_unmarked marks.now) (flat_map table_inputs tables.now) }
{
    for table in tables {
        match first_unmarked(marks, table.inputs.as_slice()) {
            Some(n) => return Some(n),
            None => {}
        }
    }
    None
}

/// The first number that isn't marked of the outputs, of what the latches read, and of the tables' inputs.
pub(crate) fn first_read(
    marks: &[bool],
    outputs: &[u32],
    read: &[u32],
    tables: &[Table],
) -> Option<u32>
    requires outputs { all_below (length marks.now) outputs.now ≡ true }
    requires read { all_below (length marks.now) read.now ≡ true }
    requires tables { tables_below (length marks.now) tables.now ≡ true }
    ensures { result ≡ find (is_unmarked marks.now) (outputs.now ++ (read.now ++ flat_map table_inputs tables.now)) }
{
    match first_unmarked(marks, outputs) {
        Some(n) => Some(n),
        None => match first_unmarked(marks, read) {
            Some(n) => Some(n),
            None => first_unmarked_input(marks, tables),
        },
    }
}

// Appends the outputs of the tables.
fn push_outputs(all: &mut Vec<u32>, tables: &[Table]) -> Result<(), AllocError>
    ensures { OnOk result (all.new.items ≡ all.old.items ++ map table_output tables.now) }
{
    for table in tables {
        all.push(table.output)?;
    }
    Ok(())
}

/// Marks of the sources and of the outputs of the tables.
pub(crate) fn defined_marks(
    alloc: Global,
    count: u32,
    mut sources: Vec<u32>,
    tables: &[Table],
) -> Result<Vec<bool>, AllocError>
    requires sources { all_below count sources.items ≡ true }
    requires tables { tables_below count tables.now ≡ true }
    ensures length { IfOk result (λ v. length v.items ≡ count) }
    ensures marks { IfOk result (λ v. AreMarks (sources.items ++ map table_output tables.now) v.items) }
{
    push_outputs(&mut sources, tables)?;
    marks_of(alloc, count, &sources)
}
