//! The latches and tables of all instances, with their names called as in the netlist.

ghost use Rattle.std.specs.Prelude.{◌≡◌, ℕ, ◌++◌, List, flat_map, length, map, true, IfOk, OnOk};
ghost use Rattle.std.specs.List.{AllByRecursion};
ghost use Rattle.syn_models.specs.Calling.{BelowPart, IsMapped, SpelledPart, latches_by, tables_by};
ghost use Rattle.syn_models.specs.Walking.{part_in};
ghost use Rattle.syn_netlist.specs.Kept.{latch_in, latches_below};
ghost use Rattle.syn_netlist.specs.Tables.{table_in, tables_below};

use crate::called_names::{called_latch, called_table};
use crate::hierarchy::StatementKind;
use crate::met::Part;
use std::alloc::{AllocError, Global};
use syn_lists::Items;
use syn_netlist::{Latch, Table};

// Appends the latch that a statement gives, if it is one.
fn push_latch(
    maps: &[Items<u32>],
    part: &Part<'_>,
    latches: &mut Vec<Latch>,
) -> Result<(), AllocError>
    requires { IsMapped maps.now part.now }
    ensures each { OnOk result ((all : List (List ℕ)) (calls : ℕ → List ℕ → List ℕ) → SpelledPart all calls maps.now part.now → map (latch_in all) latches.new.items ≡ map (latch_in all) latches.old.items ++ latches_by calls (part_in part.now)) }
    ensures below { OnOk result ((count : ℕ) → BelowPart count maps.now part.now → latches_below count latches.old.items ≡ true → latches_below count latches.new.items ≡ true) }
{
    match part.kind {
        StatementKind::Latch(latch) => {
            let names = maps[part.place.number].as_slice();
            latches.push(called_latch(names, *latch))?;
            Ok(())
        }
        StatementKind::Inputs(_)
        | StatementKind::Outputs(_)
        | StatementKind::Clock(_)
        | StatementKind::Table(_)
        | StatementKind::Subckt(_) => Ok(()),
    }
}

// Appends the table that a statement gives, if it is one.
fn push_table(
    alloc: Global,
    maps: &[Items<u32>],
    part: &Part<'_>,
    tables: &mut Vec<Table>,
) -> Result<(), AllocError>
    requires { IsMapped maps.now part.now }
    ensures each { OnOk result ((all : List (List ℕ)) (calls : ℕ → List ℕ → List ℕ) → SpelledPart all calls maps.now part.now → map (table_in all) tables.new.items ≡ map (table_in all) tables.old.items ++ tables_by calls (part_in part.now)) }
    ensures below { OnOk result ((count : ℕ) → BelowPart count maps.now part.now → tables_below count tables.old.items ≡ true → tables_below count tables.new.items ≡ true) }
{
    match part.kind {
        StatementKind::Table(table) => {
            let names = maps[part.place.number].as_slice();
            let copy = called_table(alloc, names, table)?;
            tables.push(copy)?;
            Ok(())
        }
        StatementKind::Inputs(_)
        | StatementKind::Outputs(_)
        | StatementKind::Clock(_)
        | StatementKind::Latch(_)
        | StatementKind::Subckt(_) => Ok(()),
    }
}

/// The latches of all instances, in order. The only error is want of memory.
pub(crate) fn all_latches(
    alloc: Global,
    maps: &[Items<u32>],
    parts: &[Part<'_>],
) -> Result<Vec<Latch>, AllocError>
    requires { AllByRecursion (IsMapped maps.now) parts.now }
    ensures each { IfOk result (λ v. (all : List (List ℕ)) (calls : ℕ → List ℕ → List ℕ) → AllByRecursion (SpelledPart all calls maps.now) parts.now → map (latch_in all) v.items ≡ flat_map (latches_by calls) (map part_in parts.now)) }
    ensures below { IfOk result (λ v. (count : ℕ) → AllByRecursion (BelowPart count maps.now) parts.now → latches_below count v.items ≡ true) }
{
    let mut latches = Vec::new(alloc);
    for part in parts {
        push_latch(maps, part, &mut latches)?;
    }
    Ok(latches)
}

/// The tables of all instances, in order. The only error is want of memory.
pub(crate) fn all_tables(
    alloc: Global,
    maps: &[Items<u32>],
    parts: &[Part<'_>],
) -> Result<Vec<Table>, AllocError>
    requires { AllByRecursion (IsMapped maps.now) parts.now }
    ensures each { IfOk result (λ v. (all : List (List ℕ)) (calls : ℕ → List ℕ → List ℕ) → AllByRecursion (SpelledPart all calls maps.now) parts.now → map (table_in all) v.items ≡ flat_map (tables_by calls) (map part_in parts.now)) }
    ensures below { IfOk result (λ v. (count : ℕ) → AllByRecursion (BelowPart count maps.now) parts.now → tables_below count v.items ≡ true) }
{
    let mut tables = Vec::new(alloc);
    for part in parts {
        push_table(alloc, maps, part, &mut tables)?;
    }
    Ok(tables)
}
