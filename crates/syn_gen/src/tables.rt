//! The generated tables, by numbers of signals.

ghost use Rattle.std.specs.Prelude.{◌≡◌, ℕ, ◌+◌, ◌*◌, ◌<◌, ◌≤◌, ◌^◌, ◌&&◌, true, nat_lt, List, [], ◌∷◌, IfOk, OnOk, length, map, flat_map};
ghost use Rattle.syn_netlist.specs.Marks.{AreMarks};
ghost use Rattle.syn_lists.specs.Numbers.{without_numbers};
ghost use Rattle.syn_netlist.specs.Numbers.{all_below};
ghost use Rattle.syn_netlist.specs.Tables.{table_in, tables_below};
ghost use Rattle.syn_netlist.specs.Walk.{table_inputs, table_output};
ghost use Rattle.syn_gen.specs.Draws.{after_draws, drawn};
ghost use Rattle.syn_gen.specs.Generated.{generated_tables, is_true_at, minterm_row, table_of, tables_from, truth_rows};
ghost use Rattle.syn_gen.specs.Signals.{AreSignals};

use crate::draws::{Drawn, Draws};
use crate::names::INPUTS;
use std::alloc::{AllocError, Global};
use syn_lists::Items;
use syn_netlist::{Table, Word};

// How many minterms three variables have.
const MINTERMS: u8 = 8;

// The row of a minterm: input i shows bit i.
fn minterm_row(alloc: Global, minterm: u8) -> Result<Word, AllocError>
    requires { minterm < 8 }
    ensures { IfOk result (λ row. row ≡ minterm_row minterm) }
{
    let bits = [
        b'0' + minterm % 2,
        b'0' + minterm / 2 % 2,
        b'0' + minterm / 4 % 2,
    ];
    Ok(Word::of(Vec::from_slice(alloc, bits.as_slice())?))
}

// The value of a truth at a minterm.
fn is_true_at(truth: u8, minterm: u8) -> bool
    requires { minterm < 8 }
    ensures { result ≡ is_true_at truth minterm }
{
    (truth >> minterm) % 2 == 1
}

// The rows of a truth: its minterms of value 1, rising.
fn truth_rows(alloc: Global, truth: u8) -> Result<Vec<Word>, AllocError>
    ensures { IfOk result (λ rows. rows.items ≡ truth_rows truth) }
{
    let mut rows = Vec::new(alloc);
    for minterm in 0..MINTERMS {
        if is_true_at(truth, minterm) {
            rows.push(minterm_row(alloc, minterm)?)?;
        }
    }
    Ok(rows)
}

// The table of a signal, as it was drawn.
fn table_of(alloc: Global, output: u32, drawn: Drawn) -> Result<Table, AllocError>
    ensures output { IfOk result (λ table. table.output ≡ output) }
    ensures inputs { IfOk result (λ table. table.inputs ≡ drawn.first ∷ drawn.second ∷ drawn.third ∷ []) }
    ensures rows { IfOk result (λ table. table.rows ≡ truth_rows drawn.truth) }
    ensures on { IfOk result (λ table. table.on ≡ true) }
{
    let inputs = [drawn.first, drawn.second, drawn.third];
    Ok(Table {
        inputs: Items::of(Vec::from_slice(alloc, inputs.as_slice())?),
        output,
        rows: Items::of(truth_rows(alloc, drawn.truth)?),
        on: true,
    })
}

/// The tables of a seed and a size.
pub(crate) fn draw_tables(alloc: Global, seed: u64, size: u32) -> Result<Vec<Table>, AllocError>
    requires { 16 + size < 2 ^ 32 }
    ensures tables { IfOk result (λ v. (names : List (List ℕ)) → AreSignals (16 + size) names → map (table_in names) v.items ≡ generated_tables seed size) }
    ensures below { IfOk result (λ v. tables_below (16 + size) v.items ≡ true) }
{
    let mut draws = Draws { state: seed };
    let mut tables = Vec::with_capacity(alloc, size as usize)?;
    for output in INPUTS..INPUTS + size {
        let drawn = draws.table(output);
        tables.push(table_of(alloc, output, drawn)?)?;
    }
    Ok(tables)
}

/// The signals that the tables read, in order.
pub(crate) fn signals_read(alloc: Global, tables: &[Table]) -> Result<Vec<u32>, AllocError>
    ensures { IfOk result (λ v. v.items ≡ flat_map table_inputs tables.now) }
{
    let mut signals = Vec::new(alloc);
    for table in tables {
        signals.extend_from_slice(table.inputs.as_slice())?;
    }
    Ok(signals)
}

/// The outputs of the tables that aren't marked, in order.
pub(crate) fn unmarked_outputs(
    alloc: Global,
    tables: &[Table],
    marks: &[bool],
) -> Result<Vec<u32>, AllocError>
    requires { tables_below (length marks.now) tables.now ≡ true }
    ensures { IfOk result (λ v. (numbers : List ℕ) → AreMarks numbers marks.now → v.items ≡ without_numbers numbers (map table_output tables.now)) }
{
    let mut outputs = Vec::new(alloc);
    for table in tables {
        if !marks[table.output as usize] {
            outputs.push(table.output)?;
        }
    }
    Ok(outputs)
}
