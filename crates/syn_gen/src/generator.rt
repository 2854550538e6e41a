//! The generated netlist.

ghost use Rattle.std.specs.Prelude.{◌≡◌, ◌+◌, ◌<◌, ◌≤◌, ◌^◌, true, [], IfOk, codes, length, map};
ghost use Rattle.syn_netlist.specs.Numbers.{words_at};
ghost use Rattle.syn_netlist.specs.Tables.{table_in, tables_below};
ghost use Rattle.syn_netlist.specs.Views.{netlist_in};
ghost use Rattle.syn_gen.specs.Generated.{generated, signals, unread};

use crate::names::{INPUTS, input_numbers, signal_names};
use crate::tables::{draw_tables, signals_read, unmarked_outputs};
use std::alloc::{AllocError, Global};
use syn_lists::Items;
use syn_netlist::{Frame, Names, Netlist, Table, Word, marks_of};

// The frame over so many signals, with the outputs of the tables that none of them reads.
fn frame_over(
    alloc: Global,
    names: Names,
    count: u32,
    tables: &[Table],
) -> Result<Frame, AllocError>
    requires inputs { 16 ≤ count }
    requires names { names ≡ signals count }
    requires below { tables_below count tables.now ≡ true }
    ensures names { IfOk result (λ frame. frame.names ≡ signals count) }
    ensures model { IfOk result (λ frame. frame.model ≡ codes "gen") }
    ensures inputs { IfOk result (λ frame. words_at frame.names frame.inputs ≡ signals 16) }
    ensures clocks { IfOk result (λ frame. frame.clocks ≡ []) }
    ensures outputs { IfOk result (λ frame. words_at frame.names frame.outputs ≡ unread (map (table_in frame.names) tables.now)) }
    ensures latches { IfOk result (λ frame. frame.latches ≡ []) }
{
    let read = signals_read(alloc, tables)?;
    let marks = marks_of(alloc, count, read.as_slice())?;
    let outputs = unmarked_outputs(alloc, tables, marks.as_slice())?;
    Ok(Frame {
        names,
        model: Word::of(Vec::from_slice(alloc, b"gen")?),
        inputs: Items::of(input_numbers(alloc)?),
        clocks: Items::of(Vec::new(alloc)),
        outputs: Items::of(outputs),
        latches: Items::of(Vec::new(alloc)),
    })
}

/// The netlist of a seed and a size: so many tables of three inputs, drawn from the seed, over sixteen inputs; the outputs
/// are the tables that no table reads. The only error is want of memory.
pub fn generate(alloc: Global, seed: u64, size: u32) -> Result<Netlist, AllocError>
    requires { size < 2 ^ 31 }
    ensures generated { IfOk result (λ netlist. netlist_in netlist ≡ generated seed size) }
    ensures names { IfOk result (λ netlist. length netlist.frame.names ≡ 16 + size) }
{
    let tables = draw_tables(alloc, seed, size)?;
    let names = signal_names(alloc, INPUTS + size)?;
    let frame = frame_over(alloc, names, INPUTS + size, tables.as_slice())?;
    Ok(Netlist {
        frame,
        tables: Items::of(tables),
    })
}
