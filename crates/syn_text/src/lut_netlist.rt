//! The netlist that a LUT net is written as.

ghost use Rattle.std.specs.Prelude.{◌≡◌, ℕ, ◌+◌, ◌%◌, ◌==◌, ◌^◌, ◌<◌, ◌≤◌, if◌then◌else◌, List, [], ◌∷◌, ◌++◌, filter, length, map, true, IfOk, OnOk};
ghost use Rattle.std.specs.List.{list_all};
ghost use Rattle.syn_netlist.specs.Kept.{rows_fit};
ghost use Rattle.syn_netlist.specs.Lists.{sources};
ghost use Rattle.syn_netlist.specs.Numbers.{all_below, word_at, words_at};
ghost use Rattle.syn_netlist.specs.Tables.{tables_below};
ghost use Rattle.syn_netlist.specs.Values.{HasFunction};
ghost use Rattle.syn_netlist.specs.Views.{frame_in, netlist_in, table_in};
ghost use Rattle.syn_netlist.specs.Faults.{IsChecked};
ghost use Rattle.syn_netlist.specs.Order.{Ordered};
ghost use Rattle.syn_truth.specs.Truth.{value_at};
ghost use Rattle.syn_lutnet.specs.LutData.{luts_function, net_depth, net_gates, none_exceeds, ones_of};
ghost use Rattle.syn_network.specs.NamedLutNets.{IsNamedLutNet};
ghost use Rattle.syn_network.specs.LutShape.{depth_of, gates_of, LutShape, luts_of, observed_of};
ghost use Rattle.syn_network.specs.LutSpelling.{lut_network, lut_table, lut_tables_of, minterm_row};
ghost use Rattle.syn_lutnet.specs.Data.{lut_data, luts_data};
ghost use Rattle.syn_network.specs.WrittenLuts.{network_of};
ghost use Rattle.syn_text.specs.Numbered.{IsNumbered, is_signal, reads_named, signal_number};

use crate::graph_netlist::{NameSet, Naming, joined, name_nodes, push_ends};
use std::alloc::{AllocError, Global};
use syn_lists::Items;
use syn_lutnet::Lut;
use syn_netlist::{Frame, Netlist, Table, Word};
use syn_network::{LutNetwork, frame_over};
use syn_rows::Lit;

// The character of a number's lowest bit.
#[inline]
fn bit_character(n: u32) -> u8
    ensures { result ≡ (if n % 2 == 0 then 48 else 49) }
{
    if n % 2 == 0 { b'0' } else { b'1' }
}

// The row of a minterm of so many inputs: character j shows bit j.
fn minterm_row(alloc: Global, inputs: usize, minterm: u32) -> Result<Vec<u8>, AllocError>
    ensures { IfOk result (λ v. v.items ≡ minterm_row inputs minterm) }
{
    let mut row = Vec::new(alloc);
    let mut rest = minterm;
    for left in (0..inputs).rev() {
        let _ = left;
        row.push(bit_character(rest))?;
        rest /= 2;
    }
    Ok(row)
}

// Adds the row of a minterm where the LUT's function is true there.
fn push_row(alloc: Global, lut: &Lut, minterm: u32, rows: &mut Vec<Word>) -> Result<(), AllocError>
    ensures { OnOk result (rows.new.items ≡ rows.old.items ++ (if value_at lut.now.truth minterm then minterm_row (length lut.now.inputs.items) minterm ∷ [] else [])) }
{
    if lut.is_one(minterm) {
        let row = minterm_row(alloc, lut.inputs.len(), minterm)?;
        rows.push(Word::of(row))?;
    }
    Ok(())
}

// How many minterms a function of so many variables has.
#[inline]
fn minterm_count(vars: u8) -> u32
    requires { vars ≤ 8 }
    ensures { result ≡ 2 ^ vars }
{
    1 << vars
}

// The rows of a LUT's table: one for each minterm at which its function is true, rising.
fn lut_rows(alloc: Global, lut: &Lut) -> Result<Vec<Word>, AllocError>
    ensures { IfOk result (λ v. v.items ≡ map (minterm_row (length lut.now.inputs.items)) (ones_of lut.now.truth)) }
{
    let mut rows = Vec::new(alloc);
    let count = minterm_count(lut.truth.vars);
    for minterm in 0..count {
        push_row(alloc, lut, minterm, &mut rows)?;
    }
    Ok(rows)
}

// The number of the name of a signal.
#[inline]
fn name_of(nodes: &[u32], signal: u32) -> u32
    ensures { result ≡ signal_number nodes.now signal }
{
    let place = signal.saturating_sub(1) as usize;
    if place < nodes.len() { nodes[place] } else { 0 }
}

// The numbers of the names of signals.
fn names_of(alloc: Global, nodes: &[u32], signals: &[u32]) -> Result<Vec<u32>, AllocError>
    ensures { IfOk result (λ v. v.items ≡ map (signal_number nodes.now) signals.now) }
{
    let mut names = Vec::new(alloc);
    for signal in signals {
        names.push(name_of(nodes, *signal))?;
    }
    Ok(names)
}

// The table of a LUT.
fn lut_table(alloc: Global, nodes: &[u32], lut: &Lut, output: u32) -> Result<Table, AllocError>
    requires { list_all (is_signal (length nodes.now)) lut.now.inputs.items ≡ true }
    ensures words { IfOk result (λ t. (names : List (List ℕ)) → table_in names t ≡ lut_table (words_at names nodes.now) (lut_data lut.now) (word_at names output)) }
    ensures below { IfOk result (λ t. (count : ℕ) → all_below count nodes.now ≡ true → output < count → tables_below count (t ∷ []) ≡ true) }
{
    let inputs = names_of(alloc, nodes, lut.inputs.as_slice())?;
    let rows = lut_rows(alloc, lut)?;
    Ok(Table {
        inputs: Items::of(inputs),
        output,
        rows: Items::of(rows),
        on: true,
    })
}

// Adds the table of a LUT.
fn push_lut(
    alloc: Global,
    nodes: &[u32],
    lut: &Lut,
    output: u32,
    tables: &mut Vec<Table>,
) -> Result<(), AllocError>
    requires { list_all (is_signal (length nodes.now)) lut.now.inputs.items ≡ true }
    ensures words { OnOk result ((names : List (List ℕ)) → map (table_in names) tables.new.items ≡ map (table_in names) tables.old.items ++ lut_table (words_at names nodes.now) (lut_data lut.now) (word_at names output) ∷ []) }
    ensures below { OnOk result ((count : ℕ) → all_below count nodes.now ≡ true → output < count → tables_below count tables.old.items ≡ true → tables_below count tables.new.items ≡ true) }
{
    let table = lut_table(alloc, nodes, lut, output)?;
    tables.push(table)?;
    Ok(())
}

// The tables of LUTs, with the names of these numbers.
fn push_luts(
    alloc: Global,
    nodes: &[u32],
    luts: &[Lut],
    outputs: &[u32],
    tables: &mut Vec<Table>,
) -> Result<(), AllocError>
    requires luts { list_all (reads_named (length nodes.now)) (luts_data luts.now) ≡ true }
    requires outputs { length outputs.now ≡ length luts.now }
    ensures words { OnOk result ((names : List (List ℕ)) → map (table_in names) tables.new.items ≡ map (table_in names) tables.old.items ++ lut_tables_of (words_at names nodes.now) (luts_data luts.now) (words_at names outputs.now)) }
    ensures below { OnOk result ((count : ℕ) → all_below count nodes.now ≡ true → all_below count outputs.now ≡ true → tables_below count tables.old.items ≡ true → tables_below count tables.new.items ≡ true) }
{
    for (i, lut) in luts.iter().enumerate() {
        push_lut(alloc, nodes, lut, outputs[i], tables)?;
    }
    Ok(())
}

// Names the LUTs of a net.
fn name_luts<'a>(alloc: Global, frame: &'a Frame, count: usize) -> Result<Naming<'a>, AllocError>
    requires sources { length (sources (frame_in frame.now)) < 2 ^ 32 }
    requires few { length frame.now.names + count < 2 ^ 32 }
    ensures frame { IfOk result (λ n. n.frame.now ≡ frame.now) }
    ensures numbered { IfOk result (λ n. IsNumbered (frame_in frame.now) count frame.now.names n.names n.sources.numbers.items n.signals.items n.inner.items) }
{
    let numbers = frame.sources(alloc)?;
    let sources = NameSet::of(alloc, &frame.names, numbers)?;
    name_nodes(alloc, frame, sources, count)
}

// The tables of a LUT net.
fn tables_of(
    alloc: Global,
    naming: &Naming,
    luts: &[Lut],
    observed: &[Lit],
) -> Result<Vec<Table>, AllocError>
    requires net { IsNamedLutNet (frame_in naming.now.frame.now) (luts_data luts.now) observed.now }
    requires numbered { IsNumbered (frame_in naming.now.frame.now) (length luts.now) naming.now.frame.now.names naming.now.names naming.now.sources.numbers.items naming.now.signals.items naming.now.inner.items }
    ensures words { IfOk result (λ v. map (table_in naming.now.names) v.items ≡ (lut_network (frame_in naming.now.frame.now) (luts_data luts.now) observed.now).tables) }
    ensures below { IfOk result (λ v. tables_below (length naming.now.names) v.items ≡ true) }
{
    let nodes = joined(alloc, &naming.sources.numbers, &naming.inner)?;
    let mut tables = Vec::new(alloc);
    push_luts(alloc, &nodes, luts, &naming.inner, &mut tables)?;
    push_ends(
        alloc,
        &naming.sources,
        &nodes,
        &naming.signals,
        observed,
        &mut tables,
    )?;
    Ok(tables)
}

/// The netlist of a LUT net: a table for each LUT, which lists the minterms at which its function is true, rising, then one
/// for each observed signal that is no source. The names of the frame keep their numbers. The only error is want of memory.
///
/// It takes one row a minterm.
pub fn netlist_of_luts(alloc: Global, net: &LutNetwork) -> Result<Netlist, AllocError>
    ensures network { IfOk result (λ n. netlist_in n ≡ network_of net.now) }
    ensures ordered { IfOk result (λ n. Ordered (netlist_in n)) }
    ensures shape { IfOk result (λ n. (k : ℕ) → none_exceeds k (luts_data net.now.body.luts) ≡ true → LutShape (netlist_in n) k) }
    ensures luts { IfOk result (λ n. luts_of (netlist_in n) ≡ luts_data net.now.body.luts) }
    ensures literals { IfOk result (λ n. observed_of (netlist_in n) ≡ net.now.body.observed) }
    ensures depth { IfOk result (λ n. depth_of (netlist_in n) ≡ net_depth (length (sources (frame_in net.now.frame))) (luts_data net.now.body.luts)) }
    ensures gates { IfOk result (λ n. gates_of (netlist_in n) ≡ net_gates (luts_data net.now.body.luts)) }
    ensures function { IfOk result (λ n. HasFunction (netlist_in n) (luts_function (luts_data net.now.body.luts) net.now.body.observed)) }
    ensures checked { IfOk result (λ n. IsChecked (netlist_in n)) }
{
    syn_network::network_of_luts();
    syn_network::luts_have_function();
    netlist_over(
        alloc,
        &net.frame,
        net.body.luts.as_slice(),
        net.body.observed.as_slice(),
    )
}

// The netlist of a LUT net's parts.
fn netlist_over(
    alloc: Global,
    frame: &Frame,
    luts: &[Lut],
    observed: &[Lit],
) -> Result<Netlist, AllocError>
    requires net { IsNamedLutNet (frame_in frame.now) (luts_data luts.now) observed.now }
    requires sources { length (sources (frame_in frame.now)) < 2 ^ 32 }
    requires few { length frame.now.names + length luts.now < 2 ^ 32 }
    ensures network { IfOk result (λ n. netlist_in n ≡ lut_network (frame_in frame.now) (luts_data luts.now) observed.now) }
{
    let naming = name_luts(alloc, frame, luts.len())?;
    let tables = tables_of(alloc, &naming, luts, observed)?;
    Ok(Netlist {
        frame: frame_over(alloc, frame, naming.names)?,
        tables: Items::of(tables),
    })
}
