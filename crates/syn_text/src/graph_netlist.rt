//! The netlist that a graph is written as.

ghost use Rattle.std.specs.Prelude.{◌≡◌, ℕ, ◌+◌, ◌^◌, ◌<◌, ◌≤◌, if◌then◌else◌, List, [], ◌∷◌, ◌++◌, length, map, true, false, IfOk, OnOk};
ghost use Rattle.std.specs.List.{list_all};
ghost use Rattle.syn_rows.specs.Rows.{node_of};
ghost use Rattle.syn_netlist.specs.Kept.{is_row_character};
ghost use Rattle.syn_netlist.specs.Lists.{sources};
ghost use Rattle.syn_netlist.specs.Marks.{AreMarks};
ghost use Rattle.syn_netlist.specs.Numbers.{all_below, Grows, word_at, words_at};
ghost use Rattle.syn_netlist.specs.Tables.{tables_below};
ghost use Rattle.syn_netlist.specs.Views.{frame_in, netlist_in, table_in};
ghost use Rattle.syn_netlist.specs.Words.{distinct, has_word, is_word};
ghost use Rattle.syn_netlist.specs.Faults.{IsChecked};
ghost use Rattle.syn_netlist.specs.Order.{Ordered};
ghost use Rattle.syn_network.specs.GraphShape.{GraphShape, observed_of, rows_of};
ghost use Rattle.syn_network.specs.NamedGraphs.{IsNamedGraph};
ghost use Rattle.syn_network.specs.Spelling.{output_table, ends_from, gate_table, gate_tables, gates_of, inner_names, inner_word, network, sign_of};
ghost use Rattle.syn_network.specs.Written.{network_of};
ghost use Rattle.syn_text.specs.Numbered.{IsNumbered, is_named, is_named_gate, is_within, number_of};

use itoa::Buffer;
use std::alloc::{AllocError, Global};
use syn_lists::Items;
use syn_netlist::{Frame, Names, Netlist, Table, Word, marks_of};
use syn_network::{Network, copy_names, frame_over};
use syn_rows::{Lit, Row};

/// Some of the names, by their numbers.
#[derive(Drop)]
pub(crate) struct NameSet<'a> {
    pub(crate) names: &'a Names,
    pub(crate) numbers: Vec<u32>,
    marks: Vec<bool>,
    ghost distinct: { distinct names.now ≡ true },
    ghost below: { all_below (length names.now) numbers.items ≡ true },
    ghost count: { length marks.items ≡ length names.now },
    ghost marked: { AreMarks numbers.items marks.items },
}

impl<'a> NameSet<'a> {
    pub(crate) fn of(
        alloc: Global,
        names: &'a Names,
        numbers: Vec<u32>,
    ) -> Result<NameSet<'a>, AllocError>
        requires { all_below (length names.now) numbers.items ≡ true }
        ensures names { IfOk result (λ s. s.names.now ≡ names.now) }
        ensures numbers { IfOk result (λ s. s.numbers.items ≡ numbers.items) }
    {
        let marks = marks_of(alloc, names.len(), &numbers)?;
        Ok(NameSet {
            names,
            numbers,
            marks,
        })
    }

    // Whether the name of a number is in the set.
    fn has(&self, number: u32) -> bool
        requires { number < length self.now.names.now }
        ensures { result ≡ has_word (words_at self.now.names.now self.now.numbers.items) (word_at self.now.names.now number) }
    {
        self.marks[number as usize]
    }

    // Whether a word is in the set.
    fn has_word(&self, word: &[u8]) -> bool
        ensures { result ≡ has_word (words_at self.now.names.now self.now.numbers.items) word.now }
    {
        match self.names.find(word) {
            Some(number) => self.has(number),
            None => false,
        }
    }
}

// The word of an inner node.
fn inner_word(alloc: Global, k: u64) -> Result<Vec<u8>, AllocError>
    requires { 0 < k }
    ensures { IfOk result (λ v. v.items ≡ inner_word k) }
{
    let mut buffer = Buffer::new();
    let mut word = Vec::from_slice(alloc, b"n")?;
    word.extend_from_slice(buffer.format(k).as_bytes())?;
    Ok(word)
}

// Adds a word to the names, and its number among them to the numbers.
fn push_name(
    alloc: Global,
    word: &[u8],
    names: &mut Names,
    numbers: &mut Vec<u32>,
) -> Result<(), AllocError>
    requires word { is_word word.now ≡ true }
    requires few { length names.old + 1 < 2 ^ 32 }
    requires below { all_below (length names.old) numbers.old.items ≡ true }
    ensures words { OnOk result (words_at names.new numbers.new.items ≡ words_at names.old numbers.old.items ++ word.now ∷ []) }
    ensures below { OnOk result (all_below (length names.new) numbers.new.items ≡ true) }
    ensures grows { OnOk result (Grows names.old names.new) }
    ensures few { OnOk result (length names.new ≤ length names.old + 1) }
    ensures one { OnOk result (length numbers.new.items ≡ length numbers.old.items + 1) }
{
    let number = names.add(alloc, word)?;
    numbers.push(number)?;
    Ok(())
}

// Adds the inner name of k, where it is not taken, to the names, and its number among them to the numbers.
fn add_inner_name(
    alloc: Global,
    taken: &NameSet,
    k: u64,
    names: &mut Names,
    numbers: &mut Vec<u32>,
) -> Result<(), AllocError>
    requires positive { 0 < k }
    requires few { length names.old + 1 < 2 ^ 32 }
    requires below { all_below (length names.old) numbers.old.items ≡ true }
    ensures words { OnOk result (words_at names.new numbers.new.items ≡ words_at names.old numbers.old.items ++ (if has_word (words_at taken.now.names.now taken.now.numbers.items) (inner_word k) then [] else inner_word k ∷ [])) }
    ensures below { OnOk result (all_below (length names.new) numbers.new.items ≡ true) }
    ensures grows { OnOk result (Grows names.old names.new) }
    ensures few { OnOk result (length names.new + length numbers.old.items ≤ length names.old + length numbers.new.items) }
    ensures one { OnOk result (length numbers.new.items ≤ length numbers.old.items + 1) }
{
    let word = inner_word(alloc, k)?;
    if taken.has_word(&word) {
        Ok(())
    } else {
        push_name(alloc, &word, names, numbers)
    }
}

// Adds so many inner names that are not taken, and gives their numbers.
fn add_inner_names(
    alloc: Global,
    taken: &NameSet,
    count: usize,
    names: &mut Names,
) -> Result<Vec<u32>, AllocError>
    requires few { length names.old + count < 2 ^ 32 }
    requires taken { length taken.now.numbers.items < 2 ^ 34 }
    ensures words { IfOk result (λ v. words_at names.new v.items ≡ inner_names (words_at taken.now.names.now taken.now.numbers.items) count) }
    ensures below { IfOk result (λ v. all_below (length names.new) v.items ≡ true) }
    ensures grows { OnOk result (Grows names.old names.new) }
{
    let mut numbers = Vec::new(alloc);
    let mut k = 1;
    'seek: while numbers.len() < count {
        add_inner_name(alloc, taken, k, names, &mut numbers)?;
        k += 1;
    }
    Ok(numbers)
}

// The number of the name of a literal's node.
fn name_of(nodes: &[u32], lit: Lit) -> u32
    requires { is_named (length nodes.now) lit ≡ true }
    ensures { result ≡ number_of nodes.now lit }
{
    nodes[lit.node() as usize - 1]
}

// The character of a literal: `1` where it is plain.
fn sign(lit: Lit) -> u8
    ensures sign { result ≡ sign_of lit }
    ensures character { is_row_character result ≡ true }
{
    if lit.complemented() { b'0' } else { b'1' }
}

// The table of an AND.
fn gate_table(
    alloc: Global,
    nodes: &[u32],
    a: Lit,
    b: Lit,
    output: u32,
) -> Result<Table, AllocError>
    requires first { is_named (length nodes.now) a ≡ true }
    requires second { is_named (length nodes.now) b ≡ true }
    ensures inputs { IfOk result (λ t. t.inputs ≡ number_of nodes.now a ∷ number_of nodes.now b ∷ []) }
    ensures output { IfOk result (λ t. t.output ≡ output) }
    ensures rows { IfOk result (λ t. t.rows ≡ (sign_of a ∷ sign_of b ∷ []) ∷ []) }
    ensures on { IfOk result (λ t. t.on ≡ true) }
{
    let inputs = vec![in alloc; name_of(nodes, a), name_of(nodes, b)]?;
    let row = vec![in alloc; sign(a), sign(b)]?;
    let rows = vec![in alloc; Word::of(row)]?;
    Ok(Table {
        inputs: Items::of(inputs),
        output,
        rows: Items::of(rows),
        on: true,
    })
}

// A table of a constant.
fn constant_table(alloc: Global, value: bool, output: u32) -> Result<Table, AllocError>
    ensures inputs { IfOk result (λ t. t.inputs ≡ []) }
    ensures output { IfOk result (λ t. t.output ≡ output) }
    ensures rows { IfOk result (λ t. t.rows ≡ (if value then [] ∷ [] else [])) }
    ensures on { IfOk result (λ t. t.on ≡ true) }
{
    let mut rows = Vec::new(alloc);
    if value {
        rows.push(Word::of(Vec::new(alloc)))?;
    }
    Ok(Table {
        inputs: Items::of(Vec::new(alloc)),
        output,
        rows: Items::of(rows),
        on: true,
    })
}

// A table that gives a named literal.
fn buffer_table(alloc: Global, nodes: &[u32], lit: Lit, output: u32) -> Result<Table, AllocError>
    requires { is_named (length nodes.now) lit ≡ true }
    ensures inputs { IfOk result (λ t. t.inputs ≡ number_of nodes.now lit ∷ []) }
    ensures output { IfOk result (λ t. t.output ≡ output) }
    ensures rows { IfOk result (λ t. t.rows ≡ (sign_of lit ∷ []) ∷ []) }
    ensures on { IfOk result (λ t. t.on ≡ true) }
{
    let inputs = vec![in alloc; name_of(nodes, lit)]?;
    let row = vec![in alloc; sign(lit)]?;
    let rows = vec![in alloc; Word::of(row)]?;
    Ok(Table {
        inputs: Items::of(inputs),
        output,
        rows: Items::of(rows),
        on: true,
    })
}

// The table of an observed signal, from its literal.
fn output_table(alloc: Global, nodes: &[u32], lit: Lit, output: u32) -> Result<Table, AllocError>
    requires { is_within (length nodes.now) lit ≡ true }
    ensures words { IfOk result (λ t. (names : List (List ℕ)) → table_in names t ≡ output_table (words_at names nodes.now) (word_at names output) lit) }
    ensures below { IfOk result (λ t. (count : ℕ) → all_below count nodes.now ≡ true → output < count → tables_below count (t ∷ []) ≡ true) }
{
    if lit.node() == 0 {
        constant_table(alloc, lit.complemented(), output)
    } else {
        buffer_table(alloc, nodes, lit, output)
    }
}

// The table of an AND; other rows have none.
fn push_gate(
    alloc: Global,
    nodes: &[u32],
    row: Row,
    output: u32,
    tables: &mut Vec<Table>,
) -> Result<(), AllocError>
    requires { is_named_gate (length nodes.now) row ≡ true }
    ensures words { OnOk result ((names : List (List ℕ)) → map (table_in names) tables.new.items ≡ map (table_in names) tables.old.items ++ gate_table (words_at names nodes.now) row (word_at names output)) }
    ensures below { OnOk result ((count : ℕ) → all_below count nodes.now ≡ true → output < count → tables_below count tables.old.items ≡ true → tables_below count tables.new.items ≡ true) }
{
    if let Row::And(a, b) = row {
        tables.push(gate_table(alloc, nodes, a, b, output)?)?;
    }
    Ok(())
}

// The tables of ANDs, with the names of these numbers.
fn push_gates(
    alloc: Global,
    nodes: &[u32],
    rows: &[Row],
    outputs: &[u32],
    tables: &mut Vec<Table>,
) -> Result<(), AllocError>
    requires gates { list_all (is_named_gate (length nodes.now)) rows.now ≡ true }
    requires outputs { length outputs.now ≡ length rows.now }
    ensures words { OnOk result ((names : List (List ℕ)) → map (table_in names) tables.new.items ≡ map (table_in names) tables.old.items ++ gate_tables (words_at names nodes.now) rows.now (words_at names outputs.now)) }
    ensures below { OnOk result ((count : ℕ) → all_below count nodes.now ≡ true → all_below count outputs.now ≡ true → tables_below count tables.old.items ≡ true → tables_below count tables.new.items ≡ true) }
{
    for (i, row) in rows.iter().enumerate() {
        push_gate(alloc, nodes, *row, outputs[i], tables)?;
    }
    Ok(())
}

// The table of an observed signal, where it is no source.
fn push_end(
    alloc: Global,
    sources: &NameSet,
    nodes: &[u32],
    signal: u32,
    lit: Lit,
    tables: &mut Vec<Table>,
) -> Result<(), AllocError>
    requires signal { signal < length sources.now.names.now }
    requires within { is_within (length nodes.now) lit ≡ true }
    ensures words { OnOk result ((names : List (List ℕ)) → map (table_in names) tables.new.items ≡ map (table_in names) tables.old.items ++ (if has_word (words_at sources.now.names.now sources.now.numbers.items) (word_at sources.now.names.now signal) then [] else output_table (words_at names nodes.now) (word_at names signal) lit ∷ [])) }
    ensures below { OnOk result ((count : ℕ) → all_below count nodes.now ≡ true → signal < count → tables_below count tables.old.items ≡ true → tables_below count tables.new.items ≡ true) }
{
    if sources.has(signal) {
        Ok(())
    } else {
        tables.push(output_table(alloc, nodes, lit, signal)?)?;
        Ok(())
    }
}

// The tables of the observed signals that are no sources.
pub(crate) fn push_ends(
    alloc: Global,
    sources: &NameSet,
    nodes: &[u32],
    signals: &[u32],
    observed: &[Lit],
    tables: &mut Vec<Table>,
) -> Result<(), AllocError>
    requires signals { all_below (length sources.now.names.now) signals.now ≡ true }
    requires count { length observed.now ≡ length signals.now }
    requires within { list_all (is_within (length nodes.now)) observed.now ≡ true }
    ensures words { OnOk result ((names : List (List ℕ)) → Grows sources.now.names.now names → map (table_in names) tables.new.items ≡ map (table_in names) tables.old.items ++ ends_from (words_at sources.now.names.now sources.now.numbers.items) (words_at names nodes.now) (words_at names signals.now) observed.now) }
    ensures below { OnOk result ((count : ℕ) → all_below count nodes.now ≡ true → all_below count signals.now ≡ true → tables_below count tables.old.items ≡ true → tables_below count tables.new.items ≡ true) }
{
    for (i, signal) in signals.iter().enumerate() {
        push_end(alloc, sources, nodes, *signal, observed[i], tables)?;
    }
    Ok(())
}

// The first numbers, then the second.
pub(crate) fn joined(alloc: Global, first: &[u32], second: &[u32]) -> Result<Vec<u32>, AllocError>
    ensures { IfOk result (λ v. v.items ≡ first.now ++ second.now) }
{
    let mut all = Vec::from_slice(alloc, first)?;
    all.extend_from_slice(second)?;
    Ok(all)
}

/// The names of a frame with inner names behind them, and the numbers of those that a graph's netlist has.
#[derive(Drop)]
pub(crate) struct Naming<'a> {
    pub(crate) frame: &'a Frame,
    pub(crate) names: Names,
    pub(crate) sources: NameSet<'a>,
    pub(crate) signals: Vec<u32>,
    pub(crate) inner: Vec<u32>,
    ghost same: { sources.names.now ≡ frame.now.names },
}

/// Names so many inner nodes over the sources of a frame.
pub(crate) fn name_nodes<'a>(
    alloc: Global,
    frame: &'a Frame,
    known: NameSet<'a>,
    count: usize,
) -> Result<Naming<'a>, AllocError>
    requires same { known.names.now ≡ frame.now.names }
    requires words { words_at frame.now.names known.numbers.items ≡ sources (frame_in frame.now) }
    requires few_sources { length known.numbers.items < 2 ^ 32 }
    requires few { length frame.now.names + count < 2 ^ 32 }
    ensures frame { IfOk result (λ n. n.frame.now ≡ frame.now) }
    ensures numbered { IfOk result (λ n. IsNumbered (frame_in frame.now) count frame.now.names n.names n.sources.numbers.items n.signals.items n.inner.items) }
{
    let signals = frame.observed(alloc)?;
    let taken = joined(alloc, &known.numbers, &signals)?;
    let taken = NameSet::of(alloc, &frame.names, taken)?;
    let mut names = copy_names(alloc, &frame.names)?;
    let inner = add_inner_names(alloc, &taken, count, &mut names)?;
    Ok(Naming {
        frame,
        names,
        sources: known,
        signals,
        inner,
    })
}

// Names the ANDs of a graph.
fn name_gates<'a>(alloc: Global, frame: &'a Frame, rows: &[Row]) -> Result<Naming<'a>, AllocError>
    requires there { length (sources (frame_in frame.now)) < length rows.now }
    requires few { length frame.now.names + length rows.now < 2 ^ 32 }
    ensures frame { IfOk result (λ n. n.frame.now ≡ frame.now) }
    ensures numbered { IfOk result (λ n. IsNumbered (frame_in frame.now) (length (gates_of (frame_in frame.now) rows.now)) frame.now.names n.names n.sources.numbers.items n.signals.items n.inner.items) }
{
    let numbers = frame.sources(alloc)?;
    let count = rows.len() - (numbers.len() + 1);
    let sources = NameSet::of(alloc, &frame.names, numbers)?;
    name_nodes(alloc, frame, sources, count)
}

// The tables of a graph.
fn tables_of(
    alloc: Global,
    naming: &Naming,
    rows: &[Row],
    observed: &[Lit],
) -> Result<Vec<Table>, AllocError>
    requires graph { IsNamedGraph (frame_in naming.now.frame.now) rows.now observed.now }
    requires numbered { IsNumbered (frame_in naming.now.frame.now) (length (gates_of (frame_in naming.now.frame.now) rows.now)) naming.now.frame.now.names naming.now.names naming.now.sources.numbers.items naming.now.signals.items naming.now.inner.items }
    ensures words { IfOk result (λ v. map (table_in naming.now.names) v.items ≡ (network (frame_in naming.now.frame.now) rows.now observed.now).tables) }
    ensures below { IfOk result (λ v. tables_below (length naming.now.names) v.items ≡ true) }
{
    let gates = &rows[naming.sources.numbers.len() + 1..];
    let nodes = joined(alloc, &naming.sources.numbers, &naming.inner)?;
    let mut tables = Vec::new(alloc);
    push_gates(alloc, &nodes, gates, &naming.inner, &mut tables)?;
    push_ends(
        alloc,
        &naming.sources,
        &nodes,
        &naming.signals,
        observed,
        &mut tables,
    )?;
    Ok(tables)
}

/// The netlist of a graph: a table for each AND, then one for each observed signal that is no source. The names of the
/// frame keep their numbers. The only error is want of memory.
pub fn netlist_of(alloc: Global, graph: &Network) -> Result<Netlist, AllocError>
    ensures network { IfOk result (λ n. netlist_in n ≡ network_of graph.now) }
    ensures ordered { IfOk result (λ n. Ordered (netlist_in n)) }
    ensures shape { IfOk result (λ n. GraphShape (netlist_in n)) }
    ensures rows { IfOk result (λ n. rows_of (netlist_in n) ≡ graph.now.body.rows) }
    ensures literals { IfOk result (λ n. observed_of (netlist_in n) ≡ graph.now.body.observed) }
    ensures checked { IfOk result (λ n. IsChecked (netlist_in n)) }
{
    let rows = graph.body.rows.as_slice();
    netlist_over(alloc, &graph.frame, rows, graph.body.observed.as_slice())
}

// The netlist of a graph's parts.
fn netlist_over(
    alloc: Global,
    frame: &Frame,
    rows: &[Row],
    observed: &[Lit],
) -> Result<Netlist, AllocError>
    requires graph { IsNamedGraph (frame_in frame.now) rows.now observed.now }
    requires few { length frame.now.names + length rows.now < 2 ^ 32 }
    ensures network { IfOk result (λ n. netlist_in n ≡ network (frame_in frame.now) rows.now observed.now) }
{
    let naming = name_gates(alloc, frame, rows)?;
    let tables = tables_of(alloc, &naming, rows, observed)?;
    Ok(Netlist {
        frame: frame_over(alloc, frame, naming.names)?,
        tables: Items::of(tables),
    })
}
