//! A file's only model, without subcircuits: it is its own flattening, which is made by moving what it holds. Its first
//! fault is the first name that it reads and never defines, or else that it has too many words.

ghost use Rattle.std.specs.Prelude.{◌≡◌, ◌++◌, [], ◌<◌, ◌^◌, flat_map, length, true, IfErr, IfOk, OnOk};
ghost use Rattle.std.specs.List.{list_all};
ghost use Rattle.syn_models.specs.Answers.{IsFlatFault, models_in};
ghost use Rattle.syn_models.specs.FlatFaults.{Flattens, WithinWords};
ghost use Rattle.syn_models.specs.Listed.{listed_in, numbers_listed};
ghost use Rattle.syn_models.specs.Models.{alone};
ghost use Rattle.syn_models.specs.Reading.{numbers_read, read_in};
ghost use Rattle.syn_models.specs.Views.{model_in};
ghost use Rattle.syn_models.specs.declared.ports.Role.TheVariants.{Clock, Input, Output};
ghost use Rattle.syn_netlist.specs.Faults.{first_undefined};
ghost use Rattle.syn_netlist.specs.Numbers.{all_below, words_at};
ghost use Rattle.syn_netlist.specs.Views.{netlist_in};
ghost use Rattle.syn_reader.specs.Alone.{is_alone, is_plain, latch_in_kind, latches_in, table_in_kind, tables_in};

use crate::signals::copy_word;
use std::alloc::{AllocError, Global};
use syn_lists::Items;
use syn_models::{FlatFault, MAX_WORDS, Model, Models, Statement, StatementKind, flatten};
use syn_netlist::{Frame, Latch, Netlist, Table, Word, push_reads};

// Whether no statement is a subcircuit.
fn are_plain(statements: &[Statement]) -> bool
    ensures { result ≡ list_all is_plain statements.now }
{
    for s in statements {
        if let StatementKind::Subckt(_) = &s.kind {
            return false;
        }
    }
    true
}

// Whether models are only one, and it has no subcircuits.
fn is_alone(models: &Models) -> bool
    ensures { result ≡ is_alone models.now.models }
{
    let all = models.models.as_slice();
    all.len() == 1 && are_plain(all[0].statements.as_slice())
}

// What statements list: numbers of names, latches and tables; and the numbers of the names that they read, by line and word.
#[derive(Drop)]
struct Lists {
    inputs: Vec<u32>,
    clocks: Vec<u32>,
    outputs: Vec<u32>,
    latches: Vec<Latch>,
    tables: Vec<Table>,
    reads: Vec<u32>,
}

impl Lists {
    // Nothing, with room for so many tables.
    fn new(alloc: Global, tables: usize) -> Result<Lists, AllocError>
        ensures inputs { IfOk result (λ lists. lists.inputs.items ≡ []) }
        ensures clocks { IfOk result (λ lists. lists.clocks.items ≡ []) }
        ensures outputs { IfOk result (λ lists. lists.outputs.items ≡ []) }
        ensures latches { IfOk result (λ lists. lists.latches.items ≡ []) }
        ensures tables { IfOk result (λ lists. lists.tables.items ≡ []) }
        ensures reads { IfOk result (λ lists. lists.reads.items ≡ []) }
    {
        Ok(Lists {
            inputs: Vec::new(alloc),
            clocks: Vec::new(alloc),
            outputs: Vec::new(alloc),
            latches: Vec::new(alloc),
            tables: Vec::with_capacity(alloc, tables)?,
            reads: Vec::new(alloc),
        })
    }

    // Puts behind what a statement lists and reads; a subcircuit lists nothing.
    fn add(&mut self, kind: StatementKind) -> Result<(), AllocError>
        ensures inputs { OnOk result (self.new.inputs.items ≡ self.old.inputs.items ++ numbers_listed Input kind) }
        ensures clocks { OnOk result (self.new.clocks.items ≡ self.old.clocks.items ++ numbers_listed Clock kind) }
        ensures outputs { OnOk result (self.new.outputs.items ≡ self.old.outputs.items ++ numbers_listed Output kind) }
        ensures latches { OnOk result (self.new.latches.items ≡ self.old.latches.items ++ latch_in_kind kind) }
        ensures tables { OnOk result (self.new.tables.items ≡ self.old.tables.items ++ table_in_kind kind) }
        ensures reads { OnOk result (self.new.reads.items ≡ self.old.reads.items ++ numbers_read [] kind) }
    {
        match kind {
            StatementKind::Inputs(numbers) => {
                self.inputs.extend_from_slice(numbers.as_slice())?;
                Ok(())
            }
            StatementKind::Outputs(numbers) => {
                self.outputs.extend_from_slice(numbers.as_slice())?;
                self.reads.extend_from_slice(numbers.as_slice())?;
                Ok(())
            }
            StatementKind::Clock(numbers) => {
                self.clocks.extend_from_slice(numbers.as_slice())?;
                Ok(())
            }
            StatementKind::Latch(latch) => {
                self.latches.push(latch)?;
                push_reads(&mut self.reads, latch)
            }
            StatementKind::Table(table) => {
                self.reads.extend_from_slice(table.inputs.as_slice())?;
                self.tables.push(table)?;
                Ok(())
            }
            StatementKind::Subckt(_) => Ok(()),
        }
    }
}

// What statements list and read, in order; their latches and tables are moved.
fn lists_of(alloc: Global, statements: Vec<Statement>) -> Result<Lists, AllocError>
    ensures inputs { IfOk result (λ lists. lists.inputs.items ≡ flat_map (listed_in Input) statements.items) }
    ensures clocks { IfOk result (λ lists. lists.clocks.items ≡ flat_map (listed_in Clock) statements.items) }
    ensures outputs { IfOk result (λ lists. lists.outputs.items ≡ flat_map (listed_in Output) statements.items) }
    ensures latches { IfOk result (λ lists. lists.latches.items ≡ flat_map latches_in statements.items) }
    ensures tables { IfOk result (λ lists. lists.tables.items ≡ flat_map tables_in statements.items) }
    ensures reads { IfOk result (λ lists. lists.reads.items ≡ flat_map (read_in []) statements.items) }
{
    let mut lists = Lists::new(alloc, statements.len())?;
    for statement in statements {
        let Statement { line: _, kind } = statement;
        lists.add(kind)?;
    }
    Ok(lists)
}

// A model's netlist, and the numbers of the names that it reads, by line and word.
#[derive(Drop)]
struct WithReads {
    netlist: Netlist,
    reads: Vec<u32>,
}

// A model alone: its netlist, to which its names, its latches and its tables are moved, and what it reads.
fn moved(alloc: Global, main: Model) -> Result<WithReads, AllocError>
    ensures netlist { IfOk result (λ r. netlist_in r.netlist ≡ alone (model_in main)) }
    ensures names { IfOk result (λ r. r.netlist.frame.names ≡ main.names) }
    ensures reads { IfOk result (λ r. r.reads.items ≡ flat_map (read_in []) main.statements) }
{
    let Model {
        name,
        names,
        statements,
        words: _,
    } = main;
    let lists = lists_of(alloc, statements.into_vec())?;
    let frame = Frame {
        names,
        model: name,
        inputs: Items::of(lists.inputs),
        clocks: Items::of(lists.clocks),
        outputs: Items::of(lists.outputs),
        latches: Items::of(lists.latches),
    };
    let netlist = Netlist {
        frame,
        tables: Items::of(lists.tables),
    };
    let reads = lists.reads;
    Ok(WithReads { netlist, reads })
}

// The first name of those with these numbers that a netlist doesn't define.
fn undriven(alloc: Global, n: &Netlist, reads: &[u32]) -> Result<Option<Word>, AllocError>
    requires { all_below (length n.now.frame.names) reads.now ≡ true }
    ensures { IfOk result (λ r. r ≡ first_undefined (netlist_in n.now) (words_at n.now.frame.names reads.now)) }
{
    match n.first_undefined(alloc, reads)? {
        Some(i) => Ok(Some(copy_word(alloc, n.frame.names.word(i))?)),
        None => Ok(None),
    }
}

// The netlist that one model without subcircuits is flattened to, made by moving what the model holds; or else its fault.
fn alone(alloc: Global, models: Models) -> Result<Netlist, FlatFault>
    requires { is_alone models.models ≡ true }
    ensures netlist { IfOk result (λ n. Flattens (models_in models.models) (netlist_in n)) }
    ensures within { OnOk result (WithinWords (models_in models.models)) }
    ensures names { IfOk result (λ n. length n.frame.names < 2 ^ 31) }
    ensures fault { IfErr result (IsFlatFault (models_in models.models)) }
{
    let mut all = models.models.into_vec();
    let main = all.remove(0);
    let words = main.words;
    let WithReads { netlist, reads } = moved(alloc, main)?;
    if let Some(name) = undriven(alloc, &netlist, &reads)? {
        return Err(FlatFault::Undriven(name));
    }
    if words > MAX_WORDS {
        return Err(FlatFault::TooManyWords(words));
    }
    Ok(netlist)
}

/// The netlist that models are flattened to, or else their first fault, as `flatten` answers. One model without subcircuits
/// is moved.
pub(crate) fn flatten_owned(alloc: Global, models: Models) -> Result<Netlist, FlatFault>
    ensures netlist { IfOk result (λ n. Flattens (models_in models.models) (netlist_in n)) }
    ensures within { OnOk result (WithinWords (models_in models.models)) }
    ensures names { IfOk result (λ n. length n.frame.names < 2 ^ 31) }
    ensures fault { IfErr result (IsFlatFault (models_in models.models)) }
{
    if is_alone(&models) {
        return alone(alloc, models);
    }
    flatten(&models, alloc)
}
