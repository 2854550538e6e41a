//! Whether each name that is read is defined, and the tables can be put in order.

ghost use Rattle.std.specs.Prelude.{◌≡◌, ◌<◌, ◌++◌, ◌∷◌, IfErr, IfOk, IfSome, OnOk, None, length, option_map, true, []};
ghost use Rattle.syn_netlist.specs.Faults.{IsFault, IsTableOrder, PutsInOrder, first_undriven};
ghost use Rattle.syn_netlist.specs.Numbers.{all_below, word_at};
ghost use Rattle.syn_netlist.specs.Tables.{tables_below};
ghost use Rattle.syn_netlist.specs.Views.{netlist_in};
ghost use Rattle.syn_netlist.specs.Walk.{from_number, output_at, output_words};

use crate::NetFault;
use crate::name_numbers::Names;
use crate::netlists::Netlist;
use crate::order_walk::{Walked, walk};
use crate::signals::latch_reads;
use crate::tables::Table;
use crate::undriven_names::{defined_marks, first_read};
use crate::words::Word;
use std::alloc::{AllocError, Global};
use syn_lists::Items;

impl From<AllocError> for NetFault {
    ghost use Rattle.std.specs.Prelude.{◌≡◌};
    ghost use Rattle.syn_netlist.specs.declared.NetFault.TheVariants.{NoMemory};

    ghost from_gives = { λ _ e. e ≡ NoMemory };

    fn from(_: AllocError) -> NetFault {
        NetFault::NoMemory
    }
}

// The number of the first name that is read and never defined.
fn undriven(alloc: Global, n: &Netlist) -> Result<Option<u32>, AllocError>
    ensures first { IfOk result (λ r. first_undriven (netlist_in n.now) ≡ option_map (word_at n.now.frame.names) r) }
    ensures below { IfOk result (λ r. IfSome r (λ i. i < length n.now.frame.names)) }
{
    let frame = &n.frame;
    let tables = n.tables.as_slice();
    let sources = frame.sources(alloc)?;
    let marks = defined_marks(alloc, frame.names.len(), sources, tables)?;
    let read = latch_reads(alloc, frame.latches.as_slice())?;
    Ok(first_read(marks.as_slice(), frame.outputs.as_slice(), &read, tables))
}

// The part of a path from the first place of a table.
fn path_from(path: &[u32], table: u32) -> &[u32]
    ensures { result.now ≡ from_number table path.now }
{
    for (i, t) in path.iter().enumerate() {
        if *t == table {
            let (_, rest) = path.split_at(i);
            return rest;
        }
    }
    &[]
}

// The number of the name that a table defines.
fn output_of(tables: &[Table], t: u32) -> u32
    requires { t < length tables.now }
    ensures { result ≡ output_at tables.now t }
{
    tables[t as usize].output
}

// The words that tables define.
fn output_names(
    alloc: Global,
    names: &Names,
    tables: &[Table],
    numbers: &[u32],
) -> Result<Items<Word>, AllocError>
    requires tables { tables_below (length names.now) tables.now ≡ true }
    requires numbers { all_below (length tables.now) numbers.now ≡ true }
    ensures { IfOk result (λ r. r ≡ output_words names.now tables.now numbers.now) }
{
    let mut words = Vec::new(alloc);
    for t in numbers {
        push_word(alloc, &mut words, names.word(output_of(tables, *t)))?;
    }
    Ok(Items::of(words))
}

// Appends a copy of a word.
fn push_word(alloc: Global, words: &mut Vec<Word>, word: &[u8]) -> Result<(), AllocError>
    ensures { OnOk result (words.new.items ≡ words.old.items ++ word.now ∷ []) }
{
    words.push(Word::of(word.to_vec(alloc)?))?;
    Ok(())
}

/// The order of the tables of a netlist in which each name that is read is defined.
pub(crate) fn order_driven(alloc: Global, n: &Netlist) -> Result<Vec<u32>, NetFault>
    requires { first_undriven (netlist_in n.now) ≡ None }
    ensures order { IfOk result (λ v. IsTableOrder (netlist_in n.now) v.items) }
    ensures ok { IfOk result (λ v. PutsInOrder (netlist_in n.now) v.items) }
    ensures fault { IfErr result (IsFault (netlist_in n.now)) }
{
    let names = &n.frame.names;
    let tables = n.tables.as_slice();
    match walk(alloc, names.len(), tables)? {
        Walked::Order(order) => Ok(order),
        Walked::Circle { path, back } => {
            let circle = output_names(alloc, names, tables, path_from(&path, back))?;
            Err(NetFault::Cycle(circle))
        }
    }
}

/// The numbers of all tables in an order in which each reads sources or outputs of tables before it: the tables in turn, each after the tables of its inputs in turn.
pub fn table_order(n: &Netlist, alloc: Global) -> Result<Vec<u32>, NetFault>
    ensures order { IfOk result (λ v. IsTableOrder (netlist_in n.now) v.items) }
    ensures ok { IfOk result (λ v. PutsInOrder (netlist_in n.now) v.items) }
    ensures fault { IfErr result (IsFault (netlist_in n.now)) }
{
    match undriven(alloc, n)? {
        Some(name) => {
            let word = n.frame.names.word(name).to_vec(alloc)?;
            Err(NetFault::Undriven(Word::of(word)))
        }
        None => order_driven(alloc, n),
    }
}
