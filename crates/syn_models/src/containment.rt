//! Which models contain which, by numbers, and whether they contain each other in a circle.

ghost use Rattle.std.specs.Prelude.{◌≡◌, ◌^◌, ◌≤◌, ◌<◌, ◌++◌, ◌∷◌, [], flat_map, length, map, true, IfErr, IfOk, None, OnOk};
ghost use Rattle.std.specs.List.{list_all};
ghost use Rattle.syn_models.specs.Answers.{IsFlatFault, models_in};
ghost use Rattle.syn_models.specs.Contained.{contained_by, contained_name, names_of, words_by};
ghost use Rattle.syn_models.specs.Files.{IsFile, all_in};
ghost use Rattle.syn_models.specs.FlatFaults.{checks, contents, first_fault_of_models, first_of_models, told};
ghost use Rattle.syn_models.specs.Models.{all_of, name_of};
ghost use Rattle.syn_models.specs.Opening.{Opened, Opens, words_of};
ghost use Rattle.syn_models.specs.Totals.{containing};
ghost use Rattle.syn_models.specs.Views.{model_in};
ghost use Rattle.syn_netlist.specs.Faults.{IsTableOrder, PutsInOrder};
ghost use Rattle.syn_netlist.specs.Kept.{frame_of};
ghost use Rattle.syn_netlist.specs.Numbers.{all_below, words_at};
ghost use Rattle.syn_netlist.specs.Tables.{table_in, tables_below};
ghost use Rattle.syn_netlist.specs.Views.{frame_in, netlist_in};
ghost use Rattle.syn_netlist.specs.Words.{distinct, has_word, is_word};

use crate::FlatFault;
use crate::files::File;
use crate::hierarchy::{Model, StatementKind};
use crate::ports::model_names;
use crate::sites::copied;
use crate::sizes::totals;
use std::alloc::{AllocError, Global};
use syn_lists::Items;
use syn_netlist::{Frame, Latch, Names, NetFault, Netlist, Table, Word, table_order};

// The number of a model that is there.
fn number_of(file: &File<'_>, name: &[u8]) -> u32
    requires file { IsFile file.now }
    requires there { has_word (names_of file.now) name.now ≡ true }
    ensures below { result < length file.now.models.now }
    ensures word { words_at (names_of file.now) (result ∷ []) ≡ name.now ∷ [] }
{
    match file.names.find(name) {
        Some(number) => number,
        None => unreachable!(),
    }
}

// Appends the number of the model that a statement contains.
fn push_contained(
    file: &File<'_>,
    kind: &StatementKind,
    numbers: &mut Vec<u32>,
) -> Result<(), AllocError>
    requires file { IsFile file.now }
    requires there { list_all (has_word (names_of file.now)) (contained_name kind.now) ≡ true }
    requires below { all_below (length file.now.models.now) numbers.old.items ≡ true }
    ensures below { OnOk result (all_below (length file.now.models.now) numbers.new.items ≡ true) }
    ensures words { OnOk result (words_at (names_of file.now) numbers.new.items ≡ words_at (names_of file.now) numbers.old.items ++ contained_name kind.now) }
{
    match kind {
        StatementKind::Subckt(c) => numbers.push(number_of(file, c.model.as_slice()))?,
        StatementKind::Inputs(_)
        | StatementKind::Outputs(_)
        | StatementKind::Clock(_)
        | StatementKind::Latch(_)
        | StatementKind::Table(_) => {}
    }
    Ok(())
}

// The numbers of the models that a model contains, in order.
fn contained_models(alloc: Global, file: &File<'_>, m: &Model) -> Result<Vec<u32>, AllocError>
    requires file { IsFile file.now }
    requires there { list_all (has_word (names_of file.now)) (flat_map contained_by m.now.statements) ≡ true }
    ensures below { IfOk result (λ v. all_below (length file.now.models.now) v.items ≡ true) }
    ensures words { IfOk result (λ v. words_at (names_of file.now) v.items ≡ flat_map contained_by m.now.statements) }
{
    let mut numbers = Vec::new(alloc);
    for s in m.statements.as_slice() {
        push_contained(file, &s.kind, &mut numbers)?;
    }
    Ok(numbers)
}

/// The numbers of the models that each model contains, in order, where each is there. The only error is want of memory.
pub(crate) fn all_contained(alloc: Global, file: &File<'_>) -> Result<Vec<Items<u32>>, AllocError>
    requires file { IsFile file.now }
    requires none { first_of_models checks (all_in file.now) (all_in file.now) ≡ None }
    ensures size { IfOk result (λ v. length v.items ≡ length file.now.models.now) }
    ensures below { IfOk result (λ v. list_all (all_below (length file.now.models.now)) v.items ≡ true) }
    ensures words { IfOk result (λ v. map (words_at (names_of file.now)) v.items ≡ map (λ m. flat_map contained_by m.statements) file.now.models.now) }
{
    let mut all = Vec::new(alloc);
    for m in file.models {
        let numbers = contained_models(alloc, file, m)?;
        all.push(Items::of(numbers))?;
    }
    Ok(all)
}

// The table of a model: it defines the model's number, and reads those of the models that it contains.
fn model_table(alloc: Global, number: u32, inner: &[u32]) -> Result<Table, AllocError>
    ensures inputs { IfOk result (λ t. t.inputs ≡ inner.now) }
    ensures output { IfOk result (λ t. t.output ≡ number) }
    ensures rows { IfOk result (λ t. t.rows ≡ []) }
    ensures on { IfOk result (λ t. t.on ≡ true) }
{
    let inputs = inner.to_vec(alloc)?;
    let rows: Vec<Word> = Vec::new(alloc);
    Ok(Table {
        inputs: Items::of(inputs),
        output: number,
        rows: Items::of(rows),
        on: true,
    })
}

// The tables of all models.
fn model_tables(
    alloc: Global,
    file: &File<'_>,
    inner: &[Items<u32>],
) -> Result<Vec<Table>, AllocError>
    requires file { IsFile file.now }
    requires few { length file.now.models.now < 2 ^ 32 }
    requires size { length inner.now ≡ length file.now.models.now }
    requires below { list_all (all_below (length file.now.models.now)) inner.now ≡ true }
    requires words { map (words_at (names_of file.now)) inner.now ≡ map (λ m. flat_map contained_by m.statements) file.now.models.now }
    ensures below { IfOk result (λ v. tables_below (length file.now.models.now) v.items ≡ true) }
    ensures tables { IfOk result (λ v. map (table_in (names_of file.now)) v.items ≡ map contents (all_in file.now)) }
{
    let mut tables = Vec::new(alloc);
    for i in 0..inner.len() {
        let table = model_table(alloc, i as u32, inner[i].as_slice())?;
        tables.push(table)?;
    }
    Ok(tables)
}

// What a netlist of tables alone has beside them.
fn bare_frame(alloc: Global, names: Names, model: Word) -> Frame
    requires { is_word model ≡ true }
    ensures names { result.names ≡ names }
    ensures frame { frame_in result ≡ frame_of names model [] [] [] [] }
{
    let inputs: Vec<u32> = Vec::new(alloc);
    let clocks: Vec<u32> = Vec::new(alloc);
    let outputs: Vec<u32> = Vec::new(alloc);
    let latches: Vec<Latch> = Vec::new(alloc);
    Frame {
        names,
        model,
        inputs: Items::of(inputs),
        clocks: Items::of(clocks),
        outputs: Items::of(outputs),
        latches: Items::of(latches),
    }
}

// The netlist in which each model is a table that reads the models that it contains.
fn containing(alloc: Global, file: &File<'_>, inner: &[Items<u32>]) -> Result<Netlist, AllocError>
    requires file { IsFile file.now }
    requires some { 1 ≤ length file.now.models.now }
    requires few { length file.now.models.now < 2 ^ 32 }
    requires distinct { distinct (map name_of (map model_in file.now.models.now)) ≡ true }
    requires size { length inner.now ≡ length file.now.models.now }
    requires below { list_all (all_below (length file.now.models.now)) inner.now ≡ true }
    requires words { map (words_at (names_of file.now)) inner.now ≡ map (λ m. flat_map contained_by m.statements) file.now.models.now }
    ensures { IfOk result (λ n. netlist_in n ≡ containing (models_in file.now.models.now)) }
{
    let names = model_names(alloc, file.models)?;
    let model = copied(alloc, file.models[0].name.as_slice())?;
    let tables = model_tables(alloc, file, inner)?;
    Ok(Netlist {
        frame: bare_frame(alloc, names, model),
        tables: Items::of(tables),
    })
}

/// An order of the models in which each stands below those that it contains; or the circle in which models contain each other.
pub(crate) fn model_order(
    alloc: Global,
    file: &File<'_>,
    inner: &[Items<u32>],
) -> Result<Vec<u32>, FlatFault>
    requires file { IsFile file.now }
    requires some { 1 ≤ length file.now.models.now }
    requires few { length file.now.models.now < 2 ^ 32 }
    requires distinct { distinct (map name_of (map model_in file.now.models.now)) ≡ true }
    requires size { length inner.now ≡ length file.now.models.now }
    requires below { list_all (all_below (length file.now.models.now)) inner.now ≡ true }
    requires words { map (words_at (names_of file.now)) inner.now ≡ map (λ m. flat_map contained_by m.statements) file.now.models.now }
    requires none { first_fault_of_models (models_in file.now.models.now) ≡ None }
    ensures all { IfOk result (λ v. IsTableOrder (containing (models_in file.now.models.now)) v.items) }
    ensures order { IfOk result (λ v. PutsInOrder (containing (models_in file.now.models.now)) v.items) }
    ensures fault { IfErr result (IsFlatFault (models_in file.now.models.now)) }
{
    let netlist = containing(alloc, file, inner)?;
    match table_order(&netlist, alloc) {
        Ok(order) => Ok(order),
        Err(NetFault::Cycle(names)) => Err(FlatFault::Recursion(names)),
        Err(NetFault::Undriven(_)) => unreachable!(),
        Err(NetFault::NoMemory) => Err(FlatFault::NoMemory),
    }
}

// How many words each model has.
fn all_words(alloc: Global, models: &[Model]) -> Result<Vec<u64>, AllocError>
    ensures { IfOk result (λ v. v.items ≡ map words_by models.now) }
{
    let mut words = Vec::new(alloc);
    for m in models {
        words.push(m.words)?;
    }
    Ok(words)
}

/// How many words the main model and the models of all its instances have, found before any is made, by an order in which
/// each model stands below those that it contains; the greatest number stands for all that are greater.
pub(crate) fn total_words(
    alloc: Global,
    models: &[Model],
    inner: &[Items<u32>],
    order: &[u32],
) -> Result<u64, AllocError>
    requires some { 1 ≤ length models.now }
    requires distinct { distinct (map name_of (map model_in models.now)) ≡ true }
    requires size { length inner.now ≡ length models.now }
    requires below { list_all (all_below (length models.now)) inner.now ≡ true }
    requires words { map (words_at (map name_of (map model_in models.now))) inner.now ≡ map (λ m. flat_map contained_by m.statements) models.now }
    requires all { IsTableOrder (containing (models_in models.now)) order.now }
    requires order { PutsInOrder (containing (models_in models.now)) order.now }
    ensures each { IfOk result (λ n. (tree : Opened) → Opens (all_of (models_in models.now)) (models_in models.now).main.statements tree → n ≡ told (words_of (models_in models.now).main tree)) }
{
    let words = all_words(alloc, models)?;
    let totals = totals(alloc, &words, inner, order)?;
    Ok(totals.as_slice()[0])
}
