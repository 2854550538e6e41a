//! Models, flattened to one netlist.

ghost use Rattle.std.specs.Prelude.{◌≡◌, ◌+◌, ◌^◌, ◌<◌, ◌++◌, length, map, true, None, IfErr, IfOk, OnOk};
ghost use Rattle.syn_models.specs.Answers.{IsFirst, IsFlatFault, frame_with, models_in};
ghost use Rattle.syn_models.specs.Calling.{inner_count};
ghost use Rattle.syn_models.specs.FlatFaults.{Flattens, WithinWords, first_fault_of_models};
ghost use Rattle.syn_models.specs.Flattening.{IsFlattening};
ghost use Rattle.syn_models.specs.Models.{clocks_of};
ghost use Rattle.syn_models.specs.Views.{model_in};
ghost use Rattle.syn_models.specs.Walking.{IsWalked};
ghost use Rattle.syn_netlist.specs.Kept.{latch_in, latches_below, no_nil_control};
ghost use Rattle.syn_netlist.specs.Lists.{sources};
ghost use Rattle.syn_netlist.specs.Numbers.{Grows};
ghost use Rattle.syn_netlist.specs.Views.{frame_in, netlist_in};
ghost use Rattle.syn_netlist.specs.Words.{distinct};

use crate::FlatFault;
use crate::checks::file_fault;
use crate::containment::{all_contained, model_order, total_words};
use crate::files::file_of;
use crate::hierarchy::Model;
use crate::instance_calls::call_names;
use crate::instance_copies::{all_latches, all_tables};
use crate::instance_walk::walk;
use crate::met::Walked;
use crate::models::Models;
use crate::ports::{Role, all_listed};
use crate::sites::copied;
use crate::slash_counts::slash_count;
use std::alloc::{AllocError, Global};
use syn_lists::Items;
use syn_netlist::{Frame, Latch, Names, Netlist};

/// The most words of the main model and of the models of all its instances.
pub const MAX_WORDS: u64 = 16_777_216;

// What the main model has beside its tables, with these latches.
fn flat_frame(
    alloc: Global,
    main: &Model,
    names: Names,
    latches: Vec<Latch>,
) -> Result<Frame, AllocError>
    requires grows { Grows main.now.names names }
    requires below { latches_below (length names) latches.items ≡ true }
    requires controls { no_nil_control names latches.items ≡ true }
    requires clocks { distinct (clocks_of (model_in main.now)) ≡ true }
    requires sources { distinct (sources (frame_with main.now (map (latch_in names) latches.items))) ≡ true }
    ensures names { IfOk result (λ f. f.names ≡ names) }
    ensures frame { IfOk result (λ f. frame_in f ≡ frame_with main.now (map (latch_in names) latches.items)) }
{
    let statements = main.statements.as_slice();
    let inputs = all_listed(alloc, statements, Role::Input)?;
    let clocks = all_listed(alloc, statements, Role::Clock)?;
    let outputs = all_listed(alloc, statements, Role::Output)?;
    let model = copied(alloc, main.name.as_slice())?;
    Ok(Frame {
        names,
        model,
        inputs: Items::of(inputs),
        clocks: Items::of(clocks),
        outputs: Items::of(outputs),
        latches: Items::of(latches),
    })
}

// The netlist of what a walk through all instances has met.
fn flat_netlist(
    alloc: Global,
    models: &[Model],
    main: &Model,
    walked: &Walked<'_>,
) -> Result<Netlist, AllocError>
    requires first { IsFirst models.now main.now }
    requires walked { IsWalked (map model_in models.now) main.now walked.now.instances.items walked.now.parts.items }
    requires few { length main.now.names + inner_count walked.now.instances.items < 2 ^ 31 }
    requires none { first_fault_of_models (models_in models.now) ≡ None }
    ensures flattening { IfOk result (λ n. IsFlattening (models_in models.now) (netlist_in n)) }
    ensures names { IfOk result (λ n. length n.frame.names < 2 ^ 31) }
{
    let instances = walked.instances.as_slice();
    let parts = walked.parts.as_slice();
    let count = slash_count(alloc, &main.names, instances)?;
    let called = call_names(alloc, main, instances, count)?;
    let latches = all_latches(alloc, called.maps.as_slice(), parts)?;
    let tables = all_tables(alloc, called.maps.as_slice(), parts)?;
    let frame = flat_frame(alloc, main, called.names, latches)?;
    Ok(Netlist {
        frame,
        tables: Items::of(tables),
    })
}

/// The netlist that models stand for: the main model's lists, and the latches and tables of the main model and of all its
/// instances, in order. An instance's bound formals are called as their actuals are; any other name x of instance k is
/// called `k`, slashes, `x`, with the fewest slashes, at least one, for which no such name is a name of the main model.
/// Else the first fault: of a subcircuit, by line, and on one line in the order of `FlatFault`; or else the first name, by
/// model, line and word, that is read and never defined; or else the models that contain each other in a circle; or else
/// how many words the main model and the models of all instances have, where they are more than 16,777,216.
pub fn flatten(models: &Models, alloc: Global) -> Result<Netlist, FlatFault>
    ensures netlist { IfOk result (λ n. Flattens (models_in models.now.models) (netlist_in n)) }
    ensures within { OnOk result (WithinWords (models_in models.now.models)) }
    ensures names { IfOk result (λ n. length n.frame.names < 2 ^ 31) }
    ensures fault { IfErr result (IsFlatFault (models_in models.now.models)) }
{
    let file = file_of(alloc, models.models.as_slice())?;
    if let Some(fault) = file_fault(alloc, &file)? {
        return Err(fault);
    }
    let inner = all_contained(alloc, &file)?;
    let order = model_order(alloc, &file, inner.as_slice())?;
    let words = total_words(alloc, file.models, inner.as_slice(), order.as_slice())?;
    if words > MAX_WORDS {
        return Err(FlatFault::TooManyWords(words));
    }
    let main = &file.models[0];
    let walked = walk(alloc, &file, main)?;
    Ok(flat_netlist(alloc, file.models, main, &walked)?)
}
