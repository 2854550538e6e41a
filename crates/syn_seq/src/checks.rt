//! The check of guessed fates: merged latches are one, and compaction tells which signals are equal then.

ghost use Rattle.std.specs.Prelude.{◌≡◌, ◌+◌, ◌-◌, ◌<◌, ◌^◌, ℕ, All, IfOk, length, slice_index_or, true};
ghost use Rattle.syn_netlist.specs.declared.Latch.{Latch};
ghost use Rattle.syn_netlist.specs.Kept.{latches_below};
ghost use Rattle.syn_seq.specs.declared.Fate.{Fate};
ghost use Rattle.syn_network.specs.Written.{network_of};
ghost use Rattle.syn_rows.specs.Reach.{IsReachedSet};
ghost use Rattle.syn_rows.specs.Values.{value_in};
ghost use Rattle.syn_seq.specs.Code.{AreAlikeLits, AreTargets, is_target, merged_place, merged_places};
ghost use Rattle.syn_seq.specs.Keys.{IsFateBy, key_by};
ghost use Rattle.syn_seq.specs.Rounds.{AreFates, fate_at};
ghost use Rattle.syn_seq.specs.Sweeping.{needing_rows, output_lits};

use crate::Fate;
use crate::kept_graph::{moved_all, moved_rows};
use crate::keys::key_of;
use crate::signals::literals_of;
use std::alloc::{AllocError, Global};
use syn_hashed::compact_rows;
use syn_netlist::Latch;
use syn_network::Network;
use syn_rows::Lit;

// Whether a latch, where it is merged, is so into an earlier one that is kept.
fn is_target(fates: &[Fate], number: usize, fate: Fate) -> bool
    ensures { result ≡ is_target fates.now number fate }
{
    match fate {
        Fate::Merged(earlier) => {
            let earlier = earlier as usize;
            earlier < number && earlier < fates.len() && matches!(fates[earlier], Fate::Kept)
        }
        _ => true,
    }
}

// Whether that is so of each.
fn are_targets(fates: &[Fate]) -> bool
    ensures { result ≡ true → AreTargets fates.now }
{
    for j in 0..fates.len() {
        if !is_target(fates, j, fates[j]) {
            return false;
        }
    }
    true
}

// The node that stands for a latch.
fn merged_place(first: u32, number: u32, fate: Fate) -> u32
    requires own { first + number < 2 ^ 29 }
    requires target { (i : ℕ) → fate ≡ Fate.Merged i → i < number }
    ensures { result ≡ merged_place first number fate }
{
    match fate {
        Fate::Merged(earlier) => first + earlier,
        _ => first + number,
    }
}

// The nodes that stand for node 0 and the sources.
fn merged_places(alloc: Global, first: u32, fates: &[Fate]) -> Result<Vec<u32>, AllocError>
    requires few { first + length fates.now < 2 ^ 29 }
    requires targets { AreTargets fates.now }
    ensures places { IfOk result (λ v. v.items ≡ merged_places first fates.now) }
    ensures low { IfOk result (λ v. All (λ p. p < 2 ^ 29) v.items) }
{
    let mut places = Vec::new(alloc);
    for node in 0..first {
        places.push(node)?;
    }
    for j in 0..fates.len() {
        places.push(merged_place(first, j as u32, fates[j]))?;
    }
    Ok(places)
}

// Literals of observed signals by numbers of names, equal ones of signals with one value wherever merged latches have one.
fn merged_literals(alloc: Global, graph: &Network, fates: &[Fate]) -> Result<Vec<Lit>, AllocError>
    requires count { length fates.now ≡ length graph.now.frame.latches }
    requires targets { AreTargets fates.now }
    ensures count { IfOk result (λ v. length v.items ≡ length graph.now.frame.names) }
    ensures alike { IfOk result (λ v. AreAlikeLits (network_of graph.now) fates.now graph.now.frame.names v.items) }
{
    syn_network::network_of_graph();
    let first = graph.body.source_count + 1 - fates.len() as u32;
    let places = merged_places(alloc, first, fates)?;
    let rows = moved_rows(
        alloc,
        graph.body.rows.as_slice(),
        places.as_slice(),
        graph.body.source_count,
    )?;
    let lits = moved_all(alloc, places.as_slice(), graph.body.observed.as_slice())?;
    let compacted = compact_rows(
        alloc,
        graph.body.source_count,
        rows.as_slice(),
        lits.as_slice(),
    )?;
    let found = literals_of(alloc, graph, compacted.observed.as_slice())?;
    Ok(found)
}

// Whether two latches load alike and begin with the same value, 0 or 1.
fn loads_alike(lits: &[Lit], latches: &[Latch], number: usize, earlier: usize) -> bool
    requires below { latches_below (length lits.now) latches.now ≡ true }
    requires number { number < length latches.now }
    requires earlier { earlier < number }
    ensures { result ≡ true → (d : Latch) → (key_by lits.now (slice_index_or latches.now earlier d) ≡ key_by lits.now (slice_index_or latches.now number d)) × ((key_by lits.now (slice_index_or latches.now number d)).init < 2) }
{
    let key = key_of(lits, latches[number]);
    key.init < 2 && key_of(lits, latches[earlier]) == key
}

// Whether a fate is right: a merged latch loads like the one that it is merged into, and begins with the same value.
fn is_right(lits: &[Lit], graph: &Network, fates: &[Fate], needed: &[bool], number: usize) -> bool
    requires count { length lits.now ≡ length graph.now.frame.names }
    requires number { number < length graph.now.frame.latches }
    requires fates { length fates.now ≡ length graph.now.frame.latches }
    requires needed { length needed.now ≡ length graph.now.body.rows }
    requires targets { AreTargets fates.now }
    ensures { result ≡ true → (d : Latch) → IsFateBy (λ j. value_in needed.now (graph.now.body.source_count + 1 - length graph.now.frame.latches + j)) (λ j. key_by lits.now (slice_index_or graph.now.frame.latches j d)) fates.now number (fate_at fates.now number) }
{
    syn_network::network_of_graph();
    let latches = graph.frame.latches.as_slice();
    let first = graph.body.source_count as usize + 1 - latches.len();
    match fates[number] {
        Fate::Kept => needed[first + number],
        Fate::Dropped => !needed[first + number],
        Fate::Merged(earlier) => { loads_alike(lits, latches, number, earlier as usize) }
    }
}

/// Whether fates are right, by marks of what is needed.
pub(crate) fn are_right(
    alloc: Global,
    graph: &Network,
    fates: &[Fate],
    needed: &[bool],
) -> Result<bool, AllocError>
    requires count { length fates.now ≡ length graph.now.frame.latches }
    requires length { length needed.now ≡ length graph.now.body.rows }
    requires needed { IsReachedSet (needing_rows (network_of graph.now)) (output_lits (network_of graph.now)) (value_in needed.now) }
    ensures { IfOk result (λ b. b ≡ true → AreFates (network_of graph.now) fates.now) }
{
    syn_network::network_of_graph();
    if !are_targets(fates) {
        return Ok(false);
    }
    let lits = merged_literals(alloc, graph, fates)?;
    for j in 0..fates.len() {
        if !is_right(lits.as_slice(), graph, fates, needed, j) {
            return Ok(false);
        }
    }
    Ok(true)
}
