//! How deep what a network observes lies.

ghost use Rattle.std.specs.Prelude.{◌≡◌, ℕ, ◌+◌, ◌<◌, ◌++◌, ◌^◌, All, if◌then◌else◌, ◌==◌, length, map, slice_index_or, IfOk, OnOk};
ghost use Rattle.syn_rows.specs.Rows.{node_of};
ghost use Rattle.syn_rows.specs.Levels.{level_in, levels_of};
ghost use Rattle.syn_lutnet.specs.Data.{luts_data};
ghost use Rattle.syn_lutnet.specs.LutData.{depth_in, signal_depths};
ghost use Rattle.syn_report.specs.Levels.{greatest, how_many, level_line, levels_text, lines_below};

use crate::pieces::push_counted;
use std::alloc::{AllocError, Global};
use syn_graph::Graph;
use syn_lutnet::LutNet;
use syn_rows::Lit;

// The level of a literal's node, 0 past the end.
#[inline]
fn level_at(levels: &[u32], lit: Lit) -> u32
    ensures { result ≡ level_in levels.now (node_of lit) }
{
    let node = lit.node() as usize;
    if node < levels.len() { levels[node] } else { 0 }
}

// The levels of the literals' nodes, 0 past the end.
fn levels_at(alloc: Global, levels: &[u32], lits: &[Lit]) -> Result<Vec<u32>, AllocError>
    ensures { IfOk result (λ v. v.items ≡ map (λ l. level_in levels.now (node_of l)) lits.now) }
{
    let mut found = Vec::with_capacity(alloc, lits.len())?;
    for lit in lits {
        found.push(level_at(levels, *lit))?;
    }
    Ok(found)
}

/// The levels of the nodes that a graph observes, in order. The only error is want of memory, as of all calls here.
pub fn graph_levels(alloc: Global, graph: &Graph) -> Result<Vec<u32>, AllocError>
    ensures { IfOk result (λ v. v.items ≡ map (λ l. level_in (levels_of graph.now.rows) (node_of l)) graph.now.observed) }
{
    let levels = graph.levels(alloc)?;
    levels_at(alloc, levels.as_slice(), graph.observed.as_slice())
}

/// The depths of the signals that a LUT net observes, in order.
pub fn lut_levels(alloc: Global, net: &LutNet) -> Result<Vec<u32>, AllocError>
    ensures { IfOk result (λ v. v.items ≡ map (λ l. depth_in (signal_depths net.now.source_count (luts_data net.now.luts)) (node_of l)) net.now.observed) }
{
    let depths = syn_lutnet::signal_depths(alloc, net.source_count, net.luts.as_slice())?;
    levels_at(alloc, depths.as_slice(), net.observed.as_slice())
}

// The greatest of some levels.
fn greatest(levels: &[u32]) -> u32
    ensures { result ≡ greatest levels.now }
{
    let mut most: u32 = 0;
    for level in levels {
        most = most.max(*level);
    }
    most
}

// So many counts of none.
fn no_counts(alloc: Global, count: usize) -> Result<Vec<u64>, AllocError>
    ensures count { IfOk result (λ v. length v.items ≡ count) }
    ensures none { IfOk result (λ v. (n : ℕ) → slice_index_or v.items n 0 ≡ 0) }
{
    vec![in alloc; 0; count]
}

// One more at a level.
fn count_level(counts: &mut [u64], level: u32)
    requires there { level < length counts.old }
    requires few { slice_index_or counts.old level 0 + 1 < 2 ^ 64 }
    ensures { (n : ℕ) → slice_index_or counts.new n 0 ≡ slice_index_or counts.old n 0 + (if n == level then 1 else 0) }
{
    counts[level as usize] += 1;
}

// Counts at each level how many of these lie at it, where nothing was counted.
fn count_levels(counts: &mut [u64], levels: &[u32])
    requires there { All (λ level. level < length counts.old) levels.now }
    requires none { (n : ℕ) → slice_index_or counts.old n 0 ≡ 0 }
    ensures { (n : ℕ) → slice_index_or counts.new n 0 ≡ how_many n levels.now }
{
    for level in levels {
        count_level(counts, *level);
    }
}

// Puts the line of a level and how many lie at it behind a text, nothing where none does.
fn push_line(text: &mut Vec<u8>, level: u64, count: u64) -> Result<(), AllocError>
    ensures { OnOk result (text.new.items ≡ text.old.items ++ level_line level count) }
{
    if count == 0 {
        return Ok(());
    }
    push_counted(text, b"level ", level)?;
    push_counted(text, b": ", count)?;
    text.push(b'\n')?;
    Ok(())
}

// The lines of the levels at which so many lie.
fn lines_of(alloc: Global, counts: &[u64]) -> Result<Vec<u8>, AllocError>
    ensures { IfOk result (λ text. text.items ≡ lines_below (λ n. slice_index_or counts.now n 0) (length counts.now)) }
{
    let mut text = Vec::new(alloc);
    for (level, count) in counts.iter().enumerate() {
        push_line(&mut text, level as u64, *count)?;
    }
    Ok(text)
}

/// The lines of the levels that are among these, rising: each with how many of these it is.
pub fn levels_text(alloc: Global, levels: &[u32]) -> Result<Vec<u8>, AllocError>
    ensures { IfOk result (λ text. text.items ≡ levels_text levels.now) }
{
    let mut counts = no_counts(alloc, greatest(levels) as usize + 1)?;
    count_levels(counts.as_mut_slice(), levels);
    lines_of(alloc, counts.as_slice())
}
