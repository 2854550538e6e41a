//! Keys of nodes: numbers that rise along references, with room for others between them.

ghost use Rattle.std.specs.Prelude.{◌≡◌, ℕ, ◌+◌, ◌-◌, ◌*◌, ◌/◌, ◌<◌, ◌≤◌, length, map, slice_index, IfNone, IfOk, IfSome};
ghost use Rattle.syn_rows.specs.Rows.{row_at, Rises};
ghost use Rattle.syn_rows.specs.declared.Row.TheVariants.{Source};
ghost use Rattle.syn_table.specs.Keys.{key_of_level, spread_of};
ghost use Rattle.syn_table.specs.WorkedKeys.{Worked};

use std::alloc::{AllocError, Global};
use syn_graph::Graph;

/// How far apart two keys lie at first: those of two levels, or of two numbers of nodes.
pub const KEY_GAP: u64 = 1 << 32;

fn key_of_level(level: u32) -> u64
    ensures { result ≡ key_of_level level }
{
    u64::from(level) * KEY_GAP
}

fn keys_of_levels(alloc: Global, levels: &[u32]) -> Result<Vec<u64>, AllocError>
    ensures { IfOk result (λ v. v.items ≡ map key_of_level levels.now) }
{
    levels
        .iter()
        .map(|level| key_of_level(*level))
        .collect(alloc)
}

/// The key of each node, by its level: 0 for node 0 and the sources, and 4294967296 more at each further level. The
/// only error is want of memory.
pub fn spread(alloc: Global, graph: &Graph) -> Result<Vec<u64>, AllocError>
    ensures keys { IfOk result (λ v. v.items ≡ spread_of graph.now.rows) }
    ensures count { IfOk result (λ v. length v.items ≡ length graph.now.rows) }
    ensures sources { IfOk result (λ v. (n : ℕ) → row_at graph.now.rows n ≡ Source → slice_index v.items n ≡ 0) }
    ensures rises { IfOk result (λ v. Rises graph.now.rows (λ n. slice_index v.items n)) }
{
    let levels = graph.levels(alloc)?;
    let keys = keys_of_levels(alloc, levels.as_slice())?;
    Ok(keys)
}

/// How far apart `need` keys lie that are put evenly between the keys `low` and `high`, as
/// `low + step`, `low + 2 * step` and so on; `None` where there is no room for so many.
pub fn between(low: u64, need: u32, high: u64) -> Option<u64>
    ensures none { IfNone result (high ≤ low + need) }
    ensures room { IfSome result (λ step. low + need < high) }
    ensures even { IfSome result (λ step. step ≡ (high - low) / (need + 1)) }
    ensures rise { IfSome result (λ step. (j k : ℕ) → j < k → k ≤ need → low + j * step < low + k * step) }
    ensures below { IfSome result (λ step. (k : ℕ) → k ≤ need → low + k * step < high) }
{
    if high <= low || high - low <= u64::from(need) {
        return None;
    }
    Some((high - low) / (u64::from(need) + 1))
}

/// The definition of keys, tried on a worked list of rows.
pub fn worked_keys()
    ensures { Worked }
{}
