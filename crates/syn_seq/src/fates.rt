//! What becomes of the latches in a round.

ghost use Rattle.std.specs.Prelude.{◌≡◌, IfOk, length, true};
ghost use Rattle.std.specs.HashMap.{get};
ghost use Rattle.syn_network.specs.Written.{network_of};
ghost use Rattle.syn_rows.specs.Reach.{IsReachedSet};
ghost use Rattle.syn_rows.specs.Values.{value_in};
ghost use Rattle.syn_seq.specs.Code.{AreLits, all_kept};
ghost use Rattle.syn_seq.specs.contracts.keys.KeyPartialEq.TheImpl as key_eq;
ghost use Rattle.syn_seq.specs.Keys.{IsFound};
ghost use Rattle.syn_seq.specs.Rounds.{AreFates};
ghost use Rattle.syn_seq.specs.Sweeping.{IsSwept, needing_rows, output_lits};

use crate::Fate;
use crate::keys::{Key, key_of};
use std::alloc::{AllocError, Global};
use std::collections::HashMap;
use syn_network::Network;
use syn_rows::Lit;

// What becomes of a latch with a key: it is dropped where it isn't needed, merged into the one that was seen with the key, or
// kept, and seen from now on where it begins with 0 or 1.
fn found(
    seen: &mut HashMap<Key, u32>,
    needed: bool,
    key: Key,
    number: u32,
) -> Result<Fate, AllocError>
    ensures { IfOk result (λ fate. IsFound (get (key_eq.ghosts).eq seen.old) needed key number fate (get (key_eq.ghosts).eq seen.new)) }
{
    if !needed {
        return Ok(Fate::Dropped);
    }
    if key.init >= 2 {
        return Ok(Fate::Kept);
    }
    match seen.get(&key) {
        Some(earlier) => Ok(Fate::Merged(*earlier)),
        None => {
            seen.insert(key, number)?;
            Ok(Fate::Kept)
        }
    }
}

/// What becomes of each latch: it is dropped where it isn't needed, and merged into the first that loads alike.
pub(crate) fn fates(
    alloc: Global,
    graph: &Network,
    lits: &[Lit],
    needed: &[bool],
) -> Result<Vec<Fate>, AllocError>
    requires count { length lits.now ≡ length graph.now.frame.names }
    requires lits { AreLits (network_of graph.now) graph.now.frame.names lits.now }
    requires length { length needed.now ≡ length graph.now.body.rows }
    requires needed { IsReachedSet (needing_rows (network_of graph.now)) (output_lits (network_of graph.now)) (value_in needed.now) }
    ensures fates { IfOk result (λ v. AreFates (network_of graph.now) v.items) }
    ensures swept { IfOk result (λ v. all_kept v.items ≡ true → IsSwept (network_of graph.now)) }
{
    syn_network::network_of_graph();
    let latches = graph.frame.latches.as_slice();
    let first = graph.body.source_count as usize + 1 - latches.len();
    let mut seen = HashMap::new(alloc);
    let mut fates = Vec::new(alloc);
    for j in 0..latches.len() {
        let key = key_of(lits, latches[j]);
        let fate = found(&mut seen, needed[first + j], key, j as u32)?;
        fates.push(fate)?;
    }
    Ok(fates)
}

/// Whether all are kept.
pub(crate) fn all_kept(fates: &[Fate]) -> bool
    ensures { result ≡ all_kept fates.now }
{
    for fate in fates {
        match *fate {
            Fate::Kept => {}
            _ => return false,
        }
    }
    true
}
