//! The signals of nodes.

ghost use Rattle.std.specs.Prelude.{◌≡◌, ℕ, ◌+◌, ◌<◌, ◌^◌, ◌++◌, ◌∷◌, [], nat_lt, if◌then◌else◌, All, IfOk, OnOk, length};
ghost use Rattle.syn_rows.specs.declared.TheConstants.{NODE_LIMIT};
ghost use Rattle.syn_covering.specs.Making.{number_at};
ghost use Rattle.syn_covering.specs.Mappings.{HasSignal, signal_of};
ghost use Rattle.syn_covering.specs.Needs.{marked_from};

use std::alloc::{AllocError, Global};

/// The marked nodes in order, and the signal of each node that has one.
#[derive(Drop)]
pub(crate) struct Numbering {
    /// The marked nodes.
    pub(crate) nodes: Vec<u32>,
    /// The signals by node: node 0 and the sources have their own numbers, then come the marked nodes.
    pub(crate) signals: Vec<u32>,
}

// The signal of the next node, of so many that have LUTs before it.
#[inline]
fn next_signal(source_count: u32, node: u32, luts: u32) -> u32
    requires { source_count + 1 + luts < 2 ^ 31 }
    ensures low { result < 2 ^ 31 }
    ensures signal { result ≡ (if nat_lt node (source_count + 1) then node else source_count + 1 + luts) }
{
    if node <= source_count {
        node
    } else {
        source_count + 1 + luts
    }
}

// Adds a node to others where it is marked.
fn push_marked(nodes: &mut Vec<u32>, node: u32, mark: bool) -> Result<(), AllocError>
    ensures { OnOk result (nodes.new.items ≡ (if mark then nodes.old.items ++ node ∷ [] else nodes.old.items)) }
{
    if mark {
        nodes.push(node)?;
    }
    Ok(())
}

/// Numbers the marked nodes. The only error is want of memory.
pub(crate) fn number(
    alloc: Global,
    marks: &[bool],
    source_count: u32,
) -> Result<Numbering, AllocError>
    requires few { length marks.now < NODE_LIMIT }
    requires sources { source_count < NODE_LIMIT }
    ensures nodes { IfOk result (λ n. n.nodes.items ≡ marked_from 0 marks.now) }
    ensures count { IfOk result (λ n. length n.signals.items ≡ length marks.now) }
    ensures low { IfOk result (λ n. All (λ s. s < 2 ^ 31) n.signals.items) }
    ensures signals { IfOk result (λ n. (m : ℕ) → m < length marks.now → HasSignal source_count (marked_from 0 marks.now) m → number_at n.signals.items m ≡ signal_of source_count (marked_from 0 marks.now) m) }
{
    let mut nodes = Vec::new(alloc);
    let mut signals = Vec::new(alloc);
    for (n, mark) in marks.iter().enumerate() {
        signals.push(next_signal(source_count, n as u32, nodes.len() as u32))?;
        push_marked(&mut nodes, n as u32, *mark)?;
    }
    Ok(Numbering { nodes, signals })
}
