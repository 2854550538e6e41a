//! Whether a plan over a cone may save.

ghost use Rattle.std.specs.Prelude.{◌≡◌, true};
ghost use Rattle.syn_rows.specs.Rows.{row_at};
ghost use Rattle.syn_rows.specs.Reach.{is_and};
ghost use Rattle.syn_gain.specs.Uses.{IsUsesOf};

use std::alloc::{AllocError, Global};
use syn_gain::{Proposal, Room, Uses, adds_fewer, mffc_size};
use syn_graph::Graph;

// How many ANDs that go with a row are counted before its plan is looked at; no plan has as many gates.
const MAX_COUNTED: u32 = 256;

/// Whether a proposal may save on a shared table of the graph, or with `zero_gain` loses nothing: it adds fewer new rows than
/// go with the root's row where the leaves stay, or as many. Nothing rests on it: a commit judges each proposal again. The
/// only error is want of memory.
pub fn may_save(
    alloc: Global,
    graph: &Graph,
    uses: &Uses,
    proposal: &Proposal,
    zero_gain: bool,
) -> Result<bool, AllocError>
    requires uses { IsUsesOf uses.now graph.now }
    requires root { is_and (row_at graph.now.rows proposal.now.root) ≡ true }
{
    let leaves = proposal.leaves.as_slice();
    let lost = mffc_size(alloc, graph, uses, proposal.root, leaves, MAX_COUNTED)?;
    let limit = lost.saturating_add(u32::from(zero_gain));
    if proposal.plan.gates.len() < limit as usize {
        return Ok(true);
    }
    let mut room = Room::new(alloc);
    Ok(adds_fewer(graph, uses, proposal.borrow(), limit, &mut room))
}
