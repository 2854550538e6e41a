//! The chosen cuts.

ghost use Rattle.std.specs.Prelude.{◌≡◌, ◌<◌, ◌≤◌, IfOk, length, map, slice_set};
ghost use Rattle.syn_truth.specs.declared.TheConstants.{MAX_VARS};
ghost use Rattle.syn_area.specs.Kept.{cut_in, fan_ins};

use std::alloc::{AllocError, Global};
use std::marker::Model;
use syn_covering::Choice;
use syn_cuts::Cut;
use syn_rows::Row;

/// A chosen cut for each node. Contracts see the list of their leaves.
#[derive(Drop)]
pub(crate) struct Chosen {
    cuts: Vec<Cut>,
}

impl Model for Chosen {
    ghost use Rattle.std.specs.Prelude.{ℕ, List};
    ghost use Rattle.syn_cuts.specs.Leaves.{leaves_of};

    ghost Value = { List (List ℕ) };

    ghost view = { λ c. leaves_of c.cuts.items };
}

/// A cut with these leaves.
pub(crate) fn copied(leaves: &[u32]) -> Cut
    requires { length leaves.now ≤ MAX_VARS }
    ensures { result.items ≡ leaves.now }
{
    let mut cut = Cut::new();
    for leaf in leaves {
        cut.push(*leaf);
    }
    cut
}

// The fan-ins of an AND as a cut; no leaf of any other row.
fn fan_ins(row: Row) -> Cut
    ensures { result.items ≡ fan_ins row }
{
    let mut cut = Cut::new();
    match row {
        Row::And(a, b) => {
            cut.push(a.node());
            cut.push(b.node());
            cut
        }
        Row::Free | Row::Source | Row::Alias(_) => cut,
    }
}

impl Chosen {
    /// The fan-ins of each AND.
    pub(crate) fn fan_ins(alloc: Global, rows: &[Row]) -> Result<Chosen, AllocError>
        ensures { IfOk result (λ chosen. chosen ≡ map fan_ins rows.now) }
    {
        let mut cuts = Vec::with_capacity(alloc, rows.len())?;
        for row in rows {
            cuts.push(fan_ins(*row))?;
        }
        Ok(Chosen { cuts })
    }

    /// How many nodes there are.
    pub(crate) fn len(&self) -> usize
        ensures { result ≡ length self.now }
    {
        self.cuts.len()
    }

    /// The chosen cut of a node, no leaf past the end.
    #[inline]
    pub(crate) fn of(&self, node: u32) -> &[u32]
        ensures leaves { result.now ≡ cut_in self.now node }
        ensures few { length result.now ≤ MAX_VARS }
    {
        if (node as usize) < self.cuts.len() {
            self.cuts[node as usize].as_slice()
        } else {
            &[]
        }
    }

    /// Chooses a cut for a node.
    pub(crate) fn set(&mut self, node: u32, cut: Cut)
        requires { node < length self.old }
        ensures { self.new ≡ slice_set self.old node cut.items }
    {
        self.cuts[node as usize] = cut;
    }
}

impl Choice for Chosen {
    ghost use Rattle.std.specs.Prelude.{length};
    ghost use Rattle.syn_area.specs.Kept.{cut_in};

    ghost leaves = { cut_in };

    ghost count = { λ c. length c };

    fn cut(&self, node: u32) -> &[u32] {
        self.of(node)
    }
}
