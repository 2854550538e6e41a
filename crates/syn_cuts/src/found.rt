//! Lists that were found, before they are set.

ghost use Rattle.std.specs.Prelude.{◌≡◌, ℕ, List, ◌+◌, ◌++◌, ◌∷◌, ◌≤◌, [], All, IfOk, IfSome, OnOk, length};
ghost use Rattle.syn_rows.specs.declared.Row.{Row};
ghost use Rattle.syn_cuts.specs.Cuts.{listed_cuts};
ghost use Rattle.syn_cuts.specs.Leaves.{leaves_of};
ghost use Rattle.syn_cuts.specs.Lists.{found_in, IsFound, IsInside, list_at};

use crate::Cut;
use crate::parts::Part;
use crate::unions::CUTS_PER_NODE;
use arrayvec::ArrayVec;
use std::alloc::{AllocError, Global};
use std::marker::Model;

// A node, and where its list stands in a part: the place of the first cut, and how many there are.
#[derive(Clone, Copy, Debug, PartialEq, Eq)]
pub struct Entry {
    pub node: u32,
    pub start: usize,
    pub len: usize,
}

// Some nodes with their lists. Contracts see each node with its list.
#[derive(Drop)]
pub struct Found {
    part: Part,
    entries: Vec<Entry>,
}

impl Model for Found {
    ghost use Rattle.std.specs.Prelude.{ℕ, List, All};
    ghost use Rattle.syn_cuts.specs.Lists.{found_in, IsInside};

    ghost Value = { List (ℕ × List (List ℕ)) };

    ghost view = { λ f. found_in f.part f.entries.items };

    ghost invariant = { λ f. All (IsInside f.part) f.entries.items };
}

impl Found {
    // No nodes yet, with room for the places of so many.
    pub fn with_room(alloc: Global, nodes: usize) -> Result<Found, AllocError>
        ensures { IfOk result (λ found. found ≡ []) }
    {
        Ok(Found {
            part: Part::new(alloc),
            entries: Vec::with_capacity(alloc, nodes)?,
        })
    }

    // Appends a node with its list: these cuts, and the node alone.
    pub fn push(&mut self, node: u32, kept: ArrayVec<Cut, CUTS_PER_NODE>) -> Result<(), AllocError>
        ensures { OnOk result (self.new ≡ self.old ++ (node, leaves_of kept.items ++ (node ∷ []) ∷ []) ∷ []) }
    {
        let start = self.part.len();
        self.part.push_list(kept, node)?;
        let len = self.part.len() - start;
        self.entries.push(Entry { node, start, len })?;
        Ok(())
    }

    // Gives back what room is left.
    pub fn shrink_to_fit(&mut self)
        ensures { self.new ≡ self.old }
    {
        self.part.shrink_to_fit();
    }

    // The list of a node, where it stands at this place.
    #[inline]
    pub fn list(&self, index: usize, node: u32) -> Option<&[Cut]>
        ensures { IfSome result (λ cuts. (k : ℕ) (rows : List Row) → All (IsFound k rows) self.now → leaves_of cuts.now ≡ list_at (listed_cuts k rows) node) }
    {
        if index >= self.entries.len() {
            return None;
        }
        let entry = self.entries[index];
        if entry.node != node {
            return None;
        }
        Some(self.part.slice(entry.start, entry.len))
    }

    // The lists, one after the other, and where they stand.
    pub fn open(self) -> (Part, Vec<Entry>)
        ensures lists { found_in result.0 result.1.items ≡ self }
        ensures inside { All (IsInside result.0) result.1.items }
    {
        let Found { part, entries } = self;
        (part, entries)
    }
}
