//! Lists of cuts, one after the other.

ghost use Rattle.std.specs.Prelude.{◌≡◌, ◌+◌, ◌++◌, ◌∷◌, ◌≤◌, [], OnOk, drop, length, take, vec_capacity, vec_len};
ghost use Rattle.arrayvec.specs.ArrayVec.{array_vec_len};
ghost use Rattle.syn_cuts.specs.Leaves.{leaves_of};

use crate::Cut;
use crate::unions::CUTS_PER_NODE;
use arrayvec::ArrayVec;
use std::alloc::{AllocError, Global};
use std::marker::Model;

// The lists of some nodes, one after the other. Contracts see the leaves of each cut.
#[derive(Drop)]
pub struct Part {
    cuts: Vec<Cut>,
}

impl Model for Part {
    ghost use Rattle.std.specs.Prelude.{ℕ, List};
    ghost use Rattle.syn_cuts.specs.Leaves.{leaves_of};

    ghost Value = { List (List ℕ) };

    ghost view = { λ p. leaves_of p.cuts.items };
}

// The cuts of a list from a place on.
fn cuts_from(cuts: &[Cut], start: usize, len: usize) -> &[Cut]
    requires { start + len ≤ length cuts.now }
    ensures { result.now ≡ take len (drop start cuts.now) }
{
    let (_, rest) = cuts.split_at(start);
    let (found, _) = rest.split_at(len);
    found
}

// Moves cuts behind others, where there is room for them.
fn push_cuts(cuts: &mut Vec<Cut>, more: ArrayVec<Cut, CUTS_PER_NODE>)
    requires { vec_len cuts.old + array_vec_len more ≤ vec_capacity cuts.old }
    ensures items { cuts.new.items ≡ cuts.old.items ++ more.items }
    ensures len { vec_len cuts.new ≡ vec_len cuts.old + array_vec_len more }
    ensures capacity { vec_capacity cuts.new ≡ vec_capacity cuts.old }
{
    for cut in more {
        cuts.push_reserved(cut);
    }
}

// The cut of a node alone.
fn alone(node: u32) -> Cut
    ensures { result.items ≡ node ∷ [] }
{
    let mut cut = Cut::new();
    cut.push(node);
    cut
}

impl Part {
    // A part without cuts.
    pub fn new(alloc: Global) -> Part
        ensures { result ≡ [] }
    {
        Part {
            cuts: Vec::new(alloc),
        }
    }

    // How many cuts there are.
    #[inline]
    pub fn len(&self) -> usize
        ensures { result ≡ length self.now }
    {
        self.cuts.len()
    }

    // The cuts from a place on.
    #[inline]
    pub fn slice(&self, start: usize, len: usize) -> &[Cut]
        requires { start + len ≤ length self.now }
        ensures { leaves_of result.now ≡ take len (drop start self.now) }
    {
        cuts_from(&self.cuts, start, len)
    }

    // Gives back what room is left.
    pub fn shrink_to_fit(&mut self)
        ensures { self.new ≡ self.old }
    {
        self.cuts.shrink_to_fit();
    }

    // Appends the list of a node: these cuts, and the node alone.
    pub fn push_list(
        &mut self,
        kept: ArrayVec<Cut, CUTS_PER_NODE>,
        node: u32,
    ) -> Result<(), AllocError>
        ensures more { length self.old ≤ length self.new }
        ensures list { OnOk result (self.new ≡ self.old ++ (leaves_of kept.items ++ (node ∷ []) ∷ [])) }
    {
        self.cuts.reserve(kept.len() + 1)?;
        push_cuts(&mut self.cuts, kept);
        self.cuts.push_reserved(alone(node));
        Ok(())
    }
}
