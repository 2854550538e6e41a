//! What the searches of one node keep, used again for the next.

ghost use Rattle.std.specs.Prelude.{◌≡◌, ◌-◌, ◌<◌, ◌≤◌, ℕ, IfOk, length, replicate};
ghost use Rattle.syn_paths.specs.declared.places.Next.TheVariants.{Off};
ghost use Rattle.syn_paths.specs.Checking.{AreUpTo, NoneMarked};
ghost use Rattle.syn_paths.specs.Rooms.{AreMarks, IsReady};

use crate::nearness::distances;
use crate::places::{Next, Step};
use std::alloc::{AllocError, Global};
use syn_rows::Row;

/// Marks of nodes: a node is marked where it has the last stamp, so that none is cleared between searches.
#[derive(Drop)]
pub(crate) struct Marks {
    /// Of what the top of a node refers to.
    pub(crate) below: Vec<u32>,
    /// Of the places into nodes.
    pub(crate) ins: Vec<u32>,
    /// Of the places out of nodes.
    pub(crate) outs: Vec<u32>,
    /// The greatest stamp that was given.
    pub(crate) stamp: u32,
}

// Takes all stamps away.
fn wipe(marks: &mut [u32])
    ensures length { length marks.new ≡ length marks.old }
    ensures stamps { AreUpTo marks.new 0 }
{
    for mark in marks.iter_mut() {
        *mark = 0;
    }
}

// So many marks without a stamp.
fn blank(alloc: Global, count: usize) -> Result<Vec<u32>, AllocError>
    ensures length { IfOk result (λ v. length v.items ≡ count) }
    ensures stamps { IfOk result (λ v. AreUpTo v.items 0) }
{
    vec![in alloc; 0; count]
}

impl Marks {
    // Marks for so many nodes.
    fn of(alloc: Global, count: usize) -> Result<Marks, AllocError>
        ensures { IfOk result (AreMarks count) }
    {
        Ok(Marks {
            below: blank(alloc, count)?,
            ins: blank(alloc, count)?,
            outs: blank(alloc, count)?,
            stamp: 0,
        })
    }

    /// The next stamp, which no mark has.
    pub(crate) fn next(&mut self) -> u32
        ensures stamp { result ≡ self.new.stamp }
        ensures positive { 0 < result }
        ensures marks { (count : ℕ) → AreMarks count self.old → AreMarks count self.new }
        ensures below { (count : ℕ) → AreMarks count self.old → AreUpTo self.new.below.items (result - 1) }
        ensures ins { (count : ℕ) → AreMarks count self.old → AreUpTo self.new.ins.items (result - 1) }
        ensures outs { (count : ℕ) → AreMarks count self.old → AreUpTo self.new.outs.items (result - 1) }
    {
        if self.stamp == u32::MAX {
            wipe(self.below.as_mut_slice());
            wipe(self.ins.as_mut_slice());
            wipe(self.outs.as_mut_slice());
            self.stamp = 0;
        }
        self.stamp += 1;
        self.stamp
    }
}

/// What the searches of one node keep, used again for the next.
#[derive(Drop)]
pub struct Room {
    pub(crate) marks: Marks,
    /// How near each node is to a source.
    pub(crate) near: Vec<u32>,
    /// What comes behind each node on its path.
    pub(crate) next: Vec<Next>,
    /// The sources of the paths.
    pub(crate) sources: Vec<u32>,
    /// The nodes that are, or were, on a path.
    pub(crate) touched: Vec<u32>,
    /// What the top refers to outside it.
    pub(crate) starts: Vec<u32>,
    /// The marked places, in order.
    pub(crate) trail: Vec<Step>,
    /// Which of them are still to be looked at.
    pub(crate) waiting: Vec<usize>,
    /// The nodes of the top that are still to be looked at.
    pub(crate) tops: Vec<u32>,
}

// So many nodes that are on no path.
fn none_on(alloc: Global, count: usize) -> Result<Vec<Next>, AllocError>
    ensures { IfOk result (λ v. v.items ≡ replicate count Off) }
{
    vec![in alloc; Next::Off; count]
}

impl Room {
    /// Room for searches in these rows. The only error is want of memory.
    pub fn of(alloc: Global, rows: &[Row]) -> Result<Room, AllocError>
        ensures { IfOk result (IsReady (length rows.now)) }
    {
        let count = rows.len();
        Ok(Room {
            marks: Marks::of(alloc, count)?,
            near: distances(alloc, rows)?,
            next: none_on(alloc, count)?,
            sources: Vec::new(alloc),
            touched: Vec::new(alloc),
            starts: Vec::new(alloc),
            trail: Vec::new(alloc),
            waiting: Vec::new(alloc),
            tops: Vec::new(alloc),
        })
    }
}
