//! The cuts that are picked for a node.

use crate::costs::Rank;
use arrayvec::ArrayVec;

/// How many cuts are picked for a node, beside the node alone.
pub(crate) const PICKED: usize = 8;

/// Where a cut comes from.
#[derive(Clone, Copy, Debug, Default)]
pub(crate) enum Origin {
    /// It is the chosen one.
    #[default]
    Chosen,
    /// It is the union of the cuts in these places of the lists of the fan-ins.
    Union(u8, u8),
}

/// A cut: its leaves as bits, what it is compared by, and where it comes from.
#[derive(Clone, Copy, Debug, Default)]
pub(crate) struct Pick {
    pub(crate) rank: Rank,
    pub(crate) leaves: u64,
    pub(crate) origin: Origin,
}

/// The picked cuts of a node, the best first; none contains another.
#[derive(Drop)]
pub(crate) struct Picks {
    best: ArrayVec<Pick, PICKED>,
    /// A cut whose rank isn't below this isn't picked.
    bound: Rank,
}

// Moves the last of some picks before those of greater rank.
fn lift_last(picks: &mut [Pick]) {
    for i in (1..picks.len()).rev() {
        if i >= picks.len() || picks[i].rank >= picks[i - 1].rank {
            return;
        }
        picks.swap(i - 1, i);
    }
}

impl Picks {
    /// No cut.
    pub(crate) fn none() -> Picks {
        Picks {
            best: ArrayVec::new(),
            bound: Rank::MAX,
        }
    }

    /// Forgets all cuts.
    pub(crate) fn clear(&mut self) {
        self.best.clear();
        self.bound = Rank::MAX;
    }

    /// The picked cuts.
    pub(crate) fn as_slice(&self) -> &[Pick] {
        self.best.as_slice()
    }

    /// A cut whose rank isn't below this isn't picked.
    #[inline]
    pub(crate) fn bound(&self) -> Rank {
        self.bound
    }

    /// Whether some leaves contain those of a picked cut.
    pub(crate) fn are_in(&self, leaves: u64) -> bool {
        for pick in self.best.as_slice() {
            if pick.leaves & !leaves == 0 {
                return true;
            }
        }
        false
    }

    // Whether a picked cut contains these leaves.
    fn contain(&self, leaves: u64) -> bool {
        for pick in self.best.as_slice() {
            if leaves & !pick.leaves == 0 {
                return true;
            }
        }
        false
    }

    // Lets those go that contain these leaves.
    fn drop_containing(&mut self, leaves: u64) {
        for i in (0..self.best.len()).rev() {
            if i < self.best.len() && leaves & !self.best.as_slice()[i].leaves == 0 {
                let _ = self.best.remove(i);
            }
        }
    }

    // The rank of the last cut; the greatest where there is room.
    fn last_rank(&self) -> Rank {
        let best = self.best.as_slice();
        if best.len() >= PICKED {
            best[PICKED - 1].rank
        } else {
            Rank::MAX
        }
    }

    /// Picks a cut that contains none of the picked; the last goes where there is no room.
    pub(crate) fn put(&mut self, pick: Pick) {
        if self.contain(pick.leaves) {
            self.drop_containing(pick.leaves);
        }
        if self.best.is_full() {
            self.best.pop();
        }
        if !self.best.is_full() {
            self.best.push(pick);
        }
        lift_last(self.best.as_mut_slice());
        self.bound = self.last_rank();
    }
}
