//! What cuts cost, and the order in which they are kept.

ghost use Rattle.std.specs.Prelude.{◌<◌, ◌^◌, length};

use crate::chosen::Chosen;
use crate::covers::Cover;
use crate::figures::{
    Cost, Figures, at_least, cost_over, depth_of, expect_again, expect_first, greater, set_figures,
};
use crate::lists::Listed;
use crate::near::{Near, Part};
use crate::picks::{Origin, Pick, Picks};
use crate::prices::Prices;
use std::alloc::{AllocError, Global};
use syn_graph::Graph;
use syn_rows::Lit;

/// By what a round chooses cuts.
#[derive(Clone, Copy, Debug, PartialEq, Eq)]
pub(crate) enum Aim {
    /// Arrival, then fewer leaves, then area flow.
    Depth,
    /// Arrival, then area flow.
    DepthThenFlow,
    /// Area flow, of cuts that arrive in time.
    Flow,
    /// The prices of the LUTs that the cut adds to the cover, of cuts that arrive in time.
    Area,
}

/// What a cut is compared by: four numbers of 32 bits, the first the highest; less is better.
pub(crate) type Rank = u128;

// The rank of cuts that arrive too late.
const LATE: Rank = u128::MAX;

// One of the first number.
const FIRST: Rank = 1 << 96;

// One of the second.
const SECOND: Rank = 1 << 64;

// One of the third.
const THIRD: Rank = 1 << 32;

// The rank of four numbers.
#[inline(always)]
fn rank_of(first: u32, second: u32, third: u32, fourth: u32) -> Rank {
    first as u128 * FIRST + second as u128 * SECOND + third as u128 * THIRD + fourth as u128
}

/// What is estimated of nodes, the cover, and the aim of the round.
#[derive(Drop)]
pub(crate) struct Costs {
    prices: Prices,
    /// The depth up to which there is room even where the cuts allow less.
    room: u32,
    aim: Aim,
    figures: Vec<Figures>,
    cover: Cover,
    near: Near,
    picks: Picks,
    /// The leaves near the node at hand whose LUTs aren't in the cover.
    unread: u64,
    /// When the node at hand has to arrive at the latest.
    required: u32,
    /// The depth that no observed node exceeds.
    depth: u32,
}

// Nothing estimated of so many nodes.
fn no_figures(alloc: Global, count: usize) -> Result<Vec<Figures>, AllocError> {
    vec![in alloc; Figures::default(); count]
}

impl Costs {
    /// Before the first round: each node is expected to have as many readers as in the graph. There is room up to this depth.
    pub(crate) fn of(
        alloc: Global,
        graph: &Graph,
        prices: &Prices,
        room: u32,
    ) -> Result<Costs, AllocError> {
        let count = graph.rows.as_slice().len();
        let refs = graph.refs(alloc)?;
        let mut figures = no_figures(alloc, count)?;
        expect_first(figures.as_mut_slice(), refs.as_slice());
        Ok(Costs {
            prices: *prices,
            room,
            aim: Aim::Depth,
            figures,
            cover: Cover::empty(alloc, count, graph.source_count)?,
            near: Near::none(alloc, count)?,
            picks: Picks::none(),
            unread: 0,
            required: u32::MAX,
            depth: 0,
        })
    }

    /// Begins a round.
    pub(crate) fn begin(&mut self, aim: Aim) {
        self.aim = aim;
    }

    /// Ends a round: makes the cover of the chosen cuts. The depth of a round that aims at depth is kept from then on, or that
    /// up to which there is room. What
    /// the first round's cover reads tells little yet, so it changes what is expected less than the others do.
    pub(crate) fn end(&mut self, chosen: &Chosen, observed: &[Lit])
        requires { length chosen.now < 2 ^ 32 }
    {
        if self.aim == Aim::Depth || self.aim == Aim::DepthThenFlow {
            self.depth = greater(depth_of(self.figures.as_slice(), observed), self.room);
        }
        self.cover.cover(chosen, observed, self.depth);
        expect_again(
            self.figures.as_mut_slice(),
            self.cover.refs.as_slice(),
            self.aim == Aim::Depth,
        );
    }

    /// What is estimated of nodes.
    pub(crate) fn figures(&self) -> &[Figures] {
        self.figures.as_slice()
    }

    // Whether the LUT of a node is taken out of the cover while its cut is chosen.
    fn is_lifted(&self, node: u32) -> bool {
        self.aim == Aim::Area && self.cover.is_read(node)
    }

    /// Takes the LUT of a node out of the cover, where the round counts what it adds.
    pub(crate) fn lift(&mut self, chosen: &Chosen, node: u32) {
        if self.is_lifted(node) {
            self.cover.remove(chosen, chosen.of(node));
        }
    }

    /// Sets what is estimated of a node over its chosen cut, and puts its LUT into the cover in place of that over the cut
    /// before. What both need stays in the cover meanwhile.
    pub(crate) fn settle(&mut self, chosen: &Chosen, node: u32, before: &[u32]) {
        let now = chosen.of(node);
        let cost = cost_over(self.figures.as_slice(), now);
        let price = self.prices.at(now.len() as u32);
        set_figures(self.figures.as_mut_slice(), node, cost, price);
        if self.is_lifted(node) {
            self.cover.undo_remove();
            if before != now {
                self.cover.add(chosen, now, &self.prices, u32::MAX);
                self.cover.remove(chosen, before);
            }
        }
    }

    // The leaves near the node at hand whose LUTs aren't in the cover.
    fn unread_near(&self) -> u64 {
        let mut unread = 0;
        let mut bit = 1;
        for leaf in self.near.leaves() {
            if self.cover.is_missing(*leaf) {
                unread |= bit;
            }
            bit <<= 1;
        }
        unread
    }

    // The prices of the LUTs that a LUT over these leaves adds to the cover beside itself, together; where they reach this,
    // as much or more.
    fn added(&mut self, chosen: &Chosen, leaves: u64, most: u32) -> u32 {
        let unread = leaves & self.unread;
        if unread == 0 {
            return 0;
        }
        let nodes = self.near.nodes(unread);
        let price = self.cover.add(chosen, nodes.as_slice(), &self.prices, most);
        self.cover.undo_add();
        price
    }

    // The rank of a cut of so many leaves that adds no LUT but its own.
    #[inline(always)]
    fn rank(&self, cost: &Cost, len: u32) -> Rank {
        let price = self.prices.at(len);
        let flow = cost.flow.saturating_add(price);
        match self.aim {
            Aim::Depth => rank_of(cost.arrival, len, flow, 0),
            Aim::DepthThenFlow => rank_of(cost.arrival, flow, cost.edges, len),
            Aim::Flow | Aim::Area if cost.arrival > self.required => LATE,
            Aim::Flow => rank_of(flow, cost.edges, cost.arrival, len),
            Aim::Area => rank_of(price, cost.edges, cost.arrival, len),
        }
    }

    // By how much the first number of this rank may rise before it is above that of the picks' bound.
    fn room_above(&self, rank: Rank) -> u32 {
        let bound = (self.picks.bound() / FIRST) as u32;
        let first = (rank / FIRST) as u32;
        bound.saturating_sub(first)
    }

    // Picks a cut that costs so much, where it arrives in time, contains no picked one and is one of the best.
    fn consider(&mut self, chosen: &Chosen, leaves: u64, cost: &Cost, origin: Origin) {
        let mut rank = self.rank(cost, leaves.count_ones());
        if rank >= self.picks.bound() || self.picks.are_in(leaves) {
            return;
        }
        if self.aim == Aim::Area {
            let most = self.room_above(rank).saturating_add(1);
            rank = rank.saturating_add(self.added(chosen, leaves, most) as u128 * FIRST);
            if rank >= self.picks.bound() {
                return;
            }
        }
        self.picks.put(Pick {
            rank,
            leaves,
            origin,
        });
    }

    // Whether no cut of at most k leaves with all these, and perhaps more, is one of the best.
    #[inline(always)]
    fn is_bad(&self, leaves: u64, cost: &Cost, k: u8) -> bool {
        let len = leaves.count_ones();
        len > k as u32 || self.rank(cost, len) >= self.picks.bound()
    }

    // Considers the union of a cut of each fan-in, where it has at most k leaves and may be one of the best.
    #[inline(always)]
    fn consider_union(&mut self, chosen: &Chosen, left: &Part, right: &Part, k: u8) {
        let leaves = left.leaves | right.leaves;
        if self.is_bad(leaves, &at_least(left.cost, right.cost), k) {
            return;
        }
        let figures = self.figures.as_slice();
        let added = right.leaves & !left.leaves;
        let cost = self.near.with_leaves(figures, left.cost, added);
        let origin = Origin::Union(left.place, right.place);
        self.consider(chosen, leaves, &cost, origin)
    }

    /// Picks the best cuts of an AND whose fan-ins have these: of its chosen cut, and of the unions of a cut of each fan-in
    /// that have at most k leaves.
    pub(crate) fn pick(
        &mut self,
        chosen: &Chosen,
        node: u32,
        left: &[Listed],
        right: &[Listed],
        k: u8,
    ) {
        let cost = cost_over(self.figures.as_slice(), chosen.of(node));
        self.near.clear();
        let own = self.near.word(chosen.of(node));
        let left = self.near.parts(left);
        let right = self.near.parts(right);
        self.required = self.cover.required(node);
        if self.aim == Aim::Area {
            self.unread = self.unread_near();
        }
        self.picks.clear();
        self.consider(chosen, own, &cost, Origin::Chosen);
        for first in left.as_slice() {
            if !self.is_bad(first.leaves, &first.cost, k) {
                self.consider_unions(chosen, first, right.as_slice(), k);
            }
        }
    }

    // Considers the unions of a cut of a fan-in with each of the other's.
    fn consider_unions(&mut self, chosen: &Chosen, left: &Part, others: &[Part], k: u8) {
        for right in others {
            self.consider_union(chosen, left, right, k);
        }
    }

    /// The cuts that were picked last, the best first.
    pub(crate) fn picks(&self) -> &[Pick] {
        self.picks.as_slice()
    }
}
