//! What is estimated of nodes.

use syn_rows::Lit;

/// The price of the cheapest LUT, one input of a LUT, or one reader, in the units of the estimates.
pub(crate) const UNIT: u32 = 256;

/// What is estimated of a node over the chosen cuts.
#[derive(Clone, Copy, Debug, Default, PartialEq, Eq)]
pub(crate) struct Figures {
    /// How many LUTs lie on a longest path to it.
    pub(crate) arrival: u32,
    /// The share of one reader in the prices of its LUT and those below it.
    pub(crate) flow: u32,
    /// The same of their inputs, in units of 1/256.
    pub(crate) edges: u32,
    /// How many readers it is expected to have, in units of 1/256.
    pub(crate) readers: u32,
}

/// What is estimated of a node, nothing past the end.
#[inline(always)]
pub(crate) fn figures_at(figures: &[Figures], node: u32) -> Figures {
    if (node as usize) < figures.len() {
        figures[node as usize]
    } else {
        Figures::default()
    }
}

/// What a LUT over a cut costs beside its price: when it arrives, and its flows before they are shared among its readers.
#[derive(Clone, Copy, Debug, Default, PartialEq, Eq)]
pub(crate) struct Cost {
    pub(crate) arrival: u32,
    pub(crate) flow: u32,
    pub(crate) edges: u32,
}

// What a LUT costs to which no leaf is added yet.
const NO_LEAF: Cost = Cost {
    arrival: 1,
    flow: 0,
    edges: 0,
};

/// What a LUT costs with one leaf more, beside its price.
#[inline(always)]
pub(crate) fn with_leaf(cost: Cost, leaf: Figures) -> Cost {
    Cost {
        arrival: greater(cost.arrival, leaf.arrival.saturating_add(1)),
        flow: cost.flow.saturating_add(leaf.flow),
        edges: cost.edges.saturating_add(leaf.edges).saturating_add(UNIT),
    }
}

/// What a LUT over these leaves costs, beside its price.
pub(crate) fn cost_over(figures: &[Figures], leaves: &[u32]) -> Cost {
    let mut cost = NO_LEAF;
    for leaf in leaves {
        cost = with_leaf(cost, figures_at(figures, *leaf));
    }
    cost
}

/// What a LUT costs at least that reads the leaves of two others, beside its price.
#[inline(always)]
pub(crate) fn at_least(a: Cost, b: Cost) -> Cost {
    Cost {
        arrival: greater(a.arrival, b.arrival),
        flow: greater(a.flow, b.flow),
        edges: greater(a.edges, b.edges),
    }
}

/// The greater of two numbers.
#[inline(always)]
pub(crate) fn greater(a: u32, b: u32) -> u32 {
    if a < b { b } else { a }
}

// A number of 64 bits as one of 32, the greatest where it is above.
#[inline]
fn clipped(number: u64) -> u32 {
    if number < u32::MAX as u64 {
        number as u32
    } else {
        u32::MAX
    }
}

// The share of one reader, of so many that are expected, at least one.
#[inline]
fn share(amount: u32, readers: u32) -> u32 {
    let readers = if readers < UNIT { UNIT } else { readers };
    clipped(amount as u64 * UNIT as u64 / readers as u64)
}

/// Sets what is estimated of a node from what its LUT costs, and its price.
pub(crate) fn set_figures(figures: &mut [Figures], node: u32, cost: Cost, price: u32) {
    if (node as usize) < figures.len() {
        let readers = figures[node as usize].readers;
        figures[node as usize] = Figures {
            arrival: cost.arrival,
            flow: share(cost.flow.saturating_add(price), readers),
            edges: share(cost.edges, readers),
            readers,
        };
    }
}

/// Expects of each node as many readers as it has.
pub(crate) fn expect_first(figures: &mut [Figures], refs: &[u32]) {
    for (n, refs) in refs.iter().enumerate() {
        if n < figures.len() {
            figures[n].readers = refs.saturating_mul(UNIT);
        }
    }
}

// How many readers are expected of a node next: the mean of those that were, and of those that it has, one of them twice.
fn expected_next(readers: u32, refs: u32, slow: bool) -> u32 {
    let before = readers as u64;
    let now = UNIT as u64 * refs as u64;
    if slow {
        clipped((2 * before + now) / 3)
    } else {
        clipped((before + 2 * now) / 3)
    }
}

/// Expects of each node readers between those that were expected and those that it has, nearer to the first where that is
/// to go slowly.
pub(crate) fn expect_again(figures: &mut [Figures], refs: &[u32], slow: bool) {
    for (n, refs) in refs.iter().enumerate() {
        if n < figures.len() {
            figures[n].readers = expected_next(figures[n].readers, *refs, slow);
        }
    }
}

/// The greatest arrival of an observed node.
pub(crate) fn depth_of(figures: &[Figures], observed: &[Lit]) -> u32 {
    let mut depth = 0;
    for lit in observed {
        depth = greater(depth, figures_at(figures, lit.node()).arrival);
    }
    depth
}
