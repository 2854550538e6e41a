//! The cone of an AND of a graph: at most eight leaves and at most 48 inner nodes, grown leaf by leaf; and whether a plan over
//! the leaves may save.
//!
//! A cone has a list of leaves, which rise, and one of its inner nodes, in the order in which they were replaced (`Cone`). No
//! node is in both. Both lists stand inline, so that growing takes no memory.
#![tactic(auto)]

mod bound;
mod grown_cone;
mod laws;
mod leaves;

pub use bound::may_save;
pub use grown_cone::cone_leaves;
pub use laws::{chooses_next_leaf, counts_inner_nodes, grows_until_none};
pub use leaves::{Leaves, MAX_LEAVES};
