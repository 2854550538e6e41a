//! Paths from sources into the top of a node that share no node: their check, the search for one more, and where there is
//! none, the least cut outside the top (Cong and Ding, "FlowMap", IEEE TCAD 1994; Ford and Fulkerson for the search).
#![tactic(auto)]

mod added_paths;
mod laws;
mod nearness;
mod node_cut;
mod node_facts;
mod path_checks;
mod path_lists;
mod path_search;
mod places;
mod room;
mod tops;

pub use laws::{disjoint_meet_at_most, one_least_cut};
pub use node_cut::{Outcome, find};
pub use path_checks::are_paths_for;
pub use room::Room;
