//! Mapping for few LUTs: a few good cuts are kept for each node, and round after round one of them is chosen, first for
//! depth, then by area flow, then by exact local area, while no LUT on a longest path gets later (after Mishchenko, Cho,
//! Chatterjee and Brayton, "Combinational and sequential mapping with priority cuts", ICCAD 2007; how many cuts are kept,
//! their order and the rounds are this project's choice). The area of a LUT goes by how many inputs it has: in the search
//! as a price (`prices`), and exactly where nets are compared (`areas`).
//!
//! The search keeps for each node its chosen cut, what is estimated of it (`figures`), and its place in the cover
//! (`covers`). All are flat by node number. While the cuts of a node are picked (`picks`), the leaves near it are bits of a
//! word (`near`), and cuts are made of the picks alone. What is proved of the search is that each chosen cut is one that a
//! LUT may read; that the net is no worse than that of `map` is seen by making both.
#![tactic(auto)]

mod areas;
mod chosen;
mod costs;
mod covers;
mod figures;
mod laws;
mod lists;
mod mapper;
mod near;
mod nets;
mod picks;
mod prices;
mod rounds;

pub use laws::{cost_never_falls, needed_exist};
pub use mapper::{map_for_area, map_for_least_area};
pub use nets::cheaper;
