//! Structural hashing: rows in which no pair of literals stands twice, and compaction.
#![tactic(auto)]

mod compaction;
mod construction;
mod literals;
mod pairs;
mod visit;
mod visit_order;

pub use compaction::{Rows, compact_hashed, compact_rows, has_level, has_valuation};
pub use construction::HashedRows;
pub use literals::{first_literals, literal_of, literals_of};
pub use pairs::PairIndex;
