//! Lists of plain values, which all crates above use.
#![tactic(auto)]

mod items;

pub use items::Items;
