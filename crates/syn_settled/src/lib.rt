//! Mappings as they are written: LUTs that read only what they depend on, and hold the complements of what is observed.
#![tactic(auto)]

mod few;
mod fewest;
mod least;
mod settling;

pub use few::few_luts;
pub use fewest::fewest_luts;
pub use least::least_luts;
