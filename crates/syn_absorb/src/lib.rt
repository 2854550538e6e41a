//! LUT nets that are written and read well: each LUT reads only what it depends on (`trim`), and has the polarity in which
//! more of the observed literals want it (`absorb`).
//!
//! Both make a net of another, of the same function over the same sources. `trim` works by literals: each signal becomes a
//! literal of the new net (`rebuild`), the constant's or that of a signal, of which a LUT with fewer inputs may be one
//! (`narrow`); LUTs that nothing reaches then are left out (`reach`).
#![tactic(auto)]

mod luts;
mod marks;
mod narrow;
mod nets;
mod reach;
mod rebuild;
mod tables;
mod trimming;

pub use luts::copy_inputs;
pub use narrow::first_twice;
pub use nets::absorb;
pub use trimming::{trim, trim_luts};
