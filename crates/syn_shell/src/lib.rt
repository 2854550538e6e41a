//! The shell: what reads, shows and writes netlists.
#![tactic(auto)]

mod aiger;
mod blif;
mod commands;
mod comparing;
mod files;
mod laws;
mod line_mode;
mod lines;
mod luts;
mod network;
mod refusal;
mod refusal_lines;
mod reports;
mod resubstituting;
mod scripts;
mod session;
mod whole_run;

pub use laws::{area_is_no_worse, each_write_keeps, few_lines};
pub use refusal::{FileCause, Refusal};
pub use session::Session;
pub use whole_run::run;
