//! What a candidate surely doesn't save, told without filling a list: quick rejects.
//!
//! A candidate is weighed: `DryRun` has inline room for the literals that the gates of a small plan become, and for the rows
//! that it adds, so far as each gate needs a row. `saves_nothing` compares these with the ANDs that go. A plan without a gate in
//! vain (`are_irredundant`) keeps all rows that it adds; and where the leaves stand apart (`are_apart`), each gate of a plan of which
//! `AllNew` tells it adds a row, so that weighing may end early. Both are told of a plan once, of leaves for each cut.
#![tactic(auto)]

mod all_new;
mod dry_runs;
mod irredundant;
mod quick_reject;

pub use all_new::{AllNew, all_new_of_each, are_apart, names_within};
pub use dry_runs::{DryRun, MAX_INDEXES, dry_run, dry_run_over};
pub use irredundant::{are_irredundant, leaves_named_by_all};
pub use quick_reject::saves_nothing;
