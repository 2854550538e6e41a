//! One commit on the shared table: its tools.
#![tactic(auto)]

mod answers;
mod commits;
mod cone_walk;
mod done;
mod hints;
mod hooks;
mod loaded;
mod pools;
mod readiness;
mod returns;
mod spare;
mod stores;
mod suggestions;
mod trial;

pub use commits::try_commit;
pub use hints::Hints;
pub use hooks::{CommitHook, Moment, NoHook};
pub use pools::Pool;
pub use spare::MAX_SPARE;
use syn_table::Shared;

/// What all commits of a worker use.
#[derive(Drop)]
pub struct Tools<'a, H> {
    /// The table.
    pub shared: &'a Shared,
    /// Where a pair may stand already.
    pub hints: &'a Hints,
    /// What is told of each commit.
    pub hook: &'a H,
    /// The worker's number, which the hook is told.
    pub worker: u8,
}
