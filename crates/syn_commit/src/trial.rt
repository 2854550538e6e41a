//! What a commit goes by, up to its answer and behind it.

use crate::Hints;
use crate::spare::Spare;
use std::snapshot::Snapshot;
use syn_decide::{Attempt, Deciding};
use syn_table::{Seat, Shared};

/// What a commit goes by up to its answer.
#[derive(Drop)]
pub(crate) struct Trial<'a> {
    /// The table.
    pub(crate) shared: &'a Shared,
    /// Where a pair may stand already.
    pub(crate) hints: &'a Hints,
    /// The spare nodes that the seat holds.
    pub(crate) pool: &'a Spare,
    /// What is asked.
    pub(crate) attempt: Attempt<'a>,
    /// The seat as it was at the start.
    pub(crate) start: &'a Snapshot<Seat>,
}

/// What a commit goes by behind its answer.
#[derive(Drop)]
pub(crate) struct Verdict<'a> {
    /// The table.
    pub(crate) shared: &'a Shared,
    /// Where the rows that it makes are noted.
    pub(crate) hints: &'a Hints,
    /// What was asked.
    pub(crate) attempt: Attempt<'a>,
    /// What the loads decided.
    pub(crate) deciding: &'a Deciding,
    /// The seat as it was at the start.
    pub(crate) start: &'a Snapshot<Seat>,
}
