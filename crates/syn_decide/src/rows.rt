//! The rows of a commit's new gates.

ghost use Rattle.std.specs.Prelude.{◌≡◌, ◌<◌, ◌≤◌, All, length, slice_get, Some, IfNone, IfSome};
ghost use Rattle.syn_rows.specs.declared.TheConstants.{NODE_LIMIT};
ghost use Rattle.syn_decide.specs.Hints as spec;
ghost use Rattle.syn_decide.specs.Tasks.{task_of};

use crate::place::{Placed, is_asked, new_root, place, rows_needed};
use crate::{Attempt, NodeRow};
use arrayvec::ArrayVec;
use syn_plan::MAX_GATES;
use syn_rows::Row;

/// What a commit is to store. New gates go by the numbers from 2^29 on.
#[derive(Debug, Drop)]
pub struct NewRows {
    /// The rows of the new gates, in order.
    pub rows: ArrayVec<Row, MAX_GATES>,
    /// How many of them, the first ones, need a node of their own.
    pub needed: u32,
    /// The row that the root becomes.
    pub root: Row,
    placed: Placed,
}

impl NewRows {
    /// Room for rows, and none in it. It is some fifteen thousand bytes, so it is made once, filled in place and lent.
    pub fn new() -> NewRows {
        NewRows {
            rows: ArrayVec::new(),
            needed: 0,
            root: Row::Free,
            placed: Placed::new(),
        }
    }

    /// What is to be stored for the attempt with these hits.
    pub(crate) fn fill(&mut self, attempt: &Attempt<'_>, hits: &[NodeRow])
        requires { All (λ h. h.node < NODE_LIMIT) hits.now }
        ensures rows { self.new.rows.items ≡ (spec.placed_by_hits (task_of attempt.now) hits.now).extra }
        ensures needed { self.new.needed ≡ spec.rows_needed (task_of attempt.now) (spec.placed_by_hits (task_of attempt.now) hits.now) }
        ensures root { self.new.root ≡ spec.new_root_row (task_of attempt.now) (spec.placed_by_hits (task_of attempt.now) hits.now) }
    {
        place(attempt, hits, &mut self.placed);
        self.rows.clear();
        let _ = self
            .rows
            .try_extend_from_slice(self.placed.extra.as_slice());
        self.needed = rows_needed(&self.placed, attempt.candidate.plan.out);
        self.root = new_root(&self.placed, attempt.candidate.plan.out);
    }

    /// The pair of the new gate at this place, and whether a hint may be tried for it.
    pub fn asked_pair(&self, place: usize) -> Option<(Row, bool)>
        ensures none { IfNone result (length self.now.rows.items ≤ place) }
        ensures pair { IfSome result (λ p. slice_get self.now.rows.items place ≡ Some p.0) }
        ensures asked { IfSome result (λ p. p.1 ≡ spec.is_asked self.now.rows.items p.0) }
    {
        let rows = self.rows.as_slice();
        match rows.get(place) {
            None => None,
            Some(row) => Some((*row, is_asked(rows, *row))),
        }
    }
}
