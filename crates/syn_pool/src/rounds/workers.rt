//! Workers begin and end.

ghost use Rattle.std.specs.Prelude.{◌≡◌, ◌+◌, ◌≤◌};
ghost use Rattle.syn_table.specs.Seating.{IsOf, known_of, nodes_of, view_of};
ghost use Rattle.syn_table.specs.Steps.{with_view};
ghost use Rattle.syn_commit.specs.Giving.{IsAtRest};
ghost use Rattle.syn_pool.specs.Working.{IsAtWork};

use syn_commit::Pool;
use syn_proposals::Report;
use syn_table::{Seat, Shared};

/// A seat with its spare nodes, and what its commits have gained so far.
#[derive(Drop)]
pub(crate) struct Worker {
    /// The seat.
    pub seat: Seat,
    /// The nodes that it holds for new rows.
    pub pool: Pool,
    /// The commits that were done, and the sum of their gains. A number past the largest is the largest.
    pub report: Report,
}

impl Worker {
    /// A worker of a seat at rest, which has gained nothing. Its spare nodes are those of the `count` nodes from `from` on
    /// that it finds free and that nobody else holds, at most 512.
    pub(crate) fn start(shared: &Shared, seat: Seat, from: u32, count: u32) -> Worker
        requires table { IsOf seat shared.now }
        requires range { from + count ≤ nodes_of shared.now }
        requires rest { IsAtRest (view_of seat) }
        ensures at_work { IsAtWork shared.now result }
        ensures known { known_of result.seat ≡ with_view (known_of seat) (view_of result.seat) }
        ensures difference { (view_of result.seat).difference ≡ (view_of seat).difference }
        ensures changes { (view_of result.seat).changes ≡ (view_of seat).changes }
        ensures done { result.report.done ≡ 0 }
        ensures gained { result.report.gained ≡ 0 }
    {
        let mut seat = seat;
        let mut pool = Pool::new();
        pool.fill(shared, &mut seat, from, count);
        let report = Report { done: 0, gained: 0 };
        Worker { seat, pool, report }
    }

    /// Lets the spare nodes go: the seat is at rest, and may be joined.
    pub(crate) fn stop(self, shared: &Shared) -> (Seat, Report)
        requires at_work { IsAtWork shared.now self }
        ensures table { IsOf result.0 shared.now }
        ensures rest { IsAtRest (view_of result.0) }
        ensures known { known_of result.0 ≡ with_view (known_of self.seat) (view_of result.0) }
        ensures difference { (view_of result.0).difference ≡ (view_of self.seat).difference }
        ensures changes { (view_of result.0).changes ≡ (view_of self.seat).changes }
        ensures reads { (view_of result.0).reads ≡ (view_of self.seat).reads }
        ensures report { result.1 ≡ self.report }
    {
        let Worker {
            mut seat,
            pool,
            report,
        } = self;
        pool.empty(shared, &mut seat);
        (seat, report)
    }
}
