//! Reports of what commits gained.

ghost use Rattle.std.specs.Prelude.{◌≡◌, ◌+◌, ◌≤◌};
ghost use Rattle.syn_pool.specs.Reports.{told};

use syn_proposals::Report;

/// No gain.
pub(crate) const NOTHING: Report = Report { done: 0, gained: 0 };

/// Two reports as one; a number past the largest is the largest.
pub(crate) fn both(first: Report, second: Report) -> Report
    ensures sum { (result.done ≡ told (first.done + second.done)) × (result.gained ≡ told (first.gained + second.gained)) }
    ensures gained { result.gained ≤ first.gained + second.gained }
    ensures done { first.done ≤ first.gained → second.done ≤ second.gained → result.done ≤ result.gained }
{
    Report {
        done: first.done.saturating_add(second.done),
        gained: first.gained.saturating_add(second.gained),
    }
}
