//! What a replacement of one row frees and saves, counted in the cone that goes.
#![tactic(auto)]

ghost use Rattle.std.specs.Prelude.{◌≡◌, ◌+◌, ◌<◌, ◌^◌, List, length, IfOk};
ghost use Rattle.syn_rows.specs.declared.Lit.{Lit};
ghost use Rattle.syn_rows.specs.Rows.{InOrder};
ghost use Rattle.syn_fanout_free.specs.Freeing.{AllReferred};
ghost use Rattle.syn_fanout_free.specs.Laws.{AllAndsReached, CountsTell, FewerAreUnreached, FreedAreUnreached, SavedIsLocal, SavedTells, ValuesAreKept};
ghost use Rattle.syn_fanout_free.specs.Bounding.{SavedIsBounded};
ghost use Rattle.syn_fanout_free.specs.Saved.{count_in, IsExtra, IsOwned, IsSaved, changed};

mod bound;
mod cone;
mod extra;
mod gain;
mod worklist;

use crate::extra::keep;
use crate::gain::saved_of_kept;
pub use bound::{gain_is_positive, mffc_size};
pub use cone::{Mffc, and_count, freed};
pub use extra::{KeptRows, sort_used};
pub use gain::Change;
use std::alloc::{AllocError, Global};
use syn_rows::{Lit, Row};

/// The laws on freed rows, for all lists of rows. It computes nothing.
pub fn freed_rows()
    ensures freed { FreedAreUnreached }
    ensures saved { SavedIsLocal }
    ensures fewer { FewerAreUnreached }
    ensures counts { CountsTell }
    ensures values { ValuesAreKept }
{}

/// The laws on numbers of reached and of saved ANDs. It computes nothing.
pub fn saved_numbers()
    ensures all { AllAndsReached }
    ensures difference { SavedTells }
    ensures bounded { SavedIsBounded }
{}

/// The number of ANDs that a change saves, found in the cone that goes, the new rows and what both refer to. `counts` are
/// all references to each node, and the number holds for all observed literals that they count. The only error is want of
/// memory, which a small cone doesn't take.
pub fn saved_near(
    alloc: Global,
    was: &[Row],
    counts: &[u32],
    change: Change,
) -> Result<i64, AllocError>
    requires few { length was.now + length change.extra.now < 2 ^ 31 }
    requires there { change.node < length was.now }
    requires same { length counts.now ≡ length was.now }
    requires order { InOrder was.now }
    requires referred { AllReferred was.now (count_in counts.now) }
    requires extra { IsExtra (length was.now) change.row change.extra.now }
    ensures { IfOk result (λ s. (observed : List Lit) → IsOwned was.now observed (count_in counts.now) change.entry.node → IsSaved was.now (changed was.now change.entry) observed s) }
{
    let mut kept = KeptRows::new(alloc);
    keep(was.len() as u32, change.row, change.extra, &mut kept)?;
    saved_of_kept(alloc, was, counts, change, &mut kept)
}
