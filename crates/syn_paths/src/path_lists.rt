//! Paths read off as lists.

ghost use Rattle.std.specs.Prelude.{◌≡◌, ◌≢◌, ◌<◌, ℕ, ◌∷◌, IfOk, length, true};
ghost use Rattle.syn_paths.specs.declared.places.Next.TheVariants.{Off, To};
ghost use Rattle.syn_rows.specs.Rows.{InOrder};
ghost use Rattle.syn_paths.specs.Tops.{label_in};
ghost use Rattle.syn_paths.specs.Paths.{ArePathsInto};
ghost use Rattle.syn_paths.specs.Tops.{IsInTop};
ghost use Rattle.syn_lists.specs.Numbers.{distinct_numbers};
ghost use Rattle.syn_paths.specs.Searching.{next_at};
ghost use Rattle.syn_paths.specs.Adding.{ArePaths};
ghost use Rattle.syn_paths.specs.Listing.{AreLists, AreSources, GoesUp, HasListFrom};

use crate::places::{Next, next_at};
use std::alloc::{AllocError, Global};
use syn_lists::Items;
use syn_rows::Row;

// The path from a node up.
fn list_from(alloc: Global, next: &[Next], source: u32) -> Result<Items<u32>, AllocError>
    requires on { next_at next.now source ≢ Off }
    requires up { GoesUp next.now }
    ensures { IfOk result (λ l. HasListFrom next.now source l) }
{
    let mut list = Vec::new(alloc);
    list.push(source)?;
    let mut node = source;
    while let Next::To(other) = next_at(next, node) {
        list.push(other)?;
        node = other;
    }
    Ok(Items::of(list))
}

/// The paths from these sources as lists. The only error is want of memory.
pub(crate) fn lists_from(
    alloc: Global,
    rows: &[Row],
    labels: &[u32],
    root: u32,
    level: u32,
    next: &[Next],
    sources: &[u32],
) -> Result<Vec<Items<u32>>, AllocError>
    requires order { InOrder rows.now }
    requires root { root < length next.now }
    requires paths { ArePaths rows.now labels.now root level next.now }
    requires sources { AreSources rows.now next.now sources.now }
    requires once { distinct_numbers sources.now ≡ true }
    ensures { IfOk result (λ lists. ArePathsInto rows.now (IsInTop rows.now (label_in labels.now) root level) (length sources.now) lists.items) }
{
    let mut lists = Vec::new(alloc);
    for source in sources {
        lists.push(list_from(alloc, next, *source)?)?;
    }
    Ok(lists)
}
