//! The nodes that keep a node of their own.

ghost use Rattle.std.specs.Prelude.{◌≡◌, ℕ, ◌+◌, ◌<◌, ◌⊎◌, All, Bool, IfOk, List, false, length, replicate, set, true};
ghost use Rattle.syn_rows.specs.References.{refs};
ghost use Rattle.syn_rows.specs.Rows.{AllRefs, in_order_from, node_of};
ghost use Rattle.syn_balance.specs.Roots.{AreRead, complements, ComplementsOf, HasRoots, IsCounted, IsObserved, IsRead, mark_at};

use std::alloc::{AllocError, Global};
use syn_rows::{Lit, Row, no_marks};

// Reads a fan-in: marks its node where it was seen before or is named by a complement.
fn read_fan_in(lit: Lit, seen: &mut [bool], marks: &mut [bool])
    requires seen { node_of lit < length seen.old }
    requires marks { node_of lit < length marks.old }
    ensures { IsRead lit seen.old marks.old seen.new marks.new }
{
    let node = lit.node() as usize;
    if seen[node] || lit.complemented() {
        marks[node] = true;
    }
    seen[node] = true;
}

// Reads the fan-ins of a row.
fn read_row(row: Row, seen: &mut [bool], marks: &mut [bool])
    requires there { AllRefs (λ m. m < length seen.old) row }
    requires same { length marks.old ≡ length seen.old }
    ensures sizes { (length seen.new ≡ length seen.old) × (length marks.new ≡ length marks.old) }
    ensures kept { (m : ℕ) → mark_at marks.old m ≡ true → mark_at marks.new m ≡ true }
    ensures complements { ComplementsOf row marks.new }
    ensures counted { (f g : ℕ → ℕ) → IsCounted (length seen.old) f g seen.old marks.old → IsCounted (length seen.old) (λ m. f m + refs m row) (λ m. g m + complements m row) seen.new marks.new }
{
    match row {
        Row::And(a, b) => {
            read_fan_in(a, seen, marks);
            read_fan_in(b, seen, marks);
        }
        Row::Alias(a) => read_fan_in(a, seen, marks),
        _ => {}
    }
}

// Marks the nodes of the observed literals.
fn mark_observed(observed: &[Lit], marks: &mut [bool])
    requires { All (λ l. node_of l < length marks.old) observed.now }
    ensures size { length marks.new ≡ length marks.old }
    ensures kept { (m : ℕ) → mark_at marks.old m ≡ true → mark_at marks.new m ≡ true }
    ensures all { All (λ l. mark_at marks.new (node_of l) ≡ true) observed.now }
    ensures only { (m : ℕ) → mark_at marks.new m ≡ true → (mark_at marks.old m ≡ true) ⊎ IsObserved observed.now m }
{
    for lit in observed {
        marks[lit.node() as usize] = true;
    }
}

// Reads all rows, and marks the observed nodes.
fn mark_all(rows: &[Row], observed: &[Lit], seen: &mut [bool], marks: &mut [bool])
    requires begun { AreRead rows.now 0 seen.old marks.old }
    requires order { in_order_from 0 rows.now ≡ true }
    requires within { All (λ l. node_of l < length rows.now) observed.now }
    ensures { HasRoots rows.now observed.now marks.new }
{
    for row in rows {
        read_row(*row, seen, marks);
    }
    mark_observed(observed, marks);
}

/// Marks the nodes that are observed, that two or more references name, or that a complemented literal of a row names.
pub fn roots(alloc: Global, rows: &[Row], observed: &[Lit]) -> Result<Vec<bool>, AllocError>
    requires order { in_order_from 0 rows.now ≡ true }
    requires within { All (λ l. node_of l < length rows.now) observed.now }
    ensures { IfOk result (λ marks. HasRoots rows.now observed.now marks.items) }
{
    let mut seen = no_marks(alloc, rows.len())?;
    let mut marks = no_marks(alloc, rows.len())?;
    mark_all(rows, observed, seen.as_mut_slice(), marks.as_mut_slice());
    Ok(marks)
}
