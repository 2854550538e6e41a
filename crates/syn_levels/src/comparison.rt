//! Whether a graph is no deeper than another.

ghost use Rattle.std.specs.Prelude.{◌≡◌, ℕ, ◌<◌, ◌≤◌, true, false, IfOk, length};
ghost use Rattle.syn_rows.specs.Rows.{node_of};
ghost use Rattle.syn_rows.specs.Levels.{level_in};
ghost use Rattle.syn_hashed.specs.Hashed.{lit_at};
ghost use Rattle.syn_levels.specs.Levels.{IsNoDeeper};

use crate::root_levels::levels;
use std::alloc::{AllocError, Global};
use syn_gain::{literal_at, node_at};
use syn_graph::Graph;
use syn_rows::Lit;

// The level of a literal's node, 0 past the end.
fn level_of(levels: &[u32], lit: Lit) -> u32
    ensures { result ≡ level_in levels.now (node_of lit) }
{
    node_at(levels, lit.node() as usize)
}

// Whether none of some literals has a higher level than the one in its place before.
fn none_deeper(old: &[Lit], before: &[u32], new: &[Lit], after: &[u32]) -> bool
    ensures none { result ≡ true → (i : ℕ) → i < length new.now → level_in after.now (node_of (lit_at new.now i)) ≤ level_in before.now (node_of (lit_at old.now i)) }
    ensures some { result ≡ false → (i : ℕ) × (level_in before.now (node_of (lit_at old.now i)) < level_in after.now (node_of (lit_at new.now i))) }
{
    for (i, lit) in new.iter().enumerate() {
        if level_of(before, literal_at(old, i)) < level_of(after, *lit) {
            return false;
        }
    }
    true
}

/// Whether no observed signal of the second graph is deeper than in the first, which takes one look at each row of both.
/// The only error is want of memory.
pub fn is_no_deeper(alloc: Global, was: &Graph, now: &Graph) -> Result<bool, AllocError>
    ensures none { IfOk result (λ none. none ≡ true → IsNoDeeper was.now now.now) }
    ensures some { IfOk result (λ none. none ≡ false → IsNoDeeper was.now now.now → ⊥) }
{
    let before = levels(alloc, was)?;
    let after = levels(alloc, now)?;
    Ok(none_deeper(
        was.observed.as_slice(),
        before.as_slice(),
        now.observed.as_slice(),
        after.as_slice(),
    ))
}
