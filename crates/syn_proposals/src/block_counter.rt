//! Turns at the items of a list, drawn by several threads.

ghost use Rattle.std.specs.Prelude.{◌≤◌};

use std::sync::atomic::{AtomicUsize, Ordering};

// How many items are drawn at once.
const BLOCK: usize = 64;

/// How far a list is drawn. Threads that share it draw blocks of the list's items in turn, so that one which is done early
/// goes on with what is left.
#[derive(Drop)]
pub struct BlockCounter {
    next: AtomicUsize,
}

impl BlockCounter {
    /// Nothing is drawn.
    pub fn new() -> BlockCounter {
        BlockCounter {
            next: AtomicUsize::new(0),
        }
    }

    /// Draws the next block of a list of `count` items, of 64 items at most: from where, and before which. Both are `count`
    /// where all are drawn. Blocks that several threads draw of a list don't overlap, which no clause says and nothing rests
    /// on.
    pub fn next_block(&self, count: usize) -> (usize, usize)
        ensures order { result.0 ≤ result.1 }
        ensures within { result.1 ≤ count }
    {
        let from = self.next.fetch_add(BLOCK, Ordering::Relaxed).min(count);
        (from, from + BLOCK.min(count - from))
    }
}
