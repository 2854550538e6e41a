//! What is found of nodes from those below them, by threads that share it level by level.

ghost use Rattle.std.specs.Prelude.{ℕ, List, ◌+◌, ◌^◌, ◌<◌, All, IfOk, length};
ghost use Rattle.std.specs.Arc.{arc_value};

use crate::board::{Board, Chunk};
use boxcar::slot::SlotRule;
use boxcar::tag::Tag;
use std::alloc::{AllocError, Global};
use std::hint::spin_loop;
use std::sync::Arc;
use std::sync::atomic::{AtomicUsize, Ordering};
use std::thread;
use std::thread::Threads;
use syn_rows::{Row, levels};
use syn_workers::Workers;

// How many nodes a chunk has at least, where its level has so many.
const MIN_CHUNK: usize = 16;

// How many nodes a chunk has at most.
const MAX_CHUNK: usize = 64;

// How often a thread looks again whether another has found what it waits for, before it finds it itself.
const LOOKS: usize = 8_000;

// How many nodes are worth a thread.
const NODES_PER_THREAD: usize = 512;

/// Finds something of nodes from what is found of those below them.
pub trait Finder<T, P: SlotRule<T>>: Sync {
    /// These numbers name what this finder looks at.
    ghost is_named: { Self → List ℕ → Type 0 };

    /// What is found of those of these nodes that can be found. The only error is want of memory, as of all calls below.
    fn find(&self, alloc: Global, known: &Board<T, P>, nodes: &[u32]) -> Result<T, AllocError>
        requires { is_named self.now known.now.tag.numbers }
        ensures { IfOk result (P.holds known.now.tag.numbers) };
}

// How many threads find something of so many nodes.
fn threads_for(nodes: usize, workers: Workers) -> usize {
    nodes
        .div_ceil(NODES_PER_THREAD)
        .min(workers.number() as usize)
}

// How many nodes a chunk has, of so many nodes of a level for so many workers.
fn chunk_size(nodes: usize, workers: Workers) -> usize
    ensures { 0 < result }
{
    let share = nodes.div_ceil(2 * workers.number() as usize);
    share.min(MAX_CHUNK).max(MIN_CHUNK)
}

// Adds a node to those of its level.
fn add_node(
    alloc: Global,
    by_level: &mut Vec<Vec<u32>>,
    level: usize,
    node: u32,
) -> Result<(), AllocError> {
    while by_level.len() <= level {
        by_level.push(Vec::new(alloc))?;
    }
    by_level[level].push(node)?;
    Ok(())
}

// The nodes of rows by level: lower levels first, and within a level by number. Nothing rests on which node is in which.
fn nodes_by_level(alloc: Global, rows: &[Row]) -> Result<Vec<Vec<u32>>, AllocError>
    requires { length rows.now + 1 < 2 ^ 32 }
{
    let heights = levels(alloc, rows)?;
    let mut by_level = Vec::new(alloc);
    for (n, level) in heights.iter().enumerate() {
        add_node(alloc, &mut by_level, *level as usize, n as u32)?;
    }
    Ok(by_level)
}

// Adds the nodes of a level in chunks.
fn add_level(
    alloc: Global,
    chunks: &mut Vec<Chunk>,
    level: &[u32],
    workers: Workers,
) -> Result<(), AllocError> {
    let below = chunks.len();
    for some in level.chunks(chunk_size(level.len(), workers)) {
        let mut nodes = Vec::with_capacity(alloc, some.len())?;
        nodes.extend_from_slice(some)?;
        chunks.push(Chunk { nodes, below })?;
    }
    Ok(())
}

// The nodes of rows in chunks: those of lower levels first.
fn chunks_of(alloc: Global, rows: &[Row], workers: Workers) -> Result<Vec<Chunk>, AllocError>
    requires { length rows.now + 1 < 2 ^ 32 }
{
    let mut chunks = Vec::new(alloc);
    for level in nodes_by_level(alloc, rows)? {
        add_level(alloc, &mut chunks, &level, workers)?;
    }
    Ok(chunks)
}

// Finds what there is of a chunk, and sets it.
fn find_chunk<T: Drop, P: SlotRule<T>, F: Finder<T, P>>(
    alloc: Global,
    finder: &F,
    board: &Board<T, P>,
    chunks: &[Chunk],
    number: usize,
) -> Result<Arc<T>, AllocError>
    requires tag { F.is_named finder.now board.now.tag.numbers }
    requires number { number < length chunks.now }
    ensures { IfOk result (λ found. P.holds board.now.tag.numbers (arc_value found)) }
{
    let found = Arc::new(alloc, finder.find(alloc, board, &chunks[number].nodes)?)?;
    board.set(number, Arc::try_clone(&found)?);
    Ok(found)
}

// Pauses between two looks; from time to time another thread may run.
fn pause(look: usize) {
    if look % 64 == 63 {
        thread::yield_now()
    } else {
        spin_loop()
    }
}

// Whether a chunk is set, after some looks.
fn is_set_soon<T: Drop, P: SlotRule<T>>(board: &Board<T, P>, chunk: usize) -> bool {
    for look in 0..LOOKS {
        if board.is_set(chunk) {
            return true;
        }
        pause(look);
    }
    false
}

// Waits for chunks from one on to before another one; one that is long in coming is found here too. What is found is added.
fn await_chunks<T: Drop, P: SlotRule<T>, F: Finder<T, P>>(
    alloc: Global,
    finder: &F,
    board: &Board<T, P>,
    chunks: &[Chunk],
    range: (usize, usize),
    all: &mut Vec<Arc<T>>,
) -> Result<(), AllocError>
    requires tag { F.is_named finder.now board.now.tag.numbers }
    requires all { All (λ found. P.holds board.now.tag.numbers (arc_value found)) all.old.items }
    ensures { All (λ found. P.holds board.now.tag.numbers (arc_value found)) all.new.items }
{
    for number in range.0..range.1 {
        if number < chunks.len() && !is_set_soon(board, number) {
            all.push(find_chunk(alloc, finder, board, chunks, number)?)?;
        }
    }
    Ok(())
}

// Finds chunks in turn with other threads, each when those of lower levels are found: what was found.
fn work<T: Drop, P: SlotRule<T>, F: Finder<T, P>>(
    alloc: Global,
    finder: &F,
    board: &Board<T, P>,
    chunks: &[Chunk],
    next: &AtomicUsize,
) -> Result<Vec<Arc<T>>, AllocError>
    requires { F.is_named finder.now board.now.tag.numbers }
    ensures { IfOk result (λ all. All (λ found. P.holds board.now.tag.numbers (arc_value found)) all.items) }
{
    let mut all = Vec::new(alloc);
    let mut done = 0;
    for _ in 0..chunks.len() {
        let number = next.fetch_add(1, Ordering::Relaxed);
        if number >= chunks.len() {
            return Ok(all);
        }
        let below = chunks[number].below;
        await_chunks(alloc, finder, board, chunks, (done, below), &mut all)?;
        done = below;
        all.push(find_chunk(alloc, finder, board, chunks, number)?)?;
    }
    Ok(all)
}

// What each of so many threads found of chunks.
fn find_shared<
    R: Threads + Sync,
    T: Send + Sync + Drop,
    P: SlotRule<T> + Send + Sync,
    F: Finder<T, P>,
>(
    rt: &R,
    alloc: Global,
    finder: &F,
    board: &Board<T, P>,
    chunks: &[Chunk],
    threads: usize,
) -> Result<Vec<Result<Vec<Arc<T>>, AllocError>>, AllocError>
    requires { F.is_named finder.now board.now.tag.numbers }
    ensures { IfOk result (λ parts. All (λ part. IfOk part (λ all. All (λ found. P.holds board.now.tag.numbers (arc_value found)) all.items)) parts.items) }
{
    let next = AtomicUsize::new(0);
    let turns = &next;
    let share = move |_worker: usize| -> Result<Vec<Arc<T>>, AllocError>
        requires { F.is_named finder.now board.now.tag.numbers }
        ensures { IfOk result (λ all. All (λ found. P.holds board.entry.now.tag.numbers (arc_value found)) all.items) }
    { work(alloc, finder, board, chunks, turns) };
    thread::map_indices(rt, alloc, threads, &share)
}

// Takes what threads shared, where no other holds it, behind all.
fn add_found<T: Drop, P: SlotRule<T>>(
    tag: &Tag,
    all: &mut Vec<T>,
    shared: Vec<Arc<T>>,
) -> Result<(), AllocError>
    requires all { All (P.holds tag.now.numbers) all.old.items }
    requires shared { All (λ found. P.holds tag.now.numbers (arc_value found)) shared.items }
    ensures { All (P.holds tag.now.numbers) all.new.items }
{
    for one in shared {
        if let Some(found) = Arc::into_inner(one) {
            all.push(found)?;
        }
    }
    Ok(())
}

/// What is found of the nodes of rows, chunk by chunk, by up to `workers` threads: chunks of lower levels first, and what is
/// found of them is known when those above are looked at. Nothing is promised of which node is in which chunk, so what a
/// finder needs of the nodes below it looks for. The only error is want of memory.
pub fn found_by_levels<
    R: Threads + Sync,
    T: Send + Sync + Drop,
    P: SlotRule<T> + Send + Sync,
    F: Finder<T, P>,
>(
    rt: &R,
    alloc: Global,
    rows: &[Row],
    finder: &F,
    tag: &Tag,
    workers: Workers,
) -> Result<Vec<T>, AllocError>
    requires few { length rows.now + 1 < 2 ^ 32 }
    requires tag { F.is_named finder.now tag.now.numbers }
    ensures { IfOk result (λ all. All (P.holds tag.now.numbers) all.items) }
{
    let chunks = chunks_of(alloc, rows, workers)?;
    let board = Board::<T, P>::empty(alloc, tag, rows.len(), &chunks)?;
    let threads = threads_for(rows.len(), workers);
    let parts = find_shared(rt, alloc, finder, &board, &chunks, threads)?;
    drop(board);
    let mut all = Vec::with_capacity(alloc, chunks.len())?;
    for part in parts {
        add_found::<T, P>(tag, &mut all, part?)?;
    }
    Ok(all)
}
