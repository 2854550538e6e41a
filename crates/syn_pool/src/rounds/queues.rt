//! The nodes of a round in queues, one a worker.

ghost use Rattle.std.specs.Prelude.{◌≡◌, ◌+◌, ◌<◌, ◌≤◌, length, IfOk};
ghost use Rattle.crossbeam_deque.specs.Handles.{worker_capacity, worker_index};

use crossbeam_deque::protocol::Free;
use crossbeam_deque::{Steal, Stealer};
use std::alloc::{AllocError, Global};
use syn_workers::Workers;

/// The nodes that one worker is still to visit, the next one last.
pub(crate) type Queue = crossbeam_deque::Worker<u32>;

/// What the other workers take of it by, from its far end.
pub(crate) type Thief = Stealer<u32>;

// How often a thief tries to take of a queue of which another takes at the same moment.
const MAX_TRIES: u32 = 64;

// Adds a node to a queue that has room for it.
fn add(queue: &mut Queue, node: u32)
    requires { worker_index queue.old < worker_capacity queue.old }
    ensures index { worker_index queue.new ≡ worker_index queue.old + 1 }
    ensures capacity { worker_capacity queue.old ≤ worker_capacity queue.new }
{
    match queue.push_as::<Free>(node) {
        Ok(()) => {}
        Err(_) => unreachable!(),
    }
}

// The queue of these nodes, the first of them next.
fn queue_of(alloc: Global, nodes: &[u32]) -> Result<Queue, AllocError> {
    let mut queue = Queue::new_lifo(alloc, nodes.len())?;
    for place in (0..nodes.len()).rev() {
        add(&mut queue, nodes[place]);
    }
    Ok(queue)
}

/// The nodes in queues of equal length, the last one shorter where it doesn't come out even: one queue a worker, or fewer
/// where nodes are few. Each has room for its nodes. The only error is want of memory.
pub(crate) fn queues_of(
    alloc: Global,
    nodes: &[u32],
    workers: Workers,
) -> Result<Vec<Queue>, AllocError>
    ensures count { IfOk result (λ queues. length queues.items ≤ workers) }
    ensures few { IfOk result (λ queues. length queues.items ≤ 16) }
{
    let size = nodes.len().div_ceil(workers.number() as usize).max(1);
    let mut queues = Vec::new(alloc);
    let mut rest = nodes;
    for _part in 0..workers.number() {
        let (part, behind) = rest.split_at(size.min(rest.len()));
        if !part.is_empty() {
            queues.push(queue_of(alloc, part)?)?;
        }
        rest = behind;
    }
    Ok(queues)
}

/// What others take of the queues by, in the order of the queues. The only error is want of memory.
pub(crate) fn thieves_of(alloc: Global, queues: &[Queue]) -> Result<Vec<Thief>, AllocError> {
    let mut thieves = Vec::new(alloc);
    for queue in queues {
        thieves.push(queue.stealer()?)?;
    }
    Ok(thieves)
}

// A node of another's queue, whose far end moves to this queue by a batch; none where that is empty or others are at it.
fn stolen(queue: &mut Queue, thief: &Thief) -> Option<u32> {
    for _ in 0..MAX_TRIES {
        match thief.steal_batch_and_pop(queue) {
            Steal::Success(node) => return Some(node),
            Steal::Empty => return None,
            Steal::Retry => {}
        }
    }
    None
}

/// The next node of a worker: of its own queue, or of the far end of the others', of the worker's with the next number first.
pub(crate) fn next_node(queue: &mut Queue, thieves: &[Thief], worker: u8) -> Option<u32> {
    if let Some(node) = queue.pop() {
        return Some(node);
    }
    for step in 1..thieves.len() {
        let thief = &thieves[(worker as usize + step) % thieves.len()];
        if let Some(node) = stolen(queue, thief) {
            return Some(node);
        }
    }
    None
}
