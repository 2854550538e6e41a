//! Passes under a hook that lets other threads run.

use crate::harness::passed;
use std::alloc::{AllocError, Global};
use std::sync::atomic::{AtomicU64, Ordering};
use std::test::Fail;
use std::thread::{Threads, yield_now};
use syn_build::build;
use syn_commit::{CommitHook, Moment};
use syn_gen::generate;
use syn_graph::Graph;
use syn_network::Network;
use syn_workers::Workers;

// A hook that lets other threads run at some of the moments.
#[derive(Drop)]
struct Yields {
    seen: AtomicU64,
}

impl CommitHook for Yields {
    fn at(&self, worker: u8, _moment: Moment) {
        let seen = self.seen.fetch_add(1, Ordering::SeqCst);
        if (seen ^ u64::from(worker)) % 4 == 0 {
            yield_now();
        }
    }
}

// The graph of the netlist of a seed and a size.
fn generated(alloc: Global, seed: u64, size: u16) -> Result<Graph, AllocError> {
    syn_gen::generated_is_checked();
    syn_gen::generated_costs();
    let netlist = generate(alloc, seed, size as u32)?;
    let Network { body, .. } = build(alloc, &netlist)?;
    Ok(body)
}

// The values of so many sources, which are bits of a number.
fn source_values(alloc: Global, count: u32, bits: u64) -> Result<Vec<bool>, AllocError> {
    let mut values = Vec::new(alloc);
    for source in 0..count {
        values.push((bits >> (source % 64)) % 2 == 1)?;
    }
    Ok(values)
}

// Whether two graphs have the same observed values where the sources' are bits of a number.
fn are_equal_at(
    alloc: Global,
    first: &Graph,
    second: &Graph,
    bits: u64,
) -> Result<bool, AllocError> {
    let sources = source_values(alloc, first.source_count, bits)?;
    let values = first.eval(alloc, sources.as_slice())?;
    let others = second.eval(alloc, sources.as_slice())?;
    Ok(values.as_slice() == others.as_slice())
}

// Whether two graphs have the same observed values at 256 choices of their sources.
fn are_equal(alloc: Global, first: &Graph, second: &Graph) -> Result<bool, AllocError> {
    for i in 0..256u64 {
        let bits = i.wrapping_mul(0x9e37_79b9_7f4a_7c15) >> 13;
        if !are_equal_at(alloc, first, second, bits)? {
            return Ok(false);
        }
    }
    Ok(true)
}

// Whether a pass of eight workers on a graph gains no more than it reports, and keeps the values.
fn keeps<R: Threads + Sync>(
    rt: &R,
    alloc: Global,
    graph: &Graph,
    zero_gain: bool,
) -> Result<bool, AllocError> {
    let hook = Yields {
        seen: AtomicU64::new(0),
    };
    match passed(rt, alloc, graph, &hook, Workers::new(8), zero_gain)? {
        Some((next, report)) => {
            let fewer = u64::from(graph.count().saturating_sub(next.count()));
            Ok(report.gained <= fewer && are_equal(alloc, graph, &next)?)
        }
        None => Ok(false),
    }
}

#[test]
fn eight_workers_keep_the_values(rt: HostRuntime) -> Result<(), Fail> {
    let graph = generated(rt.alloc(), 1, 300)?;
    for zero_gain in [false, true] {
        assert!(rt; keeps(&rt, rt.alloc(), &graph, zero_gain)?, "{zero_gain}");
    }
    Ok(())
}
