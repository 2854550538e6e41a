//! Small texts and their graphs, what workers tell, and a hook that counts.

use std::alloc::{AllocError, Global};
use std::sync::atomic::{AtomicU64, Ordering};
use std::thread::Threads;
use syn_build::build_checked;
use syn_commit::{CommitHook, Moment};
use syn_graph::Graph;
use syn_network::Network;
use syn_pool::pass;
use syn_proposals::Report;
use syn_reader::read_checked;
use syn_rewrite::CutPlans;
use syn_workers::{MAX_WORKERS, Workers};

/// A hook that counts the commits that were done.
#[derive(Drop)]
pub struct Counting {
    done: AtomicU64,
}

impl Counting {
    /// None yet.
    pub fn new() -> Counting {
        Counting {
            done: AtomicU64::new(0),
        }
    }

    /// How many it was told.
    pub fn told(&self) -> u64 {
        self.done.load(Ordering::SeqCst)
    }
}

impl CommitHook for Counting {
    fn at(&self, _worker: u8, moment: Moment) {
        if moment == Moment::Answered(true) {
            let _before = self.done.fetch_add(1, Ordering::SeqCst);
        }
    }
}

/// The graph of a text of at most 100,000 bytes.
pub fn graph_of(alloc: Global, text: &[u8]) -> Option<Graph> {
    if text.len() > 100_000 {
        return None;
    }
    let netlist = read_checked(alloc, text).ok()?;
    let Network { body, .. } = build_checked(alloc, netlist).ok()?;
    Some(body)
}

/// What is told of workers: their report, how many ANDs are left, and how many done commits their hook was told.
pub type Told = (Report, u32, u64);

/// So many commits done, and ANDs gained.
pub fn report(done: u64, gained: u64) -> Report {
    Report { done, gained }
}

/// What a pass of rewriting with so many workers on a graph reports, and the graph that comes; none where none does.
pub fn passed<R: Threads + Sync, G: CommitHook>(
    rt: &R,
    alloc: Global,
    graph: &Graph,
    hook: &G,
    workers: Workers,
    zero_gain: bool,
) -> Result<Option<(Graph, Report)>, AllocError> {
    let proposer = CutPlans::new(alloc)?;
    pass(rt, alloc, graph, &proposer, workers, zero_gain, hook)
}

/// The text of so many cones, each over three inputs of its own.
pub fn cones(alloc: Global, count: u32) -> Result<String, AllocError> {
    let mut text = String::from_str(alloc, ".model m\n")?;
    for i in 0..count {
        write!(text, ".inputs a{i} b{i} c{i}\n.outputs f{i}\n")?;
    }
    for i in 0..count {
        write!(text, ".names a{i} b{i} c{i} f{i}\n11- 1\n1-1 1\n")?;
    }
    text.push_str(".end\n")?;
    Ok(text)
}

/// The cone f = ab + ac over the nodes 1 to 3: node 4 is the AND of a and b, node 5 that of a and c, node 6 that of the
/// complements of both; f is the complement of node 6.
pub const CONE: &str = ".model m\n.inputs a b c\n.outputs f\n.names a b c f\n11- 1\n1-1 1\n.end\n";

/// The AND of three inputs in its three forms: (ab)c, a(bc) and (ac)b. Each has two ANDs.
pub const AND3: [&str; 3] = [
    ".model m\n.inputs a b c\n.outputs f\n.names a b n\n11 1\n.names n c f\n11 1\n.end\n",
    ".model m\n.inputs a b c\n.outputs f\n.names b c n\n11 1\n.names a n f\n11 1\n.end\n",
    ".model m\n.inputs a b c\n.outputs f\n.names a c n\n11 1\n.names n b f\n11 1\n.end\n",
];

/// The NAND of two inputs.
pub const NAND: &str = ".model m\n.inputs a b\n.outputs y\n.names a b y\n11 0\n.end\n";

/// Two ANDs and the OR of both, all three observed.
pub const OBSERVED: &str =
    ".model m\n.inputs a b c\n.outputs f g h\n.names a b g\n11 1\n.names a c h\n11 1\n.names g h f\n1- 1\n-1 1\n.end\n";

/// Numbers of several workers.
pub fn several() -> [Workers; 3] {
    [Workers::new(2), Workers::new(4), Workers::new(MAX_WORKERS)]
}
