//! Rows with the listed cuts and the labels of their nodes.

ghost use Rattle.std.specs.Prelude.{◌≡◌, ◌+◌, ◌<◌, ◌≤◌, IfOk, length};
ghost use Rattle.syn_truth.specs.declared.TheConstants.{MAX_VARS};
ghost use Rattle.syn_cuts.specs.Cuts.{listed_cuts};
ghost use Rattle.syn_map.specs.Labels.{chosen, labels_of};

use crate::labels::{first_at, labels, least};
use std::alloc::{AllocError, Global};
use std::thread::Threads;
use syn_covering::Choice;
use syn_cuts::CutLists;
use syn_graph::Graph;
use syn_rows::Row;
use syn_workers::Workers;

/// The rows of a graph with the listed cuts of each node, of at most `k` leaves, and the labels over them.
#[derive(Drop)]
pub(crate) struct Labelled<'a> {
    rows: &'a [Row],
    k: u8,
    lists: CutLists,
    labels: Vec<u32>,
    ghost lists_are: { lists ≡ listed_cuts k rows.now },
    ghost labels_are: { labels.items ≡ labels_of k rows.now },
}

impl<'a> Labelled<'a> {
    /// The rows of a graph. The cuts are listed by so many workers. The only error is want of memory.
    pub(crate) fn of<R: Threads + Sync>(
        rt: &R,
        alloc: Global,
        graph: &'a Graph,
        k: u8,
        workers: Workers,
    ) -> Result<Labelled<'a>, AllocError>
        requires { k ≤ MAX_VARS }
        ensures rows { IfOk result (λ l. l.rows.now ≡ graph.now.rows) }
        ensures k { IfOk result (λ l. l.k ≡ k) }
    {
        let lists = syn_cuts::listed(rt, alloc, graph, k, workers)?;
        let rows = graph.rows.as_slice();
        let labels = labels(alloc, rows, &lists)?;
        Ok(Labelled {
            rows,
            k,
            lists,
            labels,
        })
    }

    // The chosen cut of a node: the first whose greatest label of a leaf is least.
    fn chosen(&self, node: u32) -> &[u32]
        requires { node < length self.now.rows.now }
        ensures { result.now ≡ chosen self.now.k self.now.rows.now node }
    {
        let cuts = self.lists.nontrivial(node);
        let labels = self.labels.as_slice();
        first_at(labels, cuts, least(labels, cuts))
    }
}

impl<'a> Choice for Labelled<'a> {
    ghost leaves = { λ l. chosen l.k l.rows.now };

    ghost count = { λ l. length l.rows.now };

    fn cut(&self, node: u32) -> &[u32] {
        self.chosen(node)
    }
}
