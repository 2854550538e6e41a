//! Labels and chosen cuts, node by node, with the paths that bear the labels out.

ghost use Rattle.std.specs.Prelude.{◌≡◌, ◌+◌, ◌<◌, ◌≤◌, ◌++◌, ◌∷◌, [], IfOk, OnOk, length, map};
ghost use Rattle.syn_rows.specs.declared.Row.TheVariants.{And};
ghost use Rattle.syn_rows.specs.declared.TheConstants.{NODE_LIMIT};
ghost use Rattle.syn_rows.specs.Rows.{node_of, row_at};
ghost use Rattle.syn_paths.specs.Outcomes.{AreHashed};
ghost use Rattle.syn_paths.specs.Rooms.{IsReady};
ghost use Rattle.syn_flow.specs.Labelling.{IsLabelling, cut_at, leaves_of};

use crate::witness::Paths;
use arrayvec::ArrayVec;
use std::alloc::{AllocError, Global};
use syn_covering::Choice;
use syn_lutnet::greatest_depth;
use syn_paths::{Outcome, Room, find};
use syn_rows::{Lit, Row};

/// The labels of the first nodes, their chosen cuts, and paths for each that rose above its fan-ins' greatest label.
#[derive(Drop)]
pub(crate) struct Labelling {
    pub(crate) labels: Vec<u32>,
    pub(crate) cuts: Vec<ArrayVec<u32, 8>>,
    pub(crate) paths: Vec<Paths>,
}

impl Choice for Labelling {
    ghost leaves = { λ l. cut_at (leaves_of l.cuts.items) };

    ghost count = { λ l. length l.cuts.items };

    fn cut(&self, node: u32) -> &[u32] {
        self.cuts[node as usize].as_slice()
    }
}

/// The nodes of two literals.
pub(crate) fn fan_ins(a: Lit, b: Lit) -> ArrayVec<u32, 8>
    ensures { result.items ≡ node_of a ∷ node_of b ∷ [] }
{
    let mut nodes = ArrayVec::new();
    nodes.push(a.node());
    nodes.push(b.node());
    nodes
}

impl Labelling {
    // Of no node.
    fn new(alloc: Global) -> Labelling
        ensures labels { result.labels.items ≡ [] }
        ensures cuts { result.cuts.items ≡ [] }
        ensures paths { result.paths.items ≡ [] }
    {
        Labelling {
            labels: Vec::new(alloc),
            cuts: Vec::new(alloc),
            paths: Vec::new(alloc),
        }
    }

    // One node more.
    fn push(&mut self, label: u32, cut: ArrayVec<u32, 8>) -> Result<(), AllocError>
        ensures labels { OnOk result (self.new.labels.items ≡ self.old.labels.items ++ label ∷ []) }
        ensures cuts { OnOk result (self.new.cuts.items ≡ self.old.cuts.items ++ cut ∷ []) }
        ensures paths { OnOk result (self.new.paths.items ≡ self.old.paths.items) }
    {
        self.labels.push(label)?;
        self.cuts.push(cut)?;
        Ok(())
    }
}

// Labels an AND, whose row is the next.
fn label_and(
    alloc: Global,
    rows: &[Row],
    k: u8,
    node: u32,
    pair: (Lit, Lit),
    labelling: &mut Labelling,
    room: &mut Room,
) -> Result<(), AllocError>
    requires hashed { AreHashed rows.now }
    requires row { row_at rows.now node ≡ And pair.0 pair.1 }
    requires few_nodes { length rows.now < NODE_LIMIT }
    requires many { 2 ≤ k }
    requires few { k ≤ 8 }
    requires labelling { IsLabelling k rows.now node labelling.old }
    requires room { IsReady (length rows.now) room.old }
    ensures labelling { IfOk result (λ u. IsLabelling k rows.now (node + 1) labelling.new) }
    ensures room { IfOk result (λ u. IsReady (length rows.now) room.new) }
{
    let nodes = fan_ins(pair.0, pair.1);
    let labels = labelling.labels.as_slice();
    let level = greatest_depth(labels, nodes.as_slice());
    if level == 0 {
        labelling.push(1, nodes)?;
        return Ok(());
    }
    match find(alloc, rows, labels, node, level, k, room)? {
        Outcome::Cut(cut) => {
            labelling.push(level, cut)?;
            Ok(())
        }
        Outcome::Paths(lists) => {
            labelling.paths.push(Paths { node, lists })?;
            labelling.push(level + 1, nodes)?;
            Ok(())
        }
    }
}

// Labels the next node.
fn label_row(
    alloc: Global,
    rows: &[Row],
    k: u8,
    node: u32,
    labelling: &mut Labelling,
    room: &mut Room,
) -> Result<(), AllocError>
    requires hashed { AreHashed rows.now }
    requires there { node < length rows.now }
    requires few_nodes { length rows.now < NODE_LIMIT }
    requires many { 2 ≤ k }
    requires few { k ≤ 8 }
    requires labelling { IsLabelling k rows.now node labelling.old }
    requires room { IsReady (length rows.now) room.old }
    ensures labelling { IfOk result (λ u. IsLabelling k rows.now (node + 1) labelling.new) }
    ensures room { IfOk result (λ u. IsReady (length rows.now) room.new) }
{
    if let Row::And(a, b) = rows[node as usize] {
        return label_and(alloc, rows, k, node, (a, b), labelling, room);
    }
    labelling.push(0, ArrayVec::new())?;
    Ok(())
}

/// Labels all nodes of hashed rows. The only error is want of memory.
pub(crate) fn label_all(alloc: Global, rows: &[Row], k: u8) -> Result<Labelling, AllocError>
    requires hashed { AreHashed rows.now }
    requires few_nodes { length rows.now < NODE_LIMIT }
    requires many { 2 ≤ k }
    requires few { k ≤ 8 }
    ensures { IfOk result (IsLabelling k rows.now (length rows.now)) }
{
    let mut labelling = Labelling::new(alloc);
    let mut room = Room::of(alloc, rows)?;
    for n in 0..rows.len() {
        label_row(alloc, rows, k, n as u32, &mut labelling, &mut room)?;
    }
    Ok(labelling)
}
