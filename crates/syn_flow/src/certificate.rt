//! The check of labels and of the paths that are shown for them.

ghost use Rattle.std.specs.Prelude.{◌≡◌, ◌↔◌, ◌<◌, ◌⊎◌, ℕ, IfOk, IsTrue, false, length, map, replicate, slice_set, true};
ghost use Rattle.syn_rows.specs.Rows.{row_at};
ghost use Rattle.syn_rows.specs.Values.{value_in};
ghost use Rattle.syn_paths.specs.Outcomes.{AreHashed};
ghost use Rattle.syn_paths.specs.Rooms.{IsReady};
ghost use Rattle.syn_paths.specs.Tops.{label_in};
ghost use Rattle.syn_flow.specs.Checks.{AllFit, AllMarked, AreNoted, IsGood, IsNotedBy, fits_row, is_over, rises_over, rises_row};
ghost use Rattle.syn_flow.specs.Flows.{IsWitness, shown_of};

use crate::labels::fan_ins;
use crate::witness::{FlowProof, Paths};
use std::alloc::{AllocError, Global};
use syn_graph::Graph;
use syn_lutnet::greatest_depth;
use syn_paths::{Room, are_paths_for};
use syn_rows::{Row, no_marks};

// A label may stand over this greatest label of a fan-in.
fn is_over(level: u32, label: u32) -> bool
    ensures { result ≡ is_over level label }
{
    if level == 0 {
        label == 1
    } else {
        label == level || (label > 0 && label - 1 == level)
    }
}

// A label rises above it.
fn rises_over(level: u32, label: u32) -> bool
    ensures { result ≡ rises_over level label }
{
    level > 0 && label > 0 && label - 1 == level
}

// The label of a row's node is one by its fan-ins; that of any other row but an AND is 0.
fn fits_row(labels: &[u32], node: usize, row: Row) -> bool
    requires { node < length labels.now }
    ensures { result ≡ fits_row (label_in labels.now) node row }
{
    let label = labels[node];
    match row {
        Row::And(a, b) => is_over(greatest_depth(labels, fan_ins(a, b).as_slice()), label),
        _ => label == 0,
    }
}

// The label of a row's node is above that of its fan-ins, which is above 0.
fn rises_row(labels: &[u32], node: usize, row: Row) -> bool
    requires { node < length labels.now }
    ensures { result ≡ rises_row (label_in labels.now) node row }
{
    let label = labels[node];
    match row {
        Row::And(a, b) => rises_over(greatest_depth(labels, fan_ins(a, b).as_slice()), label),
        _ => false,
    }
}

// All labels are such.
fn fit_rows(rows: &[Row], labels: &[u32]) -> bool
    requires { length labels.now ≡ length rows.now }
    ensures { IsTrue result ↔ AllFit rows.now (label_in labels.now) }
{
    for (n, row) in rows.iter().enumerate() {
        if !fits_row(labels, n, *row) {
            return false;
        }
    }
    true
}

// An entry bears out the label of its node.
fn bears_out(
    rows: &[Row],
    labels: &[u32],
    k: u8,
    entry: &Paths,
    room: &mut Room,
) -> Result<bool, AllocError>
    requires hashed { AreHashed rows.now }
    requires labels { length labels.now ≡ length rows.now }
    requires fit { AllFit rows.now (label_in labels.now) }
    requires room { IsReady (length rows.now) room.old }
    ensures good { IfOk result (λ yes. IsTrue yes ↔ IsGood k rows.now (label_in labels.now) (shown_of entry.now)) }
    ensures room { IfOk result (λ yes. IsReady (length rows.now) room.new) }
{
    let n = entry.node as usize;
    if n >= rows.len() {
        return Ok(false);
    }
    let rises = rises_row(labels, n, rows[n]);
    if rises {
        let level = labels[n] - 1;
        let count = k as usize + 1;
        let lists = entry.lists.as_slice();
        return are_paths_for(rows, labels, entry.node, level, count, lists, room);
    }
    Ok(false)
}

// Marks a node.
fn set_mark(marks: &mut [bool], node: u32)
    ensures length { length marks.new ≡ length marks.old }
    ensures set { node < length marks.old → marks.new ≡ slice_set marks.old node true }
{
    if (node as usize) < marks.len() {
        marks[node as usize] = true;
    }
}

// Marks the node of an entry, where the entry bears out its label.
fn note(
    rows: &[Row],
    labels: &[u32],
    k: u8,
    entry: &Paths,
    marks: &mut [bool],
    room: &mut Room,
) -> Result<(), AllocError>
    requires hashed { AreHashed rows.now }
    requires labels { length labels.now ≡ length rows.now }
    requires marks { length marks.old ≡ length rows.now }
    requires fit { AllFit rows.now (label_in labels.now) }
    requires room { IsReady (length rows.now) room.old }
    ensures marks { length marks.new ≡ length marks.old }
    ensures noted { IfOk result (λ u. IsNotedBy k rows.now (label_in labels.now) (shown_of entry.now) marks.old marks.new) }
    ensures room { IfOk result (λ u. IsReady (length rows.now) room.new) }
{
    if bears_out(rows, labels, k, entry, room)? {
        set_mark(marks, entry.node);
        return Ok(());
    }
    Ok(())
}

// Marks of the nodes whose labels the entries bear out.
fn noted(
    alloc: Global,
    rows: &[Row],
    labels: &[u32],
    k: u8,
    paths: &[Paths],
) -> Result<Vec<bool>, AllocError>
    requires hashed { AreHashed rows.now }
    requires labels { length labels.now ≡ length rows.now }
    requires fit { AllFit rows.now (label_in labels.now) }
    ensures marks { IfOk result (λ v. length v.items ≡ length rows.now) }
    ensures noted { IfOk result (λ v. AreNoted k rows.now (label_in labels.now) (map shown_of paths.now) (length paths.now) v.items) }
{
    let mut marks = no_marks(alloc, rows.len())?;
    let mut room = Room::of(alloc, rows)?;
    for entry in paths {
        note(rows, labels, k, entry, marks.as_mut_slice(), &mut room)?;
    }
    Ok(marks)
}

// Each node whose label rises is marked.
fn all_marked(rows: &[Row], labels: &[u32], marks: &[bool]) -> bool
    requires labels { length labels.now ≡ length rows.now }
    requires marks { length marks.now ≡ length rows.now }
    ensures { IsTrue result ↔ AllMarked rows.now (label_in labels.now) marks.now }
{
    for (n, row) in rows.iter().enumerate() {
        if rises_row(labels, n, *row) && !marks[n] {
            return false;
        }
    }
    true
}

/// Whether paths bear out labels: those of sources are 0; each AND has 1 where its fan-ins have 0, else the greatest of its
/// fan-ins' or one more; and where it is one more, `k + 1` paths that share no node lead from sources into its top. Where it
/// answers true, no covering by LUTs of at most `k` inputs gives any AND less depth than its label. The only error is want
/// of memory.
pub fn check_paths(
    alloc: Global,
    graph: &Graph,
    k: u8,
    proof: &FlowProof,
) -> Result<bool, AllocError>
    ensures { IfOk result (λ yes. IsTrue yes ↔ IsWitness k graph.now.rows proof.now) }
{
    let rows = graph.rows.as_slice();
    let labels = proof.labels.as_slice();
    if labels.len() != rows.len() {
        return Ok(false);
    }
    let fit = fit_rows(rows, labels);
    if fit {
        let marks = noted(alloc, rows, labels, k, proof.paths.as_slice())?;
        return Ok(all_marked(rows, labels, marks.as_slice()));
    }
    Ok(false)
}
