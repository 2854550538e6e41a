//! Rounds over the nodes.

ghost use Rattle.std.specs.Prelude.{◌≡◌, ◌+◌, ◌<◌, ◌≤◌, ℕ, List, All, IfOk, OnOk, length};
ghost use Rattle.syn_truth.specs.declared.TheConstants.{MAX_VARS};
ghost use Rattle.syn_rows.specs.declared.Row.{Row};
ghost use Rattle.syn_rows.specs.Rows.{node_of, row_at};
ghost use Rattle.syn_cuts.specs.Leaves.{leaves_of};
ghost use Rattle.syn_covering.specs.Cuts.{AreLutCuts, IsLutCut};
ghost use Rattle.syn_area.specs.Kept.{AreCandidates, AreListed, AreVisited, IsKept, Joins, cut_in};

use crate::chosen::{Chosen, copied};
use crate::costs::{Aim, Costs};
use crate::lists::{Listed, Lists};
use crate::picks::{Origin, PICKED, Pick};
use crate::prices::Prices;
use arrayvec::ArrayVec;
use std::alloc::{AllocError, Global};
use syn_cuts::{Cut, union};
use syn_graph::Graph;
use syn_rows::{Lit, Row};

// Appends a cut, where there is room for it.
fn push_cut(cuts: &mut ArrayVec<Cut, PICKED>, cut: Cut)
    ensures { (k node : ℕ) (rows : List Row) → AreCandidates k rows node (leaves_of cuts.old.items) → IsLutCut k rows node cut.items → AreCandidates k rows node (leaves_of cuts.new.items) }
{
    if cuts.is_full() {
        return;
    }
    cuts.push(cut);
}

// Appends the union of a cut of each of two nodes, where it has at most k leaves.
fn push_union(
    cuts: &mut ArrayVec<Cut, PICKED>,
    left: &Listed,
    right: &Listed,
    a: u32,
    b: u32,
    k: u8,
)
    requires small { k ≤ MAX_VARS }
    requires first { left.now.node ≡ a }
    requires second { right.now.node ≡ b }
    ensures { (rows : List Row) (node : ℕ) → Joins k rows a b node → IsKept rows left.now.node left.now.cut.items → IsKept rows right.now.node right.now.cut.items → AreCandidates k rows node (leaves_of cuts.old.items) → AreCandidates k rows node (leaves_of cuts.new.items) }
{
    match union(left.cut.as_slice(), right.cut.as_slice(), k as usize) {
        Some(cut) => push_cut(cuts, cut),
        None => {}
    }
}

// Appends the union of the cuts in two places, where they are cuts of these two nodes and it has at most k leaves.
fn push_union_at(
    cuts: &mut ArrayVec<Cut, PICKED>,
    left: &[Listed],
    right: &[Listed],
    places: (u8, u8),
    a: u32,
    b: u32,
    k: u8,
)
    requires { k ≤ MAX_VARS }
    ensures { (rows : List Row) (node : ℕ) → Joins k rows a b node → AreListed rows left.now → AreListed rows right.now → AreCandidates k rows node (leaves_of cuts.old.items) → AreCandidates k rows node (leaves_of cuts.new.items) }
{
    let i = places.0 as usize;
    let j = places.1 as usize;
    if i >= left.len() {
        return;
    }
    if j >= right.len() {
        return;
    }
    let first = &left[i];
    let second = &right[j];
    if first.node != a {
        return;
    }
    if second.node != b {
        return;
    }
    push_union(cuts, first, second, a, b, k)
}

// Appends the cut of a pick for a node of two fan-ins: its chosen one, or the union of a cut of each.
fn push_pick(
    cuts: &mut ArrayVec<Cut, PICKED>,
    pick: &Pick,
    chosen: &[u32],
    left: &[Listed],
    right: &[Listed],
    a: u32,
    b: u32,
    k: u8,
)
    requires small { k ≤ MAX_VARS }
    requires chosen { length chosen.now ≤ MAX_VARS }
    ensures { (rows : List Row) (node : ℕ) → Joins k rows a b node → AreListed rows left.now → AreListed rows right.now → IsLutCut k rows node chosen.now → AreCandidates k rows node (leaves_of cuts.old.items) → AreCandidates k rows node (leaves_of cuts.new.items) }
{
    match pick.origin {
        Origin::Chosen => push_cut(cuts, copied(chosen)),
        Origin::Union(i, j) => push_union_at(cuts, left, right, (i, j), a, b, k),
    }
}

// The cuts of picks for a node of two fan-ins.
fn cuts_of(
    picks: &[Pick],
    chosen: &[u32],
    left: &[Listed],
    right: &[Listed],
    a: u32,
    b: u32,
    k: u8,
) -> ArrayVec<Cut, PICKED>
    requires small { k ≤ MAX_VARS }
    requires chosen { length chosen.now ≤ MAX_VARS }
    ensures { (rows : List Row) (node : ℕ) → Joins k rows a b node → AreListed rows left.now → AreListed rows right.now → IsLutCut k rows node chosen.now → AreCandidates k rows node (leaves_of result.items) }
{
    let mut cuts = ArrayVec::new();
    for pick in picks {
        push_pick(&mut cuts, pick, chosen, left, right, a, b, k);
    }
    cuts
}

// The best cuts of an AND of two nodes: of its chosen cut, and of the unions of a cut of each.
fn candidates_of(
    costs: &mut Costs,
    chosen: &Chosen,
    lists: &Lists,
    node: u32,
    a: u32,
    b: u32,
    k: u8,
) -> ArrayVec<Cut, PICKED>
    requires { k ≤ MAX_VARS }
    ensures { (rows : List Row) → Joins k rows a b node → AreListed rows lists.now.listed.items → IsLutCut k rows node (cut_in chosen.now node) → AreCandidates k rows node (leaves_of result.items) }
{
    let left = lists.of(a);
    let right = lists.of(b);
    costs.pick(chosen, node, left, right, k);
    cuts_of(costs.picks(), chosen.of(node), left, right, a, b, k)
}

// Chooses the first of these cuts for a node, where there is one.
fn choose_first(chosen: &mut Chosen, node: u32, kept: &[Cut])
    requires { node < length chosen.old }
    ensures len { length chosen.new ≡ length chosen.old }
    ensures chosen { (k : ℕ) (rows : List Row) → AreCandidates k rows node (leaves_of kept.now) → AreLutCuts k rows (cut_in chosen.old) → AreLutCuts k rows (cut_in chosen.new) }
{
    let Some((best, _)) = kept.split_first() else {
        return;
    };
    chosen.set(node, copied(best.as_slice()));
}

// Keeps cuts of an AND, and chooses the best.
fn visit_and(
    graph: &Graph,
    costs: &mut Costs,
    chosen: &mut Chosen,
    lists: &mut Lists,
    node: u32,
    a: Lit,
    b: Lit,
    k: u8,
) -> Result<(), AllocError>
    requires small { k ≤ MAX_VARS }
    requires positive { 0 < node }
    requires node { node < length graph.now.rows }
    requires gate { row_at graph.now.rows node ≡ Row.And a b }
    requires visited { AreVisited k graph.now.rows lists.old.listed.items chosen.old }
    ensures { OnOk result (AreVisited k graph.now.rows lists.new.listed.items chosen.new) }
{
    let _ = graph;
    let before = copied(chosen.of(node));
    costs.lift(chosen, node);
    let kept = candidates_of(costs, chosen, lists, node, a.node(), b.node(), k);
    choose_first(chosen, node, kept.as_slice());
    costs.settle(chosen, node, before.as_slice());
    lists.list(costs.figures(), node, kept.as_slice())?;
    Ok(())
}

// The row of a node.
#[inline]
fn row_of(rows: &[Row], node: u32) -> Row
    requires { node < length rows.now }
    ensures { result ≡ row_at rows.now node }
{
    rows[node as usize]
}

// Visits a node: keeps cuts of an AND and chooses one, and of any other node keeps the node alone.
fn visit(
    graph: &Graph,
    costs: &mut Costs,
    chosen: &mut Chosen,
    lists: &mut Lists,
    node: u32,
    k: u8,
) -> Result<(), AllocError>
    requires small { k ≤ MAX_VARS }
    requires positive { 0 < node }
    requires node { node < length graph.now.rows }
    requires visited { AreVisited k graph.now.rows lists.old.listed.items chosen.old }
    ensures { OnOk result (AreVisited k graph.now.rows lists.new.listed.items chosen.new) }
{
    match row_of(graph.rows.as_slice(), node) {
        Row::And(a, b) => visit_and(graph, costs, chosen, lists, node, a, b, k),
        _ => lists.list(costs.figures(), node, &[]),
    }
}

// One round: keeps cuts of each node and chooses one, in node order, by the round's aim.
fn round(
    graph: &Graph,
    costs: &mut Costs,
    chosen: &mut Chosen,
    lists: &mut Lists,
    k: u8,
) -> Result<(), AllocError>
    requires small { k ≤ MAX_VARS }
    requires count { length chosen.old ≡ length graph.now.rows }
    requires fit { AreLutCuts k graph.now.rows (cut_in chosen.old) }
    ensures count { OnOk result (length chosen.new ≡ length graph.now.rows) }
    ensures fit { OnOk result (AreLutCuts k graph.now.rows (cut_in chosen.new)) }
{
    lists.clear();
    for node in 1..graph.rows.as_slice().len() {
        visit(graph, costs, chosen, lists, node as u32, k)?;
    }
    Ok(())
}

// What the rounds aim at, and whether each is made where nothing bounds the depth too: the four that are find about as few
// LUTs as all would.
const STEPS: [(Aim, bool); 7] = [
    (Aim::Depth, false),
    (Aim::DepthThenFlow, false),
    (Aim::DepthThenFlow, true),
    (Aim::Flow, true),
    (Aim::Flow, true),
    (Aim::Area, true),
    (Aim::Area, false),
];

/// A cut of at most `k` leaves for each AND of a graph, for LUTs of these prices; with room up to a depth, which the greatest
/// number doesn't bound.
pub(crate) fn choose(
    alloc: Global,
    graph: &Graph,
    k: u8,
    prices: &Prices,
    room: u32,
) -> Result<Chosen, AllocError>
    requires many { 2 ≤ k }
    requires few { k ≤ MAX_VARS }
    ensures count { IfOk result (λ chosen. length chosen ≡ length graph.now.rows) }
    ensures fit { IfOk result (λ chosen. AreLutCuts k graph.now.rows (cut_in chosen)) }
{
    let mut chosen = Chosen::fan_ins(alloc, graph.rows.as_slice())?;
    let mut costs = Costs::of(alloc, graph, prices, room)?;
    let mut lists = Lists::none(alloc, graph.rows.as_slice().len())?;
    for step in STEPS {
        let (aim, always) = step;
        if room == u32::MAX && !always {
            continue;
        }
        costs.begin(aim);
        round(graph, &mut costs, &mut chosen, &mut lists, k)?;
        costs.end(&chosen, graph.observed.as_slice());
    }
    Ok(chosen)
}
