//! The plans of forms.

ghost use Rattle.std.specs.Prelude.{◌≡◌, ℕ, if◌then◌else◌, ◌+◌, ◌<◌, ◌≤◌, ◌++◌, ◌&&◌, not, [], ◌∷◌, true, All, List, length, slice_index_or, take};
ghost use Rattle.arrayvec.specs.ArrayVec.{array_vec_len};
ghost use Rattle.syn_rows.specs.Nodes.{has_node};
ghost use Rattle.syn_rows.specs.Reach.{is_and};
ghost use Rattle.syn_rows.specs.Rows.{node_of, row_at};
ghost use Rattle.syn_plan.specs.Gates.{index_of, literal_of};
ghost use Rattle.syn_plan.specs.Naming.{built_of};
ghost use Rattle.syn_resub.specs.declared.forms.Form.TheVariants.{Both, One};
ghost use Rattle.syn_resub.specs.Divided.{AreDivided};
ghost use Rattle.syn_resub.specs.Laws.{AreDivisors};
ghost use Rattle.syn_resub.specs.Needed.{AreInner, IsMadeOf, Needs, is_there};
ghost use Rattle.syn_resub.specs.Resubstitution.{gate_of, gates_of, index_in, lit_in, needed_below, plan_for};

use crate::Form;
use crate::divided::Divided;
use crate::nodes::{MAX_DIVISORS, place_of};
use arrayvec::ArrayVec;
use syn_gain::node_at;
use syn_graph::Graph;
use syn_plan::{PLit, Plan};
use syn_rows::{Lit, Row, has_node};

// The nodes whose rows are gates.
type Inner = ArrayVec<u32, MAX_DIVISORS>;

// Nodes that are wanted: two roots, and two fan-ins of each divisor.
type Wanted = ArrayVec<u32, 130>;

// What is gathered of the nodes that a form needs.
#[derive(Debug, Drop)]
struct Gathered {
    // The nodes that are wanted.
    wanted: Wanted,
    // Those of them whose rows are gates, rising.
    inner: Inner,
}

// Whether a node is wanted and isn't a leaf.
fn is_needed(leaves: &[u32], wanted: &[u32], node: u32) -> bool
    ensures { result ≡ (has_node wanted.now node && not (has_node leaves.now node)) }
{
    let wanted = has_node(wanted, node);
    let leaf = has_node(leaves, node);
    wanted && !leaf
}

// The divisor at place i: where it is wanted and isn't a leaf, its fan-ins are wanted too.
fn need(
    graph: &Graph,
    node: u32,
    leaves: &[u32],
    nodes: &[u32],
    roots: &[u32],
    i: usize,
    gathered: &mut Gathered,
)
    requires divisors { AreDivisors graph.now.rows leaves.now node nodes.now }
    requires place { i < length nodes.now }
    requires needs { Needs graph.now.rows leaves.now nodes.now node roots.now (i + 1) gathered.old.wanted.items gathered.old.inner.items }
    ensures needs { Needs graph.now.rows leaves.now nodes.now node roots.now i gathered.new.wanted.items gathered.new.inner.items }
{
    let divisor = node_at(nodes, i);
    if !is_needed(leaves, gathered.wanted.as_slice(), divisor) {
        return;
    }
    if let Row::And(a, b) = graph.rows.as_slice()[divisor as usize] {
        gathered.wanted.push(a.node());
        gathered.wanted.push(b.node());
        gathered.inner.insert(0, divisor);
    }
}

// The nodes that at most two divisors need, but leaves, rising.
fn needed(graph: &Graph, node: u32, leaves: &[u32], nodes: &[u32], roots: &[u32]) -> Inner
    requires divisors { AreDivisors graph.now.rows leaves.now node nodes.now }
    requires few { length roots.now ≤ 2 }
    requires there { All (λ n. has_node nodes.now n ≡ true) roots.now }
    ensures { result.items ≡ needed_below graph.now.rows leaves.now node roots.now }
{
    let mut wanted = Wanted::new();
    for root in roots {
        wanted.push(*root);
    }
    let inner = Inner::new();
    let mut gathered = Gathered { wanted, inner };
    let mut i = nodes.len();
    while i > 0 {
        i -= 1;
        need(graph, node, leaves, nodes, roots, i, &mut gathered);
    }
    gathered.inner
}

// The index of a node in a plan.
fn index_in(leaves: &[u32], inner: &[u32], node: u32) -> u16
    requires leaves { length leaves.now ≤ 8 }
    requires inner { length inner.now ≤ 64 }
    requires there { is_there leaves.now inner.now node ≡ true }
    ensures index { result ≡ index_in leaves.now inner.now node }
    ensures within { result < 1 + length leaves.now + length inner.now }
{
    if let Some(place) = place_of(leaves, node) {
        return 1 + place as u16;
    }
    match place_of(inner, node) {
        Some(place) => 1 + leaves.len() as u16 + place as u16,
        None => 0,
    }
}

// A literal as one of the plan.
fn lit_in(leaves: &[u32], inner: &[u32], lit: Lit) -> PLit
    requires leaves { length leaves.now ≤ 8 }
    requires inner { length inner.now ≤ 64 }
    requires there { is_there leaves.now inner.now (node_of lit) ≡ true }
    ensures literal { result ≡ lit_in leaves.now inner.now lit }
    ensures index { index_of result ≡ index_in leaves.now inner.now (node_of lit) }
    ensures within { index_of result < 1 + length leaves.now + length inner.now }
{
    PLit::of(index_in(leaves, inner, lit.node()), lit.complemented())
}

// Adds the gate of the next node.
fn push_gate(graph: &Graph, leaves: &[u32], inner: &[u32], plan: &mut Plan)
    requires leaves { length leaves.now ≤ 8 }
    requires few { length inner.now ≤ 64 }
    requires inner { AreInner graph.now.rows leaves.now inner.now }
    requires count { plan.old.leaves ≡ length leaves.now }
    requires next { array_vec_len plan.old.gates < length inner.now }
    ensures leaves { plan.new.leaves ≡ plan.old.leaves }
    ensures gates { plan.new.gates.items ≡ plan.old.gates.items ++ gate_of leaves.now inner.now (row_at graph.now.rows (slice_index_or inner.now (array_vec_len plan.old.gates) 0)) ∷ [] }
{
    let node = node_at(inner, plan.gates.len());
    if let Row::And(a, b) = graph.rows.as_slice()[node as usize] {
        let first = lit_in(leaves, inner, a);
        let second = lit_in(leaves, inner, b);
        plan.and(first, second);
    }
}

// The plan whose gates are the rows of nodes, and whose output is 0.
fn gates(graph: &Graph, leaves: &[u32], inner: &[u32]) -> Plan
    requires leaves { length leaves.now ≤ 8 }
    requires few { length inner.now ≤ 64 }
    requires inner { AreInner graph.now.rows leaves.now inner.now }
    ensures leaves { result.leaves ≡ length leaves.now }
    ensures gates { result.gates.items ≡ gates_of graph.now.rows leaves.now inner.now }
    ensures count { array_vec_len result.gates ≡ length inner.now }
{
    let mut plan = Plan::new(leaves.len() as u8);
    while plan.gates.len() < inner.len() {
        push_gate(graph, leaves, inner, &mut plan);
    }
    plan
}

// The plan of a constant.
fn constant_plan(leaves: &[u32], value: bool) -> Plan
    requires { length leaves.now ≤ 8 }
    ensures leaves { result.leaves ≡ length leaves.now }
    ensures gates { result.gates.items ≡ [] }
    ensures out { result.out.0 ≡ (if value then 1 else 0) }
{
    let mut plan = Plan::new(leaves.len() as u8);
    plan.out = PLit::of(0, value);
    plan
}

// The plan of a divisor's literal.
fn one_plan(graph: &Graph, node: u32, divided: &Divided, lit: Lit) -> Plan
    requires gate { is_and (row_at graph.now.rows node) ≡ true }
    requires divided { AreDivided graph.now.rows node divided.now }
    requires made { IsMadeOf divided.now.nodes.items (One lit) }
    ensures leaves { result.leaves ≡ length divided.now.leaves.items }
    ensures built { built_of result ≡ plan_for graph.now.rows divided.now.leaves.items node (One lit) }
{
    let leaves = divided.leaves.as_slice();
    let inner = needed(graph, node, leaves, divided.nodes.as_slice(), &[lit.node()]);
    let mut plan = gates(graph, leaves, inner.as_slice());
    plan.out = lit_in(leaves, inner.as_slice(), lit);
    plan
}

// The plan of the AND of two.
fn both_plan(
    graph: &Graph,
    node: u32,
    divided: &Divided,
    first: Lit,
    second: Lit,
    complemented: bool,
) -> Plan
    requires gate { is_and (row_at graph.now.rows node) ≡ true }
    requires divided { AreDivided graph.now.rows node divided.now }
    requires made { IsMadeOf divided.now.nodes.items (Both first second complemented) }
    ensures leaves { result.leaves ≡ length divided.now.leaves.items }
    ensures built { built_of result ≡ plan_for graph.now.rows divided.now.leaves.items node (Both first second complemented) }
{
    let leaves = divided.leaves.as_slice();
    let roots = [first.node(), second.node()];
    let inner = needed(graph, node, leaves, divided.nodes.as_slice(), &roots);
    let mut plan = gates(graph, leaves, inner.as_slice());
    let first = lit_in(leaves, inner.as_slice(), first);
    let second = lit_in(leaves, inner.as_slice(), second);
    let gate = plan.and(first, second);
    plan.out = PLit::of(gate.index(), complemented);
    plan
}

/// The plan of a form.
pub(crate) fn plan_for(graph: &Graph, node: u32, divided: &Divided, form: Form) -> Plan
    requires gate { is_and (row_at graph.now.rows node) ≡ true }
    requires divided { AreDivided graph.now.rows node divided.now }
    requires made { IsMadeOf divided.now.nodes.items form }
    ensures leaves { result.leaves ≡ length divided.now.leaves.items }
    ensures built { built_of result ≡ plan_for graph.now.rows divided.now.leaves.items node form }
{
    match form {
        Form::Constant(value) => constant_plan(divided.leaves.as_slice(), value),
        Form::One(lit) => one_plan(graph, node, divided, lit),
        Form::Both(first, second, complemented) => {
            both_plan(graph, node, divided, first, second, complemented)
        }
    }
}
