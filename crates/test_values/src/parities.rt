//! Calls on nets of parities: the limit on the gates of a net that becomes a graph.

ghost use Rattle.std.specs.Prelude.{◌≡◌, ℕ, ◌+◌, ◌<◌, ◌≤◌, ◌^◌, [], ◌∷◌, All, IfOk, length, slice_index_or, true};
ghost use Rattle.syn_rows.specs.Rows.{node_of};

use crate::answers::put;
use crate::netlists::read_text;
use arrayvec::ArrayVec;
use std::alloc::{AllocError, Global};
use syn_build::{BuildFault, build_checked, build_luts};
use syn_lists::Items;
use syn_lutnet::{Lut, LutNet, MAX_INPUTS};
use syn_network::{LutNetwork, Network};
use syn_rows::Lit;
use syn_truth::Truth;

// The parity of six variables.
const PARITY: Truth = Truth {
    vars: 6,
    low: 0x6996_9669_9669_6996,
    high: 0,
};

// A text of six inputs and so many outputs, each the constant 0.
fn text_of(alloc: Global, outputs: u32) -> Result<String, AllocError> {
    let mut text = String::from_str(alloc, ".model m\n.inputs a b c d e f\n")?;
    for output in 0..outputs {
        write!(text, ".outputs o{output}\n.names o{output}\n")?;
    }
    text.push_str(".end\n")?;
    Ok(text)
}

// Its network.
fn constants(alloc: Global, outputs: u32) -> Option<Network> {
    let text = text_of(alloc, outputs).ok()?;
    let checked = read_text(alloc, text.as_str()).ok()?;
    build_checked(alloc, checked).ok()
}

// The inputs of a LUT.
fn inputs_of(signals: &[u32]) -> ArrayVec<u32, MAX_INPUTS>
    requires { length signals.now ≤ 8 }
    ensures { result.items ≡ signals.now }
{
    let mut inputs = ArrayVec::new();
    for signal in signals {
        inputs.push(*signal);
    }
    inputs
}

// So many parities of the first six sources.
fn parities(alloc: Global, count: usize) -> Result<Vec<Lut>, AllocError>
    ensures count { IfOk result (λ v. length v.items ≡ count) }
    ensures inputs { IfOk result (λ v. All (λ l. l.inputs.items ≡ 1 ∷ 2 ∷ 3 ∷ 4 ∷ 5 ∷ 6 ∷ []) v.items) }
{
    let mut luts = Vec::new(alloc);
    for _ in 0..count {
        luts.push(Lut {
            inputs: inputs_of(&[1, 2, 3, 4, 5, 6]),
            truth: PARITY,
        })?;
    }
    Ok(luts)
}

// The literals of so many signals behind six sources.
fn literals(alloc: Global, count: usize) -> Result<Vec<Lit>, AllocError>
    requires { count < 2 ^ 30 }
    ensures count { IfOk result (λ v. length v.items ≡ count) }
    ensures plain { IfOk result (λ v. (j : ℕ) → (d : Lit) → j < length v.items → node_of (slice_index_or v.items j d) ≡ 7 + j) }
{
    let mut literals = Vec::new(alloc);
    for place in 0..count {
        literals.push(Lit::of(7 + place as u32, false))?;
    }
    Ok(literals)
}

// The net in which each of these parities is observed.
fn net_of(luts: Vec<Lut>, lits: Vec<Lit>) -> LutNet
    requires inputs { All (λ l. l.inputs.items ≡ 1 ∷ 2 ∷ 3 ∷ 4 ∷ 5 ∷ 6 ∷ []) luts.items }
    requires plain { (j : ℕ) → (d : Lit) → j < length lits.items → node_of (slice_index_or lits.items j d) ≡ 7 + j }
    requires count { length lits.items ≡ length luts.items }
    requires few { length luts.items < 2 ^ 20 }
    ensures sources { result.source_count ≡ 6 }
    ensures luts { result.luts ≡ luts.items }
    ensures observed { result.observed ≡ lits.items }
{
    LutNet {
        source_count: 6,
        luts: Items::of(luts),
        observed: Items::of(lits),
    }
}

// The net of so many parities, each observed.
fn parity_net(alloc: Global, count: usize) -> Result<LutNet, AllocError>
    requires { count < 2 ^ 20 }
    ensures sources { IfOk result (λ net. net.source_count ≡ 6) }
    ensures count { IfOk result (λ net. length net.observed ≡ count) }
    ensures plain { IfOk result (λ net. (j : ℕ) → (d : Lit) → j < length net.observed → node_of (slice_index_or net.observed j d) ≡ 7 + j) }
{
    let luts = parities(alloc, count)?;
    let lits = literals(alloc, count)?;
    Ok(net_of(luts, lits))
}

// Whether each literal is of the constant.
fn are_constant(literals: &[Lit]) -> bool
    ensures { result ≡ true → All (λ l. node_of l ≡ 0) literals.now }
{
    for literal in literals {
        if literal.node() != 0 {
            return false;
        }
    }
    true
}

// The names of a network of six sources that observes only the constant, over a net that observes as many signals, none of
// them a source.
fn named(network: Network, net: LutNet) -> LutNetwork
    requires six { network.body.source_count ≡ 6 }
    requires sources { net.source_count ≡ 6 }
    requires count { length net.observed ≡ length network.body.observed }
    requires constant { All (λ l. node_of l ≡ 0) network.body.observed }
{
    let Network { frame, body: _ } = network;
    LutNetwork::of(frame, net)
}

// How many ANDs the graph of a network of LUTs has, or why there is none.
fn put_gates(alloc: Global, out: &mut String, net: &LutNetwork) -> Result<(), AllocError> {
    if net.body.source_count > 999 {
        return Ok(());
    }
    match build_luts(alloc, net) {
        Ok(network) => put(out, Ok(network.body.count())),
        Err(fault) => put(out, Ok(fault)),
    }
}

/// How many ANDs the graph of a net of so many parities has, or why there is no such graph.
pub fn answer(alloc: Global, out: &mut String, count: u32) -> Result<(), AllocError> {
    let Some(network) = constants(alloc, count) else {
        return Ok(());
    };
    let constants = network.body.observed.as_slice();
    let count = constants.len();
    if network.body.source_count != 6 || count >= 1 << 20 || !are_constant(constants) {
        return Ok(());
    }
    let net = parity_net(alloc, count)?;
    put_gates(alloc, out, &named(network, net))
}
