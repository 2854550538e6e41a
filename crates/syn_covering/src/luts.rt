//! LUTs of nodes.

ghost use Rattle.std.specs.Prelude.{◌≡◌, ◌<◌, ◌≤◌, ◌^◌, All, IfOk, length, map};
ghost use Rattle.syn_rows.specs.Rows.{InOrder};
ghost use Rattle.syn_truth.specs.declared.TheConstants.{MAX_VARS};
ghost use Rattle.syn_lutnet.specs.Data.{lut_data, luts_data};
ghost use Rattle.syn_covering.specs.Cuts.{AreLutCuts};
ghost use Rattle.syn_covering.specs.Making.{AreLutsOf, IsLutOf, number_at, numbered_lit};
ghost use Rattle.syn_covering.specs.Needs.{IsGate};

use crate::choice::Choice;
use arrayvec::ArrayVec;
use std::alloc::{AllocError, Global};
use syn_lutnet::{Lut, MAX_INPUTS};
use syn_rows::{Lit, Row};

// The signal of a node.
#[inline]
fn signal_of(signals: &[u32], node: u32) -> u32
    ensures { result ≡ number_at signals.now node }
{
    if (node as usize) < signals.len() {
        signals[node as usize]
    } else {
        0
    }
}

// The signals of the leaves of a cut.
fn inputs_of(signals: &[u32], cut: &[u32]) -> ArrayVec<u32, MAX_INPUTS>
    requires { length cut.now ≤ 8 }
    ensures { result.items ≡ map (number_at signals.now) cut.now }
{
    let mut inputs = ArrayVec::new();
    for leaf in cut {
        inputs.push(signal_of(signals, *leaf));
    }
    inputs
}

// The LUT of a node over its cut.
fn make_lut<C: Choice>(
    alloc: Global,
    rows: &[Row],
    choice: &C,
    signals: &[u32],
    node: u32,
) -> Result<Lut, AllocError>
    requires order { InOrder rows.now }
    requires count { C.count choice.now ≡ length rows.now }
    requires cuts { AreLutCuts MAX_VARS rows.now (C.leaves choice.now) }
    requires node { IsGate rows.now node }
    ensures { IfOk result (λ l. IsLutOf (C.leaves choice.now) rows.now signals.now node (lut_data l)) }
{
    let cut = choice.cut(node);
    let truth = syn_cones::function(alloc, rows, node, cut)?;
    Ok(Lut {
        inputs: inputs_of(signals, cut),
        truth,
    })
}

/// The LUTs of ANDs over their cuts. The only error is want of memory.
pub(crate) fn make_luts<C: Choice>(
    alloc: Global,
    rows: &[Row],
    choice: &C,
    signals: &[u32],
    nodes: &[u32],
) -> Result<Vec<Lut>, AllocError>
    requires order { InOrder rows.now }
    requires count { C.count choice.now ≡ length rows.now }
    requires cuts { AreLutCuts MAX_VARS rows.now (C.leaves choice.now) }
    requires nodes { All (IsGate rows.now) nodes.now }
    ensures { IfOk result (λ v. AreLutsOf (C.leaves choice.now) rows.now signals.now nodes.now (luts_data v.items)) }
{
    let mut luts = Vec::new(alloc);
    for node in nodes {
        let lut = make_lut(alloc, rows, choice, signals, *node)?;
        luts.push(lut)?;
    }
    Ok(luts)
}

/// Literals of nodes as literals of their signals. The only error is want of memory.
pub(crate) fn signal_literals(
    alloc: Global,
    signals: &[u32],
    lits: &[Lit],
) -> Result<Vec<Lit>, AllocError>
    requires { All (λ s. s < 2 ^ 31) signals.now }
    ensures { IfOk result (λ v. v.items ≡ map (numbered_lit signals.now) lits.now) }
{
    let mut found = Vec::new(alloc);
    for lit in lits {
        let signal = signal_of(signals, lit.node());
        found.push(Lit::of(signal, lit.complemented()))?;
    }
    Ok(found)
}
