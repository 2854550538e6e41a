//! Calls on labels, and on the paths that bear them out, which the program computes and never checks.

use crate::answers::put;
use crate::operands::{Operands, byte, small};
use std::alloc::{AllocError, Global};
use syn_flow::{FlowProof, Paths, check_paths, flow};
use syn_graph::Graph;
use syn_lists::Items;

// The numbers of a list.
fn nodes(alloc: Global, list: &[u128]) -> Result<Items<u32>, AllocError> {
    let mut nodes = Vec::new(alloc);
    for place in 0..list.len() {
        nodes.push(small(list, place))?;
    }
    Ok(Items::of(nodes))
}

// The entry of a node and its paths, which 0 parts.
fn entry(alloc: Global, list: &[u128]) -> Result<Paths, AllocError> {
    let (node, rest) = match list.split_first() {
        Some((node, rest)) => (*node, rest),
        None => (0, list),
    };
    let mut lists = Vec::new(alloc);
    for path in rest.split(|number| *number == 0) {
        lists.push(nodes(alloc, path)?)?;
    }
    Ok(Paths {
        node: u32::try_from(node).unwrap_or(0),
        lists: Items::of(lists),
    })
}

// The entries of the lists from the sixth on.
fn entries(alloc: Global, operands: &Operands) -> Result<Items<Paths>, AllocError> {
    let mut entries = Vec::new(alloc);
    for place in 5..operands.len() {
        entries.push(entry(alloc, operands.list(place))?)?;
    }
    Ok(Items::of(entries))
}

// The certificate of the labels in the fifth list, and of those entries.
fn proof_of(alloc: Global, operands: &Operands) -> Result<FlowProof, AllocError> {
    let labels = nodes(alloc, operands.list(4))?;
    let paths = entries(alloc, operands)?;
    Ok(FlowProof { labels, paths })
}

// Whether a certificate is accepted for LUTs of so many inputs.
fn put_accepted(
    alloc: Global,
    out: &mut String,
    graph: &Graph,
    k: u8,
    operands: &Operands,
) -> Result<(), AllocError> {
    let proof = proof_of(alloc, operands)?;
    put(out, check_paths(alloc, graph, k, &proof))
}

// Whether one of the paths is this node alone.
fn is_alone(paths: &[Paths], node: u32) -> bool {
    for entry in paths {
        for path in entry.lists.as_slice() {
            if path.as_slice() == [node].as_slice() {
                return true;
            }
        }
    }
    false
}

// The node of each entry and how many paths it has, and which of so many sources are a path alone.
fn put_paths(out: &mut String, paths: &[Paths], sources: u32) -> Result<(), AllocError> {
    for entry in paths {
        put(out, Ok(entry.node))?;
        put(out, Ok(entry.lists.as_slice().len()))?;
    }
    for node in 1..=sources {
        if is_alone(paths, node) {
            put(out, Ok(node))?;
        }
    }
    Ok(())
}

// How many LUTs of six inputs a graph has and how deep they are.
fn put_net(alloc: Global, out: &mut String, graph: &Graph) -> Result<(), AllocError> {
    let (net, _proof) = flow(alloc, graph, 6)?;
    put(out, Ok(net.count()))?;
    put(out, net.depth(alloc))
}

// The labels that are shown, whether they are accepted, and the paths.
fn put_shown(alloc: Global, out: &mut String, graph: &Graph) -> Result<(), AllocError> {
    let (_net, proof) = flow(alloc, graph, 6)?;
    put(out, Ok(proof.labels.as_slice()))?;
    put(out, check_paths(alloc, graph, 6, &proof))?;
    put_paths(out, proof.paths.as_slice(), graph.source_count)
}

/// The answer to a call.
pub fn answer(
    alloc: Global,
    out: &mut String,
    call: &str,
    graph: &Graph,
    operands: &Operands,
) -> Result<(), AllocError> {
    match call {
        "net" => put_net(alloc, out, graph),
        "shown" => put_shown(alloc, out, graph),
        _ => put_accepted(alloc, out, graph, byte(operands.list(3), 0), operands),
    }
}
