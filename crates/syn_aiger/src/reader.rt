//! From the bytes of an AIGER file to a graph.

ghost use Rattle.std.specs.Prelude.{◌≡◌, ◌+◌, ◌<◌, ◌≤◌, ◌^◌, length, map, IfErr, IfOk, Ok, OnOk, true};
ghost use Rattle.std.specs.List.{list_all};
ghost use Rattle.syn_netlist.specs.Frames.{frame_in};
ghost use Rattle.syn_network.specs.Written.{network_of};
ghost use Rattle.syn_aiger_files.specs.declared.files.Aig.{Aig};
ghost use Rattle.syn_aiger_files.specs.Spelling.{most_variables, spelled};
ghost use Rattle.syn_aiger.specs.Faults.{NamesFirstFault, Spells, Within, most_ands};
ghost use Rattle.syn_aiger.specs.Framing.{AllDefined, AreLiterals, IsBodyOf};
ghost use Rattle.syn_aiger.specs.Networks.{IsGraphOfAig, frame_of, observed_literals};
ghost use Rattle.syn_aiger.specs.Placing.{ReadsDefined, is_defined, lit_in};
ghost use Rattle.syn_aiger.specs.Ranks.{HasRank};
ghost use Rattle.syn_aiger.specs.Values.{source_literals};

use crate::circles::circle;
use crate::file_numbers::Numbered;
use crate::frame::{Framed, frame_file};
use crate::names::names_of;
use crate::rows::rows;
use crate::undefined::first_undefined;
use std::alloc::{AllocError, Global};
use syn_aiger_files::{AigFault, MAX_GATES, parse};
use syn_graph::{Graph, compact};
use syn_network::{Network, few_observed};
use syn_reader::MAX_SOURCES;
use syn_rows::Lit;

// The literals of the observed signals.
fn observed_lits(alloc: Global, file: &Numbered, framed: &Framed) -> Result<Vec<Lit>, AllocError>
    requires defined { ReadsDefined file.now.aig }
    requires frame { frame_in framed.now.frame ≡ frame_of file.now.aig }
    requires count { length framed.now.literals.items ≡ length framed.now.frame.names }
    requires literals { AreLiterals file.now.aig framed.now.frame.names framed.now.literals.items }
    requires stand { AllDefined file.now.aig framed.now.frame.names }
    ensures lits { IfOk result (λ v. v.items ≡ map (lit_in file.now.aig) (observed_literals file.now.aig)) }
    ensures defined { OnOk result (list_all (is_defined file.now.aig) (observed_literals file.now.aig) ≡ true) }
{
    let numbers = framed.frame.observed(alloc)?;
    let literals = framed.literals.as_slice();
    let mut lits = Vec::new(alloc);
    for number in numbers.as_slice() {
        lits.push(file.lit(literals[*number as usize]))?;
    }
    Ok(lits)
}

// What the observed literals reach of a file's rows, as a graph without names.
fn body_of(alloc: Global, file: &Numbered, framed: &Framed) -> Result<Graph, AllocError>
    requires defined { ReadsDefined file.now.aig }
    requires rank { HasRank file.now.aig }
    requires frame { frame_in framed.now.frame ≡ frame_of file.now.aig }
    requires count { length framed.now.literals.items ≡ length framed.now.frame.names }
    requires literals { AreLiterals file.now.aig framed.now.frame.names framed.now.literals.items }
    requires stand { AllDefined file.now.aig framed.now.frame.names }
    requires names { length framed.now.frame.names < 2 ^ 31 }
    ensures sources { IfOk result (λ body. body.source_count ≡ length (source_literals file.now.aig)) }
    ensures body { IfOk result (λ body. IsBodyOf file.now.aig body.rows body.observed) }
    ensures defined { OnOk result (list_all (is_defined file.now.aig) (observed_literals file.now.aig) ≡ true) }
{
    few_observed(&framed.frame);
    let rows = rows(alloc, file)?;
    let lits = observed_lits(alloc, file, framed)?;
    let count = file.source_count() as u32;
    let body = compact(alloc, count, rows.as_slice(), lits.as_slice())?;
    Ok(body)
}

// The network of a file's frame over its body.
fn network_over(file: &Numbered, framed: Framed, body: Graph) -> Network
    requires defined { ReadsDefined file.now.aig }
    requires rank { HasRank file.now.aig }
    requires within { Within file.now.aig }
    requires frame { frame_in framed.frame ≡ frame_of file.now.aig }
    requires names { length framed.frame.names < 2 ^ 31 }
    requires sources { body.source_count ≡ length (source_literals file.now.aig) }
    requires body { IsBodyOf file.now.aig body.rows body.observed }
    requires observed { list_all (is_defined file.now.aig) (observed_literals file.now.aig) ≡ true }
    ensures graph { IsGraphOfAig file.now.aig (network_of result) }
    ensures few { length result.body.rows ≤ result.body.source_count + 1 + most_ands }
    ensures outputs { length result.frame.outputs ≤ most_variables }
{
    syn_network::network_of_graph();
    syn_network::graph_has_function();
    let _ = file;
    let Framed { frame, literals: _ } = framed;
    Network::of(frame, body)
}

// The network of a file within the limits that has no fault.
fn graph_of(alloc: Global, file: &Numbered) -> Result<Network, AllocError>
    requires defined { ReadsDefined file.now.aig }
    requires rank { HasRank file.now.aig }
    requires within { Within file.now.aig }
    ensures graph { IfOk result (λ graph. IsGraphOfAig file.now.aig (network_of graph)) }
    ensures few { IfOk result (λ graph. length graph.body.rows ≤ graph.body.source_count + 1 + most_ands) }
    ensures outputs { IfOk result (λ graph. length graph.frame.outputs ≤ most_variables) }
{
    let given = names_of(alloc, file)?;
    let framed = frame_file(alloc, file, given)?;
    match body_of(alloc, file, &framed) {
        Ok(body) => Ok(network_over(file, framed, body)),
        Err(error) => {
            drop(framed);
            Err(error)
        }
    }
}

// The network of the file that the bytes spell, within the limits; or their first fault.
fn graph_within(
    alloc: Global,
    bytes: &[u8],
    properties: bool,
    file: &Numbered,
) -> Result<Network, AigFault>
    requires { spelled properties bytes.now ≡ Ok file.now.aig }
    ensures graph { IfOk result (λ graph. (g : Aig) × Spells properties bytes.now g × Within g × IsGraphOfAig g (network_of graph)) }
    ensures few { IfOk result (λ graph. length graph.body.rows ≤ graph.body.source_count + 1 + most_ands) }
    ensures outputs { IfOk result (λ graph. length graph.frame.outputs ≤ most_variables) }
    ensures fault { IfErr result (NamesFirstFault properties bytes.now) }
{
    let _ = bytes;
    let _ = properties;
    if let Some(v) = first_undefined(file) {
        return Err(AigFault::Undefined(v));
    }
    if let Some(variables) = circle(alloc, file)? {
        return Err(AigFault::Cycle(variables));
    }
    let sources = file.source_count() as u32;
    if sources > MAX_SOURCES {
        return Err(AigFault::TooManySources(sources));
    }
    let ands = file.aig.ands.as_slice().len() as u32;
    if ands > MAX_GATES {
        return Err(AigFault::TooManyGates(ands));
    }
    let graph = graph_of(alloc, file)?;
    Ok(graph)
}

/// The network of the file that the bytes spell, within the limits; or their first fault. By the mark `properties` bad states and constraints are outputs; else they are a fault. `NoMemory` may come for any bytes.
pub fn read_aig(alloc: Global, bytes: &[u8], properties: bool) -> Result<Network, AigFault>
    requires { length bytes.now < 2 ^ 32 }
    ensures graph { IfOk result (λ graph. (g : Aig) × Spells properties bytes.now g × Within g × IsGraphOfAig g (network_of graph)) }
    ensures few { IfOk result (λ graph. length graph.body.rows ≤ graph.body.source_count + 1 + most_ands) }
    ensures outputs { IfOk result (λ graph. length graph.frame.outputs ≤ most_variables) }
    ensures fault { IfErr result (NamesFirstFault properties bytes.now) }
{
    let file = Numbered::of(alloc, parse(alloc, bytes, properties)?)?;
    graph_within(alloc, bytes, properties, &file)
}
