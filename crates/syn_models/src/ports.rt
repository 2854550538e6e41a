//! The ports of models, and models by their names.

ghost use Rattle.std.specs.Prelude.{◌≡◌, ◌^◌, ◌<◌, flat_map, length, map, true, IfNone, IfOk, IfSome, None, Some, get_or};
ghost use Rattle.syn_models.specs.Listed.{ArePorts, AllPorts, listed_in, numbers_listed};
ghost use Rattle.syn_models.specs.Models.{is_port, is_reading, model_named, name_of};
ghost use Rattle.syn_models.specs.Views.{model_in};
ghost use Rattle.syn_netlist.specs.Words.{distinct};

use crate::hierarchy::{Model, Statement, StatementKind};
use std::alloc::{AllocError, Global};
use syn_netlist::{Names, marks_of};

/// What a port is listed as.
#[derive(Clone, Copy, Debug, PartialEq, Eq)]
pub enum Role {
    Input,
    Clock,
    Output,
}

/// The ports of a model by numbers of its names.
#[derive(Drop)]
pub(crate) struct Ports {
    /// The inputs, then the clocks, in list order.
    pub reading: Vec<u32>,
    /// Whether each name is one of these.
    pub reads: Vec<bool>,
    /// Whether each name is an output.
    pub outputs: Vec<bool>,
}

// The numbers that a statement lists in this role.
fn listed(kind: &StatementKind, role: Role) -> &[u32]
    ensures { result.now ≡ numbers_listed role kind.now }
{
    match (role, kind) {
        (Role::Input, StatementKind::Inputs(numbers)) => numbers.as_slice(),
        (Role::Clock, StatementKind::Clock(numbers)) => numbers.as_slice(),
        (Role::Output, StatementKind::Outputs(numbers)) => numbers.as_slice(),
        _ => &[],
    }
}

/// The numbers that the statements list in this role, in order. The only error is want of memory.
pub(crate) fn all_listed(
    alloc: Global,
    statements: &[Statement],
    role: Role,
) -> Result<Vec<u32>, AllocError>
    ensures { IfOk result (λ v. v.items ≡ flat_map (listed_in role) statements.now) }
{
    let mut numbers = Vec::new(alloc);
    for s in statements {
        numbers.extend_from_slice(listed(&s.kind, role))?;
    }
    Ok(numbers)
}

/// The ports of a model. The only error is want of memory.
pub(crate) fn ports_of(alloc: Global, m: &Model) -> Result<Ports, AllocError>
    ensures { IfOk result (ArePorts m.now) }
{
    let statements = m.statements.as_slice();
    let mut reading = all_listed(alloc, statements, Role::Input)?;
    let clocks = all_listed(alloc, statements, Role::Clock)?;
    reading.extend_from_slice(&clocks)?;
    let outputs = all_listed(alloc, statements, Role::Output)?;
    let reads = marks_of(alloc, m.names.len(), &reading)?;
    let outputs = marks_of(alloc, m.names.len(), &outputs)?;
    Ok(Ports {
        reading,
        reads,
        outputs,
    })
}

/// The ports of each model. The only error is want of memory.
pub(crate) fn all_ports(alloc: Global, models: &[Model]) -> Result<Vec<Ports>, AllocError>
    ensures { IfOk result (λ v. AllPorts models.now v.items) }
{
    let mut all = Vec::new(alloc);
    for m in models {
        all.push(ports_of(alloc, m)?)?;
    }
    Ok(all)
}

/// Whether a formal is an input or clock of the model.
pub(crate) fn is_reading(m: &Model, ports: &Ports, formal: &[u8]) -> bool
    requires { ArePorts m.now ports.now }
    ensures { result ≡ is_reading (model_in m.now) formal.now }
{
    match m.names.find(formal) {
        Some(i) => ports.reads.as_slice()[i as usize],
        None => false,
    }
}

/// Whether a formal is an input, clock or output of the model.
pub(crate) fn is_port(m: &Model, ports: &Ports, formal: &[u8]) -> bool
    requires { ArePorts m.now ports.now }
    ensures { result ≡ is_port (model_in m.now) formal.now }
{
    match m.names.find(formal) {
        Some(i) => ports.reads.as_slice()[i as usize] || ports.outputs.as_slice()[i as usize],
        None => false,
    }
}

/// The names of the models, numbered in order. The only error is want of memory.
pub(crate) fn model_names(alloc: Global, models: &[Model]) -> Result<Names, AllocError>
    requires few { length models.now < 2 ^ 32 }
    requires distinct { distinct (map name_of (map model_in models.now)) ≡ true }
    ensures { IfOk result (λ names. names ≡ map name_of (map model_in models.now)) }
{
    let mut names = Names::new(alloc);
    for m in models {
        names.add(alloc, m.name.as_slice())?;
    }
    Ok(names)
}

/// The number of the model of this name.
pub(crate) fn number_named(models: &[Model], names: &Names, name: &[u8]) -> Option<u32>
    requires { names.now ≡ map name_of (map model_in models.now) }
    ensures none { IfNone result (model_named (map model_in models.now) name.now ≡ None) }
    ensures below { IfSome result (λ i. i < length models.now) }
    ensures some { IfSome result (λ i. (m : Model) → m ≡ get_or models.now i m → model_named (map model_in models.now) name.now ≡ Some (model_in m)) }
{
    let _count = names.len();
    match names.find(name) {
        Some(i) => Some(i),
        None => None,
    }
}
