//! What a walk through all instances meets, and its stack.

ghost use Rattle.std.specs.Prelude.{◌≡◌, length, true};
ghost use Rattle.syn_models.specs.Called.{actuals_below};
ghost use Rattle.syn_models.specs.Kept.{numbers_in};
ghost use Rattle.syn_netlist.specs.Numbers.{all_below};

use crate::hierarchy::{Bind, Model, StatementKind};

/// Where a statement stands: the number of an instance, 0 for the main model, and its model.
#[derive(Clone, Copy)]
pub(crate) struct Place<'a> {
    pub number: usize,
    pub home: &'a Model,
}

/// An instance: where its subcircuit stands, the binds, and its model.
#[derive(Drop)]
pub(crate) struct Instance<'a> {
    pub outer: Place<'a>,
    pub binds: &'a [Bind],
    pub inside: &'a Model,
    // The actuals are numbers of names of the model that the subcircuit stands in.
    pub ghost below: { actuals_below (length outer.home.now.names) binds.now ≡ true },
}

/// A statement that is no subcircuit, and where it stands.
#[derive(Drop)]
pub(crate) struct Part<'a> {
    pub place: Place<'a>,
    pub kind: &'a StatementKind,
    // Its numbers are of names of the model that it stands in.
    pub ghost below: { all_below (length place.home.now.names) (numbers_in kind.now) ≡ true },
}

/// A level of the stack: the statements of an instance from this place on are left.
#[derive(Drop)]
pub(crate) struct Level<'a> {
    pub place: Place<'a>,
    pub at: usize,
}

/// What a walk meets, in order: the instances, whose numbers are their places from 1 on, and all statements but subcircuits.
#[derive(Drop)]
pub(crate) struct Walked<'a> {
    pub main: &'a Model,
    pub instances: Vec<Instance<'a>>,
    pub parts: Vec<Part<'a>>,
}
