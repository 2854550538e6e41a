//! The literals of divisors with their tables, and which of them a function implies.

ghost use Rattle.std.specs.Prelude.{◌≡◌, ℕ, ◌+◌, ◌<◌, ◌≤◌, ◌&&◌, ◌||◌, ◌++◌, [], ◌∷◌, if◌then◌else◌, All, Bool, List, filter, length, map, slice_index_or};
ghost use Rattle.syn_rows.specs.Joining.{complement, lit_of};
ghost use Rattle.syn_rows.specs.Rows.{node_of};
ghost use Rattle.syn_resub.specs.Divided.{AreDivided, HasValues, IsSide, implies, lit_over};
ghost use Rattle.syn_resub.specs.Sides.{AreSides, divisor_of, may_stand};

use crate::divided::Divided;
use crate::nodes::MAX_DIVISORS;
use arrayvec::ArrayVec;
use syn_graph::Graph;
use syn_rows::Lit;
use syn_truth::Truth;

/// A literal of a divisor of an AND.
#[derive(Clone, Copy, Debug, Default)]
pub struct Side {
    /// The literal.
    pub lit: Lit,
    /// Its table over the leaves.
    pub table: Truth,
    /// The AND implies it: only then may it be the AND of this literal and another.
    pub above: bool,
    /// The AND's complement implies it.
    pub above_not: bool,
}

/// Both literals of a divisor.
#[derive(Clone, Copy, Debug, Default)]
pub struct Sides {
    /// The divisor.
    pub plain: Side,
    /// Its complement.
    pub complemented: Side,
}

/// The divisors that may stand in the AND of two.
pub(crate) type AllSides = ArrayVec<Sides, MAX_DIVISORS>;

// Whether a table implies another: it is the AND of both.
fn is_below(table: Truth, other: Truth) -> bool
    requires { table.vars ≡ other.vars }
    ensures { (n : ℕ) (f g : List Bool → Bool) → HasValues n table f → HasValues n other g → result ≡ implies n f g }
{
    table.and(other) == table
}

impl Side {
    // A literal with its table, beside the table of an AND.
    fn of(graph: &Graph, node: u32, divided: &Divided, lit: Lit, table: Truth) -> Side
        requires divided { AreDivided graph.now.rows node divided.now }
        requires table { HasValues (length divided.now.leaves.items) table (lit_over graph.now.rows divided.now.leaves.items lit) }
        ensures lit { result.lit ≡ lit }
        ensures side { IsSide graph.now.rows divided.now.leaves.items node result }
    {
        Side {
            lit,
            table,
            above: is_below(divided.table, table),
            above_not: is_below(divided.table.not(), table),
        }
    }
}

impl Sides {
    // Both literals of the divisor at a place.
    fn at(graph: &Graph, node: u32, divided: &Divided, place: usize) -> Sides
        requires divided { AreDivided graph.now.rows node divided.now }
        requires place { place < length divided.now.nodes.items }
        ensures divisor { divisor_of result ≡ slice_index_or divided.now.nodes.items place 0 }
        ensures sides { AreSides graph.now.rows divided.now.leaves.items node result }
    {
        let (lit, table) = divided.literal(graph, node, place);
        Sides {
            plain: Side::of(graph, node, divided, lit, table),
            complemented: Side::of(graph, node, divided, lit.not(), table.not()),
        }
    }

    // Whether one of them may stand in the AND of two.
    fn may_stand(&self) -> bool
        ensures { result ≡ ((self.now.plain.above || self.now.plain.above_not) || (self.now.complemented.above || self.now.complemented.above_not)) }
    {
        let plain = self.plain.above || self.plain.above_not;
        let complemented = self.complemented.above || self.complemented.above_not;
        plain || complemented
    }
}

// Adds the literals of the divisor at a place, where it may stand in the AND of two.
fn push_sides(graph: &Graph, node: u32, divided: &Divided, place: usize, all: &mut AllSides)
    requires divided { AreDivided graph.now.rows node divided.now }
    requires place { place < length divided.now.nodes.items }
    requires few { length all.old.items ≤ place }
    ensures few { length all.new.items ≤ place + 1 }
    ensures divisors { map divisor_of all.new.items ≡ map divisor_of all.old.items ++ (if may_stand graph.now.rows divided.now.leaves.items node (slice_index_or divided.now.nodes.items place 0) then slice_index_or divided.now.nodes.items place 0 ∷ [] else []) }
    ensures sides { All (AreSides graph.now.rows divided.now.leaves.items node) all.old.items → All (AreSides graph.now.rows divided.now.leaves.items node) all.new.items }
{
    let sides = Sides::at(graph, node, divided, place);
    if sides.may_stand() {
        all.push(sides);
    }
}

/// The divisors that may stand in the AND of two.
pub(crate) fn all_sides(graph: &Graph, node: u32, divided: &Divided) -> AllSides
    requires divided { AreDivided graph.now.rows node divided.now }
    ensures divisors { map divisor_of result.items ≡ filter (may_stand graph.now.rows divided.now.leaves.items node) divided.now.nodes.items }
    ensures sides { All (AreSides graph.now.rows divided.now.leaves.items node) result.items }
{
    let mut all = AllSides::new();
    for place in 0..divided.nodes.len() {
        push_sides(graph, node, divided, place, &mut all);
    }
    all
}
