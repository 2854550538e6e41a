//! The forms that stand for an AND.

ghost use Rattle.std.specs.Prelude.{◌≡◌, ℕ, ◌++◌, ◌<◌, ◌≤◌, ◌&&◌, [], ◌∷◌, if◌then◌else◌, All, Bool, List, filter, length, map, slice_index_or, take};
ghost use Rattle.std.specs.Bool.{beq};
ghost use Rattle.std.specs.List.{flat_map};
ghost use Rattle.syn_truth.specs.Truth.{holds_at_each};
ghost use Rattle.syn_resub.specs.declared.forms.Form.TheVariants.{Constant, One};
ghost use Rattle.syn_resub.specs.Divided.{AreDivided, HasValues, IsSide};
ghost use Rattle.syn_resub.specs.Forms.{all_ands, ands_of, ands_over, found_forms, literals_of, signs, stands_for};
ghost use Rattle.syn_resub.specs.Sides.{AreSides, divisor_of};

use crate::Form;
use crate::divided::Divided;
use crate::sides::{Side, Sides, all_sides};
use arrayvec::ArrayVec;
use syn_graph::Graph;
use syn_truth::Truth;

/// The most forms that are found.
pub(crate) const MAX_FORMS: usize = 16;

/// Forms that stand for an AND.
pub(crate) type Found = ArrayVec<Form, MAX_FORMS>;

// Whether a form with this table stands for a function, if it may.
fn stands(may: bool, table: Truth, function: Truth) -> bool
    ensures { (n : ℕ) (f g : List Bool → Bool) → HasValues n table f → HasValues n function g → result ≡ (may && holds_at_each n (λ xs. beq (f xs) (g xs))) }
{
    if may { table == function } else { false }
}

// Adds a form that stands, where there is room.
fn push_form(found: &mut Found, form: Form, stands: bool)
    requires few { length found.old.items ≤ 16 }
    ensures few { length found.new.items ≤ 16 }
    ensures found { found.new.items ≡ take 16 (found.old.items ++ (if stands then form ∷ [] else [])) }
{
    if stands && !found.is_full() {
        found.push(form);
    }
}

// The constants.
fn push_constants(graph: &Graph, node: u32, divided: &Divided, found: &mut Found)
    requires divided { AreDivided graph.now.rows node divided.now }
    requires few { length found.old.items ≤ 16 }
    ensures few { length found.new.items ≤ 16 }
    ensures found { found.new.items ≡ take 16 (found.old.items ++ filter (stands_for graph.now.rows divided.now.leaves.items node) (map Constant signs)) }
{
    let zero = Truth::constant(divided.table.vars, false);
    let is_zero = stands(true, zero, divided.table);
    push_form(found, Form::Constant(false), is_zero);
    let is_one = stands(true, zero.not(), divided.table);
    push_form(found, Form::Constant(true), is_one);
}

// A divisor and its complement.
fn push_divisor(graph: &Graph, node: u32, divided: &Divided, place: usize, found: &mut Found)
    requires divided { AreDivided graph.now.rows node divided.now }
    requires few { length found.old.items ≤ 16 }
    requires place { place < length divided.now.nodes.items }
    ensures few { length found.new.items ≤ 16 }
    ensures found { found.new.items ≡ take 16 (found.old.items ++ filter (stands_for graph.now.rows divided.now.leaves.items node) (map One (literals_of (slice_index_or divided.now.nodes.items place 0)))) }
{
    let (lit, table) = divided.literal(graph, node, place);
    let plain = stands(true, table, divided.table);
    push_form(found, Form::One(lit), plain);
    let complemented = stands(true, table.not(), divided.table);
    push_form(found, Form::One(lit.not()), complemented);
}

// The divisors and their complements.
fn push_divisors(graph: &Graph, node: u32, divided: &Divided, found: &mut Found)
    requires divided { AreDivided graph.now.rows node divided.now }
    requires few { length found.old.items ≤ 16 }
    ensures few { length found.new.items ≤ 16 }
    ensures found { found.new.items ≡ take 16 (found.old.items ++ filter (stands_for graph.now.rows divided.now.leaves.items node) (map One (flat_map literals_of divided.now.nodes.items))) }
{
    for place in 0..divided.nodes.len() {
        push_divisor(graph, node, divided, place, found);
    }
}

// Both.
#[inline]
fn both(first: bool, second: bool) -> bool
    ensures { result ≡ (first && second) }
{
    first && second
}

// The AND of two literals, where both are implied, and its complement, where both are so by the complement.
fn push_implied(
    graph: &Graph,
    node: u32,
    divided: &Divided,
    first: &Side,
    second: &Side,
    found: &mut Found,
)
    requires divided { AreDivided graph.now.rows node divided.now }
    requires few { length found.old.items ≤ 16 }
    requires first { IsSide graph.now.rows divided.now.leaves.items node first.now }
    requires second { IsSide graph.now.rows divided.now.leaves.items node second.now }
    ensures few { length found.new.items ≤ 16 }
    ensures found { found.new.items ≡ take 16 (found.old.items ++ filter (stands_for graph.now.rows divided.now.leaves.items node) (ands_of first.now.lit second.now.lit)) }
{
    let table = first.table.and(second.table);
    let plain = stands(both(first.above, second.above), table, divided.table);
    push_form(found, Form::Both(first.lit, second.lit, false), plain);
    let complemented = stands(
        both(first.above_not, second.above_not),
        table.not(),
        divided.table,
    );
    push_form(found, Form::Both(first.lit, second.lit, true), complemented);
}

// The AND of two literals, and its complement. Most pairs end at the test of what is implied.
#[inline]
fn push_ands_of(
    graph: &Graph,
    node: u32,
    divided: &Divided,
    first: &Side,
    second: &Side,
    found: &mut Found,
)
    requires divided { AreDivided graph.now.rows node divided.now }
    requires few { length found.old.items ≤ 16 }
    requires first { IsSide graph.now.rows divided.now.leaves.items node first.now }
    requires second { IsSide graph.now.rows divided.now.leaves.items node second.now }
    ensures few { length found.new.items ≤ 16 }
    ensures found { found.new.items ≡ take 16 (found.old.items ++ filter (stands_for graph.now.rows divided.now.leaves.items node) (ands_of first.now.lit second.now.lit)) }
{
    let plain = both(first.above, second.above);
    let complemented = both(first.above_not, second.above_not);
    if plain || complemented {
        push_implied(graph, node, divided, first, second, found);
    }
}

// The ANDs of two divisors.
fn push_ands_over(
    graph: &Graph,
    node: u32,
    divided: &Divided,
    first: &Sides,
    second: &Sides,
    found: &mut Found,
)
    requires divided { AreDivided graph.now.rows node divided.now }
    requires few { length found.old.items ≤ 16 }
    requires first { AreSides graph.now.rows divided.now.leaves.items node first.now }
    requires second { AreSides graph.now.rows divided.now.leaves.items node second.now }
    ensures few { length found.new.items ≤ 16 }
    ensures found { found.new.items ≡ take 16 (found.old.items ++ filter (stands_for graph.now.rows divided.now.leaves.items node) (ands_over (divisor_of first.now) (divisor_of second.now))) }
{
    push_ands_of(graph, node, divided, &first.plain, &second.plain, found);
    push_ands_of(
        graph,
        node,
        divided,
        &first.plain,
        &second.complemented,
        found,
    );
    push_ands_of(
        graph,
        node,
        divided,
        &first.complemented,
        &second.plain,
        found,
    );
    push_ands_of(
        graph,
        node,
        divided,
        &first.complemented,
        &second.complemented,
        found,
    );
}

// The ANDs of one divisor with each of others.
fn push_ands_with(
    graph: &Graph,
    node: u32,
    divided: &Divided,
    first: &Sides,
    others: &[Sides],
    found: &mut Found,
)
    requires divided { AreDivided graph.now.rows node divided.now }
    requires few { length found.old.items ≤ 16 }
    requires first { AreSides graph.now.rows divided.now.leaves.items node first.now }
    requires others { All (AreSides graph.now.rows divided.now.leaves.items node) others.now }
    ensures few { length found.new.items ≤ 16 }
    ensures found { found.new.items ≡ take 16 (found.old.items ++ filter (stands_for graph.now.rows divided.now.leaves.items node) (flat_map (ands_over (divisor_of first.now)) (map divisor_of others.now))) }
{
    for second in others {
        push_ands_over(graph, node, divided, first, second, found);
    }
}

// The ANDs of each two divisors.
fn push_ands(graph: &Graph, node: u32, divided: &Divided, sides: &[Sides], found: &mut Found)
    requires divided { AreDivided graph.now.rows node divided.now }
    requires few { length found.old.items ≤ 16 }
    requires sides { All (AreSides graph.now.rows divided.now.leaves.items node) sides.now }
    ensures few { length found.new.items ≤ 16 }
    ensures found { found.new.items ≡ take 16 (found.old.items ++ filter (stands_for graph.now.rows divided.now.leaves.items node) (all_ands (map divisor_of sides.now))) }
{
    for (i, first) in sides.iter().enumerate() {
        if found.is_full() {
            return;
        }
        let (_, others) = sides.split_at(i + 1);
        push_ands_with(graph, node, divided, first, others, found);
    }
}

/// The forms that stand for an AND, in order, the first 16. Only divisors that the AND or its complement implies, plain or
/// complemented, go into ANDs of two.
pub(crate) fn found_forms(graph: &Graph, node: u32, divided: &Divided) -> Found
    requires divided { AreDivided graph.now.rows node divided.now }
    ensures { result.items ≡ found_forms graph.now.rows divided.now.leaves.items node }
{
    let mut found = Found::new();
    push_constants(graph, node, divided, &mut found);
    push_divisors(graph, node, divided, &mut found);
    let sides = all_sides(graph, node, divided);
    push_ands(graph, node, divided, sides.as_slice(), &mut found);
    found
}
