//! What a form becomes in place of an AND, and whether it saves, told without its plan.

ghost use Rattle.std.specs.Prelude.{◌≡◌, ◌<◌, [], true, false, All, IfNone, IfOk, IfSome, length, slice_index_or};
ghost use Rattle.std.specs.List.{AllWithin, HoldsAt};
ghost use Rattle.syn_rows.specs.Reach.{is_and};
ghost use Rattle.syn_rows.specs.Rows.{row_at};
ghost use Rattle.syn_fanout_free.specs.Bounding.{IsMostLost};
ghost use Rattle.syn_fanout_free.specs.Saved.{count_in};
ghost use Rattle.syn_gain.specs.Replacements.{new_root_by, new_rows_by};
ghost use Rattle.syn_gain.specs.Searching.{placed_pair};
ghost use Rattle.syn_gain.specs.Uses.{IsUsesOf};
ghost use Rattle.syn_growing.specs.Plans.{over};
ghost use Rattle.syn_proposals.specs.Closing.{SavesNothing, SavesSome};
ghost use Rattle.syn_resub.specs.Divided.{AreDivided};
ghost use Rattle.syn_resub.specs.Forms.{found_forms};
ghost use Rattle.syn_resub.specs.Needed.{IsMadeOf};
ghost use Rattle.syn_resub.specs.Placing.{placed_form, signed_lit};
ghost use Rattle.syn_resub.specs.Resubstitution.{plan_for};

use crate::Form;
use crate::divided::Divided;
use arrayvec::ArrayVec;
use std::alloc::{AllocError, Global};
use syn_fanout_free::{Change, KeptRows, gain_is_positive};
use syn_gain::{Uses, literal_below, mffc_size, root_row};
use syn_graph::Graph;
use syn_rows::{FALSE, Lit, Row, ordered_and, simple_and};

/// The most new rows that a form makes. More ANDs that go with an AND's row aren't counted.
pub(crate) const MAX_MADE: u32 = 1;

/// What a form becomes: the literal of its value, and the new row behind the last row, if it makes one.
#[derive(Debug, Drop)]
pub(crate) struct Placed {
    literal: Lit,
    extra: ArrayVec<Row, 1>,
}

// A literal, complemented where that is true.
#[inline]
fn signed(literal: Lit, complemented: bool) -> Lit
    ensures { result ≡ signed_lit complemented literal }
{
    if complemented { literal.not() } else { literal }
}

// The AND of two literals: that of a row below a node, or of a new row.
fn place_and(graph: &Graph, uses: &Uses, node: u32, first: Lit, second: Lit) -> Placed
    requires uses { IsUsesOf uses.now graph.now }
    ensures literal { result.literal ≡ (placed_pair graph.now.rows node [] first second).literal }
    ensures extra { result.extra.items ≡ (placed_pair graph.now.rows node [] first second).extra }
{
    let rows = graph.rows.as_slice();
    let mut extra = ArrayVec::new();
    if let Some(literal) = simple_and(first, second) {
        return Placed { literal, extra };
    }
    if let Some(literal) = literal_below(rows, &uses.pairs, node, first, second) {
        return Placed { literal, extra };
    }
    extra.push(ordered_and(first, second));
    let literal = Lit::of(rows.len() as u32, false);
    Placed { literal, extra }
}

// What a form becomes, where its row may be any below a node.
fn place(graph: &Graph, uses: &Uses, node: u32, form: Form) -> Placed
    requires uses { IsUsesOf uses.now graph.now }
    ensures literal { result.literal ≡ (placed_form graph.now.rows node form).literal }
    ensures extra { result.extra.items ≡ (placed_form graph.now.rows node form).extra }
{
    match form {
        Form::Constant(value) => Placed {
            literal: signed(FALSE, value),
            extra: ArrayVec::new(),
        },
        Form::One(literal) => Placed {
            literal,
            extra: ArrayVec::new(),
        },
        Form::Both(first, second, complemented) => {
            let Placed { literal, extra } = place_and(graph, uses, node, first, second);
            let literal = signed(literal, complemented);
            Placed { literal, extra }
        }
    }
}

/// Whether a form makes a new row where it may be any row that is there.
pub(crate) fn makes_row(graph: &Graph, uses: &Uses, form: Form) -> bool
    requires { IsUsesOf uses.now graph.now }
{
    let count = graph.rows.as_slice().len() as u32;
    !place(graph, uses, count, form).extra.is_empty()
}

// The new rows of a form in place of an AND: the AND's own, and the one behind the last row, if it makes one.
#[derive(Debug, Drop)]
struct NewRows {
    root: Row,
    extra: ArrayVec<Row, 1>,
}

// What a form's proposal becomes.
fn new_rows(graph: &Graph, uses: &Uses, node: u32, divided: &Divided, form: Form) -> NewRows
    requires uses { IsUsesOf uses.now graph.now }
    requires gate { is_and (row_at graph.now.rows node) ≡ true }
    requires divided { AreDivided graph.now.rows node divided.now }
    requires made { IsMadeOf divided.now.nodes.items form }
    ensures root { result.root ≡ new_root_by graph.now.rows (over node divided.now.leaves.items (plan_for graph.now.rows divided.now.leaves.items node form)) }
    ensures extra { result.extra.items ≡ new_rows_by graph.now.rows (over node divided.now.leaves.items (plan_for graph.now.rows divided.now.leaves.items node form)) }
{
    let _ = divided;
    let placed = place(graph, uses, node, form);
    let rows = graph.rows.as_slice();
    let root = root_row(rows.len() as u32, placed.extra.as_slice(), placed.literal);
    NewRows {
        root,
        extra: placed.extra,
    }
}

// Whether a form saves in place of an AND, where no more than `most` ANDs go with the AND's row, whichever others stay.
fn form_saves(
    alloc: Global,
    graph: &Graph,
    uses: &Uses,
    node: u32,
    divided: &Divided,
    form: Form,
    most: u32,
) -> Result<bool, AllocError>
    requires uses { IsUsesOf uses.now graph.now }
    requires gate { is_and (row_at graph.now.rows node) ≡ true }
    requires divided { AreDivided graph.now.rows node divided.now }
    requires made { IsMadeOf divided.now.nodes.items form }
    requires most { IsMostLost graph.now.rows (count_in uses.now.counts.items) node [] most }
    ensures some { IfOk result (λ some. some ≡ true → SavesSome graph.now.rows graph.now.observed (over node divided.now.leaves.items (plan_for graph.now.rows divided.now.leaves.items node form))) }
    ensures none { IfOk result (λ some. some ≡ false → SavesNothing graph.now.rows graph.now.observed (over node divided.now.leaves.items (plan_for graph.now.rows divided.now.leaves.items node form))) }
{
    let made = new_rows(graph, uses, node, divided, form);
    let rows = graph.rows.as_slice();
    let counts = uses.counts.as_slice();
    let extra = made.extra.as_slice();
    let mut kept = KeptRows::new(alloc);
    let change = Change {
        node,
        row: made.root,
        extra,
    };
    gain_is_positive(alloc, rows, counts, change, &[], most, &mut kept)
}

/// The form at a place.
pub(crate) fn form_at(forms: &[Form], place: usize) -> Form
    requires { place < length forms.now }
    ensures { result ≡ slice_index_or forms.now place result }
{
    forms[place]
}

/// The place of the first of the forms found for an AND that saves. The only error is want of memory, which a small cone
/// doesn't take.
pub(crate) fn place_of_first(
    alloc: Global,
    graph: &Graph,
    uses: &Uses,
    node: u32,
    divided: &Divided,
    forms: &[Form],
) -> Result<Option<usize>, AllocError>
    requires uses { IsUsesOf uses.now graph.now }
    requires gate { is_and (row_at graph.now.rows node) ≡ true }
    requires divided { AreDivided graph.now.rows node divided.now }
    requires forms { forms.now ≡ found_forms graph.now.rows divided.now.leaves.items node }
    ensures there { IfOk result (λ found. IfSome found (λ i. i < length forms.now)) }
    ensures saves { IfOk result (λ found. IfSome found (λ i. HoldsAt (λ form. SavesSome graph.now.rows graph.now.observed (over node divided.now.leaves.items (plan_for graph.now.rows divided.now.leaves.items node form))) forms.now i)) }
    ensures before { IfOk result (λ found. IfSome found (λ i. AllWithin (λ form. SavesNothing graph.now.rows graph.now.observed (over node divided.now.leaves.items (plan_for graph.now.rows divided.now.leaves.items node form))) forms.now 0 i)) }
    ensures none { IfOk result (λ found. IfNone found (All (λ form. SavesNothing graph.now.rows graph.now.observed (over node divided.now.leaves.items (plan_for graph.now.rows divided.now.leaves.items node form))) forms.now)) }
{
    let most = mffc_size(alloc, graph, uses, node, &[], MAX_MADE)?;
    for place in 0..forms.len() {
        let form = form_at(forms, place);
        if form_saves(alloc, graph, uses, node, divided, form, most)? {
            return Ok(Some(place));
        }
    }
    Ok(None)
}
