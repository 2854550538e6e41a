//! The search for one path more.

ghost use Rattle.std.specs.Prelude.{◌≡◌, ◌<◌, ◌++◌, ℕ, List, [], ◌∷◌, IfNone, IfOk, IfSome, OnOk, Some, drop, false, length, map, not, true};
ghost use Rattle.syn_rows.specs.Rows.{InOrder};
ghost use Rattle.syn_cones.specs.Cones.{refs_at};
ghost use Rattle.syn_paths.specs.Checking.{AreUpTo, NoneMarked, all_within};
ghost use Rattle.syn_paths.specs.Rooms.{AreTouched};
ghost use Rattle.syn_paths.specs.declared.places.Place.{Place};
ghost use Rattle.syn_paths.specs.declared.places.Place.TheVariants.{Out};
ghost use Rattle.syn_paths.specs.Augmenting.{AreOnce, along, next_by};
ghost use Rattle.syn_paths.specs.Searching.{IsFoundAt, IsSearching, IsStart, IsTrail, IsWayAt, NextWithin, TrailFalls, TrailWithin, left, before_by, enter_all, entered, into_out, is_found, is_seen, nearer_last, next_at, node_at, own_out, place_at, see_in, see_out, state};

use crate::node_facts::{is_source, label_of, row_at};
use crate::places::{Next, Place, Step, next_at};
use std::alloc::AllocError;
use syn_rows::Row;

/// Rows, and how near each of their nodes is to a source.
#[derive(Clone, Copy, Debug)]
pub(crate) struct Ways<'a> {
    pub(crate) rows: &'a [Row],
    pub(crate) near: &'a [u32],
}

// Marks a place. False where it was marked already.
fn see(ins: &mut [u32], outs: &mut [u32], stamp: u32, place: Place) -> bool
    requires ins { node_at place < length ins.old }
    requires outs { node_at place < length outs.old }
    ensures new { result ≡ not (is_seen ins.old outs.old stamp place) }
    ensures ins { ins.new ≡ see_in ins.old stamp place }
    ensures outs { outs.new ≡ see_out outs.old stamp place }
{
    match place {
        Place::In(v) => {
            let known = ins[v as usize] == stamp;
            ins[v as usize] = stamp;
            !known
        }
        Place::Out(v) => {
            let known = outs[v as usize] == stamp;
            outs[v as usize] = stamp;
            !known
        }
    }
}

// Marks a place that came from another. One that wasn't marked waits.
fn enter(
    ins: &mut [u32],
    outs: &mut [u32],
    stamp: u32,
    trail: &mut Vec<Step>,
    waiting: &mut Vec<usize>,
    place: Place,
    from: Option<usize>,
) -> Result<(), AllocError>
    requires ins { node_at place < length ins.old }
    requires outs { node_at place < length outs.old }
    ensures { OnOk result (state ins.new outs.new trail.new.items waiting.new.items ≡ entered stamp (state ins.old outs.old trail.old.items waiting.old.items) place from) }
{
    if see(ins, outs, stamp, place) {
        waiting.push(trail.len())?;
        trail.push(Step { place, from })?;
    }
    Ok(())
}

// Marks that from which a unit may go out of a node.
fn visit_out(
    next: &[Next],
    ins: &mut [u32],
    outs: &mut [u32],
    stamp: u32,
    trail: &mut Vec<Step>,
    waiting: &mut Vec<usize>,
    node: u32,
    from: usize,
) -> Result<(), AllocError>
    requires ins { node < length ins.old }
    requires outs { length outs.old ≡ length ins.old }
    requires next { NextWithin next.now (length ins.old) }
    ensures { OnOk result (state ins.new outs.new trail.new.items waiting.new.items ≡ enter_all stamp (state ins.old outs.old trail.old.items waiting.old.items) (into_out node (next_at next.now node)) (Some from)) }
{
    match next_at(next, node) {
        Next::Off => enter(
            ins,
            outs,
            stamp,
            trail,
            waiting,
            Place::In(node),
            Some(from),
        ),
        Next::To(other) => enter(
            ins,
            outs,
            stamp,
            trail,
            waiting,
            Place::In(other),
            Some(from),
        ),
        Next::Last => Ok(()),
    }
}

// Marks the place out of a node that is on a path.
fn visit_own(
    next: &[Next],
    ins: &mut [u32],
    outs: &mut [u32],
    stamp: u32,
    trail: &mut Vec<Step>,
    waiting: &mut Vec<usize>,
    node: u32,
    from: usize,
) -> Result<(), AllocError>
    requires ins { node < length ins.old }
    requires outs { length outs.old ≡ length ins.old }
    ensures { OnOk result (state ins.new outs.new trail.new.items waiting.new.items ≡ enter_all stamp (state ins.old outs.old trail.old.items waiting.old.items) (own_out node (next_at next.now node)) (Some from)) }
{
    match next_at(next, node) {
        Next::Off => Ok(()),
        _ => enter(
            ins,
            outs,
            stamp,
            trail,
            waiting,
            Place::Out(node),
            Some(from),
        ),
    }
}

// Two nodes, the one that is nearer to a source last, so that a search goes on from it first.
fn nearer_last(near: &[u32], a: u32, b: u32) -> (u32, u32)
    ensures { result.0 ∷ result.1 ∷ [] ≡ nearer_last near.now (a ∷ b ∷ []) }
{
    if label_of(near, b) < label_of(near, a) {
        (a, b)
    } else {
        (b, a)
    }
}

// Marks the places out of what a node refers to, that of the node nearest to a source last.
fn visit_refs(
    ways: Ways,
    ins: &mut [u32],
    outs: &mut [u32],
    stamp: u32,
    trail: &mut Vec<Step>,
    waiting: &mut Vec<usize>,
    node: u32,
    from: usize,
) -> Result<(), AllocError>
    requires order { InOrder ways.rows.now }
    requires ins { node < length ins.old }
    requires outs { length outs.old ≡ length ins.old }
    ensures { OnOk result (state ins.new outs.new trail.new.items waiting.new.items ≡ enter_all stamp (state ins.old outs.old trail.old.items waiting.old.items) (map Out (nearer_last ways.entry.near.now (refs_at ways.entry.rows.now node))) (Some from)) }
{
    if node == 0 {
        return Ok(());
    }
    match row_at(ways.rows, node) {
        Row::And(a, b) => {
            let (first, last) = nearer_last(ways.near, a.node(), b.node());
            enter(
                ins,
                outs,
                stamp,
                trail,
                waiting,
                Place::Out(first),
                Some(from),
            )?;
            enter(
                ins,
                outs,
                stamp,
                trail,
                waiting,
                Place::Out(last),
                Some(from),
            )
        }
        Row::Alias(a) => enter(
            ins,
            outs,
            stamp,
            trail,
            waiting,
            Place::Out(a.node()),
            Some(from),
        ),
        _ => Ok(()),
    }
}

// Marks that from which a unit may go to a place. True at a place into a source, where none is marked.
fn visit(
    ways: Ways,
    next: &[Next],
    ins: &mut [u32],
    outs: &mut [u32],
    stamp: u32,
    trail: &mut Vec<Step>,
    waiting: &mut Vec<usize>,
    i: usize,
) -> Result<bool, AllocError>
    requires order { InOrder ways.rows.now }
    requires there { i < length trail.old.items }
    requires ins { node_at (place_at trail.old.items i) < length ins.old }
    requires outs { length outs.old ≡ length ins.old }
    requires next { NextWithin next.now (length ins.old) }
    ensures found { IfOk result (λ yes. yes ≡ is_found ways.entry.rows.now (place_at trail.old.items i)) }
    ensures same { IfOk result (λ yes. yes ≡ true → state ins.new outs.new trail.new.items waiting.new.items ≡ state ins.old outs.old trail.old.items waiting.old.items) }
    ensures more { IfOk result (λ yes. yes ≡ false → state ins.new outs.new trail.new.items waiting.new.items ≡ enter_all stamp (state ins.old outs.old trail.old.items waiting.old.items) (before_by ways.entry.near.now ways.entry.rows.now next.now (place_at trail.old.items i)) (Some i)) }
{
    let step = trail[i];
    match step.place {
        Place::Out(node) => {
            visit_out(next, ins, outs, stamp, trail, waiting, node, i)?;
            Ok(false)
        }
        Place::In(node) => {
            if is_source(ways.rows, node) {
                return Ok(true);
            }
            visit_own(next, ins, outs, stamp, trail, waiting, node, i)?;
            visit_refs(ways, ins, outs, stamp, trail, waiting, node, i)?;
            Ok(false)
        }
    }
}

// The nodes from which a search starts, and how many of them were entered.
#[derive(Clone, Copy, Debug)]
struct Starts<'a> {
    all: &'a [u32],
    entered: usize,
}

// Searches on until nothing waits, or a place into a source is met: the place of it in the trail.
fn search_on(
    ways: Ways,
    next: &[Next],
    starts: Starts,
    ins: &mut [u32],
    outs: &mut [u32],
    stamp: u32,
    trail: &mut Vec<Step>,
    waiting: &mut Vec<usize>,
) -> Result<Option<usize>, AllocError>
    requires order { InOrder ways.rows.now }
    requires outs { length outs.old ≡ length ins.old }
    requires next { NextWithin next.now (length ins.old) }
    requires ins_stamps { AreUpTo ins.old stamp }
    requires outs_stamps { AreUpTo outs.old stamp }
    requires searching { IsSearching ways.rows.now next.now (IsStart starts.all.now) stamp (state ins.old outs.old trail.old.items waiting.old.items) (map Out (drop starts.entered starts.all.now)) }
    ensures ins_long { IfOk result (λ r. length ins.new ≡ length ins.old) }
    ensures outs_long { IfOk result (λ r. length outs.new ≡ length outs.old) }
    ensures ins_stamps { IfOk result (λ r. AreUpTo ins.new stamp) }
    ensures outs_stamps { IfOk result (λ r. AreUpTo outs.new stamp) }
    ensures searching { IfOk result (λ r. IfNone r (IsSearching ways.entry.rows.now next.now (IsStart starts.entry.all.now) stamp (state ins.new outs.new trail.new.items []) (map Out (drop starts.entry.entered starts.entry.all.now)))) }
    ensures empty { IfOk result (λ r. IfNone r (waiting.new.items ≡ [])) }
    ensures found { IfOk result (λ r. IfSome r (λ i. IsFoundAt ways.entry.rows.now trail.new.items i)) }
    ensures trail { IfOk result (λ r. IfSome r (λ i. IsTrail ways.entry.rows.now next.now (IsStart starts.entry.all.now) trail.new.items)) }
{
    while let Some(i) = waiting.pop() {
        if visit(ways, next, ins, outs, stamp, trail, waiting, i)? {
            return Ok(Some(i));
        }
    }
    Ok(None)
}

// Searches from the starts down: the place in the trail of one into a source, or none where all that is reached was marked.
pub(crate) fn search(
    ways: Ways,
    next: &[Next],
    starts: &[u32],
    ins: &mut [u32],
    outs: &mut [u32],
    stamp: u32,
    trail: &mut Vec<Step>,
    waiting: &mut Vec<usize>,
) -> Result<Option<usize>, AllocError>
    requires order { InOrder ways.rows.now }
    requires outs { length outs.old ≡ length ins.old }
    requires next { NextWithin next.now (length ins.old) }
    requires ins_stamps { AreUpTo ins.old stamp }
    requires outs_stamps { AreUpTo outs.old stamp }
    requires starts { all_within (length ins.old) starts.now ≡ true }
    requires ins_free { NoneMarked ins.old stamp }
    requires outs_free { NoneMarked outs.old stamp }
    requires trail { trail.old.items ≡ [] }
    requires waiting { waiting.old.items ≡ [] }
    ensures ins_long { IfOk result (λ r. length ins.new ≡ length ins.old) }
    ensures outs_long { IfOk result (λ r. length outs.new ≡ length outs.old) }
    ensures ins_stamps { IfOk result (λ r. AreUpTo ins.new stamp) }
    ensures outs_stamps { IfOk result (λ r. AreUpTo outs.new stamp) }
    ensures searched { IfOk result (λ r. IfNone r (IsSearching ways.entry.rows.now next.now (IsStart starts.now) stamp (state ins.new outs.new trail.new.items []) [])) }
    ensures found { IfOk result (λ r. IfSome r (λ i. IsFoundAt ways.entry.rows.now trail.new.items i)) }
    ensures trail { IfOk result (λ r. IfSome r (λ i. IsTrail ways.entry.rows.now next.now (IsStart starts.now) trail.new.items)) }
{
    for at in 0..starts.len() {
        enter(
            ins,
            outs,
            stamp,
            trail,
            waiting,
            Place::Out(starts[at]),
            None,
        )?;
        let begun = Starts {
            all: starts,
            entered: at + 1,
        };
        let found = search_on(ways, next, begun, ins, outs, stamp, trail, waiting)?;
        if found.is_some() {
            return Ok(found);
        }
    }
    Ok(None)
}

// What comes behind a node that the way leaves for a place.
fn next_by(node: u32, place: Place) -> Next
    ensures { result ≡ next_by node place }
{
    match place {
        Place::In(other) => {
            if node == other {
                Next::Off
            } else {
                Next::To(other)
            }
        }
        Place::Out(_) => Next::Off,
    }
}

// Sets what comes behind the node of a place, where it is one out of it.
fn leave(next: &mut [Next], place: Place, behind: Next)
    requires { node_at place < length next.old }
    ensures { next.new ≡ left next.old place behind }
{
    if let Place::Out(node) = place {
        next[node as usize] = behind;
    }
}

// Follows the trail from a place of it up to the top, and sets what comes behind each node that it leaves.
pub(crate) fn follow(
    next: &mut [Next],
    trail: &[Step],
    from: usize,
    touched: &mut Vec<u32>,
) -> Result<(), AllocError>
    requires there { from < length trail.now }
    requires falls { TrailFalls trail.now }
    requires within { TrailWithin trail.now (length next.old) }
    requires touched { AreTouched next.old touched.old.items }
    ensures length { length next.new ≡ length next.old }
    ensures touched { OnOk result (AreTouched next.new touched.new.items) }
    ensures followed { OnOk result ((way : List Place) → IsWayAt trail.now from way → AreOnce (place_at trail.now from ∷ way) → (v : ℕ) → next_at next.new v ≡ along (next_at next.old) (place_at trail.now from ∷ way) v) }
{
    let mut i = from;
    while let Some(j) = trail[i].from {
        let node = node_of(trail[i].place);
        leave(next, trail[i].place, next_by(node, trail[j].place));
        touched.push(node)?;
        i = j;
    }
    let node = node_of(trail[i].place);
    leave(next, trail[i].place, Next::Last);
    touched.push(node)?;
    Ok(())
}

// The node of a place of the trail.
pub(crate) fn source_of(trail: &[Step], i: usize) -> u32
    requires { i < length trail.now }
    ensures { result ≡ node_at (place_at trail.now i) }
{
    node_of(trail[i].place)
}

// The node of a place.
fn node_of(place: Place) -> u32
    ensures { result ≡ node_at place }
{
    match place {
        Place::In(node) => node,
        Place::Out(node) => node,
    }
}
