//! The rows that die with the root's old row.

ghost use Rattle.std.specs.Prelude.{◌≡◌, ◌+◌, ◌-◌, ◌≤◌, [], ◌∷◌, ◌++◌, List, length};
ghost use Rattle.syn_decide.specs.declared.decisions.Counted.{Counted};
ghost use Rattle.arrayvec.specs.ArrayVec.{array_vec_len};
ghost use Rattle.syn_decide.specs.declared.decisions.TheConstants.{MAX_INNER};
ghost use Rattle.syn_decide.specs.Dying as spec;
ghost use Rattle.syn_decide.specs.Fold as fold;
ghost use Rattle.syn_decide.specs.Walk.{nodes_of};

use crate::lists::{has_counted, has_row, refs};
use crate::{Counted, MAX_INNER, NodeRow};
use arrayvec::ArrayVec;
use syn_fanout_free::and_count;

// The references to each row that are left: all, before a row dies.
fn begin_left<const ROWS: usize>(rows: &[Counted], left: &mut ArrayVec<u32, ROWS>)
    requires { length rows.now ≤ ROWS }
    ensures { spec.AreLeft rows.now [] left.new.items }
{
    left.clear();
    for r in rows {
        left.push(r.others);
    }
}

// Takes the references of a row that dies.
fn release<const ROWS: usize>(rows: &[Counted], gone: Counted, left: &mut ArrayVec<u32, ROWS>)
    requires { length left.old.items ≡ length rows.now }
    ensures { (dying : List Counted) → spec.AreLeft rows.now dying left.old.items → spec.AreLeft rows.now (dying ++ gone ∷ []) left.new.items }
{
    for i in 0..rows.len() {
        let less = left[i].saturating_sub(refs(gone.row, rows[i].node));
        left[i] = less;
    }
}

// Whether a row dies to which so many references are left, beside those that are known to die.
fn dies(hits: &[NodeRow], dying: &[Counted], r: Counted, left: u32) -> bool
    requires { left ≡ r.others - spec.refs_by_counted dying.now r.node }
    ensures { result ≡ spec.dies (nodes_of hits.now) dying.now r }
{
    left == 0 && !has_counted(dying, r.node) && !has_row(hits, r.node)
}

// The first of the rows that dies.
fn first_dying(
    hits: &[NodeRow],
    dying: &[Counted],
    rows: &[Counted],
    left: &[u32],
) -> Option<Counted>
    requires { spec.AreLeft rows.now dying.now left.now }
    ensures { result ≡ spec.first_dying (nodes_of hits.now) dying.now rows.now }
{
    for i in 0..rows.len() {
        if dies(hits, dying, rows[i], left[i]) {
            return Some(rows[i]);
        }
    }
    None
}

/// The rows that die with a root's, with which they begin: all references to each, but the seat's own pins, are from rows
/// that die, and it is no hit. `left` is room for what is left of their references.
pub fn dying_with<const ROWS: usize>(
    hits: &[NodeRow],
    root: Counted,
    rows: &[Counted],
    left: &mut ArrayVec<u32, ROWS>,
    dying: &mut ArrayVec<Counted, ROWS>,
)
    requires { length rows.now + 1 ≤ ROWS }
    ensures { dying.new.items ≡ spec.dying_of (nodes_of hits.now) (root ∷ rows.now) }
{
    dying.clear();
    dying.push(root);
    begin_left(rows, left);
    release(rows, root, left);
    let mut steps = rows.len();
    while steps > 0 {
        steps -= 1;
        let Some(r) = first_dying(hits, dying.as_slice(), rows, left.as_slice()) else {
            return;
        };
        dying.push(r);
        release(rows, r, left);
    }
}

// How many of the rows are ANDs.
fn ands_of(rows: &[Counted]) -> u32
    requires { length rows.now ≤ MAX_INNER }
    ensures { result ≡ spec.ands_of rows.now }
{
    let mut sum = 0;
    for r in rows {
        sum += and_count(r.row);
    }
    sum
}

// The first of the inner rows, with these counts.
fn counted_of(inner: &[NodeRow], counts: &[u32], rows: &mut ArrayVec<Counted, MAX_INNER>)
    requires within { length counts.now ≤ length inner.now }
    requires few { length inner.now ≤ MAX_INNER }
    ensures { rows.new.items ≡ spec.counted_of inner.now counts.now }
{
    rows.clear();
    for (i, others) in counts.iter().enumerate() {
        let r = inner[i];
        rows.push(Counted {
            node: r.node,
            row: r.row,
            others: *others,
        });
    }
}

/// Room for the rows that have counts, for those of them that die, and for the references that are left. It is kept, since
/// it costs more to make than to fill.
#[derive(Debug, Drop)]
pub(crate) struct CountedRoom {
    counted: ArrayVec<Counted, MAX_INNER>,
    dying: ArrayVec<Counted, MAX_INNER>,
    left: ArrayVec<u32, MAX_INNER>,
}

impl CountedRoom {
    /// No rows.
    pub(crate) fn new() -> CountedRoom {
        CountedRoom {
            counted: ArrayVec::new(),
            dying: ArrayVec::new(),
            left: ArrayVec::new(),
        }
    }
}

/// How many ANDs die with the root's row, with these counts of the inner rows.
pub(crate) fn freed_by(
    inner: &[NodeRow],
    hits: &[NodeRow],
    counts: &[u32],
    room: &mut CountedRoom,
) -> u32
    requires within { length counts.now ≤ length inner.now }
    requires few { length inner.now ≤ MAX_INNER }
    ensures { result ≡ fold.freed_by inner.now hits.now counts.now }
{
    counted_of(inner, counts, &mut room.counted);
    let Some((root, rest)) = room.counted.as_slice().split_first() else {
        return 0;
    };
    dying_with(hits, *root, rest, &mut room.left, &mut room.dying);
    ands_of(room.dying.as_slice())
}
