//! The first unions of two lists of cuts.

ghost use Rattle.std.specs.Prelude.{◌≡◌, ℕ, ◌+◌, ◌<◌, ◌≤◌, ◌∷◌, true, List, [], IfSome, IfNone, IsTrue, length, map, min, take};
ghost use Rattle.syn_truth.specs.declared.TheConstants.{MAX_VARS};
ghost use Rattle.std.specs.List.{insert};
ghost use Rattle.arrayvec.specs.ArrayVec.{array_vec_len};
ghost use Rattle.syn_cuts.specs.Cuts.{comes_before, leaves_before, put, union, arranged, unions, unions_with, merge_cut_sets};
ghost use Rattle.syn_cuts.specs.Laws.{are_in_order};
ghost use Rattle.syn_cuts.specs.Leaves.{leaves_of};
ghost use Rattle.syn_cuts.specs.Keeping.{NoneLonger};
ghost use Rattle.syn_cuts.specs.Signatures.{AreSignatures};

use crate::Cut;
use crate::signatures::{least_leaves, signature, signatures_of};
use arrayvec::ArrayVec;

/// How many unions are kept for a node.
pub const CUTS_PER_NODE: usize = 31;

// The first node of a union of two rising lists, and what is left of them.
#[inline]
fn first_node<'a>(left: &'a [u32], right: &'a [u32]) -> Option<(u32, &'a [u32], &'a [u32])>
    ensures none { IfNone result (union left.now right.now ≡ []) }
    ensures some { IfSome result (λ r. union left.now right.now ≡ r.0 ∷ union r.1.now r.2.now) }
{
    match (left.split_first(), right.split_first()) {
        (None, None) => None,
        (None, Some((node, rest))) => Some((*node, left, rest)),
        (Some((node, rest)), None) => Some((*node, rest, right)),
        (Some((x, left_rest)), Some((y, right_rest))) => {
            if x < y {
                Some((*x, left_rest, right))
            } else if x == y {
                Some((*x, left_rest, right_rest))
            } else {
                Some((*y, left, right_rest))
            }
        }
    }
}

/// The union of two cuts, where it has at most k leaves.
pub fn union(left: &[u32], right: &[u32], k: usize) -> Option<Cut>
    requires { k ≤ MAX_VARS }
    ensures some { IfSome result (λ c. (c.items ≡ union left.now right.now) × (length (union left.now right.now) ≤ k)) }
    ensures none { IfNone result (k < length (union left.now right.now)) }
{
    let mut found = Cut::new();
    let mut left = left;
    let mut right = right;
    while let Some((node, left_rest, right_rest)) = first_node(left, right) {
        if found.len() >= k {
            return None;
        }
        found.push(node);
        left = left_rest;
        right = right_rest;
    }
    Some(found)
}

// Whether the leaves of a cut come before those of another.
#[inline]
fn leaves_before(left: &[u32], right: &[u32]) -> bool
    ensures { result ≡ leaves_before left.now right.now }
{
    for (i, x) in left.iter().enumerate() {
        if i >= right.len() {
            return false;
        }
        if *x != right[i] {
            return *x < right[i];
        }
    }
    false
}

// Whether a cut comes before another.
#[inline]
fn comes_before(left: &[u32], right: &[u32]) -> bool
    ensures { result ≡ comes_before left.now right.now }
{
    if left.len() == right.len() {
        leaves_before(left, right)
    } else {
        left.len() < right.len()
    }
}

// Where a cut belongs among cuts in order: the place, or none where it is there.
fn place(cuts: &[Cut], cut: &[u32]) -> Option<usize>
    requires { are_in_order (leaves_of cuts.now) ≡ true }
    ensures some { IfSome result (λ i. (i ≤ length cuts.now) × (put cut.now (leaves_of cuts.now) ≡ insert (leaves_of cuts.now) i cut.now)) }
    ensures none { IfNone result (put cut.now (leaves_of cuts.now) ≡ leaves_of cuts.now) }
{
    let mut low = 0;
    let mut high = cuts.len();
    while low < high {
        let middle = low + (high - low) / 2;
        if !comes_before(cuts[middle].as_slice(), cut) {
            high = middle;
            continue;
        }
        low = middle + 1;
    }
    if low < cuts.len() && !comes_before(cut, cuts[low].as_slice()) {
        return None;
    }
    Some(low)
}

// Lets the last cut go where there is no room for one more.
fn make_room(kept: &mut ArrayVec<Cut, CUTS_PER_NODE>)
    requires { array_vec_len kept.old ≤ 31 }
    ensures items { kept.new.items ≡ take 30 kept.old.items }
    ensures len { array_vec_len kept.new ≡ min 30 (array_vec_len kept.old) }
{
    if kept.is_full() {
        kept.pop();
    }
}

// Whether a cut comes behind the last, where there are as many as are kept.
fn is_worse_than_last(cuts: &[Cut], cut: &[u32]) -> bool
    requires few { length cuts.now ≤ 31 }
    requires order { are_in_order (leaves_of cuts.now) ≡ true }
    ensures { IsTrue result → take 31 (put cut.now (leaves_of cuts.now)) ≡ leaves_of cuts.now }
{
    cuts.len() == CUTS_PER_NODE && !comes_before(cut, cuts[CUTS_PER_NODE - 1].as_slice())
}

// Puts a cut in its place among the first cuts, where it isn't there; the last one goes where there is no room.
fn keep(kept: &mut ArrayVec<Cut, CUTS_PER_NODE>, cut: Cut)
    requires few { array_vec_len kept.old ≤ 31 }
    requires order { are_in_order (leaves_of kept.old.items) ≡ true }
    ensures few { array_vec_len kept.new ≤ 31 }
    ensures kept { leaves_of kept.new.items ≡ take 31 (put cut.items (leaves_of kept.old.items)) }
{
    if is_worse_than_last(kept.as_slice(), cut.as_slice()) {
        return;
    }
    let Some(i) = place(kept.as_slice(), cut.as_slice()) else {
        return;
    };
    if i >= CUTS_PER_NODE {
        return;
    }
    make_room(kept);
    kept.insert(i, cut);
}

// How many leaves a cut may have that is kept beside these: at most k, and where there are as many as are kept, no more
// than the last has.
#[inline]
fn most_leaves(cuts: &[Cut], k: usize) -> usize
    requires few { length cuts.now ≤ 31 }
    requires order { are_in_order (leaves_of cuts.now) ≡ true }
    ensures small { result ≤ k }
    ensures longer { NoneLonger result k (leaves_of cuts.now) }
{
    if cuts.len() < CUTS_PER_NODE {
        return k;
    }
    let last = cuts[CUTS_PER_NODE - 1].len();
    if last < k { last } else { k }
}

// Keeps the union of two cuts, where it has at most k leaves: how many leaves a cut may have that is kept then. The union
// has at least so many, and none of more than `most` is kept.
#[inline]
fn keep_union(
    kept: &mut ArrayVec<Cut, CUTS_PER_NODE>,
    left: &[u32],
    right: &[u32],
    least: usize,
    most: usize,
    k: usize,
) -> usize
    requires small { k ≤ MAX_VARS }
    requires few { array_vec_len kept.old ≤ 31 }
    requires order { are_in_order (leaves_of kept.old.items) ≡ true }
    requires least { least ≤ length (union left.now right.now) }
    requires most { most ≤ k }
    requires longer { NoneLonger most k (leaves_of kept.old.items) }
    ensures few { array_vec_len kept.new ≤ 31 }
    ensures kept { leaves_of kept.new.items ≡ take 31 (arranged (leaves_of kept.old.items) (unions_with k left.now (right.now ∷ []))) }
    ensures most { result ≤ k }
    ensures longer { NoneLonger result k (leaves_of kept.new.items) }
{
    if most < least {
        return most;
    }
    let Some(cut) = union(left, right, most) else {
        return most;
    };
    keep(kept, cut);
    most_leaves(kept.as_slice(), k)
}

// Keeps the unions of a cut with each of others, which have these signatures.
fn keep_unions(
    kept: &mut ArrayVec<Cut, CUTS_PER_NODE>,
    left: &[u32],
    others: &[Cut],
    words: &[u64],
    k: usize,
)
    requires small { k ≤ MAX_VARS }
    requires few { array_vec_len kept.old ≤ 31 }
    requires order { are_in_order (leaves_of kept.old.items) ≡ true }
    requires words { AreSignatures words.now (leaves_of others.now) }
    ensures few { array_vec_len kept.new ≤ 31 }
    ensures kept { leaves_of kept.new.items ≡ take 31 (arranged (leaves_of kept.old.items) (unions_with k left.now (leaves_of others.now))) }
{
    let mut most = most_leaves(kept.as_slice(), k);
    if most < left.len() {
        return;
    }
    let bits = signature(left);
    for (i, other) in others.iter().enumerate() {
        let least = least_leaves(bits, words, i);
        most = keep_union(kept, left, other.as_slice(), least, most, k);
    }
}

/// The first 31 unions of a cut of one list with a cut of another that have at most k leaves.
pub(crate) fn merge_cut_sets(left: &[Cut], right: &[Cut], k: usize) -> ArrayVec<Cut, CUTS_PER_NODE>
    requires { k ≤ MAX_VARS }
    ensures { leaves_of result.items ≡ merge_cut_sets k (leaves_of left.now) (leaves_of right.now) }
{
    let words = signatures_of(right);
    let mut kept = ArrayVec::new();
    for cut in left {
        keep_unions(&mut kept, cut.as_slice(), right, words.as_slice(), k);
    }
    kept
}
