//! Keys, hints, counts and the answer.

ghost use Rattle.std.specs.Prelude.{◌≡◌, ◌<◌, ◌≤◌, ◌==◌, ◌&&◌, nat_lt, true, if◌then◌else◌, max, ℕ, All, List, length};
ghost use Rattle.syn_rows.specs.declared.TheConstants.{NODE_LIMIT};
ghost use Rattle.syn_plan.specs.declared.TheConstants.{MAX_GATES};
ghost use Rattle.syn_decide.specs.declared.decisions.TheConstants.{MAX_INNER};
ghost use Rattle.syn_decide.specs.declared.decisions.NodeRow.{NodeRow};
ghost use Rattle.syn_decide.specs.Decided.{told_answer};
ghost use Rattle.syn_decide.specs.Tasks.{task_of};
ghost use Rattle.syn_decide.specs.Hints as hints;
ghost use Rattle.syn_decide.specs.Fold as fold;
ghost use Rattle.syn_decide.specs.Fold.{Stage};
ghost use Rattle.syn_decide.specs.Phases.{most_at, stage_of, state_at};

use crate::found::{Desk, Found};
use crate::mffc::freed_by;
use crate::place::{Placed, place, rows_needed};
use crate::worklist::Waiting;
use crate::{Attempt, MAX_INNER, NodeRow, Outcome, Phase, place};
use syn_core_laws::Seen;
use syn_plan::MAX_GATES;
use syn_rows::{NODE_LIMIT, Row};

fn greater(a: u64, b: u64) -> u64
    ensures { result ≡ max a b }
{
    if a < b { b } else { a }
}

// A key was loaded.
fn key_loaded(found: &mut Found, waiting: &mut Waiting, key: u64) -> Phase
    ensures state { (stage : Stage) (inner : List NodeRow) → state_at (stage_of result waiting.new) inner found.new ≡ fold.key_loaded (state_at stage inner found.old) key waiting.old }
    ensures few { length waiting.new ≤ length waiting.old }
    ensures room { most_at result ≡ MAX_INNER }
{
    let Some(next) = waiting.pop() else {
        found.high = key;
        return Phase::Hinting(None);
    };
    waiting.push(next);
    found.low = greater(found.low, key);
    Phase::Keying
}

/// One read of the keys.
pub(crate) fn read_keying(found: &mut Found, waiting: &mut Waiting, read: Seen) -> Phase
    ensures state { (stage : Stage) (inner : List NodeRow) → state_at (stage_of result waiting.new) inner found.new ≡ fold.read_keying (state_at stage inner found.old) waiting.old read }
    ensures few { length waiting.new ≤ length waiting.old }
    ensures room { most_at result ≡ MAX_INNER }
{
    let Some(next) = waiting.pop() else {
        return Phase::Failed;
    };
    match read {
        Seen::Key(node, key) if node == next => key_loaded(found, waiting, key),
        _ => Phase::Failed,
    }
}

// Whether a hint may hit this node.
fn may_hit(leaves: &[u32], high: u64, n: u32, key: u64) -> bool
    ensures { result ≡ hints.may_hit leaves.now high n key }
{
    n < NODE_LIMIT as u32 && n != 0 && !leaves.contains(&n) && key < high
}

// Whether a hint is asked for the pair of a row.
fn is_asked(attempt: &Attempt<'_>, hits: &[NodeRow], placed: &mut Placed, row: Row) -> bool
    requires { All (λ h. h.node < NODE_LIMIT) hits.now }
    ensures { result ≡ hints.is_asked (hints.placed_by_hits (task_of attempt.now) hits.now).extra row }
{
    place(attempt, hits, placed);
    place::is_asked(placed.extra.as_slice(), row)
}

// Whether the node is that of the row load, and there is room for a hit.
fn is_behind(hits: &[NodeRow], last: NodeRow, node: u32) -> bool
    ensures room { result ≡ true → length hits.now < MAX_GATES }
    ensures behind { result ≡ (node == last.node && nat_lt (length hits.now) hints.most_hits) }
{
    node == last.node && hits.len() < MAX_GATES
}

// Whether the key of a node may be read behind this row load.
fn is_hint(
    attempt: &Attempt<'_>,
    hits: &[NodeRow],
    placed: &mut Placed,
    last: NodeRow,
    node: u32,
) -> bool
    requires { All (λ h. h.node < NODE_LIMIT) hits.now }
    ensures room { result ≡ true → length hits.now < MAX_GATES }
    ensures hint { result ≡ ((node == last.node && nat_lt (length hits.now) hints.most_hits) && hints.is_asked (hints.placed_by_hits (task_of attempt.now) hits.now).extra last.row) }
{
    is_behind(hits, last, node) && is_asked(attempt, hits, placed, last.row)
}

// The node, whose row was asked for, is a hit where it may be one.
fn hinted(attempt: &Attempt<'_>, found: &mut Found, last: NodeRow, key: u64) -> Phase
    requires { length found.old.hits.items < MAX_GATES }
    ensures state { (stage : Stage) (waiting : List ℕ) (inner : List NodeRow)
        → state_at (stage_of result waiting) inner found.new
        ≡ fold.hinted (task_of attempt.now) (state_at stage inner found.old) last.node last.row key }
    ensures room { most_at result ≡ MAX_INNER }
{
    if may_hit(attempt.candidate.leaves, found.high, last.node, key) {
        found.hits.push(last);
        found.low = greater(found.low, key);
    }
    Phase::Hinting(None)
}

// A key among the hints.
fn hint_key(
    attempt: &Attempt<'_>,
    found: &mut Found,
    placed: &mut Placed,
    last: Option<NodeRow>,
    node: u32,
    key: u64,
) -> Phase
    ensures state { (stage : Stage) (waiting : List ℕ) (inner : List NodeRow)
        → state_at (stage_of result waiting) inner found.new
        ≡ fold.hint_key (task_of attempt.now) (state_at stage inner found.old) last node key }
    ensures room { most_at result ≡ MAX_INNER }
{
    let Some(last) = last else {
        return Phase::Failed;
    };
    if is_hint(attempt, found.hits.as_slice(), placed, last, node) {
        hinted(attempt, found, last, key)
    } else {
        Phase::Failed
    }
}

// The answer where the gain is enough: there is no gap, no room, or it is done.
fn by_gap(attempt: &Attempt<'_>, found: &Found, gain: u32, need: u32) -> Outcome
    ensures { (stage : Stage) (inner : List NodeRow) → told_answer result ≡ fold.by_gap (task_of attempt.now) (state_at stage inner found.now) gain need }
{
    let low = found.low;
    let high = found.high;
    if high <= low || high - low <= u64::from(need) {
        return Outcome::NoGap {
            node: attempt.candidate.root,
            low,
            need,
            high,
        };
    }
    if attempt.pool < need {
        return Outcome::NoRoom {
            need,
            have: attempt.pool,
        };
    }
    Outcome::Done(gain)
}

// The least gain that is enough.
fn least_gain(zero_gain: bool) -> u32
    ensures least { result ≡ (if zero_gain then 0 else 1) }
    ensures few { result ≤ 1 }
{
    if zero_gain { 0 } else { 1 }
}

// The answer after the last count.
#[inline(never)]
fn conclude(attempt: &Attempt<'_>, inner: &[NodeRow], found: &Found, desk: &mut Desk) -> Outcome
    requires within { length found.now.counts.items ≤ length inner.now }
    requires few { length inner.now ≤ MAX_INNER }
    ensures { (stage : Stage) → told_answer result ≡ fold.concluded (task_of attempt.now) (state_at stage inner.now found.now) }
{
    let hits = found.hits.as_slice();
    let freed = freed_by(inner, hits, found.counts.as_slice(), &mut desk.room);
    place(attempt, hits, &mut desk.placed);
    let added = desk.placed.extra.len() as u32;
    if freed < added + least_gain(attempt.zero_gain) {
        return Outcome::NoGain { freed, added };
    }
    let need = rows_needed(&desk.placed, attempt.candidate.plan.out);
    by_gap(attempt, found, freed - added, need)
}

// One count.
fn read_count(
    attempt: &Attempt<'_>,
    inner: &[NodeRow],
    found: &mut Found,
    desk: &mut Desk,
    node: u32,
    count: u32,
    own: u32,
) -> Phase
    requires { length inner.now ≤ MAX_INNER }
    ensures room { most_at result ≡ MAX_INNER }
    ensures state { (stage : Stage) (waiting : List ℕ)
        → state_at (stage_of result waiting) inner.now found.new
        ≡ fold.read_count (task_of attempt.now) (state_at stage inner.now found.old) (fold.uncounted (state_at stage inner.now found.old)) node count own }
{
    let at = found.counts.len();
    if at >= inner.len() {
        return Phase::Failed;
    }
    if node != inner[at].node {
        return Phase::Failed;
    }
    found.counts.push(count.saturating_sub(own));
    if at + 1 < inner.len() {
        return Phase::Counting;
    }
    Phase::Ended(conclude(attempt, inner, found, desk))
}

/// One read of the counts.
pub(crate) fn read_counting(
    attempt: &Attempt<'_>,
    inner: &[NodeRow],
    found: &mut Found,
    desk: &mut Desk,
    read: Seen,
) -> Phase
    requires { length inner.now ≤ MAX_INNER }
    ensures room { most_at result ≡ MAX_INNER }
    ensures state { (stage : Stage) (waiting : List ℕ)
        → state_at (stage_of result waiting) inner.now found.new
        ≡ fold.read_counting (task_of attempt.now) (state_at stage inner.now found.old) read }
{
    match read {
        Seen::Count { node, count, own } => {
            read_count(attempt, inner, found, desk, node, count, own)
        }
        _ => Phase::Failed,
    }
}

/// One read behind the root's key.
pub(crate) fn read_hinting(
    attempt: &Attempt<'_>,
    inner: &[NodeRow],
    found: &mut Found,
    desk: &mut Desk,
    last: Option<NodeRow>,
    read: Seen,
) -> Phase
    requires { length inner.now ≤ MAX_INNER }
    ensures room { most_at result ≡ MAX_INNER }
    ensures state { (stage : Stage) (waiting : List ℕ)
        → state_at (stage_of result waiting) inner.now found.new
        ≡ fold.read_hinting (task_of attempt.now) (state_at stage inner.now found.old) last read }
{
    match read {
        Seen::Row(node, row) => Phase::Hinting(Some(NodeRow { node, row })),
        Seen::Key(node, key) => hint_key(attempt, found, &mut desk.placed, last, node, key),
        Seen::Miss(_) => Phase::Hinting(None),
        Seen::Count { node, count, own } => {
            read_count(attempt, inner, found, desk, node, count, own)
        }
    }
}
