//! Worked commits of one seat.

ghost use Rattle.std.specs.Prelude.{◌≡◌, ◌<◌, ◌≤◌};

use crate::fresh::answered;
use crate::harness::CONE;
use arrayvec::ArrayVec;
use std::alloc::{AllocError, Global};
use std::test::Fail;
use syn_decide::{Outcome, StaleCause};
use syn_gain::Proposal;
use syn_plan::{PLit, Plan};
use syn_truth::Truth;

// The cone, and an output that is the AND of the complements of b and c: node 7.
const WITH_NEITHER: &str =
    ".model m\n.inputs a b c\n.outputs f g\n.names a b c f\n11- 1\n1-1 1\n.names b c g\n00 1\n.end\n";

// The AND of the first leaf with "the second or the third", or its complement.
fn gates(complemented: bool) -> Plan
    ensures { result.leaves ≡ 3 }
{
    let mut plan = Plan::new(3);
    let neither = plan.and(PLit(5), PLit(7));
    let both = plan.and(PLit(2), neither.not());
    plan.out = if complemented { both.not() } else { both };
    plan
}

/// The proposal to make the cone a(b + c), or its complement.
pub fn factored(complemented: bool) -> Proposal
    ensures { result.root ≡ 6 }
{
    let mut leaves = ArrayVec::new();
    leaves.push(1);
    leaves.push(2);
    leaves.push(3);
    Proposal::over(6, leaves, gates(complemented))
}

// The proposal to make the cone the AND of a and b.
fn without_c() -> Proposal {
    let mut leaves = ArrayVec::new();
    leaves.push(1);
    leaves.push(2);
    let mut plan = Plan::new(2);
    plan.out = plan.and(PLit(2), PLit(4));
    Proposal::over(6, leaves, plan)
}

// The text of seven inputs and a chain of ANDs: node 8 is that of the first two inputs, and each later node, up to node
// 56, that of an input and the complement of the node before.
fn chain(alloc: Global) -> Result<String, AllocError> {
    let head = ".model m\n.inputs x1 x2 x3 x4 x5 x6 x7\n.outputs n56\n.names x1 x2 n8\n11 1\n";
    let mut text = String::from_str(alloc, head)?;
    for node in 9u32..57 {
        let before = node - 1;
        let input = node % 7 + 1;
        write!(text, ".names x{input} n{before} n{node}\n10 1\n")?;
    }
    text.push_str(".end\n")?;
    Ok(text)
}

// The proposal to give this node of the chain another row over the seven inputs.
fn over_inputs(root: u32) -> Proposal
    requires { 7 < root }
    ensures { result.root ≡ root }
{
    let mut leaves = ArrayVec::new();
    leaves.push(1);
    leaves.push(2);
    leaves.push(3);
    leaves.push(4);
    leaves.push(5);
    leaves.push(6);
    leaves.push(7);
    let mut plan = Plan::new(7);
    plan.out = plan.and(PLit(2), PLit(4));
    Proposal::over(root, leaves, plan)
}

// Whether one seat is answered so, with a pool of so many nodes, and so many `And` rows are left.
fn is_answered(
    alloc: Global,
    text: &str,
    proposal: &Proposal,
    spare: u32,
    wanted: Outcome,
    ands: u32,
) -> bool
    requires spare { spare ≤ 1024 }
{
    answered(alloc, text.as_bytes(), None, proposal, spare, None) == Some((wanted, ands))
}

#[test]
fn the_cone_is_factored_where_there_is_room(rt: HostRuntime) {
    let proposal = factored(true);
    let full = Outcome::NoRoom { need: 2, have: 0 };
    assert!(rt;
        is_answered(rt.alloc(), CONE, &proposal, 512, Outcome::Done(1), 2),
        "two for three"
    );
    assert!(rt;
        is_answered(rt.alloc(), CONE, &proposal, 0, full, 3),
        "an empty pool"
    );
}

// The answer on the cone where its root has this key, the other ANDs the key 1.
fn answered_below(alloc: Global, key: u64) -> Option<(Outcome, u32)> {
    let keys = [0, 0, 0, 0, 1, 1, key];
    answered(
        alloc,
        CONE.as_bytes(),
        Some(&keys),
        &factored(true),
        512,
        None,
    )
}

#[test]
fn two_rows_want_two_keys_below_the_root(rt: HostRuntime) {
    let none = Outcome::NoGap {
        node: 6,
        low: 0,
        need: 2,
        high: 2,
    };
    assert!(rt; answered_below(rt.alloc(), 2) == Some((none, 3)));
    assert!(rt; answered_below(rt.alloc(), 3) == Some((Outcome::Done(1), 2)));
}

#[test]
fn a_noted_row_is_hit(rt: HostRuntime) {
    let text = WITH_NEITHER.as_bytes();
    let found = answered(rt.alloc(), text, None, &factored(true), 512, Some(7));
    assert!(rt; found == Some((Outcome::Done(2), 2)));
}

#[test]
fn another_function_is_stale(rt: HostRuntime) {
    let was = Truth {
        vars: 3,
        low: 0xa8,
        high: 0,
    };
    let now = Truth {
        vars: 3,
        low: 0x57,
        high: 0,
    };
    let stale = Outcome::Stale(StaleCause::Differs { was, now });
    assert!(rt; is_answered(rt.alloc(), CONE, &factored(false), 512, stale, 3));
}

#[test]
fn a_cone_over_fewer_leaves_is_stale(rt: HostRuntime) {
    let stale = Outcome::Stale(StaleCause::Reach(3));
    assert!(rt; is_answered(rt.alloc(), CONE, &without_c(), 512, stale, 3));
}

// Whether the cone of a node of the chain has a row too many, and then whether that of the one before hasn't.
fn is_too_wide(alloc: Global, text: &str) -> bool {
    let wide = Outcome::Stale(StaleCause::Wide(8));
    let found = answered(alloc, text.as_bytes(), None, &over_inputs(55), 512, None);
    is_answered(alloc, text, &over_inputs(56), 512, wide, 49)
        && matches!(found, Some((answer, _)) if answer != wide)
}

#[test]
fn the_49th_inner_row_is_too_many(rt: HostRuntime) -> Result<(), Fail> {
    let text = chain(rt.alloc())?;
    assert!(rt; is_too_wide(rt.alloc(), text.as_str()));
    Ok(())
}
