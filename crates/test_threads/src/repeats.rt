//! Many commits of one seat, which go back and forth between two forms of one AND: their time is a commit's time.

ghost use Rattle.std.specs.Prelude.{◌≡◌, ◌+◌, ◌<◌, ◌≤◌};
ghost use Rattle.syn_plan.specs.Gates.{index_of};
ghost use Rattle.syn_commit.specs.Giving.{HoldsAlone};
ghost use Rattle.syn_table.specs.Seating.{IsOf, known_of, nodes_of, view_of};
ghost use Rattle.syn_commit.specs.Giving.{IsAtRest};

use crate::tables::{ands_left, opened_as};
use arrayvec::ArrayVec;
use std::alloc::Global;
use syn_commit::{Hints, NoHook, Pool, Tools, try_commit};
use syn_decide::Outcome;
use syn_gain::Proposal;
use syn_plan::{PLit, Plan};
use syn_table::Seat;

// The AND f of the inputs at the nodes 1 to 4: node 5 is that of a and b, node 6 that of c too, and node 7 is f.
const FOUR: &str = ".model m\n.inputs a b c d\n.outputs f\n.names a b c d f\n1111 1\n.end\n";

// The nodes of the pool. They are few, so that it takes no time to see that the root is none of them.
const SPARE: u32 = 16;

// How often the seat goes there and back.
const ROUNDS: u32 = 2_500;

// The AND of four leaves by three gates, which take in the leaves in this order.
fn chained(first: PLit, second: PLit, third: PLit, fourth: PLit) -> Plan
    requires first { index_of first < 5 }
    requires second { index_of second < 5 }
    requires third { index_of third < 5 }
    requires fourth { index_of fourth < 5 }
    ensures { result.leaves ≡ 4 }
{
    let mut plan = Plan::new(4);
    let pair = plan.and(first, second);
    let triple = plan.and(pair, third);
    plan.out = plan.and(triple, fourth);
    plan
}

// The proposal to give node 7 this plan over the inputs.
fn over_inputs(plan: Plan) -> Proposal
    requires { plan.leaves ≡ 4 }
    ensures { result.root ≡ 7 }
{
    let mut leaves = ArrayVec::new();
    leaves.push(1);
    leaves.push(2);
    leaves.push(3);
    leaves.push(4);
    Proposal::over(7, leaves, plan)
}

// Commits, with no gain let through, unless the root is in the pool: 1 where the commit is done, else 0.
fn done_by(tools: &Tools<'_, NoHook>, seat: &mut Seat, pool: &mut Pool, proposal: &Proposal) -> u32
    requires table { IsOf seat.old tools.now.shared.now }
    requires alone { HoldsAlone pool.old (view_of seat.old) }
    requires root { proposal.now.root < nodes_of tools.now.shared.now }
    ensures table { IsOf seat.new tools.now.shared.now }
    ensures numbers { (known_of seat.new).numbers ≡ (known_of seat.old).numbers }
    ensures alone { HoldsAlone pool.new (view_of seat.new) }
{
    if pool.has(proposal.root) {
        return 0;
    }
    match try_commit(tools, seat, pool, proposal, true) {
        Outcome::Done(_) => 1,
        _ => 0,
    }
}

// Commits both proposals in turn, so many times: how many of these commits are done.
fn there_and_back(
    tools: &Tools<'_, NoHook>,
    seat: &mut Seat,
    pool: &mut Pool,
    there: &Proposal,
    back: &Proposal,
    rounds: u32,
) -> u32
    requires table { IsOf seat.old tools.now.shared.now }
    requires alone { HoldsAlone pool.old (view_of seat.old) }
    requires there { there.now.root < nodes_of tools.now.shared.now }
    requires back { back.now.root < nodes_of tools.now.shared.now }
    ensures table { IsOf seat.new tools.now.shared.now }
    ensures numbers { (known_of seat.new).numbers ≡ (known_of seat.old).numbers }
    ensures alone { HoldsAlone pool.new (view_of seat.new) }
{
    let mut done = 0u32;
    for _round in 0..rounds {
        done = done.saturating_add(done_by(tools, seat, pool, there));
        done = done.saturating_add(done_by(tools, seat, pool, back));
    }
    done
}

// Fills a pool from the first spare node on, commits so many times there and back, and lets the pool go: how many of the
// commits are done.
fn done_in(tools: &Tools<'_, NoHook>, seat: &mut Seat, first: u32, rounds: u32) -> u32
    requires table { IsOf seat.old tools.now.shared.now }
    requires resting { IsAtRest (view_of seat.old) }
    requires nodes { first + 16 ≤ nodes_of tools.now.shared.now }
    requires root { 7 < first }
    ensures table { IsOf seat.new tools.now.shared.now }
    ensures numbers { (known_of seat.new).numbers ≡ (known_of seat.old).numbers }
    ensures resting { IsAtRest (view_of seat.new) }
{
    let there = over_inputs(chained(PLit(8), PLit(6), PLit(4), PLit(2)));
    let back = over_inputs(chained(PLit(2), PLit(4), PLit(6), PLit(8)));
    let mut pool = Pool::new();
    pool.fill(tools.shared, seat, first, SPARE);
    let done = there_and_back(tools, seat, &mut pool, &there, &back, rounds);
    pool.empty(tools.shared, seat);
    done
}

// How many of the commits are done on a table of its own, and how many `And` rows are left.
fn repeated(alloc: Global, rounds: u32) -> Option<(u32, u32)> {
    let hints = Hints::new(alloc, 1024).ok()?;
    let (shared, mut seat, first) = opened_as(alloc, FOUR.as_bytes(), None)?;
    let tools = Tools {
        shared: &shared,
        hints: &hints,
        hook: &NoHook,
        worker: 0,
    };
    let done = if first == 8 {
        done_in(&tools, &mut seat, first, rounds)
    } else {
        0
    };
    let ands = ands_left(alloc, shared, seat)?;
    Some((done, ands))
}

#[test]
fn one_seat_commits_again_and_again(rt: HostRuntime) {
    assert_eq!(rt; repeated(rt.alloc(), ROUNDS), Some((2 * ROUNDS, 3)));
}
