//! The events of one commit, from the claims of its walk to the last node that it lets go.
//!
//! The proposal is to replace node 6 over the leaves 1, 2 and 3: the first gate is the AND of the complements of the second
//! and third leaf, the second one that of the first leaf and the complement of the first gate, and the output is the
//! complement of the second gate. The first seat commits.

use crate::starts::{LEVEL, NEITHER, Start, opened};
use crate::told::{Act, Acts, rests, same_words, told};
use std::alloc::Global;
use std::rt::HostRuntime;
use syn_core::{ReplayFault, Seen, State, replay};
use syn_rows::{Lit, Row};

// A third of the way from key 0 to that of node 6: the step between the keys of two rows that are made.
const THIRD: u64 = 2863311530;

// Halfway between the keys of nodes 7 and 6.
const HALFWAY: u64 = 6442450944;

// The walk.
const WALK: (Act, &[u32]) = (Act::Take, &[6, 4, 5]);

// The leaves' keys.
const LEAVES: (Act, &[u32]) = (Act::PinAndKey, &[1, 2, 3]);

// The counts.
const COUNTS: (Act, &[u32]) = (Act::Count, &[6, 4, 5]);

// The leaves' pins are taken back.
const UNPIN: (Act, &[u32]) = (Act::Unpin, &[3, 2, 1]);

// The nodes of the walk are let go.
const LET_GO: (Act, &[u32]) = (Act::Release, &[5, 4, 6]);

// A commit that has loaded everything and gives up.
const LOADED: Acts<'static> = &[WALK, LEAVES, (Act::Key, &[6]), COUNTS, UNPIN, LET_GO];

// The root is another seat's.
const MISS_6: Acts<'static> = &[(Act::Miss, &[6])];

// The second row below it is.
const MISS_5: Acts<'static> = &[
    (Act::Take, &[6, 4]),
    (Act::Miss, &[5]),
    (Act::Release, &[4, 6]),
];

// Without the third leaf, node 3 is an inner row.
const REACH_SOURCE: Acts<'static> = &[WALK, (Act::Take, &[3]), (Act::Release, &[3]), LET_GO];

// With node 4 as the root, the third leaf isn't met.
const REACH_LEAF: Acts<'static> = &[(Act::Take, &[4]), (Act::Release, &[4])];

// A spare node as the root.
const REACH_FREE: Acts<'static> = &[(Act::Take, &[10]), (Act::Release, &[10])];

// With the second gate itself as the output, the function is another one.
const DIFFERS: Acts<'static> = &[WALK, LET_GO];

// What the second seat does: nothing.
const NOTHING: Acts<'static> = &[];

// It claims the root.
const CLAIM_6: Acts<'static> = &[(Act::Claim, &[6])];

// It claims a row below the root.
const CLAIM_5: Acts<'static> = &[(Act::Claim, &[5])];

// It has a pin of node 4, and nothing more.
const PIN_OF_4: Acts<'static> = &[(Act::Take, &[6]), (Act::Pin, &[4]), (Act::Release, &[6])];

// The opening, once the first seat has its pool and the second one has acted.
fn begun(
    alloc: Global,
    start: Start,
    pool: &[u32],
    others: Acts<'_>,
) -> Result<State, ReplayFault> {
    let state = opened(alloc, start)?;
    let state = replay(&state, told(alloc, 0, &[(Act::Take, pool)])?.as_slice())?;
    replay(&state, told(alloc, 1, others)?.as_slice())
}

#[test]
fn commits_that_give_up(rt: HostRuntime) -> Result<(), ReplayFault> {
    let alloc = rt.alloc();
    // the answer, the state, the pool, what the second seat does before, the commit
    let cases: [(&str, Start, &[u32], Acts<'_>, Acts<'_>); 10] = [
        ("Busy(6)", Start::Cone, &[7, 8, 9], CLAIM_6, MISS_6),
        ("Busy(5)", Start::Cone, &[7, 8, 9], CLAIM_5, MISS_5),
        (
            "Reach(3), a source",
            Start::Cone,
            &[7, 8, 9],
            NOTHING,
            REACH_SOURCE,
        ),
        (
            "Reach(3), not met",
            Start::Cone,
            &[7, 8, 9],
            NOTHING,
            REACH_LEAF,
        ),
        (
            "Reach(10), free",
            Start::Cone,
            &[7, 8, 9],
            NOTHING,
            REACH_FREE,
        ),
        ("Differs", Start::Cone, &[7, 8, 9], NOTHING, DIFFERS),
        ("NoGain", Start::Cone, &[7, 8, 9], PIN_OF_4, LOADED),
        ("NoGap", Start::Tight, &[7, 8, 9], NOTHING, LOADED),
        ("NoRoom, one node", Start::Cone, &[7], NOTHING, LOADED),
        ("NoRoom, none", Start::Cone, &[], NOTHING, LOADED),
    ];
    for (answer, start, pool, others, commit) in cases {
        let before = begun(alloc, start, pool, others)?;
        let Ok(mut after) = replay(&before, told(alloc, 0, commit)?.as_slice()) else {
            panic!(rt; "{answer}");
        };
        assert_eq!(rt; after.difference(0), 0, "{answer}");
        assert!(rt; same_words(&before, &after), "{answer}");
        assert!(rt; rests(&mut after, 0, pool), "{answer}");
    }
    Ok(())
}

// The nodes of the chain from the last one down, but the 49th.
fn downward(alloc: Global) -> Result<Vec<u32>, ReplayFault> {
    let mut nodes = Vec::new(alloc);
    for place in 0u32..48 {
        nodes.push(52 - place)?;
    }
    Ok(nodes)
}

#[test]
fn commits_at_the_49th_inner_row(rt: HostRuntime) -> Result<(), ReplayFault> {
    let alloc = rt.alloc();
    let before = begun(alloc, Start::Chain, &[53, 54], NOTHING)?;
    let nodes = downward(alloc)?;
    let taken = replay(
        &before,
        told(alloc, 0, &[(Act::Take, nodes.as_slice())])?.as_slice(),
    )?;
    assert_eq!(rt; (taken.claim(5), taken.claim(4)), (1, 0));
    let events = told(alloc, 0, &[(Act::Release, nodes.as_slice())])?;
    let mut after = replay(&taken, events.as_slice())?;
    assert_eq!(rt; after.difference(0), 0);
    assert!(rt; same_words(&before, &after));
    assert!(rt; rests(&mut after, 0, &[53, 54]));
    Ok(())
}

// The loads of a commit, and the stores by which both gates become rows, in nodes 9 and 8.
const BOTH_MADE: Acts<'static> = &[
    WALK,
    LEAVES,
    (Act::Key, &[6]),
    COUNTS,
    (Act::Make(THIRD, NEITHER), &[9]),
    (Act::Make(2 * THIRD, Row::And(Lit(2), Lit(19))), &[8]),
    (Act::Redefine(Row::Alias(Lit(17))), &[6]),
    (Act::Unpin, &[5, 4, 3, 2, 1]),
    (Act::Free, &[4]),
    (Act::Unpin, &[2, 1]),
    (Act::Free, &[5]),
    (Act::Unpin, &[3, 1]),
    (Act::Release, &[8, 9, 6]),
];

// The same where node 7 is a hit for the first gate.
const HIT: Acts<'static> = &[
    WALK,
    LEAVES,
    (Act::Key, &[6]),
    (Act::Take, &[7]),
    (Act::Key, &[7]),
    (Act::Pin, &[7]),
    COUNTS,
    (Act::Make(HALFWAY, Row::And(Lit(2), Lit(15))), &[10]),
    (Act::Redefine(Row::Alias(Lit(21))), &[6]),
    (Act::Unpin, &[5, 4, 7, 3, 2, 1]),
    (Act::Free, &[4]),
    (Act::Unpin, &[2, 1]),
    (Act::Free, &[5]),
    (Act::Unpin, &[3, 1]),
    (Act::Release, &[10, 7, 6]),
];

// The same where the plan has one more gate before both, the AND of the first two leaves, that nothing uses: node 4 is a hit
// for it, isn't counted as dying, and is freed all the same.
const LATE: Acts<'static> = &[
    WALK,
    LEAVES,
    (Act::Key, &[6]),
    (Act::Row, &[4]),
    (Act::Key, &[4]),
    (Act::Pin, &[4]),
    (Act::Take, &[7]),
    (Act::Key, &[7]),
    (Act::Pin, &[7]),
    COUNTS,
    (Act::Make(HALFWAY, Row::And(Lit(2), Lit(15))), &[10]),
    (Act::Redefine(Row::Alias(Lit(21))), &[6]),
    (Act::Unpin, &[5, 4, 7, 4, 3, 2, 1]),
    (Act::Free, &[4]),
    (Act::Unpin, &[2, 1]),
    (Act::Free, &[5]),
    (Act::Unpin, &[3, 1]),
    (Act::Release, &[10, 7, 6]),
];

// The rows from node 4 on behind the commit without hits.
const TWO_LEFT: [Row; 6] = [
    Row::Free,
    Row::Free,
    Row::Alias(Lit(17)),
    Row::Free,
    Row::And(Lit(2), Lit(19)),
    NEITHER,
];

// The rows from node 4 on behind those with a hit.
const HIT_LEFT: [Row; 7] = [
    Row::Free,
    Row::Free,
    Row::Alias(Lit(21)),
    NEITHER,
    Row::Free,
    Row::Free,
    Row::And(Lit(2), Lit(15)),
];

// Whether the nodes below 4 are sources, and those from 4 on have these rows, and up to 63 free ones behind them.
fn has_rows(state: &State, rows: &[Row]) -> bool {
    for node in 0u32..64 {
        let wanted = if node < 4 {
            Row::Source
        } else {
            rows.get(node as usize - 4).copied().unwrap_or(Row::Free)
        };
        if state.row(node) != wanted {
            return false;
        }
    }
    true
}

#[test]
fn commits_that_store(rt: HostRuntime) -> Result<(), ReplayFault> {
    let alloc = rt.alloc();
    // the answer, the pool, the commit, the difference, the rows from node 4 on, the pool behind it
    let cases: [(&str, Start, &[u32], Acts<'_>, i64, &[Row], &[u32]); 3] = [
        (
            "Done(1)",
            Start::Cone,
            &[7, 8, 9],
            BOTH_MADE,
            -1,
            &TWO_LEFT,
            &[7, 4, 5],
        ),
        (
            "Done(2), by a hit",
            Start::WithNeither,
            &[8, 9, 10],
            HIT,
            -2,
            &HIT_LEFT,
            &[8, 9, 4, 5],
        ),
        (
            "Done(1), and a late row",
            Start::WithNeither,
            &[8, 9, 10],
            LATE,
            -2,
            &HIT_LEFT,
            &[8, 9, 4, 5],
        ),
    ];
    for (answer, start, pool, commit, difference, rows, pool_after) in cases {
        let before = begun(alloc, start, pool, NOTHING)?;
        let Ok(mut after) = replay(&before, told(alloc, 0, commit)?.as_slice()) else {
            panic!(rt; "{answer}");
        };
        assert_eq!(rt; after.difference(0), difference, "{answer}");
        assert!(rt; has_rows(&after, rows), "{answer}");
        assert!(rt; rests(&mut after, 0, pool_after), "{answer}");
    }
    Ok(())
}

// What the commit meets that has loaded everything, where the second seat has a pin of node 4.
const PINNED_MEETS: [Seen; 10] = [
    Seen::Row(6, Row::And(Lit(9), Lit(11))),
    Seen::Row(4, Row::And(Lit(2), Lit(4))),
    Seen::Row(5, Row::And(Lit(2), Lit(6))),
    Seen::Key(1, 0),
    Seen::Key(2, 0),
    Seen::Key(3, 0),
    Seen::Key(6, 2 * LEVEL),
    Seen::Count {
        node: 6,
        count: 1,
        own: 0,
    },
    Seen::Count {
        node: 4,
        count: 2,
        own: 0,
    },
    Seen::Count {
        node: 5,
        count: 1,
        own: 0,
    },
];

// What the commit with a late row meets, and its pool before.
const LATE_MEETS: [Seen; 17] = [
    Seen::Row(8, Row::Free),
    Seen::Row(9, Row::Free),
    Seen::Row(10, Row::Free),
    Seen::Row(6, Row::And(Lit(9), Lit(11))),
    Seen::Row(4, Row::And(Lit(2), Lit(4))),
    Seen::Row(5, Row::And(Lit(2), Lit(6))),
    Seen::Key(1, 0),
    Seen::Key(2, 0),
    Seen::Key(3, 0),
    Seen::Key(6, 2 * LEVEL),
    Seen::Row(4, Row::And(Lit(2), Lit(4))),
    Seen::Key(4, LEVEL),
    Seen::Row(7, NEITHER),
    Seen::Key(7, LEVEL),
    Seen::Count {
        node: 6,
        count: 1,
        own: 0,
    },
    Seen::Count {
        node: 4,
        count: 2,
        own: 1,
    },
    Seen::Count {
        node: 5,
        count: 1,
        own: 0,
    },
];

#[test]
fn what_commits_meet(rt: HostRuntime) -> Result<(), ReplayFault> {
    let alloc = rt.alloc();
    let pinned = begun(alloc, Start::Cone, &[], PIN_OF_4)?;
    let state = replay(&pinned, told(alloc, 0, LOADED)?.as_slice())?;
    assert_eq!(rt; state.reads(0), PINNED_MEETS.as_slice());
    let opened = begun(alloc, Start::WithNeither, &[8, 9, 10], NOTHING)?;
    let state = replay(&opened, told(alloc, 0, LATE)?.as_slice())?;
    assert_eq!(rt; state.reads(0), LATE_MEETS.as_slice());
    Ok(())
}

// The commit once more, behind that of another seat: both rows that it made are hits, and nothing is gained.
const AGAIN: Acts<'static> = &[
    (Act::Take, &[6, 8, 9]),
    LEAVES,
    (Act::Key, &[6]),
    (Act::Row, &[9]),
    (Act::Key, &[9]),
    (Act::Pin, &[9]),
    (Act::Row, &[8]),
    (Act::Key, &[8]),
    (Act::Pin, &[8]),
    (Act::Count, &[6, 8, 9]),
    (Act::Unpin, &[8, 9, 3, 2, 1]),
    (Act::Release, &[9, 8, 6]),
];

#[test]
fn two_seats_at_one_root(rt: HostRuntime) -> Result<(), ReplayFault> {
    let alloc = rt.alloc();
    let mut state = opened(alloc, Start::Cone)?;
    // the seat, and what it does
    let turns: [(u8, Acts<'_>); 5] = [
        (0, &[(Act::Take, &[10]), (Act::Claim, &[6])]),
        (1, &[(Act::Take, &[7, 8, 9]), (Act::Miss, &[6])]),
        (0, &[(Act::Release, &[6])]),
        (1, BOTH_MADE),
        (0, AGAIN),
    ];
    for (seat, acts) in turns {
        state = replay(&state, told(alloc, seat, acts)?.as_slice())?;
    }
    assert_eq!(rt; state.misses(1), [6].as_slice());
    assert_eq!(rt; (state.difference(0), state.difference(1)), (0, -1));
    assert!(rt; has_rows(&state, &TWO_LEFT));
    assert!(rt; rests(&mut state, 0, &[10]));
    assert!(rt; rests(&mut state, 1, &[7, 4, 5]));
    Ok(())
}
