//! What a commit decides after worked lists of reads.

ghost use Rattle.std.specs.Prelude.{◌≡◌};

use arrayvec::ArrayVec;
use syn_core_laws::Seen;
use syn_decide::{Attempt, Deciding, Decision, Outcome, Reads, StaleCause, Want, decide};
use syn_gain::Proposal;
use syn_plan::{PLit, Plan};
use syn_rows::{Lit, Row};
use syn_truth::Truth;

// On a = 1, b = 2, c = 3, 4 = And(2, 4), 5 = And(2, 6), 6 = And(9, 11), observed 13.

// The AND of the first leaf with "the second or the third", or its complement.
fn gates(complemented: bool) -> Plan
    ensures { result.leaves ≡ 3 }
{
    let mut plan = Plan::new(3);
    let neither = plan.and(PLit(5), PLit(7));
    let both = plan.and(PLit(2), neither.not());
    plan.out = if complemented { both.not() } else { both };
    plan
}

// The proposal to replace node 6 by it.
fn proposal(complemented: bool) -> Proposal
    ensures { result.root ≡ 6 }
{
    let mut leaves = ArrayVec::new();
    leaves.push(1);
    leaves.push(2);
    leaves.push(3);
    Proposal::over(6, leaves, gates(complemented))
}

// The parts, one behind the other, with a pool of so many nodes; reads past 1,024 are left out.
fn reads(pool: u32, parts: &[&[Seen]]) -> Reads {
    let mut seen = ArrayVec::new();
    for part in parts {
        for read in *part {
            let _ = seen.try_push(*read);
        }
    }
    Reads { pool, seen }
}

const WALK: [Seen; 3] = [
    Seen::Row(6, Row::And(Lit(9), Lit(11))),
    Seen::Row(4, Row::And(Lit(2), Lit(4))),
    Seen::Row(5, Row::And(Lit(2), Lit(6))),
];

const LEAF_KEYS: [Seen; 3] = [Seen::Key(1, 0), Seen::Key(2, 0), Seen::Key(3, 0)];

// The key of the second level.
const LEVEL: u64 = 1 << 32;

// A count without pins of the seat's own.
fn count(node: u32, count: u32) -> Seen {
    Seen::Count {
        node,
        count,
        own: 0,
    }
}

// What is decided where 6 has this key and 4 so many references, with these hints.
fn whole(pool: u32, zero_gain: bool, key: u64, hints: &[Seen], references: u32) -> Decision {
    let high = [Seen::Key(6, key)];
    let counts = [count(6, 1), count(4, references), count(5, 1)];
    let seen = reads(pool, &[&WALK, &LEAF_KEYS, &high, hints, &counts]);
    decide(&seen, &proposal(true), zero_gain)
}

fn no_gap(low: u64, high: u64) -> Decision {
    Decision::Answer(Outcome::NoGap {
        node: 6,
        low,
        need: 2,
        high,
    })
}

#[test]
fn answers_behind_the_last_count(rt: HostRuntime) {
    let hit = [Seen::Row(7, Row::And(Lit(5), Lit(7))), Seen::Key(7, LEVEL)];
    let other_pair = [Seen::Row(7, Row::And(Lit(4), Lit(7)))];
    let too_high = [
        Seen::Row(7, Row::And(Lit(5), Lit(7))),
        Seen::Key(7, 2 * LEVEL),
    ];
    let done = |gain| Decision::Answer(Outcome::Done(gain));
    let no_room = Decision::Answer(Outcome::NoRoom { need: 2, have: 0 });
    let no_gain = Decision::Answer(Outcome::NoGain { freed: 2, added: 2 });
    let cases: [(&str, u32, bool, u64, &[Seen], u32, Decision); 9] = [
        ("two rows for three", 512, false, 2 * LEVEL, &[], 1, done(1)),
        ("an empty pool", 0, false, 2 * LEVEL, &[], 1, no_room),
        ("two keys below 2", 512, false, 2, &[], 1, no_gap(0, 2)),
        ("two keys below 3", 512, false, 3, &[], 1, done(1)),
        ("a hit", 512, false, 2 * LEVEL, &hit, 1, done(2)),
        (
            "a hint of another pair",
            512,
            false,
            2 * LEVEL,
            &other_pair,
            1,
            done(1),
        ),
        (
            "a hint that is too high",
            512,
            false,
            2 * LEVEL,
            &too_high,
            1,
            done(1),
        ),
        (
            "a pin of another seat",
            512,
            false,
            2 * LEVEL,
            &[],
            2,
            no_gain,
        ),
        ("a gain of 0", 512, true, 2 * LEVEL, &[], 2, done(0)),
    ];
    for (what, pool, zero_gain, key, hints, references, wanted) in cases {
        let found = whole(pool, zero_gain, key, hints, references);
        assert_eq!(rt; found, wanted, "{what}");
    }
}

#[test]
fn answers_early_or_loads(rt: HostRuntime) {
    let busy = [Seen::Miss(4)];
    let free = [Seen::Row(4, Row::Free)];
    let cases: [(&str, &[Seen], &[Seen], Decision); 7] = [
        ("nothing", &[], &[], Decision::Next(Want::Row(6))),
        (
            "the root's row",
            &WALK[..1],
            &[],
            Decision::Next(Want::Row(4)),
        ),
        ("the walk", &WALK, &[], Decision::Next(Want::Key(1))),
        (
            "the leaves' keys",
            &WALK,
            &LEAF_KEYS,
            Decision::Next(Want::Key(6)),
        ),
        (
            "a row held by another",
            &WALK[..1],
            &busy,
            Decision::Answer(Outcome::Busy(4)),
        ),
        (
            "a free row",
            &WALK[..1],
            &free,
            Decision::Answer(Outcome::Stale(StaleCause::Reach(4))),
        ),
        ("a row of another node", &WALK[1..], &[], Decision::Unfit),
    ];
    for (what, first, second, wanted) in cases {
        let found = decide(&reads(512, &[first, second]), &proposal(true), false);
        assert_eq!(rt; found, wanted, "{what}");
    }
    let was = Truth {
        vars: 3,
        low: 0xa8,
        high: 0,
    };
    let now = Truth {
        vars: 3,
        low: 0x57,
        high: 0,
    };
    let plain = decide(&reads(512, &[&WALK]), &proposal(false), false);
    assert_eq!(rt;
        plain,
        Decision::Answer(Outcome::Stale(StaleCause::Differs { was, now }))
    );
}

#[test]
fn begins_anew_in_the_same_room(rt: HostRuntime) {
    let proposal = proposal(true);
    let attempt = Attempt::of(&proposal, false, 512);
    let mut deciding = Deciding::begin(&attempt);
    for read in WALK {
        deciding.read(&attempt, read);
    }
    assert_eq!(rt; deciding.wants(), Decision::Next(Want::Key(1)));
    deciding.restart(&attempt);
    assert_eq!(rt; deciding.wants(), Decision::Next(Want::Row(6)));
}
