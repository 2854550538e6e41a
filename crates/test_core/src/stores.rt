//! Keys and rows that are stored.

use crate::worked::{a, forbidden};
use arrayvec::ArrayVec;
use std::alloc::{AllocError, Global};
use std::rt::HostRuntime;
use syn_core::EventKind::*;
use syn_core::{Event, ReplayFault};
use syn_rows::{Lit, Row};

fn over(nodes: [u32; 3]) -> ArrayVec<u32, 8> {
    let mut over = ArrayVec::new();
    for node in nodes {
        let _ = over.try_push(node);
    }
    over
}

// Nodes 1 and 2 are pinned and their keys known; node 7 is held, known as free, and gets this key.
fn ready(alloc: Global, key: u64) -> Result<Vec<Event>, AllocError> {
    Ok(vec![in alloc;
        a(Claim(4)),
        a(LoadRow(4)),
        a(Pin(1)),
        a(Pin(2)),
        a(LoadKey(1)),
        a(LoadKey(2)),
        a(Claim(7)),
        a(LoadRow(7)),
        a(SetKey(7, key)),
    ]?)
}

#[test]
fn made_rows(rt: HostRuntime) -> Result<(), ReplayFault> {
    let alloc = rt.alloc();
    let row = Row::And(Lit(3), Lit(4));
    // what is left out, the key, the made node, its row, the first forbidden event
    let cases = [
        (9, 1, 7, row, None),
        (3, 1, 7, row, Some(4)),
        (5, 1, 7, row, Some(8)),
        (7, 1, 7, row, Some(7)),
        (8, 1, 7, row, Some(8)),
        (9, 0, 7, row, Some(9)),
        (9, 1, 4, row, Some(9)),
        (9, 1, 6, row, Some(9)),
        (9, 1, 7, Row::And(Lit(3), Lit(2)), Some(9)),
        (9, 1, 7, Row::And(Lit(3), Lit(6)), Some(9)),
        (9, 1, 7, Row::Alias(Lit(3)), Some(9)),
    ];
    for (left_out, key, node, row, want) in cases {
        let mut events = ready(alloc, key)?;
        if left_out < events.len() {
            let _ = events.remove(left_out);
        }
        events.push(a(Make(node, row)))?;
        assert_eq!(rt; forbidden(alloc, events.as_slice())?, want);
    }
    Ok(())
}

#[test]
fn freed_rows(rt: HostRuntime) -> Result<(), ReplayFault> {
    let alloc = rt.alloc();
    assert_eq!(rt;
        forbidden(alloc, &[a(Claim(6)), a(LoadRow(6)), a(Free(6))])?,
        Some(2)
    );
    assert_eq!(rt;
        forbidden(alloc, &[a(Claim(6)), a(LoadRow(6)), a(SetKey(6, 5))])?,
        Some(2)
    );
    for (pins, want) in [(510, None), (511, Some(521))] {
        let mut events = ready(alloc, 1)?;
        events.push(a(Make(7, Row::And(Lit(3), Lit(4)))))?;
        for _ in 0..pins {
            events.push(a(Pin(1)))?;
        }
        events.push(a(Free(7)))?;
        assert_eq!(rt; forbidden(alloc, events.as_slice())?, want);
    }
    let mut events = ready(alloc, 1)?;
    events.push(a(Make(7, Row::And(Lit(3), Lit(4)))))?;
    events.push(a(Release(7)))?;
    assert_eq!(rt; forbidden(alloc, events.as_slice())?, Some(10));
    Ok(())
}

#[test]
fn redefined_rows(rt: HostRuntime) -> Result<(), ReplayFault> {
    let alloc = rt.alloc();
    let turned = Row::And(Lit(11), Lit(9));
    // what is left out, the new row, the nodes that may have any value, the first forbidden event
    let cases = [
        (13, turned, [4, 5, 5], None),
        (13, turned, [1, 2, 3], None),
        (13, turned, [1, 2, 2], Some(13)),
        (13, turned, [4, 4, 4], Some(13)),
        (13, Row::And(Lit(9), Lit(9)), [4, 5, 6], Some(13)),
        (13, Row::Alias(Lit(12)), [4, 5, 6], Some(13)),
        (13, Row::Alias(Lit(9)), [1, 2, 3], Some(13)),
        (13, Row::Source, [4, 5, 6], Some(13)),
        (3, turned, [4, 5, 5], Some(4)),
        (5, turned, [4, 5, 5], Some(12)),
        (6, turned, [4, 5, 5], None),
        (1, turned, [4, 5, 5], Some(1)),
    ];
    for (left_out, row, named, want) in cases {
        let mut events = vec![in alloc;
            a(Claim(6)),
            a(LoadRow(6)),
            a(Pin(4)),
            a(Pin(5)),
            a(LoadKey(4)),
            a(LoadKey(5)),
            a(LoadKey(6)),
            a(Pin(6)),
            a(Pin(4)),
            a(Claim(4)),
            a(LoadRow(4)),
            a(Claim(5)),
            a(LoadRow(5)),
        ]?;
        if left_out < events.len() {
            let _ = events.remove(left_out);
        }
        events.push(a(Redefine(6, row, over(named))))?;
        assert_eq!(rt; forbidden(alloc, events.as_slice())?, want);
    }
    Ok(())
}

#[test]
fn redefined_with_many_pins(rt: HostRuntime) -> Result<(), ReplayFault> {
    let alloc = rt.alloc();
    for (pins, want) in [(510, None), (511, Some(523))] {
        let mut events = ready(alloc, 1)?;
        events.push(a(Pin(1)))?;
        events.push(a(Make(7, Row::And(Lit(2), Lit(2)))))?;
        for _ in 0..pins {
            events.push(a(Pin(1)))?;
        }
        events.push(a(LoadKey(1)))?;
        events.push(a(Redefine(7, Row::Alias(Lit(2)), over([1, 1, 1]))))?;
        assert_eq!(rt; forbidden(alloc, events.as_slice())?, want);
    }
    Ok(())
}
