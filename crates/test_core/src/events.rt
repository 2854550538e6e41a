//! Claims, loads and pins.

use crate::worked::{a, b, forbidden, start};
use std::rt::HostRuntime;
use syn_core::EventKind::*;
use syn_core::{Event, ReplayFault, Seen, StepFault, replay};
use syn_rows::{Lit, Row};

#[test]
fn steps_and_views(rt: HostRuntime) -> Result<(), StepFault> {
    let mut state = start(rt.alloc())?;
    state.step(&a(Claim(6)))?;
    state.step(&b(ClaimFailed(6)))?;
    assert_eq!(rt; state.claim(6), 1);
    assert_eq!(rt; state.step(&a(Pin(4))), Err(StepFault::NotAllowed));
    state.step(&a(LoadRow(6)))?;
    state.step(&a(Pin(4)))?;
    assert_eq!(rt; state.count(4), 2);
    state.step(&a(Unpin(4)))?;
    state.step(&a(Release(6)))?;
    assert_eq!(rt; (state.claim(6), state.count(4), state.key(6)), (0, 1, 2));
    assert_eq!(rt; state.row(6), Row::And(Lit(9), Lit(11)));
    assert_eq!(rt;
        state.reads(0),
        [Seen::Row(6, Row::And(Lit(9), Lit(11)))].as_slice()
    );
    assert_eq!(rt; state.reads(1), [Seen::Miss(6)].as_slice());
    assert_eq!(rt; state.misses(1), [6].as_slice());
    assert_eq!(rt; state.difference(0), 0);
    Ok(())
}

#[test]
fn words_come_back(rt: HostRuntime) -> Result<(), ReplayFault> {
    let opened = start(rt.alloc())?;
    let state = replay(&opened, &[a(Claim(6)), b(ClaimFailed(6)), a(Release(6))])?;
    for node in 0..8 {
        assert_eq!(rt; state.claim(node), 0);
        assert_eq!(rt; state.row(node), opened.row(node));
        assert_eq!(rt; state.count(node), opened.count(node));
        assert_eq!(rt; state.key(node), opened.key(node));
    }
    assert_eq!(rt; state.misses(1), [6].as_slice());
    assert_eq!(rt; state.reads(1), [Seen::Miss(6)].as_slice());
    Ok(())
}

#[test]
fn words_without_rows(rt: HostRuntime) -> Result<(), ReplayFault> {
    let alloc = rt.alloc();
    assert_eq!(rt;
        forbidden(alloc, &[a(Claim(6)), b(ClaimFailed(6)), a(Release(6))])?,
        None
    );
    assert_eq!(rt; forbidden(alloc, &[a(Claim(8))])?, Some(0));
    assert_eq!(rt;
        forbidden(
            alloc,
            &[Event {
                seat: 2,
                kind: Claim(6)
            }]
        )?,
        Some(0)
    );
    assert_eq!(rt; forbidden(alloc, &[a(Claim(6)), b(Claim(6))])?, Some(1));
    assert_eq!(rt; forbidden(alloc, &[a(ClaimFailed(6))])?, Some(0));
    assert_eq!(rt;
        forbidden(alloc, &[a(Claim(6)), a(ClaimFailed(6))])?,
        Some(1)
    );
    assert_eq!(rt; forbidden(alloc, &[a(Release(6))])?, Some(0));
    assert_eq!(rt; forbidden(alloc, &[a(LoadRow(6))])?, Some(0));
    assert_eq!(rt; forbidden(alloc, &[a(Unpin(4))])?, Some(0));
    assert_eq!(rt; forbidden(alloc, &[a(LoadCount(6))])?, Some(0));
    assert_eq!(rt; forbidden(alloc, &[a(LoadKey(6))])?, Some(0));
    Ok(())
}

#[test]
fn pins_and_loads(rt: HostRuntime) -> Result<(), ReplayFault> {
    let alloc = rt.alloc();
    assert_eq!(rt;
        forbidden(alloc, &[a(Claim(6)), a(LoadCount(6)), a(LoadKey(6))])?,
        None
    );
    assert_eq!(rt; forbidden(alloc, &[a(Claim(6)), a(Pin(4))])?, Some(1));
    assert_eq!(rt; forbidden(alloc, &[a(Claim(6)), a(Pin(6))])?, Some(1));
    assert_eq!(rt;
        forbidden(alloc, &[a(Claim(7)), a(LoadRow(7)), a(Pin(7))])?,
        Some(2)
    );
    let mut events = vec![in alloc;
        a(Claim(6)),
        a(LoadRow(6)),
        a(Pin(6)),
        a(Pin(0)),
        a(Pin(4)),
        a(Release(6)),
        a(LoadKey(4)),
    ]?;
    for _ in 3..512 {
        events.push(a(Pin(4)))?;
    }
    events.push(a(Pin(4)))?;
    assert_eq!(rt; forbidden(alloc, events.as_slice())?, Some(516));
    Ok(())
}
