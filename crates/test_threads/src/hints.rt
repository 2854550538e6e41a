//! What was noted is suggested.

ghost use Rattle.std.specs.Prelude.{◌<◌};

use std::test::Fail;
use syn_commit::Hints;
use syn_rows::Lit;

// How many of the pairs (3, 5), (3, 6), .. are suggested at their nodes 100, 101, ..
fn suggested(hints: &Hints, count: u32) -> u32
    requires { count < 1000 }
{
    let mut found = 0u32;
    for i in 0..count {
        if hints.suggest((Lit(3), Lit(5 + i))) == 100 + i {
            found = found.saturating_add(1);
        }
    }
    found
}

// Notes these pairs.
fn note(hints: &Hints, count: u32)
    requires { count < 1000 }
{
    for i in 0..count {
        hints.note((Lit(3), Lit(5 + i)), 100 + i);
    }
}

// Whether the node is suggested for a pair.
fn is_suggested(hints: &Hints, first: u32, second: u32, node: u32) -> bool {
    hints.suggest((Lit(first), Lit(second))) == node
}

#[test]
fn noted_pairs_are_suggested(rt: HostRuntime) -> Result<(), Fail> {
    let hints = Hints::new(rt.alloc(), 1024)?;
    assert!(rt; is_suggested(&hints, 3, 5, 0));
    note(&hints, 100);
    assert!(rt; suggested(&hints, 100) == 100);
    hints.note((Lit(3), Lit(5)), 7);
    assert!(rt; is_suggested(&hints, 3, 5, 7) && is_suggested(&hints, 5, 3, 0));
    Ok(())
}

#[test]
fn later_notes_take_the_place_of_others(rt: HostRuntime) -> Result<(), Fail> {
    let hints = Hints::new(rt.alloc(), 1)?;
    note(&hints, 8);
    assert!(rt; suggested(&hints, 8) == 8);
    hints.note((Lit(8), Lit(9)), 7);
    assert!(rt; is_suggested(&hints, 8, 9, 7) && suggested(&hints, 8) == 7);
    Ok(())
}
