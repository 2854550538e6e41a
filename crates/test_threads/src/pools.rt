//! A pool tries nodes, and lets them go again.

ghost use Rattle.std.specs.Prelude.{◌≡◌, [], length};
ghost use Rattle.syn_core_laws.specs.Openings.{empty_view};
ghost use Rattle.syn_table.specs.Seating.{IsOf, known_of, nodes_of, view_of};
ghost use Rattle.syn_table.specs.Steps.{with_view};

use crate::tables::{CONE_ROWS, closes_with, opened};
use syn_commit::Pool;
use syn_table::{Seat, Shared};

// Whether the pool has each of the nodes, or none of them.
fn each_is(pool: &Pool, nodes: &[u32], there: bool) -> bool {
    for node in nodes {
        if pool.has(*node) != there {
            return false;
        }
    }
    true
}

// Tries nodes 0 to 9, of which the last three are spare, and then 600 more, of which 509 fit: whether the pool then has
// what was worked by hand. All nodes are let go.
fn fills(shared: &Shared, seat: &mut Seat) -> bool
    requires table { IsOf seat.old shared.now }
    requires nodes { nodes_of shared.now ≡ 1031 }
    requires start { view_of seat.old ≡ empty_view 0 }
    ensures table { IsOf seat.new shared.now }
    ensures known { known_of seat.new ≡ with_view (known_of seat.old) (view_of seat.new) }
    ensures held { (view_of seat.new).held ≡ [] }
    ensures pins { (view_of seat.new).pins ≡ [] }
{
    let mut pool = Pool::new();
    pool.fill(shared, seat, 0, 10);
    let first = each_is(&pool, &[7, 8, 9], true) & each_is(&pool, &[0, 3, 6, 10], false);
    pool.fill(shared, seat, 10, 600);
    let second = each_is(&pool, &[7, 10, 518], true) & each_is(&pool, &[0, 6, 519], false);
    pool.empty(shared, seat);
    first & second
}

#[test]
fn pools_fill_and_empty(rt: HostRuntime) {
    let alloc = rt.alloc();
    let Some((shared, mut seat)) = opened(alloc) else {
        panic!(rt; "no table");
    };
    assert!(rt; fills(&shared, &mut seat));
    assert!(rt; closes_with(alloc, shared, seat, &CONE_ROWS));
}
