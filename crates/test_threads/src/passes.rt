//! Passes of one and of several workers.

ghost use Rattle.std.specs.Prelude.{◌<◌};

use crate::harness::{
    AND3, Counting, NAND, OBSERVED, Told, cones, graph_of, passed, report, several,
};
use std::alloc::{AllocError, Global};
use std::test::Fail;
use std::thread::Threads;
use syn_graph::Graph;
use syn_workers::Workers;

// What a pass of rewriting with so many workers on a graph does.
fn told<R: Threads + Sync>(
    rt: &R,
    alloc: Global,
    graph: &Graph,
    workers: Workers,
    zero_gain: bool,
) -> Result<Told, AllocError> {
    let hook = Counting::new();
    match passed(rt, alloc, graph, &hook, workers, zero_gain)? {
        Some((next, report)) => Ok((report, next.count(), hook.told())),
        None => Ok((report(0, 0), graph.count(), hook.told())),
    }
}

// The same on the text's graph; nothing done and left where there is none.
fn told_of<R: Threads + Sync>(
    rt: &R,
    alloc: Global,
    text: &str,
    workers: Workers,
    zero_gain: bool,
) -> Result<Told, AllocError> {
    match graph_of(alloc, text.as_bytes()) {
        Some(graph) => told(rt, alloc, &graph, workers, zero_gain),
        None => Ok((report(0, 0), 0, 0)),
    }
}

// Whether one worker gains what each of so many cones saves.
fn gains_each<R: Threads + Sync>(rt: &R, alloc: Global, count: u32) -> Result<bool, AllocError>
    requires { count < 1000 }
{
    let text = cones(alloc, count)?;
    let (found, left, done) = told_of(rt, alloc, text.as_str(), Workers::new(1), false)?;
    let all = u64::from(count);
    Ok(found == report(all, all) && left == 2 * count && done == all)
}

// Whether a pass of so many workers leaves two ANDs of each cone, tells as many commits as the hook was told, and does one for half
// of the cones at least. Where commits meet, some fail, and the check takes their gains.
fn leaves_two<R: Threads + Sync>(
    rt: &R,
    alloc: Global,
    count: u32,
    workers: Workers,
) -> Result<bool, AllocError>
    requires { count < 1000 }
{
    let text = cones(alloc, count)?;
    let (report, left, done) = told_of(rt, alloc, text.as_str(), workers, false)?;
    let is_told = report.done == done && done >= u64::from(count / 2);
    Ok(left == 2 * count && is_told)
}

#[test]
fn workers_gain_what_each_cone_saves(rt: HostRuntime) -> Result<(), Fail> {
    for count in [1, 100] {
        assert!(rt; gains_each(&rt, rt.alloc(), count)?, "{count} by one");
        for workers in several() {
            assert!(rt; leaves_two(&rt, rt.alloc(), count, workers)?, "{count}");
        }
    }
    Ok(())
}

// The AND f of p and x, u and v, where x = pq + pr: over four leaves p shows twice only once x is made anew, and f is visited
// before. So f is left to the check, for which a commit is done too.
#[test]
fn leftovers_are_committed_for(rt: HostRuntime) -> Result<(), Fail> {
    let text =
        ".model m\n.inputs p q r u v\n.outputs f\n.names p q r x\n11- 1\n1-1 1\n.names x u g\n11 1\n.names g v w\n11 1\n.names p w f\n11 1\n.end\n";
    let found = told_of(&rt, rt.alloc(), text, Workers::new(1), false)?;
    assert_eq!(rt; found, (report(2, 2), 4, 2));
    Ok(())
}

// Whether commits of gain 0 alone are done for an AND of three.
fn is_changed<R: Threads + Sync>(rt: &R, alloc: Global, text: &str) -> Result<bool, AllocError> {
    let (report, left, done) = told_of(rt, alloc, text, Workers::new(1), true)?;
    Ok(left == 2 && report.done > 0 && report.gained == 0 && report.done == done)
}

// The plan of an AND of three has one of its forms: where gains of 0 go, an AND in another one is made again.
#[test]
fn other_forms_are_committed_with_gains_of_0(rt: HostRuntime) -> Result<(), Fail> {
    let [first, second, third] = AND3;
    let one = is_changed(&rt, rt.alloc(), first)?;
    let two = is_changed(&rt, rt.alloc(), second)?;
    let three = is_changed(&rt, rt.alloc(), third)?;
    assert!(rt; one && two || one && three || two && three);
    Ok(())
}

// Whether so many workers gain nothing on a closed graph of so many ANDs.
fn gains_nothing<R: Threads + Sync>(
    rt: &R,
    alloc: Global,
    text: &str,
    workers: Workers,
    ands: u32,
) -> Result<bool, AllocError> {
    Ok(told_of(rt, alloc, text, workers, false)? == (report(0, 0), ands, 0))
}

// Whether so many gain nothing on the NAND, also with gains of 0, and on the ANDs that are observed.
fn gain_nothing<R: Threads + Sync>(
    rt: &R,
    alloc: Global,
    workers: Workers,
) -> Result<bool, AllocError> {
    Ok(
        gains_nothing(rt, alloc, NAND, workers, 1)?
            && gains_nothing(rt, alloc, OBSERVED, workers, 3)?
            && told_of(rt, alloc, NAND, workers, true)? == (report(0, 0), 1, 0),
    )
}

#[test]
fn nothing_is_gained_on_closed_graphs(rt: HostRuntime) -> Result<(), Fail> {
    assert!(rt; gain_nothing(&rt, rt.alloc(), Workers::new(1))?);
    for workers in several() {
        assert!(rt; gain_nothing(&rt, rt.alloc(), workers)?);
    }
    Ok(())
}
