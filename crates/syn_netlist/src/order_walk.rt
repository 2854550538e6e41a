//! The walk that puts the tables in order, or meets a circle.

ghost use Rattle.std.specs.Prelude.{◌≡◌, ◌++◌, ◌+◌, ◌<◌, ◌≤◌, ◌^◌, ◌↔◌, ℕ, List, [], ◌∷◌, IfOk, OnOk, IfNone, IfSome, length, map, true, false, take, slice_index_or, None, MatchOption};
ghost use Rattle.std.specs.List.{list_all, sum_by};
ghost use Rattle.syn_netlist.specs.Numbers.{all_below};
ghost use Rattle.syn_netlist.specs.Tables.{tables_below};
ghost use Rattle.syn_netlist.specs.Walk.{AreDrivers, GoOn, IsNext, IsOrder, IsOrderWalk, Meets, Walks, inputs_at, is_done, is_finished, is_open, driver_at, output_at, seen_at, stage_at, weight};

use crate::tables::Table;
use std::alloc::{AllocError, Global};

/// Where a table stands in the walk: not met yet, on the path, or done.
#[derive(Clone, Copy, Debug, PartialEq, Eq)]
pub(crate) enum Stage {
    Waiting,
    Open,
    Done,
}

/// What the walk ends with.
#[derive(Debug, Drop)]
pub(crate) enum Walked {
    /// The numbers of all tables, each after those that it reads.
    Order(Vec<u32>),
    /// Tables each of which reads the next; the last reads the table `back`, which is one of them.
    Circle { path: Vec<u32>, back: u32 },
}

fn is_open(stage: Stage) -> bool
    ensures { result ≡ is_open stage }
{
    stage == Stage::Open
}

fn is_done(stage: Stage) -> bool
    ensures { result ≡ is_done stage }
{
    stage == Stage::Done
}

// The table that makes each of so many names, where one does.
fn drivers(alloc: Global, count: u32, tables: &[Table]) -> Result<Vec<Option<u32>>, AllocError>
    requires below { tables_below count tables.now ≡ true }
    requires few { length tables.now < 2 ^ 32 }
    ensures length { IfOk result (λ v. length v.items ≡ count) }
    ensures drivers { IfOk result (λ v. AreDrivers tables.now v.items) }
{
    let mut drivers = vec![in alloc; None; count as usize]?;
    set_drivers(drivers.as_mut_slice(), tables);
    Ok(drivers)
}

fn set_drivers(drivers: &mut [Option<u32>], tables: &[Table])
    requires below { tables_below (length drivers.old) tables.now ≡ true }
    requires few { length tables.now < 2 ^ 32 }
    requires none { AreDrivers [] drivers.old }
    ensures { AreDrivers tables.now drivers.new }
{
    for (t, table) in tables.iter().enumerate() {
        drivers[table.output as usize] = Some(t as u32);
    }
}

// The inputs of a table.
fn inputs_of(tables: &[Table], t: u32) -> &[u32]
    requires { t < length tables.now }
    ensures { result.now ≡ inputs_at tables.now t }
{
    tables[t as usize].inputs.as_slice()
}

// The table that makes a name, where one does that isn't done.
fn undone_driver(drivers: &[Option<u32>], stages: &[Stage], name: u32) -> Option<u32>
    requires name { name < length drivers.now }
    requires driver { MatchOption (driver_at drivers.now name) (Unit {0}) (λ t. t < length stages.now) }
    ensures none { IfNone result (is_finished drivers.now stages.now name ≡ true) }
    ensures some { IfSome result (λ t. (driver_at drivers.now name ≡ Some t) × (is_done (stage_at stages.now t) ≡ false)) }
{
    match drivers[name as usize] {
        Some(driver) => {
            if is_done(stages[driver as usize]) {
                None
            } else {
                Some(driver)
            }
        }
        None => None,
    }
}

// The first input, from a place on, that isn't finished, with the table that makes it; those before the place are finished.
fn next_unfinished(
    drivers: &[Option<u32>],
    stages: &[Stage],
    inputs: &[u32],
    from: usize,
) -> Option<(usize, u32)>
    requires inputs { all_below (length drivers.now) inputs.now ≡ true }
    requires drivers { (name : ℕ) → name < length drivers.now → MatchOption (driver_at drivers.now name) (Unit {0}) (λ t. t < length stages.now) }
    requires before { list_all (is_finished drivers.now stages.now) (take from inputs.now) ≡ true }
    ensures none { IfNone result (list_all (is_finished drivers.now stages.now) inputs.now ≡ true) }
    ensures some { IfSome result (λ r. IsNext drivers.now stages.now inputs.now r.0 r.1) }
{
    for at in from..inputs.len() {
        if let Some(next) = undone_driver(drivers, stages, inputs[at]) {
            return Some((at, next));
        }
    }
    None
}

// One step of the walk from the last table of the path, which the path is given without. A table of the path that is met again is answered.
fn step(
    tables: &[Table],
    drivers: &[Option<u32>],
    top: u32,
    stages: &mut [Stage],
    seen: &mut [usize],
    path: &mut Vec<u32>,
    order: &mut Vec<u32>,
) -> Result<Option<u32>, AllocError>
    requires below { tables_below (length drivers.now) tables.now ≡ true }
    requires drivers { AreDrivers tables.now drivers.now }
    requires walk { IsOrderWalk tables.now drivers.now stages.old seen.old (path.old.items ++ top ∷ []) order.old.items }
    ensures walk { IfOk result (λ r. IfNone r (IsOrderWalk tables.now drivers.now stages.new seen.new path.new.items order.new.items)) }
    ensures meets { IfOk result (λ r. IfSome r (Meets tables.now drivers.now stages.new seen.new path.new.items order.new.items)) }
    ensures goes_on { IfOk result (λ r. IfNone r (GoOn stages.old stages.new)) }
    ensures less { IfOk result (λ r. IfNone r (sum_by weight stages.new < sum_by weight stages.old)) }
{
    let inputs = inputs_of(tables, top);
    let t = top as usize;
    match next_unfinished(drivers, stages, inputs, seen[t]) {
        None => {
            stages[t] = Stage::Done;
            order.push(top)?;
            Ok(None)
        }
        Some((at, next)) => {
            seen[t] = at;
            path.push(top)?;
            if is_open(stages[next as usize]) {
                return Ok(Some(next));
            }
            stages[next as usize] = Stage::Open;
            path.push(next)?;
            Ok(None)
        }
    }
}

// Walks on until the path is empty, or a table of it is met again.
fn walk_on(
    tables: &[Table],
    drivers: &[Option<u32>],
    stages: &mut [Stage],
    seen: &mut [usize],
    path: &mut Vec<u32>,
    order: &mut Vec<u32>,
) -> Result<Option<u32>, AllocError>
    requires below { tables_below (length drivers.now) tables.now ≡ true }
    requires drivers { AreDrivers tables.now drivers.now }
    requires walk { IsOrderWalk tables.now drivers.now stages.old seen.old path.old.items order.old.items }
    ensures walk { IfOk result (λ r. IfNone r (IsOrderWalk tables.now drivers.now stages.new seen.new [] order.new.items)) }
    ensures empty { IfOk result (λ r. IfNone r (path.new.items ≡ [])) }
    ensures meets { IfOk result (λ r. IfSome r (Meets tables.now drivers.now stages.new seen.new path.new.items order.new.items)) }
    ensures goes_on { IfOk result (λ r. IfNone r (GoOn stages.old stages.new)) }
{
    while let Some(top) = path.pop() {
        if let Some(back) = step(tables, drivers, top, stages, seen, path, order)? {
            return Ok(Some(back));
        }
    }
    Ok(None)
}

// Walks from a table, all before which are done, until it is done too.
fn visit(
    tables: &[Table],
    drivers: &[Option<u32>],
    root: u32,
    stages: &mut [Stage],
    seen: &mut [usize],
    path: &mut Vec<u32>,
    order: &mut Vec<u32>,
) -> Result<Option<u32>, AllocError>
    requires below { tables_below (length drivers.now) tables.now ≡ true }
    requires drivers { AreDrivers tables.now drivers.now }
    requires root { root < length tables.now }
    requires empty { path.old.items ≡ [] }
    requires walk { IsOrderWalk tables.now drivers.now stages.old seen.old [] order.old.items }
    requires before { (k : ℕ) → k < root → is_done (stage_at stages.old k) ≡ true }
    ensures walk { IfOk result (λ r. IfNone r (IsOrderWalk tables.now drivers.now stages.new seen.new [] order.new.items)) }
    ensures empty { IfOk result (λ r. IfNone r (path.new.items ≡ [])) }
    ensures meets { IfOk result (λ r. IfSome r (Meets tables.now drivers.now stages.new seen.new path.new.items order.new.items)) }
    ensures done { IfOk result (λ r. IfNone r ((k : ℕ) → k < root + 1 → is_done (stage_at stages.new k) ≡ true)) }
{
    if is_done(stages[root as usize]) {
        return Ok(None);
    }
    stages[root as usize] = Stage::Open;
    path.push(root)?;
    walk_on(tables, drivers, stages, seen, path, order)
}

// Visits each table in turn.
fn visit_all(
    tables: &[Table],
    drivers: &[Option<u32>],
    stages: &mut [Stage],
    seen: &mut [usize],
    path: &mut Vec<u32>,
    order: &mut Vec<u32>,
) -> Result<Option<u32>, AllocError>
    requires below { tables_below (length drivers.now) tables.now ≡ true }
    requires drivers { AreDrivers tables.now drivers.now }
    requires few { length tables.now < 2 ^ 32 }
    requires empty { path.old.items ≡ [] }
    requires walk { IsOrderWalk tables.now drivers.now stages.old seen.old [] order.old.items }
    ensures order { IfOk result (λ r. IfNone r (IsOrder tables.now drivers.now order.new.items)) }
    ensures meets { IfOk result (λ r. IfSome r (Meets tables.now drivers.now stages.new seen.new path.new.items order.new.items)) }
{
    for root in 0..tables.len() as u32 {
        if let Some(back) = visit(tables, drivers, root, stages, seen, path, order)? {
            return Ok(Some(back));
        }
    }
    Ok(None)
}

/// Walks through the tables in order, each after the tables of its inputs in order, of which each is walked once.
pub(crate) fn walk(alloc: Global, count: u32, tables: &[Table]) -> Result<Walked, AllocError>
    requires below { tables_below count tables.now ≡ true }
    requires few { length tables.now < 2 ^ 32 }
    ensures { IfOk result (Walks tables.now count) }
{
    let drivers = drivers(alloc, count, tables)?;
    let mut stages = vec![in alloc; Stage::Waiting; tables.len()]?;
    let mut seen: Vec<usize> = vec![in alloc; 0; tables.len()]?;
    let mut path = Vec::new(alloc);
    let mut order = Vec::new(alloc);
    let met = visit_all(
        tables,
        drivers.as_slice(),
        stages.as_mut_slice(),
        seen.as_mut_slice(),
        &mut path,
        &mut order,
    )?;
    match met {
        None => Ok(Walked::Order(order)),
        Some(back) => Ok(Walked::Circle { path, back }),
    }
}
