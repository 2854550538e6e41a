//! Attempts to replace a literal of rows that grow.

ghost use Rattle.std.specs.Prelude.{◌≡◌, ◌==◌, ◌%◌, ◌-◌, ◌<◌, ◌+◌, length, if◌then◌else◌, IfOk, IfSome, IsSomeAnd, OnOk};
ghost use Rattle.syn_rows.specs.declared.Row.{Row};
ghost use Rattle.syn_rows.specs.declared.TheConstants.{NODE_LIMIT};
ghost use Rattle.syn_rows.specs.Rows.{node_of};
ghost use Rattle.syn_hashed.specs.Growing.{Extends, IsAnd};
ghost use Rattle.syn_fraig.specs.Sweeping.{AreTrueBy};
ghost use Rattle.syn_sresub.specs.Replacing.{IsAndOf, Replaces};

use crate::guesses::Guess;
use crate::questions::is_and;
use crate::tools::Tools;
use std::alloc::AllocError;
use syn_fraig::{load_nearest, refresh};
use syn_hashed::HashedRows;
use syn_rows::{Lit, NODE_LIMIT, Row};
use syn_sat::{Answer, Solver};

/// At most so many nodes are looked at for a question, the nearest first.
const NEAREST: usize = 1000;

/// The AND of two literals, where they are there and there is room for a row more. The only error is want of memory.
pub(crate) fn and(hashed: &mut HashedRows, a: Lit, b: Lit) -> Result<Option<Lit>, AllocError>
    ensures sources { hashed.new.source_count ≡ hashed.old.source_count }
    ensures grows { Extends hashed.old.rows.items hashed.new.rows.items }
    ensures few { length hashed.old.rows.items < NODE_LIMIT → length hashed.new.rows.items < NODE_LIMIT }
    ensures there { IfOk result (λ o. IfSome o (λ l. node_of l < length hashed.new.rows.items)) }
    ensures value { IfOk result (λ o. IfSome o (λ l. IsAnd hashed.old.rows.items a b hashed.new.rows.items l)) }
{
    let count = hashed.rows.len();
    if count + 1 < NODE_LIMIT && (a.node() as usize) < count && (b.node() as usize) < count {
        let lit = hashed.and(a, b)?;
        Ok(Some(lit))
    } else {
        Ok(None)
    }
}

// Asks whether a literal is the AND of two others.
fn ask(
    rows: &[Row],
    solver: &mut Solver,
    tools: &mut Tools,
    m: Lit,
    x: Lit,
    y: Lit,
) -> Result<Answer, AllocError>
    requires few { length rows.now < NODE_LIMIT }
    requires clauses { AreTrueBy rows.now solver.old.clauses }
    ensures same { IfOk result (λ a. a ≡ Answer.Refuted → IsAndOf rows.now m x y) }
    ensures clauses { OnOk result (AreTrueBy rows.now solver.new.clauses) }
{
    refresh(rows, solver)?;
    tools.queue.push(m.node())?;
    tools.queue.push(x.node())?;
    tools.queue.push(y.node())?;
    load_nearest(rows, &mut tools.queue, solver, NEAREST)?;
    is_and(solver, m, x, y, tools.conflicts)
}

// The AND of two literals in place of one where the answer says that they have its value.
fn replace_if(
    answer: Answer,
    hashed: &mut HashedRows,
    m: Lit,
    x: Lit,
    y: Lit,
) -> Result<Option<Lit>, AllocError>
    requires { answer ≡ Answer.Refuted → IsAndOf hashed.old.rows.items m x y }
    ensures sources { hashed.new.source_count ≡ hashed.old.source_count }
    ensures grows { Extends hashed.old.rows.items hashed.new.rows.items }
    ensures few { length hashed.old.rows.items < NODE_LIMIT → length hashed.new.rows.items < NODE_LIMIT }
    ensures replaces { IfOk result (λ o. IfSome o (Replaces hashed.old.rows.items m hashed.new.rows.items)) }
{
    match answer {
        Answer::Refuted => and(hashed, x, y),
        Answer::Model | Answer::Undecided => Ok(None),
    }
}

// The AND of two literals where that is shown to have the value of one.
fn attempt(
    hashed: &mut HashedRows,
    solver: &mut Solver,
    tools: &mut Tools,
    m: Lit,
    x: Lit,
    y: Lit,
) -> Result<Option<Lit>, AllocError>
    requires few { length hashed.old.rows.items < NODE_LIMIT }
    requires clauses { AreTrueBy hashed.old.rows.items solver.old.clauses }
    ensures sources { hashed.new.source_count ≡ hashed.old.source_count }
    ensures grows { Extends hashed.old.rows.items hashed.new.rows.items }
    ensures few { length hashed.new.rows.items < NODE_LIMIT }
    ensures replaces { IfOk result (λ o. IfSome o (Replaces hashed.old.rows.items m hashed.new.rows.items)) }
    ensures clauses { OnOk result (AreTrueBy hashed.new.rows.items solver.new.clauses) }
{
    let rows = hashed.rows.as_slice();
    let answer = ask(rows, solver, tools, m, x, y)?;
    if answer != Answer::Refuted {
        tools.failed(rows, solver, answer == Answer::Model);
    }
    replace_if(answer, hashed, m, x, y)
}

// A literal or its complement.
fn turned(lit: Lit, is_turned: bool) -> Lit {
    if is_turned { lit.not() } else { lit }
}

// The complement of a literal that was found.
fn complement(found: Option<Lit>) -> Option<Lit>
    ensures { IfSome result (λ n. IsSomeAnd found (λ l. n.0 ≡ (if l.0 % 2 == 0 then l.0 + 1 else l.0 - 1))) }
{
    match found {
        Some(lit) => Some(lit.not()),
        None => None,
    }
}

// What a guess says, where it is shown: the literal that takes the place of another.
fn attempt_guess(
    hashed: &mut HashedRows,
    solver: &mut Solver,
    tools: &mut Tools,
    m: Lit,
    guess: Guess,
) -> Result<Option<Lit>, AllocError>
    requires there { node_of m < length hashed.old.rows.items }
    requires few { length hashed.old.rows.items < NODE_LIMIT }
    requires clauses { AreTrueBy hashed.old.rows.items solver.old.clauses }
    ensures sources { hashed.new.source_count ≡ hashed.old.source_count }
    ensures grows { Extends hashed.old.rows.items hashed.new.rows.items }
    ensures few { length hashed.new.rows.items < NODE_LIMIT }
    ensures replaces { IfOk result (λ o. IfSome o (Replaces hashed.old.rows.items m hashed.new.rows.items)) }
    ensures clauses { OnOk result (AreTrueBy hashed.new.rows.items solver.new.clauses) }
{
    let Some(inner) = and(hashed, guess.inner.0, guess.inner.1)? else {
        return Ok(None);
    };
    let second = turned(inner, guess.opposite);
    if guess.turned {
        let found = attempt(hashed, solver, tools, m.not(), guess.first, second)?;
        Ok(complement(found))
    } else {
        attempt(hashed, solver, tools, m, guess.first, second)
    }
}

// The first guess that is shown, of those that were found.
fn attempt_all(
    hashed: &mut HashedRows,
    solver: &mut Solver,
    tools: &mut Tools,
    m: Lit,
) -> Result<Option<Lit>, AllocError>
    requires there { node_of m < length hashed.old.rows.items }
    requires few { length hashed.old.rows.items < NODE_LIMIT }
    requires clauses { AreTrueBy hashed.old.rows.items solver.old.clauses }
    ensures sources { hashed.new.source_count ≡ hashed.old.source_count }
    ensures grows { Extends hashed.old.rows.items hashed.new.rows.items }
    ensures few { length hashed.new.rows.items < NODE_LIMIT }
    ensures replaces { IfOk result (λ o. IfSome o (Replaces hashed.old.rows.items m hashed.new.rows.items)) }
    ensures clauses { OnOk result (AreTrueBy hashed.new.rows.items solver.new.clauses) }
{
    let mut place = 0;
    for _ in 0..64 {
        let Some((guess, next)) = tools.next_guess(m, place) else {
            break;
        };
        place = next;
        let found = attempt_guess(hashed, solver, tools, m, guess)?;
        if found.is_some() {
            return Ok(found);
        }
    }
    Ok(None)
}

/// A literal that takes the place of another of its value: one with the same words, else an AND of others, else that literal
/// itself. The only error is want of memory.
pub(crate) fn improve(
    hashed: &mut HashedRows,
    solver: &mut Solver,
    tools: &mut Tools,
    m: Lit,
) -> Result<Lit, AllocError>
    requires there { node_of m < length hashed.old.rows.items }
    requires few { length hashed.old.rows.items < NODE_LIMIT }
    requires clauses { AreTrueBy hashed.old.rows.items solver.old.clauses }
    ensures sources { hashed.new.source_count ≡ hashed.old.source_count }
    ensures grows { Extends hashed.old.rows.items hashed.new.rows.items }
    ensures few { length hashed.new.rows.items < NODE_LIMIT }
    ensures replaces { IfOk result (Replaces hashed.old.rows.items m hashed.new.rows.items) }
    ensures clauses { OnOk result (AreTrueBy hashed.new.rows.items solver.new.clauses) }
{
    for round in 0..2 {
        tools.find(hashed.rows.as_slice(), m, round)?;
        let found = attempt_all(hashed, solver, tools, m)?;
        if let Some(lit) = found {
            return Ok(lit);
        }
    }
    Ok(m)
}
