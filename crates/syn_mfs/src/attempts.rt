//! Attempts to replace the LUT of a signal.

ghost use Rattle.std.specs.Prelude.{◌≡◌, ◌+◌, ◌<◌, ◌^◌, length, OnOk};
ghost use Rattle.syn_rows.specs.declared.TheConstants.{NODE_LIMIT};
ghost use Rattle.syn_lutnet.specs.Data.{luts_data};
ghost use Rattle.syn_lutnet.specs.LutData.{lut_at};
ghost use Rattle.syn_mfs.specs.Replacing.{IsLater, IsPass};

use crate::checks::is_fit;
use crate::questions::ask_lut;
use crate::tools::Tools;
use std::alloc::AllocError;
use syn_hashed::HashedRows;
use syn_lutnet::Lut;
use syn_rows::Lit;
use syn_sat::Answer;

/// The most guesses that are asked about for a LUT.
const ATTEMPTS: u32 = 16;

// The number of inputs of the LUT at a place.
fn input_count(luts: &[Lut], place: usize) -> usize
    requires { place < length luts.now }
    ensures { result ≡ length (lut_at (luts_data luts.now) place).inputs }
{
    luts[place].inputs.len()
}

// Replaces the LUT at a place by one guess, where that has its value: whether there was a guess. The only error of this call and
// of those below is want of memory.
fn attempt(
    lits: &[Lit],
    first: u32,
    hashed: &mut HashedRows,
    luts: &mut Vec<Lut>,
    tools: &mut Tools,
    place: usize,
) -> Result<bool, AllocError>
    requires few { length hashed.old.rows.items < NODE_LIMIT }
    requires signals { first + length luts.old.items < 2 ^ 31 }
    requires place { place < length luts.old.items }
    requires pass { IsPass first (luts_data luts.old.items) hashed.old.rows.items lits.now tools.old.solver.clauses }
    ensures sources { hashed.new.source_count ≡ hashed.old.source_count }
    ensures few { length hashed.new.rows.items < NODE_LIMIT }
    ensures count { length luts.new.items ≡ length luts.old.items }
    ensures later { OnOk result (IsLater first lits.now (luts_data luts.old.items) hashed.old.rows.items (luts_data luts.new.items) hashed.new.rows.items tools.new.solver.clauses) }
{
    let signal = first + place as u32;
    let most = input_count(luts.as_slice(), place);
    let Some(lut) = tools.guesses.guess(luts.as_slice(), signal)? else {
        return Ok(false);
    };
    if !is_fit(signal, most, &lut) {
        return Ok(true);
    }
    match ask_lut(hashed, lits, tools, &lut, signal)? {
        Answer::Refuted => {
            luts[place] = lut;
            tools.guesses.take(luts.as_slice(), signal)?;
        }
        Answer::Model => tools.note(luts.as_slice())?,
        Answer::Undecided => {}
    }
    Ok(true)
}

// Replaces the LUT at a place by guesses as long as there are some.
fn improve(
    lits: &[Lit],
    first: u32,
    hashed: &mut HashedRows,
    luts: &mut Vec<Lut>,
    tools: &mut Tools,
    place: usize,
) -> Result<(), AllocError>
    requires few { length hashed.old.rows.items < NODE_LIMIT }
    requires signals { first + length luts.old.items < 2 ^ 31 }
    requires place { place < length luts.old.items }
    requires pass { IsPass first (luts_data luts.old.items) hashed.old.rows.items lits.now tools.old.solver.clauses }
    ensures sources { hashed.new.source_count ≡ hashed.old.source_count }
    ensures few { length hashed.new.rows.items < NODE_LIMIT }
    ensures count { length luts.new.items ≡ length luts.old.items }
    ensures later { OnOk result (IsLater first lits.now (luts_data luts.old.items) hashed.old.rows.items (luts_data luts.new.items) hashed.new.rows.items tools.new.solver.clauses) }
{
    for _ in 0..ATTEMPTS {
        let more = attempt(lits, first, hashed, luts, tools, place)?;
        if !more {
            break;
        }
    }
    Ok(())
}

/// Replaces LUTs by guesses, the first LUT first.
pub(crate) fn improve_all(
    lits: &[Lit],
    first: u32,
    hashed: &mut HashedRows,
    luts: &mut Vec<Lut>,
    tools: &mut Tools,
) -> Result<(), AllocError>
    requires few { length hashed.old.rows.items < NODE_LIMIT }
    requires signals { first + length luts.old.items < 2 ^ 31 }
    requires pass { IsPass first (luts_data luts.old.items) hashed.old.rows.items lits.now tools.old.solver.clauses }
    ensures sources { hashed.new.source_count ≡ hashed.old.source_count }
    ensures count { length luts.new.items ≡ length luts.old.items }
    ensures later { OnOk result (IsLater first lits.now (luts_data luts.old.items) hashed.old.rows.items (luts_data luts.new.items) hashed.new.rows.items tools.new.solver.clauses) }
{
    for place in 0..luts.len() {
        improve(lits, first, hashed, luts, tools, place)?;
    }
    Ok(())
}
