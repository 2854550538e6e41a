//! LUTs as hashed rows: each LUT becomes the gates of factoring its function, over the literals of the signals that it reads.
#![tactic(auto)]

ghost use Rattle.std.specs.Prelude.{◌≡◌, ℕ, ◌+◌, ◌<◌, ◌≤◌, Bool, false, true, length, map, IfOk, OnOk};
ghost use Rattle.std.specs.List.{list_all};
ghost use Rattle.syn_rows.specs.declared.TheConstants.{NODE_LIMIT};
ghost use Rattle.syn_rows.specs.Rows.{node_of};
ghost use Rattle.syn_hashed.specs.Hashed.{lit_at};
ghost use Rattle.syn_hashed.specs.Growing.{Extends, value_by};
ghost use Rattle.syn_lutnet.specs.LutData.{fold_luts, lut_gates, lut_value, net_gates, ones_of, ones_value};
ghost use Rattle.syn_lutnet.specs.declared.luts.TheConstants.{MAX_INPUTS};
ghost use Rattle.syn_lutnet.specs.Data.{lut_data, luts_data};
ghost use Rattle.syn_lut_rows.specs.LutLiterals.{AllThere, plain_literals, ReadEarlier, reads_below};

use arrayvec::ArrayVec;
use std::alloc::{AllocError, Global};
use syn_hashed::HashedRows;
use syn_lutnet::{Lut, MAX_INPUTS};
use syn_placing::place_plan;
use syn_rows::Lit;

// The literals of the signals that a LUT reads.
fn input_literals(signals: &[Lit], inputs: &[u32]) -> ArrayVec<Lit, MAX_INPUTS>
    requires few { length inputs.now ≤ MAX_INPUTS }
    requires below { list_all (reads_below (length signals.now)) inputs.now ≡ true }
    ensures { result.items ≡ map (lit_at signals.now) inputs.now }
{
    let mut literals = ArrayVec::new();
    for input in inputs {
        literals.push(signals[*input as usize]);
    }
    literals
}

/// The literal of a LUT, from those of the signals before it: the gates of factoring its function, in order. The only error of
/// this call and of those below is want of memory.
pub fn lut_literal(hashed: &mut HashedRows, signals: &[Lit], lut: &Lut) -> Result<Lit, AllocError>
    requires inputs { list_all (reads_below (length signals.now)) lut.now.inputs.items ≡ true }
    requires there { AllThere hashed.old.rows.items signals.now }
    requires room { length hashed.old.rows.items + lut_gates (lut_data lut.now) < NODE_LIMIT }
    ensures sources { hashed.new.source_count ≡ hashed.old.source_count }
    ensures grows { Extends hashed.old.rows.items hashed.new.rows.items }
    ensures few { length hashed.new.rows.items ≤ length hashed.old.rows.items + lut_gates (lut_data lut.now) }
    ensures there { IfOk result (λ l. node_of l < length hashed.new.rows.items) }
    ensures value { IfOk result (λ l. (given : ℕ → Bool) → given 0 ≡ false → value_by given hashed.new.rows.items l ≡ ones_value (ones_of lut.now.truth) (map (value_by given hashed.old.rows.items) (map (lit_at signals.now) lut.now.inputs.items))) }
{
    let plan = syn_plan::factor(lut.truth);
    let leaves = input_literals(signals, lut.inputs.as_slice());
    place_plan(hashed, leaves.as_slice(), &plan)
}

/// Gives each LUT its literal, behind those of the constant and of the sources.
pub fn name_luts(
    hashed: &mut HashedRows,
    luts: &[Lut],
    signals: &mut Vec<Lit>,
) -> Result<(), AllocError>
    requires inputs { ReadEarlier (length signals.old.items) (luts_data luts.now) }
    requires there { AllThere hashed.old.rows.items signals.old.items }
    requires room { length hashed.old.rows.items + net_gates (luts_data luts.now) < NODE_LIMIT }
    ensures sources { hashed.new.source_count ≡ hashed.old.source_count }
    ensures few { length hashed.new.rows.items ≤ length hashed.old.rows.items + net_gates (luts_data luts.now) }
    ensures len { OnOk result (length signals.new.items ≡ length signals.old.items + length luts.now) }
    ensures there { OnOk result (AllThere hashed.new.rows.items signals.new.items) }
    ensures values { OnOk result ((given : ℕ → Bool) → given 0 ≡ false → map (value_by given hashed.new.rows.items) signals.new.items ≡ fold_luts lut_value false (map (value_by given hashed.old.rows.items) signals.old.items) (luts_data luts.now)) }
    ensures begins { OnOk result ((i : ℕ) → i < length signals.old.items → lit_at signals.new.items i ≡ lit_at signals.old.items i) }
{
    for lut in luts {
        let literal = lut_literal(hashed, signals.as_slice(), lut)?;
        signals.push(literal)?;
    }
    Ok(())
}

/// The literals of the constant and of so many sources.
pub fn source_literals(alloc: Global, count: u32) -> Result<Vec<Lit>, AllocError>
    requires { count + 1 < NODE_LIMIT }
    ensures { IfOk result (λ v. v.items ≡ plain_literals (count + 1)) }
{
    let mut literals = Vec::new(alloc);
    for node in 0..count + 1 {
        literals.push(Lit::of(node, false))?;
    }
    Ok(literals)
}
