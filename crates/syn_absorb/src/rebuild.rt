//! LUT nets that are made anew, LUT by LUT, of those that are wanted: each reads only what it depends on, and what is constant
//! or another signal goes to its readers.

ghost use Rattle.std.specs.Prelude.{◌≡◌, ℕ, ◌+◌, ◌<◌, ◌≤◌, ◌^◌, true, false, All, IfOk, OnOk, length, map, slice_index_or};
ghost use Rattle.syn_rows.specs.Rows.{node_of};
ghost use Rattle.syn_rows.specs.Values.{value_in};
ghost use Rattle.syn_hashed.specs.Hashed.{lit_at};
ghost use Rattle.syn_lutnet.specs.LutData.{IsClosed, is_lut, lut_at};
ghost use Rattle.syn_lutnet.specs.Data.{lut_data, luts_data};
ghost use Rattle.syn_absorb.specs.Needed.{ReadsNeeded};
ghost use Rattle.syn_absorb.specs.Reaching.{IsOpenNet, IsSwept};
ghost use Rattle.syn_absorb.specs.Rebuilding.{IsCopy, IsNext, IsPlaced, IsRebuilt, IsRebuiltNet, IsResolved, IsThrough, is_complement, read_lit, signed_lit};

use crate::narrow::reduced;
use crate::tables::flip_variables;
use arrayvec::ArrayVec;
use std::alloc::{AllocError, Global};
use syn_lutnet::{Lut, MAX_INPUTS};
use syn_rows::Lit;

/// The LUTs and the observed literals of a net.
#[derive(Drop)]
pub(crate) struct Parts {
    pub(crate) luts: Vec<Lut>,
    pub(crate) lits: Vec<Lit>,
}

// The literal that a signal became, the constant past their end.
#[inline]
fn literal_at(lits: &[Lit], signal: u32) -> Lit
    ensures { result ≡ lit_at lits.now signal }
{
    if (signal as usize) < lits.len() {
        lits[signal as usize]
    } else {
        Lit(0)
    }
}

// The signals of the literals that some signals became.
fn nodes_of(lits: &[Lit], signals: &[u32]) -> ArrayVec<u32, MAX_INPUTS>
    requires { length signals.now ≤ 8 }
    ensures { result.items ≡ map (λ m. node_of (lit_at lits.now m)) signals.now }
{
    let mut nodes = ArrayVec::new();
    for signal in signals {
        nodes.push(literal_at(lits, *signal).node());
    }
    nodes
}

// Whether a literal is complemented.
#[inline]
fn sign_of(lit: Lit) -> bool
    ensures { result ≡ is_complement lit }
{
    lit.0 % 2 == 1
}

// Which of these literals are complemented.
fn signs_of(lits: &[Lit], signals: &[u32]) -> ArrayVec<bool, MAX_INPUTS>
    requires { length signals.now ≤ 8 }
    ensures { result.items ≡ map (λ m. is_complement (lit_at lits.now m)) signals.now }
{
    let mut signs = ArrayVec::new();
    for signal in signals {
        signs.push(sign_of(literal_at(lits, *signal)));
    }
    signs
}

// The LUT where its signals became these literals.
fn through(lits: &[Lit], lut: &Lut) -> Lut
    ensures { IsThrough lits.now (lut_data lut.now) (lut_data result) }
{
    let inputs = lut.inputs.as_slice();
    let signs = signs_of(lits, inputs);
    let truth = flip_variables(lut.truth, signs.as_slice());
    Lut {
        inputs: nodes_of(lits, inputs),
        truth,
    }
}

// The same, of what it depends on alone.
fn resolved(lits: &[Lit], lut: &Lut) -> Lut
    ensures { IsResolved lits.now (lut_data lut.now) (lut_data result) }
{
    reduced(through(lits, lut))
}

// The first of some signals, 0 where there is none.
fn first_signal(signals: &[u32]) -> u32
    ensures { result ≡ slice_index_or signals.now 0 0 }
{
    if signals.is_empty() {
        return 0;
    }
    signals[0]
}

// The literal that a LUT of no or one input is.
fn copied(lut: &Lut) -> Lit
    requires few { length lut.now.inputs.items < 2 }
    requires needed { ReadsNeeded (lut_data lut.now) }
    requires low { All (λ m. m < 2 ^ 31) lut.now.inputs.items }
    ensures { IsCopy (lut_data lut.now) result }
{
    let node = first_signal(lut.inputs.as_slice());
    Lit::of(node, lut.is_one(0))
}

// The literal of a LUT's function over others, for which the LUT is put behind them where it reads two or more signals.
fn placed(luts: &mut Vec<Lut>, first: u32, lut: Lut) -> Result<Lit, AllocError>
    requires few { first + length luts.old.items < 2 ^ 31 }
    requires needed { ReadsNeeded (lut_data lut) }
    requires low { All (λ m. m < 2 ^ 31) lut.inputs.items }
    ensures { IfOk result (IsPlaced first (lut_data lut) (luts_data luts.old.items) (luts_data luts.new.items)) }
{
    if lut.inputs.len() < 2 {
        let lit = copied(&lut);
        drop(lut);
        return Ok(lit);
    }
    let lit = Lit::of(first + luts.len() as u32, false);
    luts.push(lut)?;
    Ok(lit)
}

// The literal that the signal of a LUT becomes, where it is wanted.
fn next_literal(
    luts: &mut Vec<Lut>,
    first: u32,
    lits: &[Lit],
    lut: &Lut,
    wanted: bool,
) -> Result<Lit, AllocError>
    requires few { first + length luts.old.items < 2 ^ 31 }
    requires low { (n : ℕ) → node_of (lit_at lits.now n) < 2 ^ 31 }
    ensures { IfOk result (IsNext first wanted lits.now (lut_data lut.now) (luts_data luts.old.items) (luts_data luts.new.items)) }
{
    if !wanted {
        return Ok(Lit::of(0, false));
    }
    placed(luts, first, resolved(lits, lut))
}

// Puts a literal for each LUT's signal behind those of the constant and the sources, and the LUTs that these read.
fn rebuild(
    source_count: u32,
    luts: &[Lut],
    marks: &[bool],
    lits: &mut Vec<Lit>,
    new: &mut Vec<Lut>,
) -> Result<(), AllocError>
    requires few { source_count + 1 + length luts.now < 2 ^ 31 }
    requires fit { (j : ℕ) → j < length luts.now → is_lut (source_count + 1 + j) (lut_at (luts_data luts.now) j) ≡ true }
    requires marks { length marks.now ≡ source_count + 1 + length luts.now }
    requires closed { IsClosed (source_count + 1) (luts_data luts.now) (value_in marks.now) }
    requires begun { IsRebuilt source_count (luts_data luts.now) (value_in marks.now) lits.old.items (luts_data new.old.items) }
    requires sources { length lits.old.items ≡ source_count + 1 }
    ensures long { OnOk result (length lits.new.items ≡ source_count + 1 + length luts.now) }
    ensures rebuilt { OnOk result (IsRebuilt source_count (luts_data luts.now) (value_in marks.now) lits.new.items (luts_data new.new.items)) }
{
    let first = source_count + 1;
    for (j, lut) in luts.iter().enumerate() {
        let wanted = marks[first as usize + j];
        let lit = next_literal(new, first, lits.as_slice(), lut, wanted)?;
        lits.push(lit)?;
    }
    Ok(())
}

// The literals of the constant and of so many sources.
fn source_literals(alloc: Global, source_count: u32) -> Result<Vec<Lit>, AllocError>
    requires { source_count + 1 < 2 ^ 31 }
    ensures long { IfOk result (λ v. length v.items ≡ source_count + 1) }
    ensures own { IfOk result (λ v. (n : ℕ) → n < source_count + 1 → lit_at v.items n ≡ signed_lit n false) }
{
    let mut lits = Vec::new(alloc);
    for n in 0..source_count + 1 {
        lits.push(Lit::of(n, false))?;
    }
    Ok(lits)
}

// Literals as those of new signals.
fn read_literals(alloc: Global, lits: &[Lit], observed: &[Lit]) -> Result<Vec<Lit>, AllocError>
    requires { (n : ℕ) → node_of (lit_at lits.now n) < 2 ^ 31 }
    ensures { IfOk result (λ v. v.items ≡ map (read_lit lits.now) observed.now) }
{
    let mut read = Vec::new(alloc);
    for lit in observed {
        let became = literal_at(lits, lit.node());
        read.push(Lit::of(became.node(), sign_of(*lit) != sign_of(became)))?;
    }
    Ok(read)
}

/// The LUTs and literals of a net, made anew. Marked are the signals that observed literals reach; a LUT that isn't marked
/// is left out. The only error is want of memory.
pub(crate) fn rebuilt(
    alloc: Global,
    source_count: u32,
    luts: &[Lut],
    marks: &[bool],
    observed: &[Lit],
) -> Result<Parts, AllocError>
    requires few { source_count + 1 + length luts.now < 2 ^ 31 }
    requires net { IsOpenNet source_count (luts_data luts.now) observed.now }
    requires marks { IsSwept (source_count + 1) (luts_data luts.now) observed.now marks.now 0 }
    ensures rebuilt { IfOk result (λ p. IsRebuiltNet source_count (luts_data luts.now) observed.now (luts_data p.luts.items) p.lits.items) }
    ensures fewer { IfOk result (λ p. (n : ℕ) → source_count + 1 ≤ n → n < length marks.now → value_in marks.now n ≡ false → length p.luts.items < length luts.now) }
{
    let mut lits = source_literals(alloc, source_count)?;
    let mut new = Vec::new(alloc);
    rebuild(source_count, luts, marks, &mut lits, &mut new)?;
    let outs = read_literals(alloc, lits.as_slice(), observed)?;
    Ok(Parts {
        luts: new,
        lits: outs,
    })
}
