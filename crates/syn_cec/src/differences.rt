//! Where two graphs differ for given values of the sources.

ghost use Rattle.std.specs.Prelude.{◌≡◌, ◌≢◌, ◌<◌, false, IfNone, IfOk, IfSome, length, slice_index_or};
ghost use Rattle.syn_rows.specs.Values.{rows_function};
ghost use Rattle.syn_cec.specs.Compared.{DiffersAt, SameAt};

use std::alloc::{AllocError, Global};
use syn_graph::Graph;

// The first place at which two lists of the same length differ.
fn first_difference(xs: &[bool], ys: &[bool]) -> Option<usize>
    requires { length ys.now ≡ length xs.now }
    ensures some { IfSome result (λ i. (i < length xs.now) × (slice_index_or xs.now i false ≢ slice_index_or ys.now i false)) }
    ensures none { IfNone result (xs.now ≡ ys.now) }
{
    for (i, x) in xs.iter().enumerate() {
        if *x != ys[i] {
            return Some(i);
        }
    }
    None
}

/// The first place at which the observed literals of two graphs differ for these values of the sources. The only error is want
/// of memory.
pub(crate) fn difference(
    alloc: Global,
    first: &Graph,
    second: &Graph,
    values: &[bool],
) -> Result<Option<usize>, AllocError>
    requires { length second.now.observed ≡ length first.now.observed }
    ensures some { IfOk result (λ o. IfSome o (DiffersAt first.now second.now values.now)) }
    ensures none { IfOk result (λ o. IfNone o (SameAt first.now second.now values.now)) }
{
    let xs = first.eval(alloc, values)?;
    let ys = second.eval(alloc, values)?;
    Ok(first_difference(xs.as_slice(), ys.as_slice()))
}
