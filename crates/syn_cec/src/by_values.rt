//! Comparison at all values of few sources.

ghost use Rattle.std.specs.Prelude.{◌≡◌, ◌^◌, ◌<◌, ◌≤◌, IfOk, length};
ghost use Rattle.syn_cec.specs.Compared.{IsCompared};
ghost use Rattle.syn_truth.specs.Truth.{minterm_of};

use crate::Equality;
use crate::differences::difference;
use std::alloc::{AllocError, Global};
use syn_graph::Graph;

/// So many sources are few.
pub(crate) const FEW: u32 = 12;

// The values of so many sources by the bits of a number, the lowest first.
fn values_of(alloc: Global, count: u32, number: u32) -> Result<Vec<bool>, AllocError>
    requires { number < 2 ^ count }
    ensures count { IfOk result (λ v. length v.items ≡ count) }
    ensures minterm { IfOk result (λ v. minterm_of v.items ≡ number) }
{
    let mut values = Vec::new(alloc);
    let mut left = number;
    for i in 0..count {
        let _ = i;
        values.push(left % 2 == 1)?;
        left /= 2;
    }
    Ok(values)
}

/// How two graphs of few sources compare.
pub(crate) fn compared_by_values(
    alloc: Global,
    first: &Graph,
    second: &Graph,
) -> Result<Equality, AllocError>
    requires few { first.now.source_count ≤ 12 }
    requires sources { second.now.source_count ≡ first.now.source_count }
    requires observed { length second.now.observed ≡ length first.now.observed }
    ensures { IfOk result (IsCompared first.now second.now) }
{
    let count = first.source_count;
    for number in 0..1u32 << count {
        let values = values_of(alloc, count, number)?;
        match difference(alloc, first, second, values.as_slice())? {
            Some(signal) => return Ok(Equality::Different { signal, values }),
            None => {}
        }
    }
    Ok(Equality::Equivalent)
}
