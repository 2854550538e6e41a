//! Calls on keys of nodes.

use crate::answers::put;
use crate::operands::{Operands, small};
use std::alloc::AllocError;
use syn_table::between;

/// The step of so many keys between two.
pub fn answer(out: &mut String, operands: &Operands) -> Result<(), AllocError> {
    let list = operands.list(0);
    let (low, need) = (u64::from(small(list, 0)), small(list, 1));
    let high = match list.get(2) {
        Some(high) => u64::try_from(*high).unwrap_or(0),
        None => 0,
    };
    put(out, Ok(between(low, need, high)))
}
