//! Calls on classes of functions of four variables. A transform is a permutation, and then flips and whether it complements.

ghost use Rattle.std.specs.Prelude.{◌≡◌, true};
ghost use Rattle.syn_npn.specs.Images.{is_permutation};

use crate::answers::put;
use crate::operands::{Operands, byte};
use std::alloc::{AllocError, Global};
use std::collections::BTreeSet;
use syn_npn::{Classes, Transform, canon, image, undo};

// Whether these are four different numbers below 4.
fn permutes(perm: [u8; 4]) -> bool
    ensures { result ≡ true → is_permutation perm ≡ true }
{
    let [a, b, c, d] = perm;
    a < 4 && b < 4 && c < 4 && d < 4 && a != b && a != c && a != d && b != c && b != d && c != d
}

// The transform of a permutation, and of flips and a sign.
fn transform(perm: &[u128], rest: &[u128]) -> Option<Transform> {
    let perm = [byte(perm, 0), byte(perm, 1), byte(perm, 2), byte(perm, 3)];
    let flips = byte(rest, 0);
    let neg = byte(rest, 1) > 0;
    if flips > 15 || !permutes(perm) {
        return None;
    }
    Some(Transform { perm, flips, neg })
}

// The image of a function under a transform, or under what undoes it; the function where there is no transform.
fn image_by(call: &str, transform: Option<Transform>, function: u16) -> u16 {
    match transform {
        Some(transform) if call == "undone" => image(undo(transform), function),
        Some(transform) => image(transform, function),
        None => function,
    }
}

// How many classes there are.
fn count(alloc: Global) -> Result<usize, AllocError> {
    let classes = Classes::new(alloc)?;
    let mut seen = BTreeSet::new(alloc);
    for function in 0..=u16::MAX {
        seen.insert(classes.canon(function).0)?;
    }
    Ok(seen.len())
}

// The class of a function as all classes are listed, and the transform to it.
fn listed(alloc: Global, function: u16) -> Result<(u16, Transform), AllocError> {
    let classes = Classes::new(alloc)?;
    Ok(classes.canon(function))
}

// A class in hexadecimal, and a transform.
fn put_class(
    out: &mut String,
    found: Result<(u16, Transform), AllocError>,
) -> Result<(), AllocError> {
    let (class, Transform { perm, flips, neg }) = found?;
    write!(out, "{class:#x} {perm:?} {flips} {neg}")
}

/// The answer to a call.
pub fn answer(
    alloc: Global,
    out: &mut String,
    call: &str,
    operands: &Operands,
) -> Result<(), AllocError> {
    let function = operands.function(0);
    match call {
        "count" => put(out, count(alloc)),
        "least" => put_class(out, Ok(canon(function))),
        "listed" => put_class(out, listed(alloc, function)),
        _ => {
            let transform = transform(operands.list(1), operands.list(2));
            write!(out, "{:#x}", image_by(call, transform, function))
        }
    }
}
