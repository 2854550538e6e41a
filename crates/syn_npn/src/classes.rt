//! Images, their inverses, and the least image.

ghost use Rattle.std.specs.Prelude.{◌≡◌, ℕ, ◌+◌, ◌*◌, ◌/◌, ◌%◌, ◌^◌, ◌<◌};
ghost use Rattle.syn_npn.specs.Images.{value_at};
ghost use Rattle.syn_npn.specs.Keys.{canon_key};
ghost use Rattle.syn_npn.specs.Transforms.{image_of, IsCanon};
ghost use Rattle.syn_npn.specs.Values.{image_value};

use crate::walk::{KEY_STEP, least_key};
use crate::{Transform, value};

/// The image of a function by a transform.
pub fn image(transform: Transform, function: u16) -> u16
    ensures image { result ≡ image_of transform function }
    ensures values { (m : ℕ) → m < 16 → value_at result m ≡ image_value transform.perm transform.flips transform.neg function m }
{
    let mut image = 0;
    for minterm in 0..16 {
        let value = transform.neg != value(function, transform.read_at(minterm));
        image += (value as u16) << minterm;
    }
    image
}

/// The transform that leads from an image back to the function.
pub fn undo(transform: Transform) -> Transform
    ensures undone { (f : ℕ) → f < 2 ^ 16 → image_of result (image_of transform f) ≡ f }
    ensures redone { (f : ℕ) → f < 2 ^ 16 → image_of transform (image_of result f) ≡ f }
{
    let perm = transform.places();
    Transform {
        perm,
        flips: transform.moved_flips(perm),
        neg: transform.neg,
    }
}

/// The least key of the images of a function.
pub(crate) fn canon_key(function: u16) -> u32
    ensures { result ≡ canon_key function }
{
    let mut key = function as u32 * KEY_STEP;
    for flips in 0..16 {
        key = least_key(function, flips, key);
    }
    key
}

/// The class and the transform that a least key has.
#[inline]
pub(crate) fn of_key(key: u32) -> (u16, Transform)
    requires class { key / 1024 < 2 ^ 16 }
    requires place { key % 1024 < 768 }
    ensures class { result.0 ≡ key / 1024 }
    ensures canon { (function : ℕ) → key ≡ canon_key function → IsCanon function result.0 result.1 }
{
    let class = (key / KEY_STEP) as u16;
    let transform = Transform::at((key % KEY_STEP) as u16);
    (class, transform)
}

/// The least image of a function, and the first transform that gives it: plain before negated, then permutations in
/// lexicographic order, then flips rising.
pub fn canon(function: u16) -> (u16, Transform)
    ensures { IsCanon function result.0 result.1 }
{
    of_key(canon_key(function))
}
