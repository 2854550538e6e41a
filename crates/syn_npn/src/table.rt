//! The classes of all functions at once.

ghost use Rattle.std.specs.Prelude.{◌≡◌, ℕ, ◌+◌, ◌%◌, ◌^◌, ◌<◌, ◌==◌, if◌then◌else◌, List, length, replicate, slice_index_or, slice_set, IfOk};
ghost use Rattle.syn_npn.specs.Keys.{AreNoted, AreSeen, canon_key, class_of, IsKeyed};
ghost use Rattle.syn_npn.specs.Permutations.{image_at};
ghost use Rattle.syn_npn.specs.Transforms.{IsCanon};

use crate::Transform;
use crate::classes::{image, of_key, undo};
use crate::walk::{KEY_STEP, flipped};
use std::alloc::{AllocError, Global};

/// The number of transforms.
const TRANSFORMS: u16 = 768;

/// The number of functions of four variables.
const FUNCTIONS: u32 = 65536;

/// How many transforms differ in their flips alone.
const FLIPS: u8 = 16;

/// What stands for a key that is not noted yet, above each key.
const UNSEEN: u32 = u32::MAX;

/// The class of each function of four variables and the first transform to it, made once.
#[derive(Debug, Drop)]
pub struct Classes {
    keys: Vec<u32>,
    ghost count: { length keys.items ≡ 65536 },
    ghost keyed: { IsKeyed keys.items },
}

/// The function whose image by the transform at a place is this one.
fn member(class: u16, place: u16) -> u16
    requires { place < 768 }
    ensures image { image_at result place ≡ class }
    ensures only { (function : ℕ) → function < 2 ^ 16 → image_at function place ≡ class → function ≡ result }
{
    image(undo(Transform::at(place)), class)
}

/// Notes the key of a function unless one is noted.
fn note(keys: &mut [u32], function: u16, key: u32)
    requires { length keys.old ≡ 65536 }
    ensures { keys.new ≡ (if slice_index_or keys.old function 0 == 4294967295 then slice_set keys.old function key else keys.old) }
{
    if keys[function as usize] == UNSEEN {
        keys[function as usize] = key;
    }
}

/// Notes the keys of the functions that lead to a class by the transforms from a place on that differ in their flips alone.
/// Only the first is turned back: flips are undone by the same flips of the variables.
fn note_flips(keys: &mut [u32], class: u16, first: u16)
    requires count { length keys.old ≡ 65536 }
    requires class { class_of class ≡ class }
    requires first { first % 16 ≡ 0 }
    requires within { first < 768 }
    ensures count { length keys.new ≡ 65536 }
    ensures noted { (old : List ℕ) → AreNoted first class old keys.old → AreNoted (first + 16) class old keys.new }
{
    let plain = member(class, first);
    for flips in 0..FLIPS {
        let place = first as u32 + flips as u32;
        note(keys, flipped(plain, flips), class as u32 * KEY_STEP + place);
    }
}

/// Notes the keys of all functions of a class: a transform that comes later finds them noted.
fn note_class(keys: &mut [u32], class: u16)
    requires count { length keys.old ≡ 65536 }
    requires class { class_of class ≡ class }
    ensures count { length keys.new ≡ 65536 }
    ensures noted { AreNoted 768 class keys.old keys.new }
{
    for block in 0..TRANSFORMS / FLIPS as u16 {
        note_flips(keys, class, block * FLIPS as u16);
    }
}

/// So many keys, none of them noted.
fn no_keys(alloc: Global, count: u32) -> Result<Vec<u32>, AllocError>
    ensures { IfOk result (λ keys. keys.items ≡ replicate count 4294967295) }
{
    vec![in alloc; UNSEEN; count as usize]
}

/// Notes the keys of a class if the number is one: the least of its functions, and not noted yet.
fn note_new(keys: &mut [u32], number: u16)
    requires count { length keys.old ≡ 65536 }
    requires seen { AreSeen number keys.old }
    ensures count { length keys.new ≡ 65536 }
    ensures seen { AreSeen (number + 1) keys.new }
{
    if keys[number as usize] == UNSEEN {
        note_class(keys, number);
    }
}

/// The least keys of all functions, class by class.
fn all_keys(alloc: Global, count: u32) -> Result<Vec<u32>, AllocError>
    requires { count ≡ 65536 }
    ensures count { IfOk result (λ keys. length keys.items ≡ 65536) }
    ensures keyed { IfOk result (λ keys. IsKeyed keys.items) }
{
    let mut keys = no_keys(alloc, count)?;
    for number in 0..count {
        note_new(keys.as_mut_slice(), number as u16);
    }
    Ok(keys)
}

impl Classes {
    /// The classes of all functions. The only error is want of memory.
    pub fn new(alloc: Global) -> Result<Classes, AllocError> {
        let keys = all_keys(alloc, FUNCTIONS)?;
        Ok(Classes { keys })
    }

    /// The least key of a function.
    #[inline]
    fn key(&self, function: u16) -> u32
        ensures { result ≡ canon_key function }
    {
        self.keys[function as usize]
    }

    /// The answer of `canon`, read from the table.
    #[inline]
    pub fn canon(&self, function: u16) -> (u16, Transform)
        ensures class { result.0 ≡ class_of function }
        ensures canon { IsCanon function result.0 result.1 }
    {
        of_key(self.key(function))
    }
}
