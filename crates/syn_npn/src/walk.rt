//! The images of a function, walked by exchanges of two neighbouring variables and by complementing one variable.

ghost use Rattle.std.specs.Prelude.{◌≡◌, ℕ, ◌+◌, ◌-◌, ◌*◌, ◌^◌, ◌<◌, ◌≤◌, ◌||◌, ◌&&◌, ◌⊎◌, nat_le, false, if◌then◌else◌};
ghost use Rattle.syn_npn.specs.Images.{value_at};
ghost use Rattle.syn_npn.specs.Permutations.{IsKey, key_at, permutation_at};
ghost use Rattle.syn_npn.specs.Values.{image_by};
ghost use Rattle.syn_npn.specs.Walk.{exchange, exchange_at, toggle, walk_at};

use crate::value;

/// Places of permutations: each comes from the one before by an exchange of two neighbouring variables, and the first from the last.
const WALK: [u8; 24] = [
    0, 1, 3, 5, 4, 2, 8, 10, 16, 22, 20, 14, 12, 18, 19, 21, 23, 17, 11, 9, 15, 13, 7, 6,
];

/// The lower one of the two variables that are exchanged after each permutation of the walk.
const EXCHANGES: [u8; 24] = [
    2, 1, 2, 1, 2, 0, 2, 1, 2, 1, 2, 0, 2, 1, 0, 1, 2, 1, 2, 1, 0, 1, 2, 0,
];

/// The minterms at which variables i and i + 1 have one value.
const EQUAL: [u16; 3] = [0x9999, 0xc3c3, 0xf00f];

/// The minterms at which variable i is true and variable i + 1 is false.
const LOWER: [u16; 3] = [0x2222, 0x0c0c, 0x00f0];

/// The minterms at which variable i is false.
const PLAIN: [u16; 4] = [0x5555, 0x3333, 0x0f0f, 0x00ff];

/// What the image is multiplied by in a key, which has the transform's place below it.
pub(crate) const KEY_STEP: u32 = 1024;

/// Keeps the values at the minterms of `kept`, and exchanges those at the minterms of `lower` with those `gap` above.
#[inline]
fn moved(table: u16, kept: u16, lower: u16, gap: u8) -> u16
    requires gap { gap < 16 }
    requires fits { lower < 2 ^ (16 - gap) }
    ensures { (m : ℕ) → m < 16 → value_at result m ≡ (value_at table m && value_at kept m || value_at table (gap + m) && value_at lower m || nat_le gap m && (value_at table (m - gap) && value_at lower (m - gap))) }
{
    (table & kept) | ((table >> gap) & lower) | ((table & lower) << gap)
}

/// The function with variables `variable` and `variable + 1` exchanged.
#[inline]
fn exchanged(table: u16, variable: u8) -> u16
    requires { variable < 3 }
    ensures { (m : ℕ) → m < 16 → value_at result m ≡ value_at table (exchange variable m) }
{
    let at = variable as usize;
    moved(table, EQUAL[at], LOWER[at], 1 << variable)
}

/// The function with one variable complemented.
#[inline]
fn complemented(table: u16, variable: u8) -> u16
    requires { variable < 4 }
    ensures { (m : ℕ) → m < 16 → value_at result m ≡ value_at table (toggle variable m) }
{
    moved(table, 0, PLAIN[variable as usize], 1 << variable)
}

/// The function with one variable complemented where `flip` is set.
#[inline]
fn flipped_where(table: u16, variable: u8, flip: bool) -> u16
    requires { variable < 4 }
    ensures { (m : ℕ) → m < 16 → value_at result m ≡ value_at table (if flip then toggle variable m else m) }
{
    if flip {
        complemented(table, variable)
    } else {
        table
    }
}

/// The image of a function by the plain transform with these flips that keeps the variables in their places.
pub(crate) fn flipped(function: u16, flips: u8) -> u16
    requires { flips < 16 }
    ensures { result ≡ image_by (permutation_at 0) flips false function }
{
    let mut table = function;
    for variable in 0..4 {
        table = flipped_where(table, variable, value(flips as u16, variable));
    }
    table
}

/// The place of the permutation at a turn of the walk.
#[inline]
fn walked(turn: usize) -> u32
    requires { turn < 24 }
    ensures place { result ≡ walk_at turn }
    ensures within { result < 24 }
{
    WALK[turn] as u32
}

/// The lower one of the variables that are exchanged after a turn.
#[inline]
fn exchange_after(turn: usize) -> u8
    requires { turn < 24 }
    ensures variable { result ≡ exchange_at turn }
    ensures within { result < 3 }
{
    EXCHANGES[turn]
}

/// The lesser one of a key and the key of an image.
#[inline]
fn lesser(key: u32, image: u16, place: u32) -> u32
    requires { place < 768 }
    ensures key { result ≤ key }
    ensures image { result ≤ image * 1024 + place }
    ensures either { (result ≡ key) ⊎ (result ≡ image * 1024 + place) }
{
    key.min(image as u32 * KEY_STEP + place)
}

/// The least one of a key and the keys of the images by the transforms with these flips.
pub(crate) fn least_key(function: u16, flips: u8, key: u32) -> u32
    requires few { flips < 16 }
    requires key { IsKey function key }
    ensures key { IsKey function result }
    ensures kept { result ≤ key }
    ensures plain { (perm : ℕ) → perm < 24 → result ≤ key_at function (perm * 16 + flips) }
    ensures negated { (perm : ℕ) → perm < 24 → result ≤ key_at function (perm * 16 + flips + 384) }
{
    let mut least = key;
    let mut image = flipped(function, flips);
    for turn in 0..24 {
        let place = walked(turn) * 16 + flips as u32;
        least = lesser(least, image, place);
        least = lesser(least, !image, place + 384);
        image = exchanged(image, exchange_after(turn));
    }
    least
}
