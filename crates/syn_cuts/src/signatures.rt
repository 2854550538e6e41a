//! Signatures of cuts, by which a union is refused before it is made.

ghost use Rattle.std.specs.Prelude.{◌≡◌, ℕ, ◌≤◌, List, [], length, slice_index_or};
ghost use Rattle.syn_cuts.specs.Cuts.{union};
ghost use Rattle.syn_cuts.specs.Leaves.{leaves_of};
ghost use Rattle.syn_cuts.specs.Signatures.{AreSignatures, signature};

use crate::Cut;
use arrayvec::ArrayVec;

/// How many cuts of a list have their signatures: all, since no list is longer.
pub const SIGNED: usize = 32;

/// The signature of a cut: for each leaf the bit of its number modulo 64.
#[inline]
pub fn signature(leaves: &[u32]) -> u64
    ensures { result ≡ signature leaves.now }
{
    let mut bits = 0;
    for leaf in leaves {
        bits |= 1u64 << (*leaf % 64);
    }
    bits
}

/// The signatures of the first cuts of a list, as many as there is room for.
pub fn signatures_of(cuts: &[Cut]) -> ArrayVec<u64, SIGNED>
    ensures { AreSignatures result.items (leaves_of cuts.now) }
{
    let mut words = ArrayVec::new();
    for cut in cuts {
        if words.is_full() {
            return words;
        }
        words.push(signature(cut.as_slice()));
    }
    words
}

/// How many leaves the union of a cut and one of a list has at least.
#[inline]
pub fn least_leaves(bits: u64, words: &[u64], i: usize) -> usize
    ensures { (c : List ℕ) (ds : List (List ℕ)) → bits ≡ signature c → AreSignatures words.now ds → result ≤ length (union c (slice_index_or ds i [])) }
{
    if i < words.len() {
        (bits | words[i]).count_ones() as usize
    } else {
        0
    }
}
