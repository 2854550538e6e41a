//! Where the words of a node lie, and what they hold.

ghost use Rattle.std.specs.Prelude.{◌≡◌, ◌+◌, ◌*◌};
ghost use Rattle.syn_rows.specs.declared.Row.{Row};
ghost use Rattle.syn_rows.specs.Packing.{word_of, Packs};

use syn_rows::Row;

// The word of a node's claim.
#[inline]
pub(crate) fn claim_word(node: u32) -> usize
    ensures { result ≡ 1 + 4 * node }
{
    1 + 4 * node as usize
}

// The word of its row.
#[inline]
pub(crate) fn row_word(node: u32) -> usize
    ensures { result ≡ 2 + 4 * node }
{
    2 + 4 * node as usize
}

// The word of its count.
#[inline]
pub(crate) fn count_word(node: u32) -> usize
    ensures { result ≡ 3 + 4 * node }
{
    3 + 4 * node as usize
}

// The word of its key.
#[inline]
pub(crate) fn key_word(node: u32) -> usize
    ensures { result ≡ 4 + 4 * node }
{
    4 + 4 * node as usize
}

// The row whose word this is.
#[inline]
pub(crate) fn row_in(word: u64) -> Row
    requires { (r : Row) × Packs r × (word_of r ≡ word) }
    ensures { (r : Row) → Packs r → word_of r ≡ word → result ≡ r }
{
    match Row::unpack(word) {
        Some(row) => row,
        None => unreachable!(),
    }
}
