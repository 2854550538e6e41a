//! Words of 128 bits as tables: bit m of a word is the value at the minterm m of variables 0 to 6.

ghost use Rattle.std.specs.Prelude.{◌≡◌, ℕ, ◌+◌, ◌-◌, ◌*◌, ◌^◌, ◌<◌, ◌≤◌, Bool, true, false, not, List, if◌then◌else◌, slice_set, slice_index_or};
ghost use Rattle.std.specs.List.{swap};
ghost use Rattle.syn_truth.specs.Words.{AtEachWith, IsMask, value_in};

/// The number of variables whose minterms a word holds.
pub(crate) const WORD_VARS: u8 = 7;

/// The number of bits of a word.
const WORD_BITS: u32 = 128;

/// The minterms at which a variable is true, as the bits of a word, one word for each variable.
static VARIABLES: [u128; 7] = [
    0xaaaa_aaaa_aaaa_aaaa_aaaa_aaaa_aaaa_aaaa,
    0xcccc_cccc_cccc_cccc_cccc_cccc_cccc_cccc,
    0xf0f0_f0f0_f0f0_f0f0_f0f0_f0f0_f0f0_f0f0,
    0xff00_ff00_ff00_ff00_ff00_ff00_ff00_ff00,
    0xffff_0000_ffff_0000_ffff_0000_ffff_0000,
    0xffff_ffff_0000_0000_ffff_ffff_0000_0000,
    0xffff_ffff_ffff_ffff_0000_0000_0000_0000,
];

/// A word whose bits below `2 ^ vars` are 1.
#[inline]
pub(crate) fn ones(vars: u8) -> u128
    requires { vars ≤ 7 }
    ensures { result ≡ 2 ^ (2 ^ vars) - 1 }
{
    u128::MAX >> (WORD_BITS - (1u32 << vars))
}

/// How far apart two minterms are that differ in variable `i` alone.
#[inline]
pub(crate) fn stride(i: u8) -> u32
    requires { i < 7 }
    ensures stride { result ≡ 2 ^ i }
    ensures below { result < 128 }
{
    1 << i
}

/// A word that has a 1 at each minterm at which variable `i` is true.
#[inline]
pub(crate) fn variable(i: u8) -> u128
    requires { i < 7 }
    ensures { IsMask result i }
{
    VARIABLES[i as usize]
}

/// The word with variable `i` set to a value.
#[inline]
pub(crate) fn with_value(word: u128, i: u8, value: bool) -> u128
    requires { i < 7 }
    ensures { AtEachWith i (λ xs. value_in result xs ≡ value_in word (slice_set xs i value)) }
{
    if value {
        with_true(word, i)
    } else {
        with_false(word, i)
    }
}

#[inline]
fn with_true(word: u128, i: u8) -> u128
    requires { i < 7 }
    ensures { AtEachWith i (λ xs. value_in result xs ≡ value_in word (slice_set xs i true)) }
{
    let high = word & variable(i);
    high | high >> stride(i)
}

#[inline]
fn with_false(word: u128, i: u8) -> u128
    requires { i < 7 }
    ensures { AtEachWith i (λ xs. value_in result xs ≡ value_in word (slice_set xs i false)) }
{
    let low = word & !variable(i);
    low | low << stride(i)
}

/// The word with variable `i` complemented.
#[inline]
pub(crate) fn flipped(word: u128, i: u8) -> u128
    requires { i < 7 }
    ensures { AtEachWith i (λ xs. value_in result xs ≡ value_in word (slice_set xs i (not (slice_index_or xs i false)))) }
{
    let mask = variable(i);
    let distance = stride(i);
    let high = word & mask;
    let low = word & !mask;
    high >> distance | low << distance
}

/// The word that is one word where variable `i` is false, and another where it is true.
#[inline]
pub(crate) fn chosen(i: u8, where_false: u128, where_true: u128) -> u128
    requires { i < 7 }
    ensures { AtEachWith i (λ xs. value_in result xs ≡ value_in (if slice_index_or xs i false then where_true else where_false) xs) }
{
    let mask = variable(i);
    (where_false & !mask) | (where_true & mask)
}

/// The word in which two variables have changed places.
#[inline]
pub(crate) fn swapped(word: u128, low: u8, high: u8) -> u128
    requires rising { low < high }
    requires within { high < 7 }
    ensures { AtEachWith high (λ xs. value_in result xs ≡ value_in word (swap xs low high)) }
{
    let low_mask = variable(low);
    let high_mask = variable(high);
    let only_low = low_mask & !high_mask;
    let only_high = high_mask & !low_mask;
    let distance = stride(high) - stride(low);
    let stay = word & !(only_low | only_high);
    let rise = (word & only_low) << distance;
    let fall = (word & only_high) >> distance;
    stay | rise | fall
}
