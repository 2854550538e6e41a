//! How many slashes inner names have: the fewest for which none is a name of the main model.

ghost use Rattle.std.specs.Prelude.{◌≡◌, ◌+◌, ◌<◌, ◌≤◌, ◌^◌, ◌&&◌, true, map, not, drop, IfOk};
ghost use Rattle.std.specs.List.{list_any};
ghost use Rattle.syn_models.specs.Calling.{IsFewest};
ghost use Rattle.syn_models.specs.FlatFaults.{told};
ghost use Rattle.syn_models.specs.Flattening.{inner_name};
ghost use Rattle.syn_models.specs.Models.{is_bound};
ghost use Rattle.syn_models.specs.ReadBack as back;
ghost use Rattle.syn_models.specs.ReadBack.{behind, taken_by};
ghost use Rattle.syn_models.specs.Walking.{entry_in};
ghost use Rattle.syn_netlist.specs.Words.{has_word};

use crate::called_names::inner_name;
use crate::instances::actual_number;
use crate::met::Instance;
use std::alloc::{AllocError, Global};
use syn_netlist::Names;

// Whether the byte is a decimal digit.
fn is_digit(b: u8) -> bool
    ensures { result ≡ back.is_digit b }
{
    47 < b && b < 58
}

// The number that a word begins with, in decimal digits; the greatest number stands for all that are greater.
fn number_in(word: &[u8]) -> u64
    ensures { result ≡ told (back.number_in word.now) }
{
    let mut number: u64 = 0;
    for b in word {
        if !is_digit(*b) {
            return number;
        }
        let digit = *b - 48;
        number = number.saturating_mul(10).saturating_add(digit as u64);
    }
    number
}

// What stands behind the digits that a word begins with.
fn behind_digits(word: &[u8]) -> &[u8]
    ensures { result.now ≡ behind word.now }
{
    for (i, b) in word.iter().enumerate() {
        if !is_digit(*b) {
            let (_, rest) = word.split_at(i);
            return rest;
        }
    }
    &[]
}

// The rest of a word without its first bytes.
fn without_first(word: &[u8], count: usize) -> &[u8]
    ensures { result.now ≡ drop count word.now }
{
    if word.len() < count {
        return &[];
    }
    let (_, rest) = word.split_at(count);
    rest
}

// Whether the word is a name of the instance's model that isn't bound.
fn is_unbound(instance: &Instance<'_>, name: &[u8]) -> bool
    ensures { result ≡ (has_word instance.now.inside.now.names name.now && not (is_bound (entry_in instance.now).binds name.now)) }
{
    match instance.inside.names.find(name) {
        Some(_) => actual_number(instance.binds, name).is_none(),
        None => false,
    }
}

// Whether a word is the inner name, with so many slashes, of a name that isn't bound.
fn is_taken(
    alloc: Global,
    instances: &[Instance<'_>],
    count: usize,
    word: &[u8],
) -> Result<bool, AllocError>
    requires { 1 ≤ count }
    ensures { IfOk result (λ taken. taken ≡ taken_by (inner_name count) 1 (map entry_in instances.now) word.now) }
{
    let k = number_in(word);
    if k == 0 || k > instances.len() as u64 {
        return Ok(false);
    }
    let instance = &instances[k as usize - 1];
    let name = without_first(behind_digits(word), count);
    if !is_unbound(instance, name) {
        return Ok(false);
    }
    let inner = inner_name(alloc, count, k, name)?;
    Ok(inner.as_slice() == word)
}

// Whether one of the names is an inner name, with so many slashes, of a name that isn't bound.
fn any_taken(
    alloc: Global,
    names: &Names,
    instances: &[Instance<'_>],
    count: usize,
) -> Result<bool, AllocError>
    requires { 1 ≤ count }
    ensures taken { IfOk result (λ taken. taken ≡ list_any (taken_by (inner_name count) 1 (map entry_in instances.now)) names.now) }
    ensures few { IfOk result (λ taken. taken ≡ true → count + 1 < 2 ^ 64) }
{
    for i in 0..names.len() {
        if is_taken(alloc, instances, count, names.word(i))? {
            return Ok(true);
        }
    }
    Ok(false)
}

/// The number of slashes: the fewest, at least one, for which no inner name is a name of the main model. The only error is
/// want of memory.
pub(crate) fn slash_count(
    alloc: Global,
    names: &Names,
    instances: &[Instance<'_>],
) -> Result<usize, AllocError>
    ensures { IfOk result (IsFewest names.now (map entry_in instances.now)) }
{
    // A name that is taken is longer than its slashes.
    let mut count = 1;
    while any_taken(alloc, names, instances, count)? {
        count += 1;
    }
    Ok(count)
}
