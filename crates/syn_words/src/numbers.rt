//! Numbers in scripts.

ghost use Rattle.std.specs.Prelude.{◌≡◌, ◌+◌, ◌-◌, ◌*◌, ◌<◌, ◌≤◌, ◌^◌, true, IfSome, IfNone, SomeIff};
ghost use Rattle.std.specs.List.{list_all};
ghost use Rattle.syn_words.specs.Numbers.{is_digit, is_number, is_within, number_at, number_in, number_of};

use crate::ScriptFault;
use crate::forms::NumberRange;
use crate::words::Word;

fn is_digit(byte: u8) -> bool
    ensures { result ≡ is_digit byte }
{
    byte >= b'0' && byte <= b'9'
}

// Each byte is a digit.
fn all_digits(text: &[u8]) -> bool
    ensures { result ≡ list_all is_digit text.now }
{
    for byte in text {
        if !is_digit(*byte) {
            return false;
        }
    }
    true
}

/// Whether a text is one or more digits, and nothing else.
pub fn is_number(text: &[u8]) -> bool
    ensures { result ≡ is_number text.now }
{
    !text.is_empty() && all_digits(text)
}

// A number with one more digit behind it, where it has 64 bits or fewer.
fn with_digit(number: u64, digit: u8) -> Option<u64>
    requires { is_digit digit ≡ true }
    ensures { SomeIff result (number * 10 + (digit - 48) < 2 ^ 64) (number * 10 + (digit - 48)) }
{
    number.checked_mul(10)?.checked_add((digit - b'0') as u64)
}

// The number that digits spell, where it has 64 bits or fewer.
fn number_of(digits: &[u8]) -> Option<u64>
    requires { list_all is_digit digits.now ≡ true }
    ensures fits { IfSome result (λ n. n ≡ number_of digits.now) }
    ensures greater { IfNone result (2 ^ 64 ≤ number_of digits.now) }
{
    let mut number: u64 = 0;
    for digit in digits {
        let Some(next) = with_digit(number, *digit) else {
            return None;
        };
        number = next;
    }
    Some(number)
}

// A number lies in a range.
fn is_within(range: NumberRange, number: u64) -> bool
    ensures { result ≡ is_within range number }
{
    range.least <= number && number <= range.most
}

/// The number that a text spells in decimal digits without a sign, where it lies in a range.
pub fn number_in(range: NumberRange, text: &[u8]) -> Option<u64>
    ensures { result ≡ number_in range text.now }
{
    if !is_number(text) {
        return None;
    }
    match number_of(text) {
        Some(number) if is_within(range, number) => Some(number),
        _ => None,
    }
}

/// The number that a word spells where one in a range stands.
pub fn number_at(range: NumberRange, word: &Word<'_>) -> Result<u64, ScriptFault>
    ensures { result ≡ number_at range word.now }
{
    let text = word.text.as_slice();
    if !is_number(text) {
        return Err(ScriptFault::BadNumber(word.at));
    }
    match number_of(text) {
        Some(number) if is_within(range, number) => Ok(number),
        _ => Err(ScriptFault::OutOfRange(word.at)),
    }
}
