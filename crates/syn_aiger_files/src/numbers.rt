//! Numbers: of digits on lines, and in groups of seven bits.

ghost use Rattle.std.specs.Prelude.{◌≡◌, ◌<◌, ◌≤◌, ◌^◌, [], None, Some, IfNone, IfSome, length, option_map};
ghost use Rattle.syn_aiger_files.specs.Cuts.{words_left};
ghost use Rattle.syn_aiger_files.specs.Shown.{digits_in, shown_by};
ghost use Rattle.syn_aiger_files.specs.Texts.{and_number, delta, number_of, numbers_of, or_none, words_of};

use crate::cuts::cut_word;

/// The greatest literal of any file.
const MAX_LITERAL: u64 = 536_870_911;

// The number that bytes spell, where all are digits and it is no greater than the greatest literal.
fn value_of(word: &[u8]) -> Option<u32>
    ensures { result ≡ digits_in word.now }
{
    let mut value: u64 = 0;
    for digit in word {
        if *digit < b'0' || *digit > b'9' {
            return None;
        }
        value = 10 * value + (*digit - b'0') as u64;
        if value > MAX_LITERAL {
            return None;
        }
    }
    Some(value as u32)
}

/// The number that a word spells: decimal digits, among which zeros may lead, of no greater number than the greatest literal.
#[tactic(auto, using(crate::proofs::Reading::empty_number, crate::proofs::Reading::number_is))]
pub fn number_of(word: &[u8]) -> Option<u32>
    ensures { result ≡ number_of word.now }
{
    if word.is_empty() {
        return None;
    }
    value_of(word)
}

/// The next number and what is left behind it, where words are left and the next one spells a number.
pub fn next_number(text: Option<&[u8]>) -> Option<(u32, Option<&[u8]>)>
    ensures some { IfSome result (λ r. numbers_of (words_left (option_map (λ t. t.now) text.entry)) ≡ and_number (Some r.0) (numbers_of (words_left (option_map (λ t. t.now) r.1)))) }
    ensures none { IfNone result (or_none (numbers_of (words_left (option_map (λ t. t.now) text.entry))) ≡ []) }
    ensures broken { IfNone result (IfSome text.entry (λ t. numbers_of (words_of t.now) ≡ None)) }
{
    let (word, rest) = cut_word(text?);
    Some((number_of(word)?, rest))
}

/// The numbers on a line: one, two or three, or another line.
#[derive(Debug, Clone, Copy)]
pub enum OnLine {
    One(u32),
    Two(u32, u32),
    Three(u32, u32, u32),
    Other,
}

/// The numbers on a line.
#[tactic(auto, using(crate::proofs::OnLines::on_none, crate::proofs::OnLines::on_one, crate::proofs::OnLines::on_one_broken, crate::proofs::OnLines::on_two, crate::proofs::OnLines::on_two_broken, crate::proofs::OnLines::on_three, crate::proofs::OnLines::on_more))]
pub fn numbers_on(line: &[u8]) -> OnLine
    ensures { result ≡ shown_by (or_none (numbers_of (words_of line.now))) }
{
    let Some((first, rest)) = next_number(Some(line)) else {
        return OnLine::Other;
    };
    let Some(text) = rest else {
        return OnLine::One(first);
    };
    let Some((second, rest)) = next_number(Some(text)) else {
        return OnLine::Other;
    };
    let Some(text) = rest else {
        return OnLine::Two(first, second);
    };
    let Some((third, rest)) = next_number(Some(text)) else {
        return OnLine::Other;
    };
    if rest.is_some() {
        return OnLine::Other;
    }
    OnLine::Three(first, second, third)
}

/// A number in groups of seven bits, so many at most, and what stands behind it.
pub fn delta(groups: u8, bytes: &[u8]) -> Option<(u64, &[u8])>
    requires { groups < 6 }
    ensures value { option_map (λ r. (r.0, r.1.now)) result ≡ delta groups bytes.now }
    ensures few { IfSome result (λ r. r.0 < 128 ^ groups) }
    ensures within { IfSome result (λ r. length r.1.now ≤ length bytes.now) }
{
    if groups == 0 {
        return None;
    }
    let Some((first, rest)) = bytes.split_first() else {
        return None;
    };
    if *first < 128 {
        return Some((*first as u64, rest));
    }
    let Some((more, rest)) = delta(groups - 1, rest) else {
        return None;
    };
    Some(((*first - 128) as u64 + 128 * more, rest))
}
