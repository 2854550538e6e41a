//! Lines and words of a text, cut off one by one.

ghost use Rattle.std.specs.Prelude.{◌≡◌, ◌<◌, ◌≤◌, [], ◌∷◌, length, option_map, IfNone, IfSome};
ghost use Rattle.syn_aiger_files.specs.Cuts.{cut_at, without_cr, words_left};
ghost use Rattle.syn_aiger_files.specs.Texts.{behind, first_line, words_of};

use syn_lex::bytes_before;

/// The bytes before the first one of a value, and those behind it where it is there.
pub fn cut_at(text: &[u8], end: u8) -> (&[u8], Option<&[u8]>)
    ensures front { result.0.now ≡ (cut_at end text.now).0 }
    ensures behind { option_map (λ t. t.now) result.1 ≡ (cut_at end text.now).1 }
{
    let (front, rest) = text.split_at(bytes_before(text, end));
    match rest.split_first() {
        Some((_, behind)) => (front, Some(behind)),
        None => (front, None),
    }
}

// The bytes without a CR at their end.
#[tactic(auto, using(crate::proofs::Cutting::cr_here, crate::proofs::Cutting::cr_not, crate::proofs::Cutting::cr_empty))]
fn without_cr(text: &[u8]) -> &[u8]
    ensures { result.now ≡ without_cr text.now }
{
    let Some((last, front)) = text.split_last() else {
        return text;
    };
    if *last == b'\r' {
        return front;
    }
    text
}

/// The first line without its end, which is an LF, or a CR and an LF; and what stands behind it.
pub fn cut_line(bytes: &[u8]) -> (&[u8], &[u8])
    ensures line { result.0.now ≡ first_line bytes.now }
    ensures behind { result.1.now ≡ behind 10 bytes.now }
    ensures within { length result.1.now ≤ length bytes.now }
{
    let (front, rest) = cut_at(bytes, b'\n');
    match rest {
        Some(behind) => (without_cr(front), behind),
        None => (front, b""),
    }
}

/// The first word, before the first blank, and what stands behind that blank, where there is one.
pub fn cut_word(text: &[u8]) -> (&[u8], Option<&[u8]>)
    ensures { words_of text.now ≡ result.0.now ∷ words_left (option_map (λ t. t.now) result.1) }
{
    cut_at(text, b' ')
}

/// The first line without its end, and what stands behind it, where there are bytes.
#[tactic(auto, using(crate::proofs::Cutting::behind_shorter, crate::proofs::Cutting::empty_by, crate::proofs::Cutting::some_there))]
pub fn next_line(bytes: &[u8]) -> Option<(&[u8], &[u8])>
    ensures none { IfNone result (bytes.now ≡ []) }
    ensures some { IfSome result (λ r. 0 < length bytes.now) }
    ensures line { IfSome result (λ r. r.0.now ≡ first_line bytes.now) }
    ensures behind { IfSome result (λ r. r.1.now ≡ behind 10 bytes.now) }
    ensures shorter { IfSome result (λ r. length r.1.now < length bytes.now) }
{
    if bytes.is_empty() {
        return None;
    }
    Some(cut_line(bytes))
}
