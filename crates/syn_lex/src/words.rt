//! Words: the longest runs of bytes that stand in words.

ghost use Rattle.std.specs.Prelude.{◌≡◌, ◌+◌, ◌^◌, ◌<◌, ◌≤◌, [], ◌∷◌, length, true, not, IfSome, IfNone};
ghost use Rattle.std.specs.List.{list_all};
ghost use Rattle.syn_lex.specs.Pieces.{before};
ghost use Rattle.syn_lex.specs.Words.{word_in, words_by};

use std::marker::{Model, PhantomData};

/// A test on bytes: which of them stand in words. The others stand between words.
pub trait WordBytes {
    ghost use Rattle.std.specs.Prelude.{ℕ, Bool, ◌≡◌};

    ghost holds: { ℕ → Bool };

    /// Whether the byte stands in words.
    fn holds(byte: u8) -> bool
        ensures { result ≡ holds byte };
}

/// The bytes of words in a netlist: 33 to 126, no `#` and no backslash.
pub struct NetlistBytes;

impl WordBytes for NetlistBytes {
    ghost use Rattle.syn_lex.specs.Words.{is_word_byte};

    ghost holds = { is_word_byte };

    fn holds(byte: u8) -> bool {
        byte > 32 && byte < 127 && byte != b'#' && byte != b'\\'
    }
}

// The length of the word in front.
fn word_len<B: WordBytes>(bytes: &[u8]) -> usize
    ensures value { result ≡ before (λ b. not (B.holds b)) bytes.now }
    ensures within { result ≤ length bytes.now }
{
    let end = bytes.iter().position(|byte| !B::holds(*byte));
    end.unwrap_or(bytes.len())
}

// The number of bytes before the first word.
fn blank_len<B: WordBytes>(bytes: &[u8]) -> usize
    ensures value { result ≡ before B.holds bytes.now }
    ensures within { result ≤ length bytes.now }
{
    let begin = bytes.iter().position(|byte| B::holds(*byte));
    begin.unwrap_or(bytes.len())
}

/// The words that are left of a text by a test on bytes, in order, each with the offset of its
/// first byte, from 0. Contracts see it as their list.
#[derive(Drop)]
pub struct Words<'a, B: WordBytes> {
    rest: &'a [u8],
    at: usize,
    bytes: PhantomData<B>,
}

/// The words that are left of a logical line.
pub type LineWords<'a> = Words<'a, NetlistBytes>;

impl<'a, B: WordBytes> Model for Words<'a, B> {
    ghost use Rattle.std.specs.Prelude.{List, ◌+◌, ◌<◌, ◌^◌, length};
    ghost use Rattle.syn_lex.specs.Words.{Word, words_by};

    ghost Value = { List Word };

    ghost view = { λ w. words_by B.holds w.at w.rest.now };

    ghost invariant = { λ w. w.at + length w.rest.now < 2 ^ 32 };
}

// The first word with its offset, and the words behind it.
fn cut_word<'a, B: WordBytes>(
    text: &'a [u8],
    start: usize,
) -> Option<((u32, &'a [u8]), Words<'a, B>)>
    requires { start + length text.now < 2 ^ 32 }
    ensures none { IfNone result (words_by B.holds start text.now ≡ []) }
    ensures some { IfSome result (λ cut. words_by B.holds start text.now ≡ word_in cut.0 ∷ cut.1) }
    ensures bytes { IfSome result (λ cut. list_all B.holds cut.0.1.now ≡ true) }
{
    let blanks = blank_len::<B>(text);
    let (_, rest) = text.split_at(blanks);
    if rest.is_empty() {
        return None;
    }
    let at = start + blanks;
    let len = word_len::<B>(rest);
    let (word, rest) = rest.split_at(len);
    Some(((at as u32, word), Words::of(rest, at + len)))
}

impl<'a, B: WordBytes> Words<'a, B> {
    /// The words of a text whose first byte has this offset.
    pub fn of(text: &'a [u8], at: usize) -> Words<'a, B>
        requires { at + length text.now < 2 ^ 32 }
        ensures { result ≡ words_by B.holds at text.now }
    {
        Words {
            rest: text,
            at,
            bytes: PhantomData,
        }
    }

    /// Takes the next word, with its offset. All its bytes pass the test.
    pub fn take_word(&mut self) -> Option<(u32, &'a [u8])>
        ensures none { IfNone result (self.old ≡ []) }
        ensures some { IfSome result (λ word. self.old ≡ word_in word ∷ self.new) }
        ensures bytes { IfSome result (λ word. list_all B.holds word.1.now ≡ true) }
    {
        let (word, behind) = cut_word(self.rest, self.at)?;
        *self = behind;
        Some(word)
    }
}

impl<'a, B: WordBytes> Iterator for Words<'a, B> {
    ghost use Rattle.std.specs.Iterator.{item_count, YieldsFirstBy};
    ghost use Rattle.syn_lex.specs.Words.{word_in};

    type Item = (u32, &'a [u8]);

    ghost next_gives = { YieldsFirstBy word_in (λ rest. rest) };

    ghost remaining = { item_count (λ rest. rest) };

    /// The next word, with its offset.
    fn next(&mut self) -> Option<(u32, &'a [u8])> {
        let (word, behind) = cut_word(self.rest, self.at)?;
        *self = behind;
        Some(word)
    }
}
