//! The words of a script, and its commands as words.

ghost use Rattle.std.specs.Prelude.{◌≡◌, ◌+◌, ◌^◌, ◌<◌, [], ◌∷◌, length, IfSome, IfNone};
ghost use Rattle.syn_words.specs.Bytes.{bad_byte, may_stand, may_stand_if};
ghost use Rattle.syn_words.specs.Phrases.{phrases, phrases_at, pieces};

use crate::names::WordText;
use std::marker::Model;
use syn_lex::{WordBytes, Words, cut_piece};

fn may_stand(byte: u8) -> bool
    ensures { result ≡ may_stand byte }
{
    byte == b'\t' || byte == b'\r' || (byte >= 32 && byte <= 126)
}

// Whether a byte may stand: also one above 127, where bytes may be held as such.
fn may_stand_if(held: bool, byte: u8) -> bool
    ensures { result ≡ may_stand_if held byte }
{
    may_stand(byte) || (held && byte > 127)
}

// The offset of the first byte that may not stand in a script, where bytes may be held in quotes or not.
pub fn bad_byte(held: bool, text: &[u8]) -> Option<u32>
    requires { length text.now < 2 ^ 32 }
    ensures { result ≡ bad_byte held text.now }
{
    for (i, byte) in text.iter().enumerate() {
        if !may_stand_if(held, *byte) {
            return Some(i as u32);
        }
    }
    None
}

/// The bytes of words in a script: 33 to 126, and those above 127.
pub struct ScriptBytes;

impl WordBytes for ScriptBytes {
    ghost use Rattle.syn_words.specs.Bytes.{is_word_byte};

    ghost holds = { is_word_byte };

    fn holds(byte: u8) -> bool {
        byte > 32 && byte != 127
    }
}

/// The words that are left of a command.
pub type CommandWords<'a> = Words<'a, ScriptBytes>;

// A word: the offset of its first byte in the text, and its bytes. Contracts see it as the lexer's.
#[derive(Debug, Drop)]
pub struct Word<'a> {
    pub at: u32,
    pub text: WordText<'a>,
}

impl<'a> Model for Word<'a> {
    ghost use Rattle.syn_lex.specs.Words.{Word};

    ghost Value = { Word };

    ghost view = { λ w. record { at = w.at; text = w.text } };
}

// Takes the next word.
pub fn next_word<'a>(words: &mut CommandWords<'a>) -> Option<Word<'a>>
    ensures none { IfNone result (words.old ≡ []) }
    ensures some { IfSome result (λ word. words.old ≡ word ∷ words.new) }
{
    let (at, text) = words.take_word()?;
    Some(Word {
        at,
        text: WordText::of(text),
    })
}

// A command as it is written: its first word, the words behind it, and the offset at which it ends.
#[derive(Drop)]
pub struct Phrase<'a> {
    pub name: Word<'a>,
    pub further: CommandWords<'a>,
    pub end: u32,
}

// The commands that are left of a text, as words, in order. Contracts see their list.
#[derive(Drop)]
pub struct Phrases<'a> {
    rest: &'a [u8],
    at: usize,
}

impl<'a> Model for Phrases<'a> {
    ghost use Rattle.std.specs.Prelude.{List, ◌+◌, ◌<◌, ◌^◌, length};
    ghost use Rattle.syn_words.specs.declared.words.Phrase.{Phrase};
    ghost use Rattle.syn_words.specs.Phrases.{phrases_at, pieces};

    ghost Value = { List Phrase };

    ghost view = { λ p. phrases_at p.at (pieces p.rest.now) };

    ghost invariant = { λ p. p.at + length p.rest.now < 2 ^ 32 };
}

// The first phrase, and those behind it.
fn cut_phrase<'a>(text: &'a [u8], start: usize) -> Option<(Phrase<'a>, Phrases<'a>)>
    requires { start + length text.now < 2 ^ 32 }
    ensures none { IfNone result (phrases_at start (pieces text.now) ≡ []) }
    ensures some { IfSome result (λ cut. phrases_at start (pieces text.now) ≡ cut.0 ∷ cut.1) }
{
    let mut rest = text;
    let mut at = start;
    while !rest.is_empty() {
        let (piece, behind) = cut_piece(rest, b';');
        let end = (at + piece.len()) as u32;
        let mut further = Words::of(piece, at);
        let first = next_word(&mut further);
        at += rest.len() - behind.len();
        rest = behind;
        if let Some(name) = first {
            return Some((Phrase { name, further, end }, Phrases { rest, at }));
        }
    }
    None
}

impl<'a> Phrases<'a> {
    // The commands of a text, as words.
    pub fn of(text: &'a [u8]) -> Phrases<'a>
        requires { length text.now < 2 ^ 32 }
        ensures { result ≡ phrases text.now }
    {
        Phrases { rest: text, at: 0 }
    }
}

impl<'a> Iterator for Phrases<'a> {
    ghost use Rattle.std.specs.Iterator.{item_count, YieldsFirstBy};

    type Item = Phrase<'a>;

    ghost next_gives = { YieldsFirstBy (λ phrase. phrase) (λ rest. rest) };

    ghost remaining = { item_count (λ rest. rest) };

    // The next command that has words.
    fn next(&mut self) -> Option<Phrase<'a>> {
        let (phrase, behind) = cut_phrase(self.rest, self.at)?;
        *self = behind;
        Some(phrase)
    }
}
