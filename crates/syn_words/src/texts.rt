//! Texts that commands print.

ghost use Rattle.std.specs.Prelude.{◌≡◌, [], ◌++◌, OnOk, IfOk, map};
ghost use Rattle.syn_words.specs.Quotes.{meant};
ghost use Rattle.syn_words.specs.Texts.{apart, echoed, with_word};

use crate::quotes::meant;
use crate::words::CommandWords;
use std::alloc::{AllocError, Global};
use std::marker::Model;

/// A text that a command prints. Contracts see its bytes.
#[derive(Debug, Drop)]
pub struct Text {
    bytes: Vec<u8>,
}

impl Model for Text {
    ghost use Rattle.std.specs.Prelude.{ℕ, List};

    ghost Value = { List ℕ };

    ghost view = { λ text. text.bytes.items };
}

impl Text {
    /// These bytes.
    pub(crate) fn of(bytes: Vec<u8>) -> Text
        ensures { result ≡ bytes.items }
    {
        Text { bytes }
    }

    /// The bytes.
    pub fn as_slice(&self) -> &[u8]
        ensures { result.now ≡ self.now }
    {
        self.bytes.as_slice()
    }
}

// Puts the bytes of a word behind a line, as they are meant.
fn push_meant(line: &mut Vec<u8>, word: &[u8]) -> Result<(), AllocError>
    ensures { OnOk result (line.new.items ≡ line.old.items ++ map meant word.now) }
{
    for byte in word {
        line.push(meant(*byte))?;
    }
    Ok(())
}

/// The bytes of a word, as they are meant.
pub fn meant_text(alloc: Global, word: &[u8]) -> Result<Text, AllocError>
    ensures { IfOk result (λ text. text ≡ map meant word.now) }
{
    let mut line = Vec::new(alloc);
    push_meant(&mut line, word)?;
    Ok(Text::of(line))
}

// Puts a blank behind a line, where it has a byte.
fn push_apart(line: &mut Vec<u8>) -> Result<(), AllocError>
    ensures { OnOk result (line.new.items ≡ apart line.old.items) }
{
    if line.as_slice().is_empty() {
        return Ok(());
    }
    line.push(b' ')?;
    Ok(())
}

// Puts a word behind a line, a blank apart where it isn't the first.
fn push_word(line: &mut Vec<u8>, word: &[u8]) -> Result<(), AllocError>
    ensures { OnOk result (line.new.items ≡ with_word line.old.items word.now) }
{
    push_apart(line)?;
    push_meant(line, word)
}

/// The line of words, one blank apart.
pub fn echoed(alloc: Global, words: CommandWords<'_>) -> Result<Text, AllocError>
    ensures { IfOk result (λ text. text ≡ echoed words.entry) }
{
    let mut line = Vec::new(alloc);
    for (_, word) in words {
        push_word(&mut line, word)?;
    }
    line.push(b'\n')?;
    Ok(Text::of(line))
}
