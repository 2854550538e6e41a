//! Names of files, as words of a script and as text.

ghost use Rattle.std.specs.Prelude.{◌≡◌, [], true, IfOk, map};
ghost use Rattle.std.specs.List.{list_all};
ghost use Rattle.syn_words.specs.Bytes.{is_word_byte};
ghost use Rattle.syn_words.specs.Quotes.{meant};

use crate::quotes::meant;
use std::alloc::{AllocError, Global};
use std::marker::Model;

/// The bytes of a word, or none; each may stand in a word. Contracts see them.
#[derive(Debug, Drop)]
pub struct WordText<'a> {
    bytes: &'a [u8],
}

impl<'a> Model for WordText<'a> {
    ghost use Rattle.std.specs.Prelude.{◌≡◌, true, ℕ, List};
    ghost use Rattle.std.specs.List.{list_all};
    ghost use Rattle.syn_words.specs.Bytes.{is_word_byte};

    ghost Value = { List ℕ };

    ghost view = { λ name. name.bytes.now };

    ghost invariant = { λ name. list_all is_word_byte name.bytes.now ≡ true };
}

impl<'a> WordText<'a> {
    /// No byte.
    pub fn empty() -> WordText<'a>
        ensures { result ≡ [] }
    {
        WordText { bytes: &[] }
    }

    /// Bytes of which each may stand in a word.
    pub fn of(bytes: &'a [u8]) -> WordText<'a>
        requires { list_all is_word_byte bytes.now ≡ true }
        ensures { result ≡ bytes.now }
    {
        WordText { bytes }
    }

    /// The bytes.
    pub fn as_slice(&self) -> &[u8]
        ensures { result.now ≡ self.now }
    {
        self.bytes
    }
}

/// The name of a file. Contracts see its bytes.
#[derive(Debug, Drop)]
pub struct FileName {
    text: String,
}

impl Model for FileName {
    ghost use Rattle.std.specs.Prelude.{ℕ, List, string_bytes};

    ghost Value = { List ℕ };

    ghost view = { λ name. string_bytes name.text };
}

impl FileName {
    /// A word as a file's name.
    pub(crate) fn of(alloc: Global, name: WordText<'_>) -> Result<FileName, AllocError>
        ensures { IfOk result (λ made. made ≡ map meant name.entry) }
    {
        let mut text = String::new(alloc);
        let bytes = name.as_slice();
        for byte in bytes {
            text.push(char::from(meant(*byte)))?;
        }
        Ok(FileName { text })
    }

    /// The name as text.
    pub fn as_str(&self) -> &str
        ensures { result.now ≡ self.now }
    {
        self.text.as_str()
    }
}
