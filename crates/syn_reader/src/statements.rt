//! Logical lines as statements.

ghost use Rattle.std.specs.Prelude.{◌≡◌, ℕ, ◌↔◌, List, [], ◌∷◌, ◌++◌, map, true, IsTrue, IfNone, IfSome};
ghost use Rattle.syn_lex.specs.Lines.{LogicalLine};
ghost use Rattle.syn_lex.specs.Words.{text_of};
ghost use Rattle.syn_reader.specs.Heard.{all_words, Begins, line_words, lines_words, statement};
ghost use Rattle.syn_reader.specs.Statements.{begins_model, begins_with_dot, keywords, kind_in, statement_of};
ghost use Rattle.syn_reader.specs.Parts.{ahead, ahead_words, is_settled, statement_in};

use crate::Kind;
use std::marker::Model;
use syn_lex::{Line, LineWords, Logical};

// The kind of a keyword.
fn kind_of(word: &[u8]) -> Kind
    ensures { result ≡ kind_in keywords word.now }
{
    if b".model".as_slice() == word {
        Kind::Model
    } else if b".inputs".as_slice() == word {
        Kind::Inputs
    } else if b".outputs".as_slice() == word {
        Kind::Outputs
    } else if b".clock".as_slice() == word {
        Kind::Clock
    } else if b".names".as_slice() == word {
        Kind::Names
    } else if b".latch".as_slice() == word {
        Kind::Latch
    } else if b".subckt".as_slice() == word {
        Kind::Subckt
    } else if b".end".as_slice() == word {
        Kind::End
    } else {
        Kind::Unknown
    }
}

fn begins_with_dot(word: &[u8]) -> bool
    ensures { result ≡ begins_with_dot word.now }
{
    word.first() == Some(&b'.')
}

/// A line as a statement: its number, its kind, and its words; behind a keyword these are the further words.
#[derive(Drop)]
pub struct Parts<'a> {
    pub line: u32,
    pub kind: Kind,
    pub words: LineWords<'a>,
}

fn parts_of<'a>(line: &Line<'a>) -> Parts<'a>
    ensures value { statement_in result ≡ statement_of line.now }
    ensures words { line_words line.now ≡ true → all_words result.words ≡ true }
{
    let mut words = line.words();
    match words.next() {
        Some((_, first)) if begins_with_dot(first) => Parts {
            line: line.number(),
            kind: kind_of(first),
            words,
        },
        _ => Parts {
            line: line.number(),
            kind: Kind::Row,
            words: line.words(),
        },
    }
}

/// The statements that are left of a text. Contracts see their list.
#[derive(Drop)]
pub struct Statements<'a> {
    next: Option<Parts<'a>>,
    lines: Logical<'a>,
}

impl<'a> Model for Statements<'a> {
    ghost use Rattle.std.specs.Prelude.{◌≡◌, ◌++◌, true, List, map};
    ghost use Rattle.syn_reader.specs.Heard.{lines_words};
    ghost use Rattle.syn_reader.specs.Statements.{Statement, statement_of};
    ghost use Rattle.syn_reader.specs.Parts.{ahead, ahead_words, is_settled};

    ghost Value = { List Statement };

    ghost view = { λ s. ahead s.next ++ map statement_of s.lines };

    ghost invariant = { λ s. (ahead_words s.next ≡ true) × (lines_words s.lines ≡ true) × (is_settled s.next s.lines ≡ true) };
}

fn next_parts<'a>(lines: &mut Logical<'a>) -> Option<Parts<'a>>
    requires { lines_words lines.old ≡ true }
    ensures value { ahead result ++ map statement_of lines.new ≡ map statement_of lines.old }
    ensures settled { is_settled result lines.new ≡ true }
    ensures words { ahead_words result ≡ true }
    ensures left { lines_words lines.new ≡ true }
{
    let line = lines.next()?;
    Some(parts_of(&line))
}

impl<'a> Statements<'a> {
    /// The statements of the lines of a file.
    pub fn of(lines: Logical<'a>) -> Statements<'a>
        requires { lines_words lines ≡ true }
        ensures { result ≡ map statement_of lines.entry }
    {
        let mut lines = lines;
        let next = next_parts(&mut lines);
        Statements { next, lines }
    }

    /// Whether the next statement is `.model`.
    pub fn begins_model(&self) -> bool
        ensures { result ≡ begins_model self.now }
    {
        match &self.next {
            Some(parts) => matches!(parts.kind, Kind::Model),
            None => false,
        }
    }

    /// Takes the next statement.
    pub fn next(&mut self) -> Option<Parts<'a>>
        ensures none { IfNone result ((self.old ≡ []) × (self.new ≡ [])) }
        ensures some { IfSome result (λ parts. self.old ≡ statement_in parts ∷ self.new) }
        ensures words { IfSome result (λ parts. all_words parts.words ≡ true) }
    {
        let parts = self.next.take()?;
        self.next = next_parts(&mut self.lines);
        Some(parts)
    }

    /// Takes the next statement where it is of this kind.
    pub fn take(&mut self, kind: Kind) -> Option<Parts<'a>>
        ensures none { IfNone result ((self.new ≡ self.old) × (Begins kind self.old → ⊥)) }
        ensures some { IfSome result (λ parts. self.old ≡ statement parts.line kind (map text_of parts.words) ∷ self.new) }
        ensures words { IfSome result (λ parts. all_words parts.words ≡ true) }
    {
        let Some(parts) = self.next.take() else {
            return None;
        };
        if parts.kind != kind {
            self.next = Some(parts);
            return None;
        }
        self.next = next_parts(&mut self.lines);
        Some(parts)
    }
}
