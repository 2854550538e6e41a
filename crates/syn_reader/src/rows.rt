//! Rows of tables.

ghost use Rattle.std.specs.Prelude.{◌≡◌, ℕ, ◌++◌, List, [], ◌∷◌, map, false, true, IfErr, IfNone, IfOk, IfSome, OnOk, Some, None};
ghost use Rattle.syn_lex.specs.Words.{text_of};
ghost use Rattle.syn_reader.specs.Computed.{is_on, row_part, row_parts};
ghost use Rattle.syn_reader.specs.Statements.{rows_below};
ghost use Rattle.syn_reader.specs.Causes.{fault_in};
ghost use Rattle.syn_reader.specs.Parts.{statement_in};
ghost use Rattle.syn_reader.specs.Rows.{below_rows, output_in, row_fault, row_in, rows_fault};
ghost use Rattle.syn_reader.specs.Shapes.{is_character, is_input_part, is_row_of, last_word, output_word};

use crate::statements::{Parts, Statements};
use crate::{Kind, ReadFault};
use std::alloc::Global;
use syn_lex::LineWords;
use syn_netlist::Word;

fn is_input_part(inputs: usize, word: &[u8]) -> bool
    ensures { result ≡ is_input_part inputs word.now }
{
    if word.len() != inputs {
        return false;
    }
    for byte in word {
        if *byte != b'0' && *byte != b'1' && *byte != b'-' {
            return false;
        }
    }
    true
}

// The output that a word spells.
fn output_in(word: &[u8]) -> Option<bool>
    ensures { result ≡ output_in word.now }
{
    if b"1".as_slice() == word {
        Some(true)
    } else if b"0".as_slice() == word {
        Some(false)
    } else {
        None
    }
}

// The input part and the output of a row for so many inputs.
fn row_in<'a>(inputs: usize, words: LineWords<'a>) -> Option<(&'a [u8], bool)>
    ensures none { IfNone result (row_in inputs (map text_of words.entry) ≡ None) }
    ensures some { IfSome result (λ row. row_in inputs (map text_of words.entry) ≡ Some (row.0.now, row.1)) }
{
    let mut words = words;
    let (_, first) = words.next()?;
    let Some((_, output)) = words.next() else {
        if inputs > 0 {
            return None;
        }
        let on = output_in(first)?;
        return Some((b"", on));
    };
    if words.next().is_some() || inputs == 0 || !is_input_part(inputs, first) {
        return None;
    }
    let on = output_in(output)?;
    Some((first, on))
}

// The row of a table with so many inputs; or else its fault.
fn read_row<'a>(
    inputs: usize,
    line: u32,
    words: LineWords<'a>,
) -> Result<(&'a [u8], bool), ReadFault>
    ensures row { IfOk result (λ row. row_part inputs row.1 (map text_of words.entry) ≡ Some row.0.now) }
    ensures output { IfOk result (λ row. last_word (map text_of words.entry) ≡ output_word row.1) }
    ensures shape { OnOk result (is_row_of inputs (map text_of words.entry) ≡ true) }
    ensures fault { IfErr result (λ e. (e ≡ ReadFault.RowShape line) × (is_row_of inputs (map text_of words.entry) ≡ false)) }
{
    match row_in(inputs, words) {
        Some(row) => Ok(row),
        None => Err(ReadFault::RowShape(line)),
    }
}

// Puts a row behind those that are there, where its output is this.
fn push_row(
    alloc: Global,
    rows: &mut Vec<Word>,
    inputs: usize,
    on: bool,
    parts: Parts<'_>,
) -> Result<(), ReadFault>
    ensures ok { OnOk result ((part : List ℕ) × (row_part inputs on (map text_of parts.entry.words) ≡ Some part) × (rows.new.items ≡ rows.old.items ++ part ∷ [])) }
    ensures fine { OnOk result (row_fault inputs (Some on) (statement_in parts.entry) ≡ None) }
    ensures fault { IfErr result (λ e. IfSome (fault_in e) (λ f. row_fault inputs (Some on) (statement_in parts.entry) ≡ Some f)) }
{
    let (part, output) = read_row(inputs, parts.line, parts.words)?;
    if output != on {
        return Err(ReadFault::MixedRows(parts.line));
    }
    rows.push(Word::of(part.to_vec(alloc)?))?;
    Ok(())
}

/// The rows of a table: their input parts, and whether they list where it is true.
#[derive(Drop)]
pub struct Rows {
    pub parts: Vec<Word>,
    pub on: bool,
}

/// Takes the rows in front of the statements, which are rows for so many inputs and have one output.
pub fn read_rows(
    alloc: Global,
    statements: &mut Statements<'_>,
    inputs: usize,
) -> Result<Rows, ReadFault>
    ensures on { IfOk result (λ rows. is_on (rows_below statements.old) ≡ rows.on) }
    ensures parts { IfOk result (λ rows. row_parts inputs rows.on (rows_below statements.old) ≡ Some rows.parts.items) }
    ensures below { OnOk result (statements.new ≡ below_rows statements.old) }
    ensures fine { OnOk result (rows_fault inputs None statements.old ≡ None) }
    ensures fault { IfErr result (λ e. IfSome (fault_in e) (λ f. rows_fault inputs None statements.old ≡ Some f)) }
{
    let Some(row) = statements.take(Kind::Row) else {
        return Ok(Rows {
            parts: Vec::new(alloc),
            on: true,
        });
    };
    let (part, on) = read_row(inputs, row.line, row.words)?;
    let mut parts = Vec::with_capacity(alloc, 1)?;
    parts.push(Word::of(part.to_vec(alloc)?))?;
    while let Some(row) = statements.take(Kind::Row) {
        push_row(alloc, &mut parts, inputs, on, row)?;
    }
    Ok(Rows { parts, on })
}
