//! Lines of subcircuits.

ghost use Rattle.std.specs.Prelude.{◌≡◌, ◌+◌, [], ◌∷◌, length, map, true, IfErr, IfNone, IfOk, IfSome, OnOk, Some, None};
ghost use Rattle.std.specs.List.{list_all};
ghost use Rattle.syn_lex.specs.Words.{text_of};
ghost use Rattle.syn_netlist.specs.Words.{is_word};
ghost use Rattle.syn_reader.specs.Faults.{SubcktShape};
ghost use Rattle.syn_reader.specs.Heard.{all_words};
ghost use Rattle.syn_reader.specs.Binds.{are_bind_words, bind_in_line, subcircuit_in_line};
ghost use Rattle.syn_reader.specs.Causes.{fault_in};
ghost use Rattle.syn_reader.specs.Subcircuits.{bind_of, is_no_bind, subcircuit_of};

use crate::ReadFault;
use std::alloc::Global;
use syn_lex::{LineWords, bytes_before};

/// A bind as words: its formal and its actual.
#[derive(Clone, Copy)]
pub struct BindLine<'a> {
    pub formal: &'a [u8],
    pub actual: &'a [u8],
}

// Whether a formal and an actual are no bind.
fn is_no_bind(formal: &[u8], actual: &[u8]) -> bool
    ensures { result ≡ is_no_bind formal.now actual.now }
{
    formal.is_empty() || actual.is_empty() || b"NIL".as_slice() == actual
}

// The bind that a word spells.
fn cut_bind(word: &[u8]) -> Option<BindLine<'_>>
    requires { is_word word.now ≡ true }
    ensures none { IfNone result (bind_of word.now ≡ None) }
    ensures some { IfSome result (λ bind. bind_of word.now ≡ Some (bind_in_line bind)) }
    ensures words { IfSome result (λ bind. are_bind_words bind ≡ true) }
{
    let (formal, rest) = word.split_at(bytes_before(word, b'='));
    let Some((_, actual)) = rest.split_first() else {
        return None;
    };
    if is_no_bind(formal, actual) {
        return None;
    }
    Some(BindLine { formal, actual })
}

/// A `.subckt` line as words: the name of the model, and the binds.
#[derive(Drop)]
pub struct SubcktLine<'a> {
    pub model: &'a [u8],
    pub binds: Vec<BindLine<'a>>,
}

/// The subcircuit that the words of a line spell; or else the fault of their shape.
pub fn read_subckt<'a>(
    alloc: Global,
    line: u32,
    words: LineWords<'a>,
) -> Result<SubcktLine<'a>, ReadFault>
    requires { all_words words ≡ true }
    ensures spelled { IfOk result (λ c. subcircuit_of (map text_of words.entry) ≡ Some (subcircuit_in_line c)) }
    ensures model { IfOk result (λ c. is_word c.model.now ≡ true) }
    ensures words { IfOk result (λ c. list_all are_bind_words c.binds.items ≡ true) }
    ensures count { IfOk result (λ c. length words.entry ≡ 1 + length c.binds.items) }
    ensures fault { IfErr result (λ e. IfSome (fault_in e) (λ f. (f ≡ SubcktShape line) × (subcircuit_of (map text_of words.entry) ≡ None))) }
{
    let mut words = words;
    let Some((_, model)) = words.next() else {
        return Err(ReadFault::SubcktShape(line));
    };
    let mut binds = Vec::new(alloc);
    for (_, word) in words {
        let Some(bind) = cut_bind(word) else {
            return Err(ReadFault::SubcktShape(line));
        };
        binds.push(bind)?;
    }
    Ok(SubcktLine { model, binds })
}
