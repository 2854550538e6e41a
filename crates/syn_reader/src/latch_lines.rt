//! Latches as words.

ghost use Rattle.std.specs.Prelude.{◌≡◌, ◌≢◌, ◌<◌, ◌≤◌, ◌+◌, ℕ, nat_lt, ◌&&◌, not, List, [], ◌∷◌, ◌++◌, length, map, true, IfErr, IfOk, IfSome, IfNone, OnOk, Some, None};
ghost use Rattle.syn_lex.specs.Words.{text_of};
ghost use Rattle.syn_netlist.specs.Lists.{control_of};
ghost use Rattle.syn_netlist.specs.Words.{is_word};
ghost use Rattle.syn_reader.specs.Causes.{fault_in};
ghost use Rattle.syn_reader.specs.Computed.{init_of, latch_of, type_of};
ghost use Rattle.syn_reader.specs.Definitions.{names_defined, names_read};
ghost use Rattle.syn_reader.specs.Heard.{all_words};
ghost use Rattle.syn_reader.specs.Keywords.{latch_fault};
ghost use Rattle.syn_reader.specs.LatchWords.{are_words, IsInit, IsKind, control_words, kind_of, latch_of_line, rest_words};

use crate::{Kind, ReadFault};
use syn_lex::LineWords;
use syn_netlist::LatchKind;

fn type_of(word: &[u8]) -> Option<LatchKind>
    ensures { result ≡ type_of word.now }
{
    if b"fe".as_slice() == word {
        Some(LatchKind::Fe)
    } else if b"re".as_slice() == word {
        Some(LatchKind::Re)
    } else if b"ah".as_slice() == word {
        Some(LatchKind::Ah)
    } else if b"al".as_slice() == word {
        Some(LatchKind::Al)
    } else if b"as".as_slice() == word {
        Some(LatchKind::As)
    } else {
        None
    }
}

fn init_of(word: &[u8]) -> Option<u8>
    ensures value { result ≡ init_of word.now }
    ensures small { IfSome result (λ init. init < 4) }
{
    match word {
        [b'0'] => Some(0),
        [b'1'] => Some(1),
        [b'2'] => Some(2),
        [b'3'] => Some(3),
        _ => None,
    }
}

// The words of a `.latch` line behind its output: a type with its control, and an initial value, where they are given.
#[derive(Clone, Copy)]
struct Rest<'a> {
    kind: Option<(&'a [u8], &'a [u8])>,
    init: Option<&'a [u8]>,
}

impl Rest<'_> {
    // How many words they are.
    fn count(&self) -> u32
        ensures { result ≡ length (rest_words self.now) }
    {
        match (self.kind, self.init) {
            (Some(_), Some(_)) => 3,
            (Some(_), None) => 2,
            (None, Some(_)) => 1,
            (None, None) => 0,
        }
    }
}

// At most three words as those behind the output.
fn rest_of<'a>(words: LineWords<'a>) -> Option<Rest<'a>>
    requires { all_words words ≡ true }
    ensures some { IfSome result (λ rest. map text_of words.entry ≡ rest_words rest) }
    ensures words { IfSome result (λ rest. are_words (rest_words rest) ≡ true) }
    ensures none { IfNone result (nat_lt 3 (length words.entry) ≡ true) }
{
    let mut words = words;
    let Some((_, first)) = words.next() else {
        return Some(Rest {
            kind: None,
            init: None,
        });
    };
    let Some((_, second)) = words.next() else {
        return Some(Rest {
            kind: None,
            init: Some(first),
        });
    };
    let third = match words.next() {
        Some((_, third)) => Some(third),
        None => None,
    };
    if words.next().is_some() {
        return None;
    }
    Some(Rest {
        kind: Some((first, second)),
        init: third,
    })
}

// The type of a latch, with the word of its control, where they are given.
fn kind_in<'a>(
    line: u32,
    words: Option<(&'a [u8], &'a [u8])>,
) -> Result<Option<(LatchKind, &'a [u8])>, ReadFault>
    ensures ok { IfOk result (IsKind words.entry) }
    ensures err { IfErr result (λ e. (e ≡ ReadFault.LatchType line) × IfSome words.entry (λ pair. type_of pair.0.now ≡ None) × (words.entry ≢ None)) }
{
    let Some((word, control)) = words else {
        return Ok(None);
    };
    match type_of(word) {
        Some(kind) => Ok(Some((kind, control))),
        None => Err(ReadFault::LatchType(line)),
    }
}

// The initial value of a latch, which is 3 where none is given.
fn init_in(line: u32, word: Option<&[u8]>) -> Result<u8, ReadFault>
    ensures ok { IfOk result (IsInit word.entry) }
    ensures small { IfOk result (λ init. init < 4) }
    ensures err { IfErr result (λ e. (e ≡ ReadFault.LatchInit line) × IfSome word.entry (λ w. init_of w.now ≡ None) × (word.entry ≢ None)) }
{
    let Some(word) = word else {
        return Ok(3);
    };
    match init_of(word) {
        Some(init) => Ok(init),
        None => Err(ReadFault::LatchInit(line)),
    }
}

/// A `.latch` line: what it loads, its output, its type with the word of its control, and its initial value.
#[derive(Clone, Copy)]
pub struct LatchLine<'a> {
    pub feed: &'a [u8],
    pub output: &'a [u8],
    pub kind: Option<(LatchKind, &'a [u8])>,
    pub init: u8,
    /// How many words there are behind the keyword.
    pub count: u32,
}

/// The latch of a line with these words; or else the fault of its words.
pub fn read_latch<'a>(line: u32, words: LineWords<'a>) -> Result<LatchLine<'a>, ReadFault>
    requires { all_words words ≡ true }
    ensures latch { IfOk result (λ l. latch_of (map text_of words.entry) ≡ Some (latch_of_line l)) }
    ensures defined { IfOk result (λ l. names_defined Kind.Latch (map text_of words.entry) ≡ l.output.now ∷ []) }
    ensures read { IfOk result (λ l. names_read Kind.Latch (map text_of words.entry) ≡ l.feed.now ∷ control_of (kind_of l.kind)) }
    ensures small { IfOk result (λ l. l.init < 4) }
    ensures words { IfOk result (λ l. are_words (l.feed.now ∷ l.output.now ∷ control_words l.kind) ≡ true) }
    ensures count { IfOk result (λ l. 2 + length (control_words l.kind) ≤ length words.entry) }
    ensures all { IfOk result (λ l. l.count ≡ length words.entry) }
    ensures faultless { OnOk result (latch_fault line (map text_of words.entry) ≡ None) }
    ensures fault { IfErr result (λ e. IfSome (fault_in e) (λ f. latch_fault line (map text_of words.entry) ≡ Some f)) }
{
    let mut words = words;
    let Some((_, feed)) = words.next() else {
        return Err(ReadFault::LatchShape(line));
    };
    let Some((_, output)) = words.next() else {
        return Err(ReadFault::LatchShape(line));
    };
    let Some(rest) = rest_of(words) else {
        return Err(ReadFault::LatchShape(line));
    };
    let kind = kind_in(line, rest.kind)?;
    let init = init_in(line, rest.init)?;
    Ok(LatchLine {
        feed,
        output,
        kind,
        init,
        count: 2 + rest.count(),
    })
}
