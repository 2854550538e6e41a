//! The first line of a file.

ghost use Rattle.std.specs.Prelude.{◌≡◌, ◌+◌, ◌≤◌, ◌<◌, IfErr, IfNone, IfOk, IfSome, None, Ok, Err, option_map, true};
ghost use Rattle.syn_aiger_files.specs.Headers.{HeaderFits, TakesNext, further_left, numbers_left};
ghost use Rattle.syn_aiger_files.specs.Spelling.{are_enough, fits_numbers, format_of, header_in, judged, most_variables, taken_by};
ghost use Rattle.syn_aiger_files.specs.Texts.{words_of};

use crate::cuts::cut_word;
use crate::fault::AigFault;
use crate::files::{Further, Header};
use crate::numbers::next_number;

/// The greatest number of a first line.
const MAX_VARIABLES: u32 = 268_435_455;

// Whether the format is the ASCII one, where the word is that of a format.
fn format_of(word: &[u8]) -> Option<bool>
    ensures { result ≡ format_of word.now }
{
    if b"aag".as_slice() == word {
        return Some(true);
    }
    if b"aig".as_slice() == word {
        return Some(false);
    }
    None
}

// The next number and what is left behind it; 0 where no word is left.
fn next_or_zero(text: Option<&[u8]>) -> Option<(u32, Option<&[u8]>)>
    ensures some { IfSome result (λ r. TakesNext (numbers_left (option_map (λ t. t.now) text.entry)) r.0 (numbers_left (option_map (λ t. t.now) r.1))) }
    ensures none { IfNone result (numbers_left (option_map (λ t. t.now) text.entry) ≡ None) }
{
    if text.is_none() {
        return Some((0, None));
    }
    next_number(text)
}

// The counts that may follow, where four numbers at most are left.
fn further(text: Option<&[u8]>) -> Option<Further>
    ensures { result ≡ further_left (numbers_left (option_map (λ t. t.now) text.entry)) }
{
    let Some((bad, rest)) = next_or_zero(text) else {
        return None;
    };
    let Some((constraints, rest)) = next_or_zero(rest) else {
        return None;
    };
    let Some((justice, rest)) = next_or_zero(rest) else {
        return None;
    };
    let Some((fairness, rest)) = next_or_zero(rest) else {
        return None;
    };
    if rest.is_some() {
        return None;
    }
    Some(Further {
        bad,
        constraints,
        justice,
        fairness,
    })
}

// Whether the counts are in range, and the variables are enough for what is defined.
fn fits(h: &Header) -> bool
    ensures fits { result ≡ fits_numbers h.now }
    ensures small { result ≡ true → HeaderFits h.now }
{
    let outputs = h.further.bad as u64 + h.further.constraints as u64 + h.outputs as u64;
    if h.variables > MAX_VARIABLES
        || h.inputs > MAX_VARIABLES
        || h.latches > MAX_VARIABLES
        || outputs > MAX_VARIABLES as u64
        || h.ands > MAX_VARIABLES
    {
        return false;
    }
    let defined = h.inputs + h.latches + h.ands;
    if h.ascii {
        return defined <= h.variables;
    }
    defined == h.variables
}

// The counts on a first line, where it is one of numbers.
fn counts(line: &[u8]) -> Option<Header>
    ensures { result ≡ header_in (words_of line.now) }
{
    let (word, rest) = cut_word(line);
    let Some(ascii) = format_of(word) else {
        return None;
    };
    let Some((variables, rest)) = next_number(rest) else {
        return None;
    };
    let Some((inputs, rest)) = next_number(rest) else {
        return None;
    };
    let Some((latches, rest)) = next_number(rest) else {
        return None;
    };
    let Some((outputs, rest)) = next_number(rest) else {
        return None;
    };
    let Some((ands, rest)) = next_number(rest) else {
        return None;
    };
    let Some(further) = further(rest) else {
        return None;
    };
    Some(Header {
        ascii,
        variables,
        inputs,
        latches,
        outputs,
        ands,
        further,
    })
}

// The first line, where the counts that may follow are taken; else its fault.
fn taken_by(properties: bool, h: Header) -> Result<Header, AigFault>
    ensures { result ≡ taken_by properties h }
{
    let further = h.further;
    let no_justice = further.justice == 0 && further.fairness == 0;
    if properties {
        return if no_justice {
            Ok(h)
        } else {
            Err(AigFault::Justice)
        };
    }
    if further.bad == 0 && further.constraints == 0 && no_justice {
        return Ok(h);
    }
    Err(AigFault::Header)
}

/// What a first line counts, where by the mark bad states and constraints are taken; or its fault.
pub fn read_header(properties: bool, line: &[u8]) -> Result<Header, AigFault>
    ensures header { IfOk result (λ h. judged properties (header_in (words_of line.now)) ≡ Ok h) }
    ensures fits { IfOk result HeaderFits }
    ensures fault { IfErr result (λ f. judged properties (header_in (words_of line.now)) ≡ Err f) }
{
    let Some(h) = counts(line) else {
        return Err(AigFault::Header);
    };
    if !fits(&h) {
        return Err(AigFault::Header);
    }
    taken_by(properties, h)
}
