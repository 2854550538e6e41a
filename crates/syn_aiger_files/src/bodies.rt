//! The body of a file: its lines and pairs of numbers, one after the other.

ghost use Rattle.std.specs.Prelude.{◌≡◌, ◌⊎◌, ◌+◌, ◌*◌, ◌-◌, ◌<◌, ◌≤◌, ◌^◌, ℕ, List, [], ◌∷◌, true, false, drop, length, option_map, IfErr, IfOk, IfSome, OnOk, Ok, Err};
ghost use Rattle.syn_aiger_files.specs.declared.fault.AigFault.TheVariants.{NoMemory};
ghost use Rattle.syn_aiger_files.specs.Files.{all_outputs};
ghost use Rattle.syn_aiger_files.specs.Gathered.{SaysPart, body_by, is_binary, is_text, lists_of, no_lists, with_parts};
ghost use Rattle.syn_aiger_files.specs.Headers.{HeaderFits};
ghost use Rattle.syn_aiger_files.specs.Parts.{AndLine, Gate, InputLine, LatchLine, NextLine, OutputLine, defined_by, latch_by, may_define, missed, pair_by, said_by, taken, wanted_by};
ghost use Rattle.syn_aiger_files.specs.Seen.{AreSeen};
ghost use Rattle.syn_aiger_files.specs.Shown.{listed};
ghost use Rattle.syn_aiger_files.specs.Texts.{delta};

use crate::cuts::cut_line;
use crate::fault::AigFault;
use crate::files::{AigAnd, AigLatch, Header, Part, Wanted};
use crate::numbers::{OnLine, delta, numbers_on};
use crate::sets::NumberSet;
use std::alloc::{AllocError, Global};

/// The offset of what is left of so many bytes.
pub fn place(total: usize, rest: &[u8]) -> u32
    requires within { length rest.now ≤ total }
    requires short { total < 2 ^ 32 }
    ensures { result ≡ total - length rest.now }
{
    (total - rest.len()) as u32
}

// Whether a literal may be defined, with the literals that are; where it may, it is one of them from now on.
fn define(defined: &mut NumberSet, most: u32, l: u32) -> Result<bool, AllocError>
    ensures { (ls : List ℕ) → AreSeen defined.old ls → IfOk result (λ may. (may ≡ may_define most ls l) × (may ≡ true → AreSeen defined.new (l ∷ ls))) }
{
    if l % 2 != 0 || l < 2 || l > most {
        return Ok(false);
    }
    defined.insert(l / 2 - 1)
}

// The latch of these numbers, where they may be its.
fn latch_by(most: u32, own: u32, next: u32, reset: u32) -> Option<Part>
    ensures { result ≡ latch_by most own next reset }
{
    if next > most || (reset > 1 && reset != own) {
        return None;
    }
    Some(Part::Latched(AigLatch {
        literal: own,
        next,
        reset,
    }))
}

fn said_input(
    defined: &mut NumberSet,
    most: u32,
    numbers: OnLine,
) -> Result<Option<Part>, AllocError>
    ensures { (ls : List ℕ) → AreSeen defined.old ls → IfOk result (SaysPart most ls InputLine (listed numbers) defined.new) }
{
    match numbers {
        OnLine::One(l) => {
            if define(defined, most, l)? {
                Ok(Some(Part::Input(l)))
            } else {
                Ok(None)
            }
        }
        _ => Ok(None),
    }
}

fn defined_latch(
    defined: &mut NumberSet,
    most: u32,
    own: u32,
    next: u32,
    reset: u32,
) -> Result<Option<Part>, AllocError>
    ensures { (ls : List ℕ) → AreSeen defined.old ls → IfOk result (SaysPart most ls LatchLine (own ∷ next ∷ reset ∷ []) defined.new) }
{
    if define(defined, most, own)? {
        Ok(latch_by(most, own, next, reset))
    } else {
        Ok(None)
    }
}

fn said_latch(
    defined: &mut NumberSet,
    most: u32,
    numbers: OnLine,
) -> Result<Option<Part>, AllocError>
    ensures { (ls : List ℕ) → AreSeen defined.old ls → IfOk result (SaysPart most ls LatchLine (listed numbers) defined.new) }
{
    match numbers {
        OnLine::Two(own, next) => defined_latch(defined, most, own, next, 0),
        OnLine::Three(own, next, reset) => defined_latch(defined, most, own, next, reset),
        _ => Ok(None),
    }
}

fn said_output(most: u32, numbers: OnLine) -> Option<Part>
    ensures { (ls : List ℕ) → result ≡ said_by most ls OutputLine (listed numbers) }
{
    match numbers {
        OnLine::One(l) => {
            if l <= most {
                Some(Part::Output(l))
            } else {
                None
            }
        }
        _ => None,
    }
}

fn said_and(defined: &mut NumberSet, most: u32, numbers: OnLine) -> Result<Option<Part>, AllocError>
    ensures { (ls : List ℕ) → AreSeen defined.old ls → IfOk result (SaysPart most ls AndLine (listed numbers) defined.new) }
{
    match numbers {
        OnLine::Three(literal, first, second) => {
            if define(defined, most, literal)? && first <= most && second <= most {
                Ok(Some(Part::Gate(AigAnd {
                    literal,
                    first,
                    second,
                })))
            } else {
                Ok(None)
            }
        }
        _ => Ok(None),
    }
}

fn said_next(most: u32, own: u32, numbers: OnLine) -> Option<Part>
    ensures { (ls : List ℕ) → result ≡ said_by most ls (NextLine own) (listed numbers) }
{
    match numbers {
        OnLine::One(next) => latch_by(most, own, next, 0),
        OnLine::Two(next, reset) => latch_by(most, own, next, reset),
        _ => None,
    }
}

// What a line of an ASCII file says.
fn said_by(
    defined: &mut NumberSet,
    most: u32,
    wanted: Wanted,
    numbers: OnLine,
) -> Result<Option<Part>, AllocError>
    requires { is_text wanted ≡ true }
    ensures { (ls : List ℕ) → AreSeen defined.old ls → IfOk result (SaysPart most ls wanted (listed numbers) defined.new) }
{
    match wanted {
        Wanted::InputLine => said_input(defined, most, numbers),
        Wanted::LatchLine => said_latch(defined, most, numbers),
        Wanted::AndLine => said_and(defined, most, numbers),
        Wanted::OutputLine => Ok(said_output(most, numbers)),
        _ => Ok(None),
    }
}

// What the line in front says in an ASCII file, and what stands behind it.
fn take_line<'a>(
    defined: &mut NumberSet,
    most: u32,
    wanted: Wanted,
    bytes: &'a [u8],
) -> Result<Option<(Part, &'a [u8])>, AllocError>
    requires { is_text wanted ≡ true }
    ensures taken { (ls : List ℕ) → AreSeen defined.old ls → IfOk result (λ got. (option_map (λ g. (g.0, g.1.now)) got ≡ taken most ls wanted bytes.now) × IfSome got (λ g. AreSeen defined.new (defined_by ls g.0))) }
    ensures within { IfOk result (λ got. IfSome got (λ g. length g.1.now ≤ length bytes.now)) }
{
    let (line, rest) = cut_line(bytes);
    let said = said_by(defined, most, wanted, numbers_on(line))?;
    match said {
        Some(part) => Ok(Some((part, rest))),
        None => Ok(None),
    }
}

// The AND of the pair of numbers in front, and what stands behind it.
fn take_pair(literal: u32, bytes: &[u8]) -> Option<(Part, &[u8])>
    ensures pair { option_map (λ g. (g.0, g.1.now)) result ≡ pair_by literal (delta 5 bytes.now) }
    ensures within { IfSome result (λ g. length g.1.now ≤ length bytes.now) }
{
    let Some((by, rest)) = delta(5, bytes) else {
        return None;
    };
    if by == 0 {
        return None;
    }
    if by > literal as u64 {
        return None;
    }
    let first = literal - by as u32;
    let Some((under, rest)) = delta(5, rest) else {
        return None;
    };
    if under > first as u64 {
        return None;
    }
    let second = first - under as u32;
    Some((
        Part::Gate(AigAnd {
            literal,
            first,
            second,
        }),
        rest,
    ))
}

// The latch of the line in front in a binary file, and what stands behind it.
fn take_next(most: u32, own: u32, bytes: &[u8]) -> Option<(Part, &[u8])>
    ensures taken { (ls : List ℕ) → option_map (λ g. (g.0, g.1.now)) result ≡ taken most ls (NextLine own) bytes.now }
    ensures within { IfSome result (λ g. length g.1.now ≤ length bytes.now) }
{
    let (line, rest) = cut_line(bytes);
    let said = said_next(most, own, numbers_on(line));
    match said {
        Some(part) => Some((part, rest)),
        None => None,
    }
}

// The output of the line in front, and what stands behind it.
fn take_output(most: u32, bytes: &[u8]) -> Option<(Part, &[u8])>
    ensures taken { (ls : List ℕ) → option_map (λ g. (g.0, g.1.now)) result ≡ taken most ls OutputLine bytes.now }
    ensures within { IfSome result (λ g. length g.1.now ≤ length bytes.now) }
{
    let (line, rest) = cut_line(bytes);
    let said = said_output(most, numbers_on(line));
    match said {
        Some(part) => Some((part, rest)),
        None => None,
    }
}

// What a binary file says in front, and what stands behind it.
fn take_item(most: u32, wanted: Wanted, bytes: &[u8]) -> Option<(Part, &[u8])>
    requires { is_binary wanted ≡ true }
    ensures taken { (ls : List ℕ) → option_map (λ g. (g.0, g.1.now)) result ≡ taken most ls wanted bytes.now }
    ensures within { IfSome result (λ g. length g.1.now ≤ length bytes.now) }
{
    match wanted {
        Wanted::PairOf(literal) => take_pair(literal, bytes),
        Wanted::NextLine(own) => take_next(most, own, bytes),
        Wanted::OutputLine => take_output(most, bytes),
        _ => None,
    }
}

// The fault where it isn't as wanted.
fn missed(wanted: Wanted, at: u32) -> AigFault
    ensures { result ≡ missed wanted at }
{
    match wanted {
        Wanted::PairOf(_) => AigFault::Pair(at),
        _ => AigFault::Line(at),
    }
}

/// The lists of a body, as far as it is read.
#[derive(Drop)]
pub struct Body {
    pub inputs: Vec<u32>,
    pub latches: Vec<AigLatch>,
    pub outputs: Vec<u32>,
    pub ands: Vec<AigAnd>,
}

impl Body {
    fn new(alloc: Global) -> Body
        ensures { lists_of result ≡ no_lists }
    {
        Body {
            inputs: Vec::new(alloc),
            latches: Vec::new(alloc),
            outputs: Vec::new(alloc),
            ands: Vec::new(alloc),
        }
    }

    fn add(&mut self, part: Part) -> Result<(), AllocError>
        ensures { OnOk result (lists_of self.new ≡ with_parts (lists_of self.old) (part ∷ [])) }
    {
        match part {
            Part::Input(l) => self.inputs.push(l)?,
            Part::Latched(latch) => self.latches.push(latch)?,
            Part::Output(l) => self.outputs.push(l)?,
            Part::Gate(gate) => self.ands.push(gate)?,
        }
        Ok(())
    }
}

// What the body of an ASCII file has at a place.
fn wanted_in_ascii(h: &Header, k: u32) -> Wanted
    requires fits { HeaderFits h.now }
    requires within { k < h.now.inputs + h.now.latches + all_outputs h.now + h.now.ands }
    ensures next { drop k (wanted_by true h.now) ≡ result ∷ drop (k + 1) (wanted_by true h.now) }
    ensures text { is_text result ≡ true }
{
    if k < h.inputs {
        return Wanted::InputLine;
    }
    if k < h.inputs + h.latches {
        return Wanted::LatchLine;
    }
    if k < h.inputs + h.latches + h.all_outputs() {
        return Wanted::OutputLine;
    }
    Wanted::AndLine
}

// What the body of a binary file has at a place.
fn wanted_in_binary(h: &Header, k: u32) -> Wanted
    requires fits { HeaderFits h.now }
    requires within { k < h.now.latches + all_outputs h.now + h.now.ands }
    ensures next { drop k (wanted_by false h.now) ≡ result ∷ drop (k + 1) (wanted_by false h.now) }
    ensures binary { is_binary result ≡ true }
{
    if k < h.latches {
        return Wanted::NextLine(2 * (h.inputs + 1 + k));
    }
    let outputs = h.all_outputs();
    if k < h.latches + outputs {
        return Wanted::OutputLine;
    }
    Wanted::PairOf(2 * (h.inputs + h.latches + 1 + (k - h.latches - outputs)))
}

// The body of an ASCII file and what stands behind it.
fn read_ascii<'a>(
    alloc: Global,
    h: &Header,
    total: usize,
    bytes: &'a [u8],
) -> Result<(Body, &'a [u8]), AigFault>
    requires fits { HeaderFits h.now }
    requires within { length bytes.now ≤ total }
    requires short { total < 2 ^ 32 }
    ensures body { IfOk result (λ r. body_by true h.now total bytes.now ≡ Ok (lists_of r.0, r.1.now)) }
    ensures within { IfOk result (λ r. length r.1.now ≤ total) }
    ensures fault { IfErr result (λ f. (f ≡ NoMemory) ⊎ (body_by true h.now total bytes.now ≡ Err f)) }
{
    let most = 2 * h.variables + 1;
    let mut defined = NumberSet::new(alloc);
    let mut body = Body::new(alloc);
    let mut rest = bytes;
    for k in 0..h.inputs + h.latches + h.all_outputs() + h.ands {
        let wanted = wanted_in_ascii(h, k);
        let Some((part, behind)) = take_line(&mut defined, most, wanted, rest)? else {
            return Err(AigFault::Line(place(total, rest)));
        };
        body.add(part)?;
        rest = behind;
    }
    Ok((body, rest))
}

// The body of a binary file and what stands behind it.
fn read_binary<'a>(
    alloc: Global,
    h: &Header,
    total: usize,
    bytes: &'a [u8],
) -> Result<(Body, &'a [u8]), AigFault>
    requires fits { HeaderFits h.now }
    requires within { length bytes.now ≤ total }
    requires short { total < 2 ^ 32 }
    ensures body { IfOk result (λ r. body_by false h.now total bytes.now ≡ Ok (lists_of r.0, r.1.now)) }
    ensures within { IfOk result (λ r. length r.1.now ≤ total) }
    ensures fault { IfErr result (λ f. (f ≡ NoMemory) ⊎ (body_by false h.now total bytes.now ≡ Err f)) }
{
    let most = 2 * h.variables + 1;
    let mut body = Body::new(alloc);
    let mut rest = bytes;
    for k in 0..h.latches + h.all_outputs() + h.ands {
        let wanted = wanted_in_binary(h, k);
        let Some((part, behind)) = take_item(most, wanted, rest) else {
            return Err(missed(wanted, place(total, rest)));
        };
        body.add(part)?;
        rest = behind;
    }
    Ok((body, rest))
}

/// The body of a file of so many bytes, whose first line is read, and what stands behind it; or the first fault.
pub fn read_body<'a>(
    alloc: Global,
    h: &Header,
    total: usize,
    bytes: &'a [u8],
) -> Result<(Body, &'a [u8]), AigFault>
    requires fits { HeaderFits h.now }
    requires within { length bytes.now ≤ total }
    requires short { total < 2 ^ 32 }
    ensures body { IfOk result (λ r. body_by h.now.ascii h.now total bytes.now ≡ Ok (lists_of r.0, r.1.now)) }
    ensures within { IfOk result (λ r. length r.1.now ≤ total) }
    ensures fault { IfErr result (λ f. (f ≡ NoMemory) ⊎ (body_by h.now.ascii h.now total bytes.now ≡ Err f)) }
{
    if h.ascii {
        read_ascii(alloc, h, total, bytes)
    } else {
        read_binary(alloc, h, total, bytes)
    }
}
