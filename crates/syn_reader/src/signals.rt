//! Names with a mark for each.

ghost use Rattle.std.specs.Prelude.{[], ◌∷◌, ◌++◌, bytes_eq, not, ◌≡◌, ◌+◌, ◌^◌, ◌<◌, ◌≤◌, length, map, false, true, IfErr, IfOk, IfSome, OnOk, Some, None, option_map};
ghost use Rattle.syn_lex.specs.Words.{text_of};
ghost use Rattle.std.specs.List.{list_all};
ghost use Rattle.syn_netlist.specs.Kept.{control_number, latch_in, latch_numbers, nil_word};
ghost use Rattle.syn_netlist.specs.Lists.{control_of};
ghost use Rattle.syn_netlist.specs.Numbers.{all_below, Grows, kind_at, with_word, word_at, words_at};
ghost use Rattle.syn_netlist.specs.Words.{distinct, is_word};
ghost use Rattle.syn_reader.specs.Causes.{fault_in};
ghost use Rattle.syn_reader.specs.Definitions.{names_defined};
ghost use Rattle.syn_reader.specs.Faults.{DefinedTwice};
ghost use Rattle.syn_reader.specs.Heard.{all_words};
ghost use Rattle.syn_reader.specs.Keywords.{line_fault};
ghost use Rattle.syn_reader.specs.LatchWords.{are_words, control_words, kind_of, latch_of_line};
ghost use Rattle.syn_reader.specs.Marking.{Adds, also, first_twice, forbidden, mark_after, mark_forbids, Same, with_words};

use crate::latch_lines::LatchLine;
use crate::{Kind, ReadFault};
use std::alloc::{AllocError, Global};
use syn_lex::LineWords;
use syn_netlist::{Latch, LatchKind, Names, Word};

/// Which definitions of a name stand above.
#[derive(Clone, Copy, Debug, PartialEq, Eq)]
pub enum Mark {
    /// None.
    Free,
    /// One by `.inputs`.
    Input,
    /// One by `.clock`.
    Clock,
    /// One that forbids every other, or both of these.
    Taken,
}

impl Mark {
    // Whether it forbids one more definition.
    fn forbids(self, kind: Kind) -> bool
        ensures { result ≡ mark_forbids self kind }
    {
        match self {
            Mark::Free => false,
            Mark::Input => kind != Kind::Clock,
            Mark::Clock => kind != Kind::Inputs,
            Mark::Taken => true,
        }
    }

    // The mark after one more definition.
    fn after(self, kind: Kind) -> Mark
        ensures { result ≡ mark_after self kind }
    {
        match (self, kind) {
            (Mark::Free, Kind::Inputs) => Mark::Input,
            (Mark::Free, Kind::Clock) => Mark::Clock,
            _ => Mark::Taken,
        }
    }
}

/// A word of these bytes.
pub fn copy_word(alloc: Global, bytes: &[u8]) -> Result<Word, AllocError>
    ensures { IfOk result (λ word. word ≡ bytes.now) }
{
    Ok(Word::of(bytes.to_vec(alloc)?))
}

/// The numbers of the names of a `.names` line: of those that the table reads, and of the one that it defines.
#[derive(Drop)]
pub struct TableLine {
    pub inputs: Vec<u32>,
    pub output: u32,
}

/// Names, and a mark for each.
#[derive(Drop)]
pub struct Signals {
    pub names: Names,
    pub marks: Vec<Mark>,
}

impl Signals {
    /// No names.
    pub fn new(alloc: Global) -> Signals
        ensures names { result.names ≡ [] }
        ensures marks { result.marks.items ≡ [] }
    {
        Signals {
            names: Names::new(alloc),
            marks: Vec::new(alloc),
        }
    }

    /// The number of a word, which is a free name from now on where it was none.
    pub fn add(&mut self, alloc: Global, word: &[u8]) -> Result<u32, AllocError>
        requires marked { length self.old.marks.items ≡ length self.old.names }
        requires few { length self.old.names + 1 < 2 ^ 32 }
        requires word { is_word word.now ≡ true }
        ensures number { IfOk result (λ i. (i < length self.new.names) × (word_at self.new.names i ≡ word.now)) }
        ensures marked { OnOk result (length self.new.marks.items ≡ length self.new.names) }
        ensures grows { OnOk result (Grows self.old.names self.new.names) }
        ensures count { OnOk result (length self.new.names ≤ length self.old.names + 1) }
        ensures same { OnOk result (Same (forbidden self.old.names self.old.marks.items) (forbidden self.new.names self.new.marks.items)) }
        ensures distinct { OnOk result (distinct self.new.names ≡ true) }
        ensures names { OnOk result (self.new.names ≡ with_word self.old.names word.now) }
    {
        let count = self.names.len();
        let i = self.names.add(alloc, word)?;
        if i == count {
            self.marks.push(Mark::Free)?;
        }
        Ok(i)
    }

    /// Defines a name by a line of this kind, and gives its number.
    pub fn define(
        &mut self,
        alloc: Global,
        line: u32,
        kind: Kind,
        word: &[u8],
    ) -> Result<u32, ReadFault>
        requires marked { length self.old.marks.items ≡ length self.old.names }
        requires few { length self.old.names + 1 < 2 ^ 32 }
        requires word { is_word word.now ≡ true }
        ensures number { IfOk result (λ i. (i < length self.new.names) × (word_at self.new.names i ≡ word.now)) }
        ensures marked { OnOk result (length self.new.marks.items ≡ length self.new.names) }
        ensures grows { OnOk result (Grows self.old.names self.new.names) }
        ensures count { OnOk result (length self.new.names ≤ length self.old.names + 1) }
        ensures names { OnOk result (self.new.names ≡ with_word self.old.names word.now) }
        ensures free { OnOk result (forbidden self.old.names self.old.marks.items kind word.now ≡ false) }
        ensures defined { OnOk result (Same (also kind word.now (forbidden self.old.names self.old.marks.items)) (forbidden self.new.names self.new.marks.items)) }
        ensures fault { IfErr result (λ e. IfSome (fault_in e) (λ f. (f ≡ DefinedTwice line word.now) × (forbidden self.old.names self.old.marks.items kind word.now ≡ true))) }
    {
        let i = self.add(alloc, word)?;
        let mark = self.marks[i as usize];
        if mark.forbids(kind) {
            return Err(ReadFault::DefinedTwice(line, copy_word(alloc, word)?));
        }
        self.marks[i as usize] = mark.after(kind);
        Ok(i)
    }

    /// The numbers of words.
    pub fn add_all(&mut self, alloc: Global, words: LineWords<'_>) -> Result<Vec<u32>, AllocError>
        requires marked { length self.old.marks.items ≡ length self.old.names }
        requires few { length self.old.names + length words < 2 ^ 32 }
        requires words { all_words words ≡ true }
        ensures numbers { IfOk result (λ v. words_at self.new.names v.items ≡ map text_of words.entry) }
        ensures below { IfOk result (λ v. all_below (length self.new.names) v.items ≡ true) }
        ensures marked { OnOk result (length self.new.marks.items ≡ length self.new.names) }
        ensures grows { OnOk result (Grows self.old.names self.new.names) }
        ensures count { OnOk result (length self.new.names ≤ length self.old.names + length words.entry) }
        ensures names { OnOk result (self.new.names ≡ with_words self.old.names (map text_of words.entry)) }
        ensures same { OnOk result (Same (forbidden self.old.names self.old.marks.items) (forbidden self.new.names self.new.marks.items)) }
    {
        let mut numbers = Vec::new(alloc);
        for (_, word) in words {
            numbers.push(self.add(alloc, word)?)?;
        }
        Ok(numbers)
    }

    /// Defines names by a line of this kind, and gives their numbers.
    pub fn define_all(
        &mut self,
        alloc: Global,
        line: u32,
        kind: Kind,
        words: LineWords<'_>,
    ) -> Result<Vec<u32>, ReadFault>
        requires marked { length self.old.marks.items ≡ length self.old.names }
        requires few { length self.old.names + length words < 2 ^ 32 }
        requires words { all_words words ≡ true }
        ensures numbers { IfOk result (λ v. words_at self.new.names v.items ≡ map text_of words.entry) }
        ensures below { IfOk result (λ v. all_below (length self.new.names) v.items ≡ true) }
        ensures marked { OnOk result (length self.new.marks.items ≡ length self.new.names) }
        ensures grows { OnOk result (Grows self.old.names self.new.names) }
        ensures count { OnOk result (length self.new.names ≤ length self.old.names + length words.entry) }
        ensures names { OnOk result (self.new.names ≡ with_words self.old.names (map text_of words.entry)) }
        ensures once { OnOk result (first_twice (forbidden self.old.names self.old.marks.items) kind (map text_of words.entry) ≡ None) }
        ensures defined { OnOk result (Adds kind (map text_of words.entry) (forbidden self.old.names self.old.marks.items) (forbidden self.new.names self.new.marks.items)) }
        ensures fault { IfErr result (λ e. IfSome (fault_in e) (λ f. option_map (DefinedTwice line) (first_twice (forbidden self.old.names self.old.marks.items) kind (map text_of words.entry)) ≡ Some f)) }
    {
        let mut numbers = Vec::new(alloc);
        for (_, word) in words {
            numbers.push(self.define(alloc, line, kind, word)?)?;
        }
        Ok(numbers)
    }

    // The type of a latch, with the number of its control where that is a signal.
    fn add_kind(
        &mut self,
        alloc: Global,
        kind: Option<(LatchKind, &[u8])>,
    ) -> Result<Option<(LatchKind, Option<u32>)>, AllocError>
        requires marked { length self.old.marks.items ≡ length self.old.names }
        requires few { length self.old.names + length (control_words kind) < 2 ^ 32 }
        requires words { are_words (control_words kind) ≡ true }
        ensures kind { IfOk result (λ k. kind_at self.new.names k ≡ kind_of kind.entry) }
        ensures below { IfOk result (λ k. all_below (length self.new.names) (control_number k) ≡ true) }
        ensures signal { IfOk result (λ k. list_all (λ i. not (bytes_eq nil_word (word_at self.new.names i))) (control_number k) ≡ true) }
        ensures marked { OnOk result (length self.new.marks.items ≡ length self.new.names) }
        ensures grows { OnOk result (Grows self.old.names self.new.names) }
        ensures count { OnOk result (length self.new.names ≤ length self.old.names + length (control_words kind.entry)) }
        ensures names { OnOk result (self.new.names ≡ with_words self.old.names (control_of (kind_of kind.entry))) }
        ensures same { OnOk result (Same (forbidden self.old.names self.old.marks.items) (forbidden self.new.names self.new.marks.items)) }
    {
        let Some((kind, control)) = kind else {
            return Ok(None);
        };
        if b"NIL".as_slice() == control {
            return Ok(Some((kind, None)));
        }
        let i = self.add(alloc, control)?;
        Ok(Some((kind, Some(i))))
    }

    /// The latch of a line, by numbers of names.
    pub fn define_latch(
        &mut self,
        alloc: Global,
        line: u32,
        latch: LatchLine<'_>,
    ) -> Result<Latch, ReadFault>
        requires marked { length self.old.marks.items ≡ length self.old.names }
        requires few { length self.old.names + (2 + length (control_words latch.kind)) < 2 ^ 32 }
        requires words { are_words (latch.feed.now ∷ latch.output.now ∷ control_words latch.kind) ≡ true }
        requires small { latch.init < 4 }
        ensures latch { IfOk result (λ l. latch_in self.new.names l ≡ latch_of_line latch.entry) }
        ensures below { IfOk result (λ l. all_below (length self.new.names) (latch_numbers l) ≡ true) }
        ensures signal { IfOk result (λ l. list_all (λ i. not (bytes_eq nil_word (word_at self.new.names i))) (control_number l.kind) ≡ true) }
        ensures marked { OnOk result (length self.new.marks.items ≡ length self.new.names) }
        ensures grows { OnOk result (Grows self.old.names self.new.names) }
        ensures count { OnOk result (length self.new.names ≤ length self.old.names + (2 + length (control_words latch.entry.kind))) }
        ensures names { OnOk result (self.new.names ≡ with_words self.old.names (latch.entry.feed.now ∷ (control_of (kind_of latch.entry.kind) ++ latch.entry.output.now ∷ []))) }
        ensures free { OnOk result (forbidden self.old.names self.old.marks.items Kind.Latch latch.entry.output.now ≡ false) }
        ensures defined { OnOk result (Same (also Kind.Latch latch.entry.output.now (forbidden self.old.names self.old.marks.items)) (forbidden self.new.names self.new.marks.items)) }
        ensures fault { IfErr result (λ e. IfSome (fault_in e) (λ f. (f ≡ DefinedTwice line latch.entry.output.now) × (forbidden self.old.names self.old.marks.items Kind.Latch latch.entry.output.now ≡ true))) }
    {
        let feed = self.add(alloc, latch.feed)?;
        let kind = self.add_kind(alloc, latch.kind)?;
        let output = self.define(alloc, line, Kind::Latch, latch.output)?;
        Ok(Latch {
            feed,
            output,
            kind,
            init: latch.init,
        })
    }

    /// The names of a `.names` line with these words; or else the fault of the line.
    pub fn define_table(
        &mut self,
        alloc: Global,
        line: u32,
        words: LineWords<'_>,
    ) -> Result<TableLine, ReadFault>
        requires marked { length self.old.marks.items ≡ length self.old.names }
        requires few { length self.old.names + length words < 2 ^ 32 }
        requires words { all_words words ≡ true }
        ensures words { IfOk result (λ t. map text_of words.entry ≡ words_at self.new.names t.inputs.items ++ word_at self.new.names t.output ∷ []) }
        ensures inputs { IfOk result (λ t. all_below (length self.new.names) t.inputs.items ≡ true) }
        ensures output { IfOk result (λ t. t.output < length self.new.names) }
        ensures marked { OnOk result (length self.new.marks.items ≡ length self.new.names) }
        ensures grows { OnOk result (Grows self.old.names self.new.names) }
        ensures count { OnOk result (length self.new.names ≤ length self.old.names + length words.entry) }
        ensures names { OnOk result (self.new.names ≡ with_words self.old.names (map text_of words.entry)) }
        ensures faultless { OnOk result (line_fault (forbidden self.old.names self.old.marks.items) Kind.Names line (map text_of words.entry) ≡ None) }
        ensures defined { OnOk result (Adds Kind.Names (names_defined Kind.Names (map text_of words.entry)) (forbidden self.old.names self.old.marks.items) (forbidden self.new.names self.new.marks.items)) }
        ensures fault { IfErr result (λ e. IfSome (fault_in e) (λ f. line_fault (forbidden self.old.names self.old.marks.items) Kind.Names line (map text_of words.entry) ≡ Some f)) }
    {
        let mut words = words;
        let Some((_, mut last)) = words.next() else {
            return Err(ReadFault::NoName(line));
        };
        let mut inputs = Vec::new(alloc);
        for (_, word) in words {
            inputs.push(self.add(alloc, last)?)?;
            last = word;
        }
        let output = self.define(alloc, line, Kind::Names, last)?;
        Ok(TableLine { inputs, output })
    }
}
