//! What the statements of a model spell.

ghost use Rattle.std.specs.Prelude.{◌≡◌, ◌+◌, ◌*◌, ◌^◌, ◌<◌, ◌≤◌, ◌==◌, ℕ, suc, Bool, List, [], ◌∷◌, ◌++◌, if◌then◌else◌, length, map, false, true, IfErr, IfNone, IfOk, IfSome, OnOk, Some, None, option_map};
ghost use Rattle.std.specs.List.{list_all};
ghost use Rattle.syn_lex.specs.Words.{text_of};
ghost use Rattle.syn_models.specs.Called.{actuals_below};
ghost use Rattle.syn_models.specs.FlatFaults.{first_again};
ghost use Rattle.syn_models.specs.Kept.{bind_in};
ghost use Rattle.syn_models.specs.Models as models;
ghost use Rattle.syn_netlist.specs.Kept.{polarity_fits, rows_fit};
ghost use Rattle.syn_netlist.specs.Numbers.{Grows, with_word};
ghost use Rattle.syn_netlist.specs.Words.{has_word};
ghost use Rattle.syn_reader.specs.Causes.{fault_in};
ghost use Rattle.syn_reader.specs.Faults.{AfterEnd, PortTwice};
ghost use Rattle.syn_reader.specs.Heard.{all_words};
ghost use Rattle.syn_reader.specs.Keywords.{line_fault};
ghost use Rattle.syn_reader.specs.Marking.{Same, with_words};
ghost use Rattle.syn_reader.specs.Rows.{IsTableFault, below_rows, rows_fault};
ghost use Rattle.syn_reader.specs.Shapes.{all_but_last};
ghost use Rattle.syn_reader.specs.Binds.{are_bind_words, bind_in_line, formal_in_line, actual_in_line};
ghost use Rattle.syn_reader.specs.Gathers.{Gathers, IsSound, IsSubcktFault, forbids_in, row_total};
ghost use Rattle.syn_reader.specs.Subcircuits.{bound_twice, subcircuit_of};
ghost use Rattle.syn_reader.specs.LineFaults.{first_fault_of_lines};
ghost use Rattle.syn_reader.specs.Parts.{statement_in};
ghost use Rattle.syn_reader.specs.Statements as lines;
ghost use Rattle.syn_reader.specs.Statements.{rows_below};
ghost use Rattle.syn_reader.specs.ModelFaults.{model_checks};
ghost use Rattle.syn_reader.specs.Owned.{HasGathered, HasRoom, behind, own};

use crate::latch_lines::read_latch;
use crate::rows::{Rows, read_rows};
use crate::signals::{Signals, TableLine, copy_word};
use crate::statements::{Parts, Statements};
use crate::subcircuits::{BindLine, read_subckt};
use crate::{Kind, ReadFault};
use std::alloc::{AllocError, Global};
use syn_lex::LineWords;
use syn_lists::Items;
use syn_models::{Bind, Statement, StatementKind, Subcircuit};
use syn_netlist::{Names, Table};

/// What the statements above spell: names with their marks, statements by numbers of names, and how many words their lines have.
#[derive(Drop)]
pub struct Gathering {
    pub signals: Signals,
    pub statements: Vec<Statement>,
    pub words: u64,
}

// How many words so many rows have: of a table without inputs one each, else two.
fn words_of_rows(inputs: usize, rows: usize) -> u64
    requires { rows < 2 ^ 63 }
    ensures { result ≡ (if inputs == 0 then rows else (rows + rows)) }
{
    let rows = rows as u64;
    if inputs == 0 { rows } else { rows + rows }
}

impl Gathering {
    /// Nothing, but lines of so many words.
    pub fn new(alloc: Global, words: u64) -> Gathering
        ensures names { result.signals.names ≡ [] }
        ensures said { result.statements.items ≡ [] }
        ensures words { result.words ≡ words }
        ensures sound { IsSound result }
        ensures free { Same (λ kind word. false) (forbids_in result) }
    {
        Gathering {
            signals: Signals::new(alloc),
            statements: Vec::new(alloc),
            words,
        }
    }

    // Puts one more statement, on a line of so many words.
    fn say(&mut self, line: u32, kind: StatementKind, words: u64) -> Result<(), AllocError>
        requires { self.old.words + words < 2 ^ 64 }
        ensures statements { OnOk result (self.new.statements.items ≡ self.old.statements.items ++ (record { line = line; kind = kind }) ∷ []) }
        ensures signals { OnOk result (self.new.signals ≡ self.old.signals) }
        ensures words { OnOk result (self.new.words ≡ self.old.words + words) }
    {
        self.words += words;
        self.statements.push(Statement { line, kind })?;
        Ok(())
    }

    // The inputs of a line.
    fn add_inputs(
        &mut self,
        alloc: Global,
        line: u32,
        words: LineWords<'_>,
    ) -> Result<(), ReadFault>
        requires sound { IsSound self.old }
        requires few { length self.old.signals.names + length words < 2 ^ 32 }
        requires room { self.old.words < 2 ^ 63 }
        requires words { all_words words ≡ true }
        ensures gathers { OnOk result ((rows : List (List (List ℕ))) → Gathers Kind.Inputs line (map text_of words.entry) rows self.old self.new) }
        ensures faultless { OnOk result (line_fault (forbids_in self.old) Kind.Inputs line (map text_of words.entry) ≡ None) }
        ensures sound { OnOk result (IsSound self.new) }
        ensures fault { IfErr result (λ e. IfSome (fault_in e) (λ f. line_fault (forbids_in self.old) Kind.Inputs line (map text_of words.entry) ≡ Some f)) }
    {
        let numbers = self.signals.define_all(alloc, line, Kind::Inputs, words)?;
        let words = 1 + numbers.len() as u64;
        self.say(line, StatementKind::Inputs(Items::of(numbers)), words)?;
        Ok(())
    }

    // The clocks of a line.
    fn add_clocks(
        &mut self,
        alloc: Global,
        line: u32,
        words: LineWords<'_>,
    ) -> Result<(), ReadFault>
        requires sound { IsSound self.old }
        requires few { length self.old.signals.names + length words < 2 ^ 32 }
        requires room { self.old.words < 2 ^ 63 }
        requires words { all_words words ≡ true }
        ensures gathers { OnOk result ((rows : List (List (List ℕ))) → Gathers Kind.Clock line (map text_of words.entry) rows self.old self.new) }
        ensures faultless { OnOk result (line_fault (forbids_in self.old) Kind.Clock line (map text_of words.entry) ≡ None) }
        ensures sound { OnOk result (IsSound self.new) }
        ensures fault { IfErr result (λ e. IfSome (fault_in e) (λ f. line_fault (forbids_in self.old) Kind.Clock line (map text_of words.entry) ≡ Some f)) }
    {
        let numbers = self.signals.define_all(alloc, line, Kind::Clock, words)?;
        let words = 1 + numbers.len() as u64;
        self.say(line, StatementKind::Clock(Items::of(numbers)), words)?;
        Ok(())
    }

    // The outputs of a line.
    fn add_outputs(
        &mut self,
        alloc: Global,
        line: u32,
        words: LineWords<'_>,
    ) -> Result<(), ReadFault>
        requires sound { IsSound self.old }
        requires few { length self.old.signals.names + length words < 2 ^ 32 }
        requires room { self.old.words < 2 ^ 63 }
        requires words { all_words words ≡ true }
        ensures gathers { OnOk result ((rows : List (List (List ℕ))) → Gathers Kind.Outputs line (map text_of words.entry) rows self.old self.new) }
        ensures sound { OnOk result (IsSound self.new) }
        ensures fault { IfErr result (λ e. fault_in e ≡ None) }
    {
        let numbers = self.signals.add_all(alloc, words)?;
        let words = 1 + numbers.len() as u64;
        self.say(line, StatementKind::Outputs(Items::of(numbers)), words)?;
        Ok(())
    }

    // The latch of a line.
    fn add_latch(&mut self, alloc: Global, line: u32, words: LineWords<'_>) -> Result<(), ReadFault>
        requires sound { IsSound self.old }
        requires few { length self.old.signals.names + length words < 2 ^ 32 }
        requires room { self.old.words < 2 ^ 63 }
        requires words { all_words words ≡ true }
        ensures gathers { OnOk result ((rows : List (List (List ℕ))) → Gathers Kind.Latch line (map text_of words.entry) rows self.old self.new) }
        ensures faultless { OnOk result (line_fault (forbids_in self.old) Kind.Latch line (map text_of words.entry) ≡ None) }
        ensures sound { OnOk result (IsSound self.new) }
        ensures fault { IfErr result (λ e. IfSome (fault_in e) (λ f. line_fault (forbids_in self.old) Kind.Latch line (map text_of words.entry) ≡ Some f)) }
    {
        let words = read_latch(line, words)?;
        let latch = self.signals.define_latch(alloc, line, words)?;
        self.say(line, StatementKind::Latch(latch), 1 + words.count as u64)?;
        Ok(())
    }

    // The table of a line, with the rows in front of the statements.
    fn add_table(
        &mut self,
        alloc: Global,
        line: u32,
        words: LineWords<'_>,
        statements: &mut Statements<'_>,
    ) -> Result<(), ReadFault>
        requires sound { IsSound self.old }
        requires few { length self.old.signals.names + length words < 2 ^ 32 }
        requires room { self.old.words < 2 ^ 63 }
        requires rows { row_total (rows_below statements.old) < 2 ^ 62 }
        requires words { all_words words ≡ true }
        ensures gathers { OnOk result (Gathers Kind.Names line (map text_of words.entry) (rows_below statements.old) self.old self.new) }
        ensures faultless { OnOk result (line_fault (forbids_in self.old) Kind.Names line (map text_of words.entry) ≡ None) }
        ensures rows { OnOk result (rows_fault (length (all_but_last (map text_of words.entry))) None statements.old ≡ None) }
        ensures below { OnOk result (statements.new ≡ below_rows statements.old) }
        ensures sound { OnOk result (IsSound self.new) }
        ensures fault { IfErr result (λ e. IfSome (fault_in e) (IsTableFault (forbids_in self.old) line (map text_of words.entry) statements.old)) }
    {
        let names = self.signals.define_table(alloc, line, words)?;
        let inputs = names.inputs.len();
        let rows = read_rows(alloc, statements, inputs)?;
        let words = 2 + inputs as u64 + words_of_rows(inputs, rows.parts.len());
        self.say(line, StatementKind::Table(table_of(names, rows)), words)?;
        Ok(())
    }

    // A bind of a line, with the number of its actual, where its formal is none of those above, which it joins.
    fn add_bind(
        &mut self,
        alloc: Global,
        line: u32,
        formals: &mut Names,
        bind: &BindLine<'_>,
    ) -> Result<Bind, ReadFault>
        requires marked { length self.old.signals.marks.items ≡ length self.old.signals.names }
        requires few { length self.old.signals.names + 1 < 2 ^ 32 }
        requires few_formals { length formals.old + 1 < 2 ^ 32 }
        requires words { are_bind_words bind.now ≡ true }
        ensures bind { IfOk result (λ b. bind_in self.new.signals.names b ≡ bind_in_line bind.now) }
        ensures below { IfOk result (λ b. b.actual < length self.new.signals.names) }
        ensures marked { OnOk result (length self.new.signals.marks.items ≡ length self.new.signals.names) }
        ensures grows { OnOk result (Grows self.old.signals.names self.new.signals.names) }
        ensures names { OnOk result (self.new.signals.names ≡ with_word self.old.signals.names (actual_in_line bind.now)) }
        ensures count { OnOk result (length self.new.signals.names ≤ length self.old.signals.names + 1) }
        ensures same { OnOk result (Same (forbids_in self.old) (forbids_in self.new)) }
        ensures kept { OnOk result ((self.new.statements ≡ self.old.statements) × (self.new.words ≡ self.old.words)) }
        ensures absent { OnOk result (has_word formals.old (formal_in_line bind.now) ≡ false) }
        ensures formals { OnOk result (formals.new ≡ with_word formals.old (formal_in_line bind.now)) }
        ensures fault { IfErr result (λ e. IfSome (fault_in e) (λ f. (f ≡ PortTwice line (formal_in_line bind.now)) × (has_word formals.old (formal_in_line bind.now) ≡ true))) }
    {
        let formal = copy_word(alloc, bind.formal)?;
        match formals.find(bind.formal) {
            Some(_) => return Err(ReadFault::PortTwice(line, formal)),
            None => {}
        }
        formals.add(alloc, bind.formal)?;
        let actual = self.signals.add(alloc, bind.actual)?;
        Ok(Bind { formal, actual })
    }

    // The binds of a line, with the numbers of their actuals; or else the first formal that is bound twice.
    fn add_binds(
        &mut self,
        alloc: Global,
        line: u32,
        binds: &[BindLine<'_>],
    ) -> Result<Vec<Bind>, ReadFault>
        requires marked { length self.old.signals.marks.items ≡ length self.old.signals.names }
        requires few { length self.old.signals.names + length binds.now < 2 ^ 32 }
        requires words { list_all are_bind_words binds.now ≡ true }
        ensures binds { IfOk result (λ v. map (bind_in self.new.signals.names) v.items ≡ map bind_in_line binds.now) }
        ensures below { IfOk result (λ v. actuals_below (length self.new.signals.names) v.items ≡ true) }
        ensures marked { OnOk result (length self.new.signals.marks.items ≡ length self.new.signals.names) }
        ensures grows { OnOk result (Grows self.old.signals.names self.new.signals.names) }
        ensures names { OnOk result (self.new.signals.names ≡ with_words self.old.signals.names (map actual_in_line binds.now)) }
        ensures count { OnOk result (length self.new.signals.names ≤ length self.old.signals.names + length binds.now) }
        ensures same { OnOk result (Same (forbids_in self.old) (forbids_in self.new)) }
        ensures kept { OnOk result ((self.new.statements ≡ self.old.statements) × (self.new.words ≡ self.old.words)) }
        ensures once { OnOk result (first_again [] (map formal_in_line binds.now) ≡ None) }
        ensures fault { IfErr result (λ e. IfSome (fault_in e) (λ f. option_map (PortTwice line) (first_again [] (map formal_in_line binds.now)) ≡ Some f)) }
    {
        let mut formals = Names::new(alloc);
        let mut made = Vec::new(alloc);
        for bind in binds {
            let bind = self.add_bind(alloc, line, &mut formals, bind)?;
            made.push(bind)?;
        }
        Ok(made)
    }

    // The subcircuit of a line.
    fn add_subckt(
        &mut self,
        alloc: Global,
        line: u32,
        words: LineWords<'_>,
    ) -> Result<(), ReadFault>
        requires sound { IsSound self.old }
        requires few { length self.old.signals.names + length words < 2 ^ 32 }
        requires room { self.old.words < 2 ^ 63 }
        requires words { all_words words ≡ true }
        ensures gathers { OnOk result ((rows : List (List (List ℕ))) → Gathers Kind.Subckt line (map text_of words.entry) rows self.old self.new) }
        ensures fine { OnOk result ((c : models.Subcircuit) × (subcircuit_of (map text_of words.entry) ≡ Some c) × (bound_twice (Some c) ≡ None)) }
        ensures sound { OnOk result (IsSound self.new) }
        ensures fault { IfErr result (λ e. IfSome (fault_in e) (IsSubcktFault line (map text_of words.entry))) }
    {
        let subckt = read_subckt(alloc, line, words)?;
        let binds = self.add_binds(alloc, line, &subckt.binds)?;
        let model = copy_word(alloc, subckt.model)?;
        let words = 2 + binds.len() as u64;
        let binds = Items::of(binds);
        self.say(
            line,
            StatementKind::Subckt(Subcircuit { model, binds }),
            words,
        )?;
        Ok(())
    }

    // Gathers a statement, with the rows below it where it is a table.
    fn add(
        &mut self,
        alloc: Global,
        parts: Parts<'_>,
        statements: &mut Statements<'_>,
        many: bool,
    ) -> Result<(), ReadFault>
        requires sound { IsSound self.old }
        requires few { length self.old.signals.names + length parts.words < 2 ^ 32 }
        requires room { self.old.words < 2 ^ 63 }
        requires rows { row_total (rows_below statements.old) < 2 ^ 62 }
        requires words { all_words parts.words ≡ true }
        ensures gathered { OnOk result ((models : List (List ℕ)) (all : List lines.Statement) → HasGathered models all (statement_in parts.entry ∷ own many statements.old) self.old → HasGathered models all (own many statements.new) self.new) }
        ensures left { OnOk result (behind many statements.new ≡ behind many statements.old) }
        ensures sound { OnOk result (IsSound self.new) }
        ensures less { OnOk result (length statements.new ≤ length statements.old) }
        ensures fault { IfErr result (λ e. IfSome (fault_in e) (λ f. (models : List (List ℕ)) (all : List lines.Statement) → HasGathered models all (statement_in parts.entry ∷ own many statements.old) self.old → first_fault_of_lines (model_checks models) [] all ≡ Some f)) }
    {
        match parts.kind {
            Kind::Row => Err(ReadFault::StrayRow(parts.line)),
            Kind::Unknown => Err(ReadFault::UnknownKeyword(parts.line)),
            Kind::Model => Err(ReadFault::SecondModel(parts.line)),
            Kind::Inputs => self.add_inputs(alloc, parts.line, parts.words),
            Kind::Outputs => self.add_outputs(alloc, parts.line, parts.words),
            Kind::Clock => self.add_clocks(alloc, parts.line, parts.words),
            Kind::Names => self.add_table(alloc, parts.line, parts.words, statements),
            Kind::Latch => self.add_latch(alloc, parts.line, parts.words),
            Kind::Subckt => self.add_subckt(alloc, parts.line, parts.words),
            Kind::End => read_end(statements, many),
        }
    }
}

// The table of these names and rows.
fn table_of(names: TableLine, rows: Rows) -> Table
    requires rows { rows_fit (length names.inputs.items) rows.parts.items ≡ true }
    requires polarity { polarity_fits rows.parts.items rows.on ≡ true }
    ensures inputs { result.inputs ≡ names.inputs.items }
    ensures output { result.output ≡ names.output }
    ensures rows { result.rows ≡ rows.parts.items }
    ensures on { result.on ≡ rows.on }
{
    Table {
        inputs: Items::of(names.inputs),
        output: names.output,
        rows: Items::of(rows.parts),
        on: rows.on,
    }
}

// The next statement of the model. In a file of models the next `.model` begins another one.
fn next_of_model<'a>(statements: &mut Statements<'a>, many: bool) -> Option<Parts<'a>>
    ensures none { IfNone result ((statements.new ≡ statements.old) × (own many statements.old ≡ []) × (behind many statements.old ≡ statements.old)) }
    ensures some { IfSome result (λ parts. own many statements.old ≡ statement_in parts ∷ own many statements.new) }
    ensures left { IfSome result (λ parts. behind many statements.old ≡ behind many statements.new) }
    ensures words { IfSome result (λ parts. all_words parts.words ≡ true) }
    ensures less { IfSome result (λ parts. length statements.new < length statements.old) }
{
    if many && statements.begins_model() {
        return None;
    }
    statements.next()
}

// No statement of the model may stand below `.end`.
fn read_end(statements: &mut Statements<'_>, many: bool) -> Result<(), ReadFault>
    ensures ok { OnOk result ((own many statements.old ≡ []) × (statements.new ≡ statements.old)) }
    ensures fault { IfErr result (λ e. (s : lines.Statement) × (ss : List lines.Statement) × (own many statements.old ≡ s ∷ ss) × (fault_in e ≡ Some (AfterEnd s.line))) }
{
    match next_of_model(statements, many) {
        Some(parts) => Err(ReadFault::AfterEnd(parts.line)),
        None => Ok(()),
    }
}

/// Gathers the statements of a model that are left; or else answers the first fault of a line.
pub fn gather_rest(
    alloc: Global,
    gathering: Gathering,
    statements: &mut Statements<'_>,
    many: bool,
) -> Result<Gathering, ReadFault>
    requires sound { IsSound gathering }
    requires begun { HasRoom (own many statements.old) gathering }
    ensures gathered { IfOk result (λ g. (models : List (List ℕ)) (all : List lines.Statement) → HasGathered models all (own many statements.old) gathering → HasGathered models all [] g) }
    ensures sound { IfOk result IsSound }
    ensures left { OnOk result (statements.new ≡ behind many statements.old) }
    ensures fault { IfErr result (λ e. IfSome (fault_in e) (λ f. (models : List (List ℕ)) (all : List lines.Statement) → HasGathered models all (own many statements.old) gathering → first_fault_of_lines (model_checks models) [] all ≡ Some f)) }
{
    let mut gathering = gathering;
    while let Some(parts) = next_of_model(statements, many) {
        gathering.add(alloc, parts, statements, many)?;
    }
    Ok(gathering)
}
