//! Reading the models of a text.

ghost use Rattle.std.specs.Prelude.{◌≡◌, ◌+◌, ◌^◌, ◌<◌, ℕ, List, [], ◌∷◌, ◌++◌, length, map, false, true, IfErr, IfOk, IfSome, OnOk, Some, None};
ghost use Rattle.syn_models.specs.Views.{model_in};
ghost use Rattle.syn_netlist.specs.Words.{distinct, has_word, is_word};
ghost use Rattle.syn_lex.specs.Words.{text_of};
ghost use Rattle.syn_reader.specs.Heard.{all_words, statement, word_count};
ghost use Rattle.syn_reader.specs.LineFaults.{checks, first_fault_of_lines, first_found};
ghost use Rattle.syn_reader.specs.Statements as lines;
ghost use Rattle.syn_reader.specs.Statements.{begins_model};
ghost use Rattle.syn_reader.specs.Causes.{NamesLineFault, fault_in};
ghost use Rattle.syn_reader.specs.ModelFaults.{first_fault_of_models, model_checks};
ghost use Rattle.syn_reader.specs.Gathers.{IsSound, said_in};
ghost use Rattle.syn_reader.specs.Owned.{HasGathered, HasRoom, behind, first, others, own};
ghost use Rattle.syn_reader.specs.Parted.{by_model, name_in, words_of};
ghost use Rattle.syn_reader.specs.Saying.{SpellAll, SpellModel, SpellsModels};

use crate::model_words::{Gathering, gather_rest};
use crate::signals::{Signals, copy_word};
use crate::statements::Statements;
use crate::{Kind, ReadFault};
use std::alloc::Global;
use syn_lex::LineWords;
use syn_lists::Items;
use syn_models::{Model, Models};
use syn_netlist::{Names, Word};

// A model of which the statements are to be gathered: its name, and what its `.model` line counts.
#[derive(Drop)]
struct Begun {
    name: Word,
    gathering: Gathering,
}

// The name of a `.model` line; or else the fault of its words.
fn read_model(alloc: Global, line: u32, words: LineWords<'_>) -> Result<Word, ReadFault>
    requires { all_words words ≡ true }
    ensures name { IfOk result (λ name. map text_of words.entry ≡ name ∷ []) }
    ensures word { IfOk result (λ name. is_word name ≡ true) }
    ensures fault { IfErr result (λ e. IfSome (fault_in e) (λ f. first_found checks [] (statement line Kind.Model (map text_of words.entry)) ≡ Some f)) }
{
    let mut words = words;
    let Some((_, name)) = words.next() else {
        return Err(ReadFault::NoName(line));
    };
    if words.next().is_some() {
        return Err(ReadFault::ExtraWord(line));
    }
    Ok(copy_word(alloc, name)?)
}

// Begins the next model: takes its `.model` line, where it has one. Models of these names stand above.
fn begin(
    alloc: Global,
    statements: &mut Statements<'_>,
    many: bool,
    names: &Names,
) -> Result<Begun, ReadFault>
    requires many { begins_model statements.old ≡ many }
    requires alone { many ≡ false → names.now ≡ [] }
    ensures gathered { IfOk result (λ b. HasGathered names.now (first many statements.old) (own many statements.new) b.gathering) }
    ensures sound { IfOk result (λ b. IsSound b.gathering) }
    ensures name { IfOk result (λ b. b.name ≡ name_in (first many statements.old)) }
    ensures word { IfOk result (λ b. is_word b.name ≡ true) }
    ensures new { IfOk result (λ b. has_word names.now b.name ≡ false) }
    ensures left { OnOk result (behind many statements.new ≡ others many statements.old) }
    ensures fault { IfErr result (λ e. IfSome (fault_in e) (λ f. first_fault_of_lines (model_checks names.now) [] (first many statements.old) ≡ Some f)) }
{
    let Some(parts) = statements.take(Kind::Model) else {
        let name = copy_word(alloc, b"top")?;
        let gathering = Gathering::new(alloc, 0);
        return Ok(Begun { name, gathering });
    };
    let name = read_model(alloc, parts.line, parts.words)?;
    match names.find(name.as_slice()) {
        Some(_) => return Err(ReadFault::ModelTwice(parts.line)),
        None => {}
    }
    let gathering = Gathering::new(alloc, 2);
    Ok(Begun { name, gathering })
}

// The model of this name that was gathered.
fn finish(name: Word, gathering: Gathering) -> Model
    requires sound { IsSound gathering }
    requires word { is_word name ≡ true }
    requires gathered { (models : List (List ℕ)) × (all : List lines.Statement) × HasGathered models all [] gathering }
    ensures name { (model_in result).name ≡ name }
    ensures said { (model_in result).statements ≡ said_in gathering }
    ensures names { (model_in result).names ≡ gathering.signals.names }
    ensures once { distinct result.names ≡ true }
    ensures words { result.words ≡ gathering.words }
{
    let Gathering {
        signals,
        statements,
        words,
    } = gathering;
    let Signals { names, marks: _ } = signals;
    let _count = names.len();
    let statements = Items::of(statements);
    Model {
        name,
        names,
        statements,
        words,
    }
}

// Gathers the next model, whose name joins those of the models above; or else answers the first fault of a line.
fn gather_model(
    alloc: Global,
    statements: &mut Statements<'_>,
    many: bool,
    names: &mut Names,
) -> Result<Model, ReadFault>
    requires many { begins_model statements.old ≡ many }
    requires alone { many ≡ false → names.old ≡ [] }
    requires few { length names.old + 1 < 2 ^ 32 }
    requires words { word_count (first many statements.old) < 2 ^ 32 }
    requires total { words_of (first many statements.old) < 2 ^ 62 }
    ensures spelled { IfOk result (λ m. SpellModel (first many statements.old) (model_in m)) }
    ensures faultless { OnOk result (first_fault_of_lines (model_checks names.old) [] (first many statements.old) ≡ None) }
    ensures names { OnOk result (names.new ≡ names.old ++ name_in (first many statements.old) ∷ []) }
    ensures left { OnOk result (statements.new ≡ others many statements.old) }
    ensures fault { IfErr result (λ e. IfSome (fault_in e) (λ f. first_fault_of_lines (model_checks names.old) [] (first many statements.old) ≡ Some f)) }
{
    let begun = begin(alloc, statements, many, names)?;
    names.add(alloc, begun.name.as_slice())?;
    let gathering = gather_rest(alloc, begun.gathering, statements, many)?;
    Ok(finish(begun.name, gathering))
}

// Gathers all models of a file; or else answers the first fault of a line.
fn gather_models(alloc: Global, statements: Statements<'_>) -> Result<Models, ReadFault>
    requires words { word_count statements < 2 ^ 32 }
    requires total { words_of statements < 2 ^ 62 }
    requires lines { length statements + 1 < 2 ^ 32 }
    ensures spelled { IfOk result (λ r. SpellAll (by_model statements.entry) (map model_in r.models)) }
    ensures faultless { OnOk result (first_fault_of_models [] (by_model statements.entry) ≡ None) }
    ensures fault { IfErr result (λ e. IfSome (fault_in e) (λ f. first_fault_of_models [] (by_model statements.entry) ≡ Some f)) }
{
    let mut statements = statements;
    let many = statements.begins_model();
    let mut names = Names::new(alloc);
    let mut models = Vec::new(alloc);
    models.push(gather_model(alloc, &mut statements, many, &mut names)?)?;
    while statements.begins_model() {
        models.push(gather_model(alloc, &mut statements, many, &mut names)?)?;
    }
    let _count = names.len();
    Ok(Models {
        models: Items::of(models),
    })
}

/// Reads the models that the bytes of a text spell, or names the first disallowed byte or fault of a line.
///
/// In a file that begins with `.model` each `.model` begins a model; any other file is one model, which is called `top`
/// unless it is named. The first disallowed byte comes before all else; then the first line with a fault, and on it the
/// first fault in the order of `ReadFault`. Names are defined once in each model, for themselves.
/// Whether subcircuits fit the models that they contain, and whether all that is read is defined, isn't asked here.
/// `NoMemory` comes only where memory was refused.
pub(crate) fn read_models(alloc: Global, bytes: &[u8]) -> Result<Models, ReadFault>
    requires { length bytes.now + 1 < 2 ^ 32 }
    ensures spelled { IfOk result (λ r. SpellsModels bytes.now (map model_in r.models)) }
    ensures fault { IfErr result (NamesLineFault bytes.now) }
{
    match syn_lex::lines(bytes) {
        Ok(lines) => gather_models(alloc, Statements::of(lines)),
        Err(bad) => Err(ReadFault::BadByte(bad.0)),
    }
}
