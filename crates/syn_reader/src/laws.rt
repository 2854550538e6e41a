//! Laws of reading, and worked texts: each function has an empty body, and its clause is the law.

ghost use Rattle.syn_reader.specs.Laws.{EitherOr, FaultlessSay, FewOutputs, NotBoth, OneFault, OneNetlist, SayComputed};
ghost use Rattle.syn_reader.specs.Worked.{Worked, WorkedPrefixes};
ghost use Rattle.syn_reader.specs.WorkedModels.{WorkedModels, WorkedParts, WorkedSubcircuits};

/// The definitions of faults of lines give the wanted answers on worked texts.
pub fn worked_texts()
    ensures { Worked }
{}

/// The same on the prefixes of one text.
pub fn worked_prefixes()
    ensures { WorkedPrefixes }
{}

/// The definitions say where `.model` and `.end` may stand, as worked texts want it.
pub fn worked_parts()
    ensures { WorkedParts }
{}

/// The definitions give the wanted faults on worked lines of subcircuits.
pub fn worked_subcircuits()
    ensures { WorkedSubcircuits }
{}

/// The statements of a worked text say the wanted models.
pub fn worked_models()
    ensures { WorkedModels }
{}

/// Statements say what is computed from them, and nothing else.
pub fn say_computed()
    ensures { SayComputed }
{}

/// Statements of a model in which no fault of a line stands say something.
pub fn faultless_say()
    ensures { FaultlessSay }
{}

/// A file reads as at most one netlist.
pub fn one_netlist()
    ensures { OneNetlist }
{}

/// A file reads as a netlist within the limits, or has a first fault.
pub fn either_or()
    ensures { EitherOr }
{}

/// A file that reads as a netlist within the limits has no first fault.
pub fn not_both()
    ensures { NotBoth }
{}

/// A file has at most one first fault.
pub fn one_fault()
    ensures { OneFault }
{}

/// A netlist that is read within the limits has at most 16,777,216 outputs: each is a word of a line.
pub fn few_outputs()
    ensures { FewOutputs }
{}
