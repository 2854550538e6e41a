//! Laws of scripts, and worked scripts.

ghost use Rattle.syn_words.specs.Laws.{EitherOr, NotBoth, OneFault, OneScript};
ghost use Rattle.syn_words.specs.Worked.{WorkedForms, WorkedScripts};
ghost use Rattle.syn_words.specs.WorkedFiles.{WorkedFiles};

/// The definitions give the wanted commands and first faults of worked texts.
pub fn worked_scripts()
    ensures { WorkedScripts }
{}

/// The definitions give the wanted commands and first faults of worked files of commands.
pub fn worked_files()
    ensures { WorkedFiles }
{}

/// Words give what is wanted by worked forms, or have the wanted first fault.
pub fn worked_forms()
    ensures { WorkedForms }
{}

/// A text is a script of some commands, or has a first fault.
pub fn either_or()
    ensures { EitherOr }
{}

/// A script has no first fault.
pub fn not_both()
    ensures { NotBoth }
{}

/// A text is a script of one list of commands at most.
pub fn one_script()
    ensures { OneScript }
{}

/// A text has at most one first fault.
pub fn one_fault()
    ensures { OneFault }
{}
