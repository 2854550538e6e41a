//! Laws over the definitions.

ghost use Rattle.syn_command_files.specs.Worked.{WorkedLoads, WorkedLuts};

/// The definitions give the wanted commands and first faults of worked scripts and files of commands.
pub fn worked_loads()
    ensures { WorkedLoads }
{}

/// The definitions give the wanted numbers of inputs, areas and faults of worked files of LUTs.
pub fn worked_luts()
    ensures { WorkedLuts }
{}
