//! What a commit frees and what it stores: the laws on dying rows, on the value of the root, on a seat's view and on lists of events. It computes nothing.
#![tactic(auto)]

ghost use Rattle.syn_commit_laws.specs.Counted.{CountedRowsDie};
ghost use Rattle.syn_commit_laws.specs.Gains.{DoneTellsGain, NewGatesAreStored, StoredRowsSpare};
ghost use Rattle.syn_commit_laws.specs.Origins.{NewRowsReferToOrigins};
ghost use Rattle.syn_commit_laws.specs.Redefining.{MetLeavesAreFew, RedefinesKeepValue};
ghost use Rattle.syn_commit_laws.specs.Worked.{WorkedRedefine};
ghost use Rattle.syn_commit_laws.specs.Laws.{CommitsFree, CommittedRowsAreFreed, CountsLoad, DifferencesTell, DyingAreDoomed, DyingAreExplained, DyingRowsAreFreed, EarlyTells, EventsTurn, FindingBegins, FindingEnds, FindingGoesOn, FreedTellGain, FreeNodesLive, FreesAddNone, RedefinesAddOne, FreeingBegins, FreeingEnds, FreeingGoesOn, GatesFall, GivenUpTells, GivingUpBegins, GivingUpGoesOn, ListsTell, LoadsTell, NewRowsSpare, NodesStay, OthersStay, RedefinesAppend, RootsAreOut, RunsTurn, TellingBegins, TellingGoesOn};

/// The dying rows are those whose counts dead rows explain; new rows refer to none of them.
pub fn dying_rows()
    ensures explained { DyingAreExplained }
    ensures spared { NewRowsSpare }
{}

/// The dying rows are found as a list.
pub fn found_rows()
    ensures begins { FindingBegins }
    ensures goes_on { FindingGoesOn }
    ensures ends { FindingEnds }
{}

/// The rows that a decision counts as dying are the dying rows of the view.
pub fn counted_rows_die()
    ensures { CountedRowsDie }
{}

/// Loads of counts tell which nodes are the seat's alone, and the dying rows are.
pub fn loaded_counts()
    ensures one { CountsLoad }
    ensures loads { LoadsTell }
    ensures doomed { DyingAreDoomed }
    ensures live { FreeNodesLive }
{}

/// What changes do to a seat's difference.
pub fn differences()
    ensures begins { TellingBegins }
    ensures goes_on { TellingGoesOn }
    ensures tells { DifferencesTell }
    ensures lists { ListsTell }
    ensures redefines { RedefinesAppend }
    ensures free { FreesAddNone }
    ensures redefine { RedefinesAddOne }
{}

/// What holds from the loads of counts to the last free, and what follows at the end.
pub fn freeing()
    ensures begins { FreeingBegins }
    ensures goes_on { FreeingGoesOn }
    ensures ends { FreeingEnds }
    ensures gain { FreedTellGain }
    ensures lists { CommitsFree }
{}

/// Known gates are the measure of freeing.
pub fn gates_fall()
    ensures { GatesFall }
{}

/// A commit that gives up frees late rows alone.
pub fn giving_up()
    ensures begins { GivingUpBegins }
    ensures goes_on { GivingUpGoesOn }
    ensures tells { GivenUpTells }
    ensures early { EarlyTells }
    ensures roots { RootsAreOut }
{}

/// What a sound core adds to the view of a seat.
pub fn sound_views()
    ensures events { EventsTurn }
    ensures others { OthersStay }
    ensures nodes { NodesStay }
    ensures runs { RunsTurn }
{}

/// The dying rows are freed, whatever other seats do meanwhile.
pub fn dying_rows_are_freed()
    ensures stores { DyingRowsAreFreed }
    ensures whole { CommittedRowsAreFreed }
{}

/// The row that a commit gives its root has the value of the old one, over the leaves that its walk met.
pub fn redefines_keep_value()
    ensures value { RedefinesKeepValue }
    ensures few { MetLeavesAreFew }
{}

/// New rows refer to used leaves, to hits and to earlier new gates.
pub fn new_rows_refer_to_origins()
    ensures { NewRowsReferToOrigins }
{}

/// What the answer `Done` tells, and what the new gates become: each is a made row or the root's, and they refer to nothing
/// that dies.
pub fn new_gates()
    ensures gain { DoneTellsGain }
    ensures stored { NewGatesAreStored }
    ensures spare { StoredRowsSpare }
{}

/// The definitions, tried on a worked redefine.
pub fn worked_redefine()
    ensures { WorkedRedefine }
{}
