//! What holds of all decisions.

ghost use Rattle.syn_decide.specs.Laws.{EmptyReads, DyingAreLeast, NothingBehindAnAnswer, OneReadMore};
ghost use Rattle.syn_decide.specs.Walked.{AlwaysLinked, AlwaysWalked, CountedAreFirst, RowsAlwaysFit};
ghost use Rattle.syn_decide.specs.Fitting.{AlwaysFitting, HitsAlwaysInside};
ghost use Rattle.syn_decide.specs.Hitting.{HitsLeaveEarlierGates, OpenGatesAsk};
ghost use Rattle.syn_decide.specs.Worked.{Further, NextLoads, NoStep, Worked};

/// Before the first read the root's row comes next.
pub fn empty_reads()
    ensures { EmptyReads }
{}

/// One read more is one more step.
pub fn one_read_more()
    ensures more { OneReadMore }
    ensures behind { NothingBehindAnAnswer }
{}

/// The definition, tried on worked reads.
pub fn worked_reads()
    ensures answers { Worked }
    ensures loads { NextLoads }
    ensures unfit { NoStep }
    ensures further { Further }
{}

/// The rows that die with the root's are the least set that the rule closes.
pub fn dying_are_least()
    ensures { DyingAreLeast }
{}

/// After any reads the inner rows are of different nodes, and their fan-ins are accounted for.
pub fn always_walked()
    ensures { AlwaysWalked }
{}

/// After any reads the root's row is the first, and inner rows refer to the other nodes of the walk and to those that wait.
pub fn always_linked()
    ensures { AlwaysLinked }
{}

/// Along rows in no circle, each row that is asked for fits.
pub fn rows_always_fit()
    ensures { RowsAlwaysFit }
{}

/// A hit leaves the gates before its own as they are, and the row of a gate for which a hint may be tried is asked for.
pub fn hits_in_order()
    ensures earlier { HitsLeaveEarlierGates }
    ensures asked { OpenGatesAsk }
{}

/// The counted rows are the first of the inner rows.
pub fn counted_are_first()
    ensures { CountedAreFirst }
{}

/// From the first key on the plan fits the inner rows, and hits are neither node 0 nor leaves.
pub fn always_fitting()
    ensures fitting { AlwaysFitting }
    ensures hits { HitsAlwaysInside }
{}
