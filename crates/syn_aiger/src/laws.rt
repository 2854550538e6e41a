//! Laws of files and of the networks that they spell.

ghost use Rattle.syn_aiger.specs.Laws.{AigOfIsNormal, AigOfKeeps, AigOfLeavesTypes, EitherOr, GraphHasLists, NotBoth, OneAig, OneFault, OrderHasNoCircle, PrintedSpells, SpelledDefinesOnce, WrittenReadsBack};

/// Bytes spell one file at most.
pub fn one_aig()
    ensures { OneAig }
{}

/// Bytes spell a file within the limits, or have a first fault.
pub fn either_or()
    ensures { EitherOr }
{}

/// Bytes have one first fault at most.
pub fn one_fault()
    ensures { OneFault }
{}

/// What spells a file within the limits has no first fault.
pub fn not_both()
    ensures { NotBoth }
{}

/// A spelled file defines no variable twice.
pub fn spelled_defines_once()
    ensures { SpelledDefinesOnce }
{}

/// Where each AND of a spelled file reads only variables of sources and of ANDs above it, no ANDs read each other in a circle.
pub fn order_has_no_circle()
    ensures { OrderHasNoCircle }
{}

/// What is printed of a file that can be written spells it, in both formats.
pub fn printed_spells()
    ensures { PrintedSpells }
{}

/// The file of a network with so few nodes and outputs, whose written names are words, can be written.
pub fn aig_of_is_normal()
    ensures { AigOfIsNormal }
{}

/// The file of a network without types of latches, whose written names are words, keeps what the network means.
pub fn aig_of_keeps()
    ensures { AigOfKeeps }
{}

/// The file of a network whose written names are words keeps what the network means without the types of its latches.
pub fn aig_of_leaves_types()
    ensures { AigOfLeavesTypes }
{}

/// A graph of a file has the file's lists by place.
pub fn graph_has_lists()
    ensures { GraphHasLists }
{}

/// A graph of what is written is the network read again: clocks behind inputs, 3 for 2.
pub fn written_reads_back()
    ensures { WrittenReadsBack }
{}
