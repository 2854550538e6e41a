//! The comparison of two networks.

ghost use Rattle.std.specs.Prelude.{◌≡◌, ◌<◌, ◌^◌, length, slice_index_or, true, IfErr, IfOk, OnOk};
ghost use Rattle.syn_netlist.specs.Frames.{frame_in};
ghost use Rattle.syn_netlist.specs.Numbers.{all_below, word_at, words_at};
ghost use Rattle.syn_network.specs.Written.{network_of};
ghost use Rattle.syn_compare.specs.Comparing.{Compares, compared};
ghost use Rattle.syn_compare.specs.Matching.{AreMatched, IsFault};
ghost use Rattle.syn_compare.specs.Telling.{IsInside, IsTold};

use crate::matching::{latch_numbers, matched, word_of};
use crate::ordering::ordered;
use crate::{CompareFault, Comparison};
use std::alloc::{AllocError, Global};
use syn_cec::Equality;
use syn_netlist::{Frame, Word};
use syn_network::Network;

// The numbers of the names by which signals are compared.
fn compared_numbers(alloc: Global, frame: &Frame) -> Result<Vec<u32>, AllocError>
    ensures words { IfOk result (λ v. words_at frame.now.names v.items ≡ compared (frame_in frame.now)) }
    ensures below { IfOk result (λ v. all_below (length frame.now.names) v.items ≡ true) }
{
    let mut numbers = frame.outputs.as_slice().to_vec(alloc)?;
    let latches = latch_numbers(alloc, frame)?;
    numbers.extend_from_slice(latches.as_slice())?;
    Ok(numbers)
}

// The number at a place.
fn number_at(numbers: &[u32], place: usize) -> u32
    requires { place < length numbers.now }
    ensures { result ≡ slice_index_or numbers.now place 0 }
{
    numbers[place]
}

// The name by which the signal at a place is compared.
fn name_of(alloc: Global, frame: &Frame, signal: usize) -> Result<Word, AllocError>
    requires { signal < length (compared (frame_in frame.now)) }
    ensures { IfOk result (λ word. word ≡ word_at (compared (frame_in frame.now)) signal) }
{
    let numbers = compared_numbers(alloc, frame)?;
    let number = number_at(numbers.as_slice(), signal);
    word_of(alloc, &frame.names, number)
}

// How many signals are compared.
fn count_of(frame: &Frame) -> usize
    ensures { result ≡ length (compared (frame_in frame.now)) }
{
    frame.outputs.as_slice().len() + frame.latches.as_slice().len()
}

// What a comparison of graphs says of the signals that they observe.
fn told(alloc: Global, frame: &Frame, equality: Equality) -> Result<Comparison, AllocError>
    requires { IsInside (length (compared (frame_in frame.now))) equality }
    ensures { IfOk result (IsTold (compared (frame_in frame.now)) equality) }
{
    match equality {
        Equality::Equivalent => Ok(Comparison::Equivalent),
        Equality::Different { signal, values } => {
            let signal = name_of(alloc, frame, signal)?;
            Ok(Comparison::Different { signal, values })
        }
        Equality::Undecided { signals } => {
            let of = count_of(frame);
            Ok(Comparison::Undecided { signals, of })
        }
    }
}

// How two networks compare whose frames are matched.
fn compared(
    alloc: Global,
    first: &Network,
    second: &Network,
    conflicts: u32,
) -> Result<Comparison, AllocError>
    requires matched { AreMatched (frame_in first.now.frame) (frame_in second.now.frame) }
    requires few { length (compared (frame_in first.now.frame)) < 2 ^ 31 }
    ensures { IfOk result (Compares (network_of first.now) (network_of second.now)) }
{
    let one = ordered(alloc, &first.frame, first)?;
    let other = ordered(alloc, &first.frame, second)?;
    let equality = syn_cec::equal(alloc, &one, &other, conflicts)?;
    told(alloc, &first.frame, equality)
}

/// How two networks compare that have the same names of inputs and clocks, of outputs and of latches, in any order: whether
/// the outputs, and what each latch loads, have the same values for all values of the inputs and of the latches. Initial
/// values, kinds and controls of latches are not compared. Networks of at most 12 sources are never undecided, unless they have
/// 2^31 signals; others are compared by at most so many conflicts for each question of a sweep, and a hundred times as many
/// for each signal.
pub fn compare(
    alloc: Global,
    first: &Network,
    second: &Network,
    conflicts: u32,
) -> Result<Comparison, CompareFault>
    ensures ok { IfOk result (Compares (network_of first.now) (network_of second.now)) }
    ensures matched { OnOk result (AreMatched (frame_in first.now.frame) (frame_in second.now.frame)) }
    ensures err { IfErr result (IsFault (frame_in first.now.frame) (frame_in second.now.frame)) }
{
    matched(alloc, &first.frame, &second.frame)?;
    let of = count_of(&first.frame);
    if of < 1 << 31 {
        Ok(compared(alloc, first, second, conflicts)?)
    } else {
        Ok(Comparison::Undecided { signals: of, of })
    }
}
