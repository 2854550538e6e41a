//! Variables that are read and not defined.

ghost use Rattle.std.specs.Prelude.{◌≡◌, flat_map, map, find};
ghost use Rattle.syn_aiger_files.specs.Files.{next_of, variable_of};
ghost use Rattle.syn_aiger.specs.Placing.{is_undefined};
ghost use Rattle.syn_aiger.specs.Values.{first_undefined, right_sides};

use crate::file_numbers::Numbered;

// The first undefined variable that a latch loads.
fn undefined_next(file: &Numbered) -> Option<u32>
    ensures { result ≡ find (is_undefined file.now.aig) (map variable_of (map next_of file.now.aig.latches)) }
{
    for latch in file.aig.latches.as_slice() {
        if !file.is_defined(latch.next) {
            return Some(latch.next / 2);
        }
    }
    None
}

// The first undefined variable of an output.
fn undefined_output(file: &Numbered) -> Option<u32>
    ensures { result ≡ find (is_undefined file.now.aig) (map variable_of file.now.aig.outputs) }
{
    for l in file.aig.outputs.as_slice() {
        if !file.is_defined(*l) {
            return Some(*l / 2);
        }
    }
    None
}

// The first undefined variable that an AND reads.
fn undefined_side(file: &Numbered) -> Option<u32>
    ensures { result ≡ find (is_undefined file.now.aig) (map variable_of (flat_map right_sides file.now.aig.ands)) }
{
    for a in file.aig.ands.as_slice() {
        if !file.is_defined(a.first) {
            return Some(a.first / 2);
        }
        if !file.is_defined(a.second) {
            return Some(a.second / 2);
        }
    }
    None
}

/// The first variable that is read and not defined.
pub fn first_undefined(file: &Numbered) -> Option<u32>
    ensures { result ≡ first_undefined file.now.aig }
{
    if let Some(v) = undefined_next(file) {
        return Some(v);
    }
    if let Some(v) = undefined_output(file) {
        return Some(v);
    }
    undefined_side(file)
}
