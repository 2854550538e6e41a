//! Marks by number.

ghost use Rattle.std.specs.Prelude.{◌≡◌, ◌<◌, [], IfOk, IfSome, find, length, true};
ghost use Rattle.syn_netlist.specs.Marks.{AreMarks};
ghost use Rattle.syn_netlist.specs.Numbers.{all_below};
ghost use Rattle.syn_netlist.specs.Walk.{is_unmarked};

use std::alloc::{AllocError, Global};

/// Marks for so many numbers, none of them set.
pub(crate) fn no_marks(alloc: Global, count: u32) -> Result<Vec<bool>, AllocError>
    ensures length { IfOk result (λ v. length v.items ≡ count) }
    ensures marks { IfOk result (λ v. AreMarks [] v.items) }
{
    vec![in alloc; false; count as usize]
}

// Marks these numbers alone, in marks of which none is set.
fn mark(marks: &mut [bool], numbers: &[u32])
    requires below { all_below (length marks.old) numbers.now ≡ true }
    requires none { AreMarks [] marks.old }
    ensures length { length marks.new ≡ length marks.old }
    ensures marks { AreMarks numbers.now marks.new }
{
    for n in numbers {
        marks[*n as usize] = true;
    }
}

/// Marks for so many numbers, of which these alone are set: all are below the count. The only error is want of memory.
pub fn marks_of(alloc: Global, count: u32, numbers: &[u32]) -> Result<Vec<bool>, AllocError>
    requires { all_below count numbers.now ≡ true }
    ensures length { IfOk result (λ v. length v.items ≡ count) }
    ensures marks { IfOk result (λ v. AreMarks numbers.now v.items) }
{
    let mut marks = no_marks(alloc, count)?;
    mark(marks.as_mut_slice(), numbers);
    Ok(marks)
}

/// The first of the numbers that isn't marked.
pub fn first_unmarked(marks: &[bool], numbers: &[u32]) -> Option<u32>
    requires { all_below (length marks.now) numbers.now ≡ true }
    ensures found { result ≡ find (is_unmarked marks.now) numbers.now }
    ensures below { IfSome result (λ i. i < length marks.now) }
{
    for n in numbers {
        if !marks[*n as usize] {
            return Some(*n);
        }
    }
    None
}
