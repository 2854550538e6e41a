//! The literals that a plan's indexes become.

ghost use Rattle.std.specs.Prelude.{◌≡◌, slice_index_or};
ghost use Rattle.syn_rows.specs.Joining.{constant};
ghost use Rattle.syn_gain.specs.Placing as spec;

use syn_plan::PLit;
use syn_rows::{FALSE, Lit};

/// The literal that a plan's literal becomes, where its indexes became these.
pub fn literal_for(literals: &[Lit], l: PLit) -> Lit
    ensures { result ≡ spec.literal_for literals.now l }
{
    let plain = literal_at(literals, l.index() as usize);
    if l.complemented() { plain.not() } else { plain }
}

/// The literal of an index, the constant past the end.
pub fn literal_at(literals: &[Lit], index: usize) -> Lit
    ensures { result ≡ slice_index_or literals.now index constant }
{
    if index < literals.len() {
        literals[index]
    } else {
        FALSE
    }
}
