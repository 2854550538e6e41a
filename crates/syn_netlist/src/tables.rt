//! Tables by numbers of names.

ghost use Rattle.std.specs.Prelude.{◌≡◌, length, true};
ghost use Rattle.syn_netlist.specs.Kept.{polarity_fits, rows_fit};

use crate::words::Word;
use syn_lists::Items;

/// A table by numbers of names: the output has the value of the cover that the rows list.
#[derive(Debug, Drop)]
pub struct Table {
    /// The numbers of the names that it reads, in order; one may stand twice.
    pub inputs: Items<u32>,
    /// The number of the name that it defines.
    pub output: u32,
    /// The rows, each of one character `0`, `1` or `-` for each input, in the order of the inputs.
    pub rows: Items<Word>,
    /// Whether the rows list where the output is true; true where there are no rows.
    pub on: bool,
    // Each row fits the inputs, and no rows list the on-set.
    pub ghost rows_fit: { rows_fit (length inputs) rows ≡ true },
    pub ghost polarity: { polarity_fits rows on ≡ true },
}
