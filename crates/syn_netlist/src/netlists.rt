//! Netlists by numbers of names.

ghost use Rattle.std.specs.Prelude.{◌≡◌, ◌++◌, length, map, true};
ghost use Rattle.syn_netlist.specs.Frames.{frame_in};
ghost use Rattle.syn_netlist.specs.Lists.{output_of, sources};
ghost use Rattle.syn_netlist.specs.Tables.{table_in, tables_below};
ghost use Rattle.syn_netlist.specs.Words.{distinct};

use crate::frames::Frame;
use crate::marks::first_unmarked;
use crate::tables::Table;
use crate::undriven_names::defined_marks;
use std::alloc::{AllocError, Global};
use syn_lists::Items;

/// A netlist of one model by numbers of names: no name is defined twice, apart from an input that is a clock too.
#[derive(Debug, Drop)]
pub struct Netlist {
    /// The names, and all that isn't a table.
    pub frame: Frame,
    /// The tables in order; their numbers are of the frame's names.
    pub tables: Items<Table>,
    // The tables' numbers are below the count of names; no name is defined twice, apart from an input that is a clock too.
    pub ghost tables_below: { tables_below (length frame.names) tables ≡ true },
    pub ghost once: { distinct (sources (frame_in frame) ++ map output_of (map (table_in frame.names) tables)) ≡ true },
}

impl Netlist {
    ghost use Rattle.std.specs.Prelude.{◌≡◌, ◌<◌, IfOk, IfSome, length, option_map, true};
    ghost use Rattle.syn_netlist.specs.Faults.{first_undefined};
    ghost use Rattle.syn_netlist.specs.Numbers.{all_below, word_at, words_at};
    ghost use Rattle.syn_netlist.specs.Views.{netlist_in};

    /// The first of these numbers whose name the netlist doesn't define. The only error is want of memory.
    pub fn first_undefined(&self, alloc: Global, numbers: &[u32]) -> Result<Option<u32>, AllocError>
        requires { all_below (length self.now.frame.names) numbers.now ≡ true }
        ensures first { IfOk result (λ r. first_undefined (netlist_in self.now) (words_at self.now.frame.names numbers.now) ≡ option_map (word_at self.now.frame.names) r) }
        ensures below { IfOk result (λ r. IfSome r (λ i. i < length self.now.frame.names)) }
    {
        let sources = self.frame.sources(alloc)?;
        let marks = defined_marks(
            alloc,
            self.frame.names.len(),
            sources,
            self.tables.as_slice(),
        )?;
        Ok(first_unmarked(marks.as_slice(), numbers))
    }
}
