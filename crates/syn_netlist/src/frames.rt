//! What a netlist has beside its tables, by numbers of names.

ghost use Rattle.std.specs.Prelude.{◌≡◌, length, true};
ghost use Rattle.syn_netlist.specs.Kept.{frame_of, latches_below, no_nil_control};
ghost use Rattle.syn_netlist.specs.Lists.{sources};
ghost use Rattle.syn_netlist.specs.Numbers.{all_below, words_at};
ghost use Rattle.syn_netlist.specs.Words.{distinct, is_word};

use crate::Latch;
use crate::name_numbers::Names;
use crate::signals::{observed_numbers, source_numbers};
use crate::words::Word;
use std::alloc::{AllocError, Global};
use syn_lists::Items;

/// What a netlist has beside its tables, by numbers of names.
#[derive(Debug, Drop)]
pub struct Frame {
    /// The names, of which the other fields hold the numbers.
    pub names: Names,
    /// The name of the model.
    pub model: Word,
    /// The inputs in order.
    pub inputs: Items<u32>,
    /// The clocks in order; one of them may be an input too.
    pub clocks: Items<u32>,
    /// The outputs in order; one may stand twice.
    pub outputs: Items<u32>,
    /// The latches in order.
    pub latches: Items<Latch>,
    // The model's name is a word; all numbers are below the count of names; no control is named `NIL`; no name is defined twice, apart from an input that is a clock too.
    pub ghost model_is_word: { is_word model ≡ true },
    pub ghost inputs_below: { all_below (length names) inputs ≡ true },
    pub ghost clocks_below: { all_below (length names) clocks ≡ true },
    pub ghost outputs_below: { all_below (length names) outputs ≡ true },
    pub ghost latches_below: { latches_below (length names) latches ≡ true },
    pub ghost controls: { no_nil_control names latches ≡ true },
    pub ghost clocks_once: { distinct (words_at names clocks) ≡ true },
    pub ghost sources_once: { distinct (sources (frame_of names model inputs clocks outputs latches)) ≡ true },
}

impl Frame {
    ghost use Rattle.std.specs.Prelude.{◌≡◌, IfOk, length, true};
    ghost use Rattle.syn_netlist.specs.Frames.{frame_in};
    ghost use Rattle.syn_netlist.specs.Lists.{observed, sources};
    ghost use Rattle.syn_netlist.specs.Numbers.{all_below, words_at};

    /// The numbers of the sources in order: inputs, clocks that are no inputs, latch outputs. Each source stands once.
    pub fn sources(&self, alloc: Global) -> Result<Vec<u32>, AllocError>
        ensures words { IfOk result (λ v. words_at self.now.names v.items ≡ sources (frame_in self.now)) }
        ensures below { IfOk result (λ v. all_below (length self.now.names) v.items ≡ true) }
    {
        let inputs = self.inputs.as_slice();
        let clocks = self.clocks.as_slice();
        source_numbers(
            alloc,
            self.names.len(),
            inputs,
            clocks,
            self.latches.as_slice(),
        )
    }

    /// The numbers of the observed signals: outputs, then what each latch reads, each name once.
    pub fn observed(&self, alloc: Global) -> Result<Vec<u32>, AllocError>
        ensures words { IfOk result (λ v. words_at self.now.names v.items ≡ observed (frame_in self.now)) }
        ensures below { IfOk result (λ v. all_below (length self.now.names) v.items ≡ true) }
    {
        let outputs = self.outputs.as_slice();
        observed_numbers(alloc, self.names.len(), outputs, self.latches.as_slice())
    }
}
