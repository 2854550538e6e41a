//! How deep each signal is, and how deep it may become. Nothing is promised of this.

use crate::luts::lut_of;
use crate::references::References;
use std::alloc::{AllocError, Global};
use syn_lutnet::{Lut, LutNet, signal_depths};
use syn_sat::{at, put};

/// Depths of signals. A LUT's inputs are less deep than it, and may become less deep than it may.
#[derive(Debug, Drop)]
pub(crate) struct Slack {
    sources: u32,
    depths: Vec<u32>,
    // How deep each may become.
    most: Vec<u32>,
    // Signals of which one of the two has changed.
    stack: Vec<u32>,
}

// The greatest of some depths.
fn greatest(depths: &[u32]) -> u32 {
    let mut most = 0;
    for depth in depths {
        if *depth > most {
            most = *depth;
        }
    }
    most
}

impl Slack {
    /// The depths of a net's signals, of which none may become deeper. The only error of this call and of those below is want
    /// of memory.
    pub(crate) fn none(alloc: Global, net: &LutNet) -> Result<Slack, AllocError> {
        let luts = net.luts.as_slice();
        Ok(Slack {
            sources: net.source_count,
            depths: signal_depths(alloc, net.source_count, luts)?,
            most: signal_depths(alloc, net.source_count, luts)?,
            stack: Vec::new(alloc),
        })
    }

    /// The same, where each may become as deep as it can while the net does not.
    pub(crate) fn all(alloc: Global, net: &LutNet) -> Result<Slack, AllocError> {
        let mut slack = Slack::none(alloc, net)?;
        let most = greatest(slack.depths.as_slice());
        for i in 0..slack.most.len() {
            put(slack.most.as_mut_slice(), i, most);
        }
        let luts = net.luts.as_slice();
        for i in (0..luts.len()).rev() {
            let place = i
                .saturating_add(net.source_count as usize)
                .saturating_add(1);
            let below = at(slack.most.as_slice(), place, 0).saturating_sub(1);
            for input in luts[i].inputs.as_slice() {
                slack.limit(*input, below);
            }
        }
        Ok(slack)
    }

    #[inline]
    fn depth(&self, signal: u32) -> u32 {
        at(self.depths.as_slice(), signal as usize, u32::MAX)
    }

    #[inline]
    fn most(&self, signal: u32) -> u32 {
        at(self.most.as_slice(), signal as usize, 0)
    }

    /// Whether a signal may become an input of a LUT behind it.
    #[inline]
    pub(crate) fn fits(&self, input: u32, signal: u32) -> bool {
        input < signal && self.depth(input) < self.most(signal)
    }

    // A signal may become no deeper than this: whether it might before.
    fn limit(&mut self, signal: u32, most: u32) -> bool {
        let is_less = most < self.most(signal);
        if is_less {
            put(self.most.as_mut_slice(), signal as usize, most);
        }
        is_less
    }

    // A signal is at least as deep as this: whether it wasn't before.
    fn raise(&mut self, signal: u32, least: u32) -> bool {
        let is_more = least > self.depth(signal);
        if is_more {
            put(self.depths.as_mut_slice(), signal as usize, least);
        }
        is_more
    }

    // The inputs of a LUT may become less deep than it may, those of its inputs too, and so on.
    fn limit_below(&mut self, luts: &[Lut], signal: u32) -> Result<(), AllocError> {
        self.stack.clear();
        self.stack.push(signal)?;
        for _ in 0..u64::MAX {
            let Some(top) = self.stack.pop() else {
                break;
            };
            let Some(lut) = lut_of(luts, self.sources, top) else {
                continue;
            };
            let below = self.most(top).saturating_sub(1);
            for input in lut.inputs.as_slice() {
                if self.limit(*input, below) {
                    self.stack.push(*input)?;
                }
            }
        }
        Ok(())
    }

    // The LUTs that read a signal are deeper than it.
    fn raise_readers(&mut self, references: &References, signal: u32) -> Result<(), AllocError> {
        let above = self.depth(signal).saturating_add(1);
        let mut edge = references.first_edge(signal);
        for _ in 0..u32::MAX {
            let reader = references.reader(edge);
            if reader as usize >= self.depths.len() {
                break;
            }
            if reader > signal && self.raise(reader, above) {
                self.stack.push(reader)?;
            }
            edge = references.next_edge(edge);
        }
        Ok(())
    }

    // The LUTs above a signal are deeper than it, those above these too, and so on.
    fn raise_above(&mut self, references: &References, signal: u32) -> Result<(), AllocError> {
        self.stack.clear();
        self.stack.push(signal)?;
        for _ in 0..u64::MAX {
            let Some(top) = self.stack.pop() else {
                break;
            };
            self.raise_readers(references, top)?;
        }
        Ok(())
    }

    /// A LUT has other inputs, which fit.
    pub(crate) fn replace(
        &mut self,
        luts: &[Lut],
        references: &References,
        signal: u32,
    ) -> Result<(), AllocError> {
        let mut is_deeper = false;
        if let Some(lut) = lut_of(luts, self.sources, signal) {
            for input in lut.inputs.as_slice() {
                let least = self.depth(*input).saturating_add(1);
                is_deeper |= self.raise(signal, least);
            }
        }
        if is_deeper {
            self.raise_above(references, signal)?;
        }
        self.limit_below(luts, signal)
    }
}
